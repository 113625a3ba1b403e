ghost use Rattle.std.specs.Prelude.{◌≡◌, IfOk};

use crate::final_mark::FinalMark;
use nim_base::NoMemory;
use statement::{Config, ViewBlock};
use std::alloc::Global;
use std::marker::Model;

/// A view of a service, and the marks of members of the view below that ended it. View 0 has none.
#[derive(Debug, Drop)]
pub struct ViewRow {
    pub block: ViewBlock,
    pub config: Config,
    pub finals: Vec<FinalMark>,
}

impl Model for ViewRow {
    ghost use Rattle.port.specs.View.{ViewRow};

    ghost Value = { ViewRow };

    ghost view = { λ row. record { block = row.block; config = row.config; finals = row.finals.items } };
}

impl ViewRow {
    /// The same view in memory of its own.
    pub fn copy(&self, alloc: Global) -> Result<ViewRow, NoMemory>
        ensures { IfOk result (λ copy. copy ≡ self.now) }
    {
        Ok(ViewRow {
            block: self.block,
            config: self.config.copy(alloc)?,
            finals: copy_marks(alloc, self.finals.as_slice())?,
        })
    }
}

fn copy_marks(alloc: Global, marks: &[FinalMark]) -> Result<Vec<FinalMark>, NoMemory>
    ensures { IfOk result (λ copies. copies.items ≡ marks.now) }
{
    let mut copies = Vec::with_capacity(alloc, marks.len())?;
    for mark in marks {
        copies.push(mark.copy(alloc)?)?;
    }
    Ok(copies)
}
