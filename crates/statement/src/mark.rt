ghost use Rattle.std.specs.Prelude.{◌≡◌, IfOk};

use nim_base::{NoMemory, Text};
use std::alloc::Global;
use std::marker::Model;

/// A member's signature under its id. In a receipt a signature has from 1 to
/// [`MAX_SIGNATURE`](crate::MAX_SIGNATURE) bytes.
#[derive(Debug, Drop)]
pub struct Mark {
    pub id: u32,
    pub sig: Text,
}

impl Model for Mark {
    ghost use Rattle.statement.specs.Mark.{Content};

    ghost Value = { Content };

    ghost view = { λ mark. record { id = mark.id; sig = mark.sig.bytes } };
}

impl Mark {
    /// The same mark in memory of its own.
    pub fn copy(&self, alloc: Global) -> Result<Mark, NoMemory>
        ensures { IfOk result (λ copy. copy ≡ self.now) }
    {
        Ok(Mark {
            id: self.id,
            sig: Text::of(alloc, self.sig.bytes())?,
        })
    }
}
