ghost use Rattle.std.specs.Prelude.{◌≡◌, IfOk};

use nim_base::{Digest, NoMemory, Text};
use std::alloc::Global;
use std::marker::Model;

/// A member of an ended view signed that its map had this digest when the view ended.
#[derive(Debug, Drop)]
pub struct FinalMark {
    pub id: u32,
    pub map: Digest,
    pub sig: Text,
}

impl Model for FinalMark {
    ghost use Rattle.port.specs.View.{FinalMark};

    ghost Value = { FinalMark };

    ghost view = { λ mark. record { id = mark.id; map = mark.map; sig = mark.sig.bytes } };
}

impl FinalMark {
    /// The same mark in memory of its own.
    pub fn copy(&self, alloc: Global) -> Result<FinalMark, NoMemory>
        ensures { IfOk result (λ copy. copy ≡ self.now) }
    {
        Ok(FinalMark {
            id: self.id,
            map: self.map,
            sig: Text::of(alloc, self.sig.bytes())?,
        })
    }
}
