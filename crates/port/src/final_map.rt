ghost use Rattle.std.specs.Prelude.{◌≡◌, IfOk};

use nim_base::{NoMemory, Text};
use std::alloc::Global;
use std::marker::Model;
use tail_map::TailMap;

/// A member of an ended view, the map that it held when the view ended, and its signature over that.
#[derive(Debug, Drop)]
pub struct FinalMap {
    pub id: u32,
    pub map: TailMap,
    pub sig: Text,
}

impl Model for FinalMap {
    ghost use Rattle.port.specs.View.{FinalMap};

    ghost Value = { FinalMap };

    ghost view = { λ ended. record { id = ended.id; map = ended.map.rows; sig = ended.sig.bytes } };
}

impl FinalMap {
    /// The same in memory of its own.
    pub fn copy(&self, alloc: Global) -> Result<FinalMap, NoMemory>
        ensures { IfOk result (λ copy. copy ≡ self.now) }
    {
        Ok(FinalMap {
            id: self.id,
            map: self.map.copy(alloc)?,
            sig: Text::of(alloc, self.sig.bytes())?,
        })
    }
}
