ghost use Rattle.std.specs.Prelude.{◌≡◌, IfOk};

use nim_base::{NoMemory, Text};
use std::alloc::Global;
use std::marker::Model;

/// What stands at a key: the body that was put there, and the bytes that were attached last.
#[derive(Debug, Drop)]
pub struct Stored {
    pub body: Text,
    pub attached: Option<Text>,
}

impl Model for Stored {
    ghost use Rattle.std.specs.Option.{option_map};
    ghost use Rattle.port.specs.Stored.{Stored};

    ghost Value = { Stored };

    ghost view = { λ stored. record { body = stored.body.bytes; attached = option_map (λ text. text.bytes) stored.attached } };
}

impl Stored {
    /// The same in memory of its own.
    pub fn copy(&self, alloc: Global) -> Result<Stored, NoMemory>
        ensures { IfOk result (λ copy. copy ≡ self.now) }
    {
        let attached = match &self.attached {
            None => None,
            Some(bytes) => Some(Text::of(alloc, bytes.bytes())?),
        };
        Ok(Stored {
            body: Text::of(alloc, self.body.bytes())?,
            attached,
        })
    }
}
