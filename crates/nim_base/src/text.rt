ghost use Rattle.std.specs.Prelude.{◌≡◌, ◌-◌, ◌<◌, ◌≤◌, ◌++◌, [], length, IfOk, OnOk, OnErr};

use crate::no_memory::NoMemory;
use std::alloc::Global;
use std::marker::Model;

/// Bytes that grow at their end, with room for more of them that is set aside beforehand.
#[derive(Debug, Drop)]
pub struct Text {
    bytes: Vec<u8>,
    room: usize,
}

impl Model for Text {
    ghost use Rattle.std.specs.Prelude.{◌+◌, ◌≤◌, vec_len, vec_capacity};
    ghost use Rattle.nim_base.specs.Text.{Content};

    ghost Value = { Content };

    ghost view = { λ text. record { bytes = text.bytes.items; room = text.room } };

    ghost invariant = { λ text. vec_len text.bytes + text.room ≤ vec_capacity text.bytes };
}

impl Text {
    /// A copy of the bytes, with no room.
    pub fn of(alloc: Global, bytes: &[u8]) -> Result<Text, NoMemory>
        ensures copied { IfOk result (λ text. text.bytes ≡ bytes.now) }
        ensures room { IfOk result (λ text. text.room ≡ 0) }
    {
        Ok(Text {
            bytes: Vec::from_slice(alloc, bytes)?,
            room: 0,
        })
    }

    /// No bytes, with room for this many.
    pub fn with_room(alloc: Global, room: usize) -> Result<Text, NoMemory>
        ensures empty { IfOk result (λ text. text.bytes ≡ []) }
        ensures room { IfOk result (λ text. text.room ≡ room) }
    {
        Ok(Text {
            bytes: Vec::with_capacity(alloc, room)?,
            room,
        })
    }

    /// The bytes.
    pub fn bytes(&self) -> &[u8]
        ensures { result.now ≡ self.now.bytes }
    {
        self.bytes.as_slice()
    }

    /// Adds bytes at the end. They use up room first, and take memory where it is too small.
    pub fn push(&mut self, bytes: &[u8]) -> Result<(), NoMemory>
        ensures ok { OnOk result (self.new.bytes ≡ self.old.bytes ++ bytes.now) }
        ensures room { OnOk result (self.new.room ≡ self.old.room - length bytes.now) }
        ensures err { OnErr result (self.new ≡ self.old) }
        ensures full { OnErr result (self.old.room < length bytes.now) }
    {
        self.bytes.extend_from_slice(bytes)?;
        self.room = self.room.saturating_sub(bytes.len());
        Ok(())
    }

    /// Adds bytes at the end for which there is room. It takes no memory.
    pub fn fill(&mut self, bytes: &[u8])
        requires { length bytes.now ≤ self.old.room }
        ensures bytes { self.new.bytes ≡ self.old.bytes ++ bytes.now }
        ensures room { self.new.room ≡ self.old.room - length bytes.now }
    {
        self.bytes.extend_from_slice(bytes).unwrap();
        self.room -= bytes.len();
    }
}
