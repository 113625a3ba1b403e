ghost use Rattle.std.specs.Prelude.{◌≡◌, ◌+◌, ◌≤◌, ◌∷◌, [], ◌++◌, length};

use std::marker::Model;

/// The most bytes that a statement has.
pub const MAX_STATEMENT: usize = 121;

/// The bytes of a statement, at most [`MAX_STATEMENT`] of them. They stand in place and take no memory.
#[derive(Debug, Drop)]
pub struct StatementBytes {
    bytes: [u8; MAX_STATEMENT],
    size: usize,
}

impl Model for StatementBytes {
    ghost use Rattle.std.specs.Prelude.{List, ℕ, take, ◌≤◌};

    ghost Value = { List ℕ };

    ghost view = { λ filled. take filled.size filled.bytes };

    ghost invariant = { λ filled. filled.size ≤ 121 };
}

impl StatementBytes {
    /// The one byte of a kind, to which the fields are added.
    pub(crate) fn of_kind(kind: u8) -> StatementBytes
        ensures { result ≡ kind ∷ [] }
    {
        let mut bytes = [0; MAX_STATEMENT];
        bytes[0] = kind;
        StatementBytes { bytes, size: 1 }
    }

    /// Adds a field at the end.
    pub(crate) fn put(&mut self, field: &[u8])
        requires { length self.old + length field.now ≤ 121 }
        ensures { self.new ≡ self.old ++ field.now }
    {
        let end = self.size + field.len();
        self.bytes[self.size..end].copy_from_slice(field);
        self.size = end;
    }

    /// The bytes.
    pub fn as_slice(&self) -> &[u8]
        ensures { result.now ≡ self.now }
    {
        &self.bytes[..self.size]
    }
}
