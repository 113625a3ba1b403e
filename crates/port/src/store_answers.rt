use crate::stored::Stored;

/// What a store answers to a put.
#[derive(Clone, Copy, Debug, PartialEq, Eq)]
pub enum Put {
    /// The body stands at the key.
    Done,
    /// Another one stood there, and stays.
    Taken,
    Failed,
    NoMemory,
}

/// What a store answers to a get.
#[derive(Debug, Drop)]
pub enum Got {
    Some(Stored),
    /// Nothing stands at the key.
    None,
    Failed,
    NoMemory,
}

/// What a store answers to an attach.
#[derive(Clone, Copy, Debug, PartialEq, Eq)]
pub enum Attached {
    /// The bytes stand beside the body, in place of those before.
    Done,
    /// Nothing stands at the key.
    Absent,
    Failed,
    NoMemory,
}
