use thiserror::Error;

/// Why a line is bad. Of the causes that apply to a line the first one in this order is told; `End` is
/// told of a script whose lines are all good.
#[derive(Clone, Copy, Debug, PartialEq, Eq, Error)]
pub enum BadCause {
    /// The text has more than 1,048,576 bytes, or more than 65,536 lines.
    #[error("long")]
    Long,
    /// A byte is outside 20 to 7E (hexadecimal).
    #[error("char")]
    Char,
    /// The first line doesn't begin with `genesis`, a later one does, or the line follows `end`.
    #[error("order")]
    Order,
    /// No line begins so: the first word, the second one after `lose`, `store` or `raw`, or the third
    /// one after `begin` is missing or is none of those that may stand there.
    #[error("word")]
    Word,
    /// The line has another number of words.
    #[error("count")]
    Count,
    /// A word is no name.
    #[error("name")]
    Name,
    /// A word is no number, or one out of its limits.
    #[error("number")]
    Number,
    /// A word is no list of ids.
    #[error("ids")]
    Ids,
    /// A word is no payload.
    #[error("payload")]
    Payload,
    /// The line makes a label that an earlier line has.
    #[error("label")]
    Label,
    /// The line begins an operation that was begun, or needs another standing of its operation.
    #[error("op")]
    Op,
    /// The line is the 257th `new`, the 25th `reconfigure` or the 25th `raw finalize`.
    #[error("many")]
    Many,
    /// The script ends without `end`.
    #[error("end")]
    End,
}
