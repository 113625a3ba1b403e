use thiserror::Error;

/// Why a row couldn't be set.
#[derive(Clone, Copy, Debug, PartialEq, Eq, Error)]
pub enum MapFault {
    /// The handle is absent and 4,096 rows stand.
    #[error("the map is full")]
    Full,
    #[error("out of memory")]
    NoMemory,
}
