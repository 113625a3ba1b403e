use nim_base::Digest;

/// A member of a config: its id, and the digest that names its key.
#[derive(Clone, Copy, Debug, PartialEq, Eq)]
pub struct Member {
    pub id: u32,
    pub key: Digest,
}
