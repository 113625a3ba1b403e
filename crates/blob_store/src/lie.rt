use port::Key;

/// How a store is to lie.
#[derive(Clone, Copy, Debug, PartialEq, Eq)]
pub enum Lie {
    /// Gets of the key answer that nothing stands there.
    Hide { key: Key },
    /// Gets of the key are given what stands at another one, nothing where nothing stands there.
    Stale { key: Key, from: Key },
    /// A put where something stands at the key replaces it, with nothing attached, and answers `Done`.
    Fork { key: Key },
}
