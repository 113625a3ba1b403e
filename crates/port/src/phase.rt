/// How far an endorser has come. It never goes back.
#[derive(Clone, Copy, Debug, PartialEq, Eq)]
pub enum Phase {
    /// It has no view yet.
    Uninitialized,
    /// It has a view and a map, and waits for the proof that the view below has ended.
    Initialized,
    /// It appends and signs.
    Active,
    /// It has ended its view, and signs nothing more in it.
    Finalized,
}
