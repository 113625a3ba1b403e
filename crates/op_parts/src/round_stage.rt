use catch_up::CatchUp;

/// What a round does next with the member whose turn it is.
#[derive(Debug, Drop)]
pub enum Stage {
    /// It appends the row, for the first time.
    First,
    /// The member told a count below the row's height, and is brought forward to it.
    CatchUp { catch_up: CatchUp },
    /// The member has come to the row's height. The row is appended again.
    Again,
    /// The round has ended.
    Ended,
}
