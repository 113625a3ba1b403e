use crate::set_up::SetUp;
use port::{Refusal, ViewRow};

/// What an operation does next.
#[derive(Drop)]
pub enum Stage {
    /// It puts view 0.
    Begin,
    /// It asks the members of the view, one after the other.
    Members { set_up: SetUp },
    /// It marks this view as complete.
    Mark { row: ViewRow },
    /// It has ended.
    Ended { answer: Result<ViewRow, Refusal> },
}
