//! Brings one member of a view forward: rows that it doesn't have yet are got from the store and appended, height by
//! height, from the count that it told up to the wanted one.
//!
//! - [`CatchUp`] makes one call of the store or the link a step.
//! - [`Progress`] says after each step how it stands.

#![tactic(auto)]

mod catch_up;
mod laws;
mod progress;
mod stage;
mod turn;

pub use catch_up::CatchUp;
pub use laws::{answers_are_shown, calls_are_own, counts_are_told_on};
pub use progress::Progress;
