//! Brings a row that a store has to a receipt: of the row itself, or of one above it with the metablocks between them.
//!
//! - [`Settle`] makes one call of the store or the link a step.
//! - [`SettleProgress`] says after each step how it stands.
//!
//! The row is appended to all members of a chain's newest view. Where the marks are a quorum, they make a receipt, which is
//! attached to the row. Else, where a member has come further, the rows above are got, up to the first that has an accepted
//! receipt. Where none has, the newest of them is appended in the same way.
//!
//! What a settling has done is the list of its calls, the newest first; its invariant says what they were. [`settling_calls_are_own`]
//! and [`refusals_are_shown`] say what follows for each call and each refusal.

#![tactic(auto)]

mod laws;
mod marks;
mod progress;
mod settle;
mod stage;
mod top;
mod turn;

pub use laws::{refusals_are_shown, settling_calls_are_own};
pub use progress::SettleProgress;
pub use settle::Settle;
