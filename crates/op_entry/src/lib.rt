//! The operations of a service over a store and the links to its endorsers, one outside call a step.
//!
//! - [`NewOp`] makes a ledger with a first entry, [`AppendOp`] puts an entry above the newest one of its ledger, and [`AtOp`]
//!   reads the entry of a ledger at a height.
//! - [`LatestOp`], a read of a ledger's newest row, is that of `op_latest`.
//!
//! What an operation has done is the list of its calls, the newest first. Its invariant takes what was asked and the chain of views
//! with which it began as arguments; each step makes one call more, and `into_parts` says what follows for the answer.
//! [`entry_calls_are_own`] says which calls those are, and [`entry_refusals_are_shown`] that they show the cause of a refusal.

#![tactic(auto)]

mod append_op;
mod at_op;
mod calls;
mod entry_laws;
mod finding;
mod found;
mod new_op;
mod operation;
mod own_row;
mod settling;
mod stage;
mod turn;
mod wanted;

pub use append_op::AppendOp;
pub use at_op::AtOp;
pub use entry_laws::{entry_calls_are_own, entry_refusals_are_shown};
pub use new_op::NewOp;
pub use op_latest::LatestOp;
