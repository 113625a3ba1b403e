//! The read of a ledger's newest entry over a store and the links to its endorsers, one outside call a step.
//!
//! - [`LatestOp`] reads a ledger's newest row, with a receipt over a nonce.
//!
//! What an operation has done is the list of its calls, the newest first; its invariant says what they were and what they
//! made of it, and `into_parts` hands out what they say of the answer. [`latest_calls_are_own`] and
//! [`latest_refusals_are_shown`] say what follows for each call and each refusal of a read.

#![tactic(auto)]

mod latest_arms;
mod latest_claim;
mod latest_head;
mod latest_laws;
mod latest_op;
mod latest_row;
mod latest_second;
mod latest_stage;
mod latest_steps;
mod latest_vote;
mod latest_votes;

pub use latest_laws::{latest_calls_are_own, latest_refusals_are_shown};
pub use latest_op::LatestOp;
