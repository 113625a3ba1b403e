//! How a service comes to a view: [`ReconfOp`] sets up its first one, one outside call a step.
//!
//! What an operation has done is the list of its calls, the newest first; its invariant (`Sound` in `specs/Sound`) says
//! what they were and what they made of it. [`first_calls_are_own`] says which calls it makes, and
//! [`first_refusals_are_shown`] that each refusal is shown by them.

#![tactic(auto)]

mod first_view;
mod laws;
mod reconf_op;
mod set_up;
mod stage;
mod verdict;

pub use laws::{first_calls_are_own, first_refusals_are_shown};
pub use reconf_op::ReconfOp;
