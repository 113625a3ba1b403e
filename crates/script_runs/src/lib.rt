//! What the runs of scripts owe to their scripts.
//!
//! `specs/Runs` says what each line of a script makes of a run and what it prints, one line after the other. The functions here
//! do nothing: the contract of each is a law that follows from it for every script, whatever is lost, whatever the store lies
//! about and whichever operations cross.
//!
//! - [`replies_are_accepted`]: each reply of the coordinator is accepted by the client that it is given to, and a reply is refused
//!   only where a line gives a client another one; all know view 0 alone.
//! - [`entries_were_drawn`], [`appends_are_one`] and [`other_calls_are_own`]: which calls the endorsers serve.
//! - [`events_are_in_order`]: the events of a line come after those of the lines before it, so that its stamps are consecutive.
//! - [`marks_were_signed`]: the marks of the replies that clients check are signatures that endorsers of the run gave before.
//! - [`losses_were_asked_for`] and [`store_faults_were_asked_for`]: no more losses of an endorser's calls and no more failures of the
//!   store are told than lines asked for by then.
//! - [`runs_belong_to_scripts`]: all of these at once, as `specs/Belongs` has them, of a script and of its
//!   first lines.

#![tactic(auto)]

mod accepted_replies;
mod asked_for;
mod belonging;
mod event_order;
mod own_calls;
mod signed_marks;

pub use accepted_replies::replies_are_accepted;
pub use asked_for::{losses_were_asked_for, store_faults_were_asked_for};
pub use belonging::runs_belong_to_scripts;
pub use event_order::events_are_in_order;
pub use own_calls::{appends_are_one, entries_were_drawn, other_calls_are_own};
pub use signed_marks::marks_were_signed;
