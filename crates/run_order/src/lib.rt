//! The record of a run, out of its clients and its bank of endorsers.
//!
//! A run of one thread keeps the list of the calls that its endorsers were asked, and the turns of its clients, each with the number of
//! the calls that had been served before it. From both follows in which order all of them acted.
//!
//! - [`record_of_run`] gives each call that an endorser served, and each line of a client, its place in that order as its stamp, and
//!   answers the record. Its one error is want of memory.

#![tactic(auto)]

mod order;
mod recording;

pub use recording::record_of_run;
