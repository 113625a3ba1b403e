//! The endorsers of a run behind one link, by their places in the roster.
//!
//! - [`RosterBank`] is a bank of endorsers, as [`CellBank`](endorser_cell::CellBank), whose type says who they are. It tells at which place
//!   of the roster the endorser stands that served a call, and gives the call list of each in the end.
//! - [`RunName`] names a run: its clock, its roster, and what is accepted in it.

#![tactic(auto)]

mod laws;
mod lists;
mod roster_bank;
mod run_name;
mod served;

pub use laws::{places_are_of_served_calls, places_grow};
pub use roster_bank::RosterBank;
pub use run_name::RunName;
