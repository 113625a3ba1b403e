//! The endorser: the small trusted part of the service. For each ledger it keeps the tail and the number
//! of entries, and it signs what it keeps.
//!
//! - [`Endorser`] takes a call and answers it. Its state moves by one table, which `port` defines.

#![tactic(auto)]

mod appending;
mod belonging;
mod cell_answer;
mod cell_line;
mod endorser;
mod laws;
mod membership;
mod moves;
mod stepping;

pub use cell_answer::CellAnswer;
pub use cell_line::CellLine;
pub use endorser::Endorser;
pub use laws::{
    counts_never_fall, lines_go_on, one_tail_a_count, phases_never_go_back, what_is_signed_is_held,
};
