//! What an endorser keeps of its ledgers: for each handle the tail and the number of entries.
//!
//! - [`TailMap`] is an ordered map of such rows, at most 4,096 of them, with its bytes and its digest.
//! - [`TailRow`] is one row.
//! - [`MapFault`] says why a row couldn't be set, and [`FormFault`] why bytes couldn't be read.
//!
//! What takes memory answers `NoMemory` where there is none, and what has no such answer takes none.

#![tactic(auto)]

mod laws;
mod map_fault;
mod reading;
mod tail_map;
mod tail_row;

pub use laws::{one_form, one_row_changes};
pub use map_fault::MapFault;
pub use nim_base::FormFault;
pub use tail_map::TailMap;
pub use tail_row::TailRow;
