//! Endorsers together with the lists of the calls that they were asked, each with the stamp of a clock.
//!
//! - [`EndorserCell`] holds an endorser, its lines and the pass that draws their stamps. One call is one stamp
//!   and one line, also where the endorser refuses.
//! - [`CellBank`] is a link to the cells that it holds. It loses calls as it was asked to, and keeps the list of all
//!   calls with their numbers and answers.

#![tactic(auto)]

mod asking;
mod bank_line;
mod cell_bank;
mod endorser_cell;
mod line_answer;
mod losses;
mod places;

pub use bank_line::BankLine;
pub use cell_bank::CellBank;
pub use endorser_cell::EndorserCell;
pub use losses::{Loss, Losses};
