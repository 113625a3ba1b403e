//! What a client is given for an answer of the coordinator, and the line that says what it took.
//!
//! - [`ask_own`] asks for a new ledger or an append, by its entry.
//! - [`give_own`], [`give_at`] and [`give_latest`] give a client the answer to that, to a read at a height and to a read of a newest row.
//!   Each gives the line that is printed, with its line feed. A refusal is printed as it is, but for a conflict, at which the client looks.

#![tactic(auto)]

mod ask;
mod giving;

pub use ask::ask_own;
pub use giving::{give_at, give_latest, give_own};
