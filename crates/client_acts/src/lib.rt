//! The clients of a run, and in which order they acted among the calls of its endorsers.
//!
//! - [`ClientActs`] holds the clients by their names. Whatever a client does is noted as a [`Turn`], so that its lines can be put in
//!   order with what others did.

#![tactic(auto)]

mod client_acts;
mod laws;
mod turn;

pub use client_acts::ClientActs;
pub use laws::clients_stay_on;
pub use turn::Turn;
