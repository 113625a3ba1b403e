//! What a client checks before it believes a service.
//!
//! - [`Verifier`] holds a client's chain of views and checker, and judges replies: to an append, to a read at
//!   a height and to a latest read.
//! - [`ReplyFault`] says why a reply isn't accepted.
//!
//! [`outcomes_mean`] says what it means that a check finds no fault, and [`fronts_judge_alike`] how a client with fewer views judges
//! the same reply, where no two views have one tail; [`shared_tails_collide`] says what two such views show.
//!
//! A yes rests on nothing that the service says but what members of a view signed.

#![tactic(auto)]

mod client;
mod faults;
mod laws;
mod reply_fault;
mod rows;

pub use client::Verifier;
pub use laws::{fronts_judge_alike, outcomes_mean, shared_tails_collide};
pub use reply_fault::ReplyFault;
