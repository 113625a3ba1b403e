//! What a client does with what a service answered.
//!
//! A client takes a reply by the chain of views that it knows. Where a receipt is over a view that it doesn't know, it first asks the
//! coordinator for the views above its newest one and takes each; where that is refused, the check of the reply says so.
//!
//! - [`learn`] is that asking. [`take_own`], [`take_latest`] and [`take_at`] take a reply to an append, to a read of the newest row and
//!   to a read at a height, and [`look`] takes what is said to stand where the own entry was to stand.

#![tactic(auto)]

mod learning;
mod taking;

pub use learning::learn;
pub use taking::{look, take_at, take_latest, take_own};
