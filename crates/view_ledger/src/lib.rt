//! The views of a service, one after the other, and the receipts that their members give.
//!
//! - [`ViewChain`] is the views from view 0 to the newest. It takes a next view only where the newest one
//!   ended for it, and tells whether a receipt is accepted under one of its views.
//! - [`weight`] is what the member with an id weighs in a config, and [`weight_of_marks`] what those with some marks do together.
//! - [`ViewFault`] says why a view is no next one, and [`ReceiptFault`] why a receipt isn't accepted.
//!
//! A checker that is handed in tells which signatures are accepted, and a roster that is handed in who is
//! genuine. What takes memory answers `NoMemory` where there is none, and what has no such answer takes
//! none.

#![tactic(auto)]

mod finals;
mod kept;
mod marks;
mod receipt_fault;
mod view;
mod view_chain;
mod view_fault;

pub use marks::{weight, weight_of_marks};
pub use receipt_fault::ReceiptFault;
pub use view_chain::ViewChain;
pub use view_fault::ViewFault;
