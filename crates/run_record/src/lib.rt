//! The record of a run of one thread, out of the lists that its actors kept.
//!
//! Each endorser and each client kept a list of what it did, in order, with stamps that were drawn from
//! passes of their own. The run kept who acted, in one order over all.
//!
//! - [`Actor`] is who acted in one event: an endorser that served a call, or a client that drew or checked.
//! - [`record_of`] gives each line the place of its event in that order as its stamp, from 0, and answers the
//!   record. Its one error is want of memory.
//! - [`orders_grow`] is how the lists go on with the order, event by event.

#![tactic(auto)]

mod actor;
mod laws;
mod stamping;

pub use actor::Actor;
pub use laws::orders_grow;
pub use stamping::record_of;
