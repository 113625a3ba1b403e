//! A client's side of a run, kept as it happened: what it drew, what it was replied, and what its checks said.
//!
//! - [`ClientPass`] draws nonces, checks replies and views by its verifier, and keeps a line of each with a
//!   stamp of the clock. [`ClientLine`] is such a line and [`ClientAct`] what happened.
//! - [`TakeFault`] says why a reply or a view wasn't accepted, or that nothing was noted.
//! - [`Record`] is the record of a whole run: the call lists of its endorsers and the lines of its clients.

#![tactic(auto)]

mod answer;
mod checks;
mod client_act;
mod client_line;
mod client_pass;
mod laws;
mod lines;
mod record;
mod take_fault;

pub use client_act::ClientAct;
pub use client_line::ClientLine;
pub use client_pass::ClientPass;
pub use laws::draws_stay;
pub use record::Record;
pub use take_fault::TakeFault;
