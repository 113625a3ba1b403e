//! The clients of a run, by name.
//!
//! - [`Clients`] keeps a [`ClientPass`](client_pass::ClientPass) for each client, in the order in which the clients came, and
//!   finds a client by its name.
//! - [`passes_are_apart`] is the law that what a client does changes nothing of the others.

#![tactic(auto)]

mod client;
mod clients;
mod laws;
mod places;

pub use clients::Clients;
pub use laws::passes_are_apart;
