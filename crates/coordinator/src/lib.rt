//! A service over a store and the links to its endorsers.
//!
//! - [`Coordinator`] holds a chain of views, a store, a link and a checker, and serves each call of a client by a whole
//!   operation; [`Coordinator::genesis`] sets up its view 0. Others may call its store and link between its calls, and run
//!   an operation by hand over both.
//!
//! Each call's contract names the calls that it made to the store and the link, the newest first and no other, says that
//! they are its own, how the chain of views grew by them, and what they say of the answer. [`refusals_are_shown`],
//! [`store_faults_are_counted`] and [`gaps_stand`] say what follows for each refusal. Where nothing goes wrong,
//! [`calm_coordinators_answer`] says what each call is answered, [`calm_coordinators_go_on`] that the coordinator is calm again, also
//! after a restart, and [`calm_coordinators_begin`] how it begins.

#![tactic(auto)]

mod calm_laws;
mod coordinator;
mod ended;
mod entries;
mod first;
mod latest;
mod laws;
mod stepping;
mod views;
mod views_got;

pub use calm_laws::{calm_coordinators_answer, calm_coordinators_begin, calm_coordinators_go_on};
pub use coordinator::Coordinator;
pub use laws::{gaps_stand, refusals_are_shown, store_faults_are_counted};
