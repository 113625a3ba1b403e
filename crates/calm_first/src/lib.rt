//! How a service begins calm.
//!
//! [`first_views_begin_calm`] says what a [`ReconfOp`](op_reconf::ReconfOp) answers that sets up view 0, over a store that is
//! honest and empty and a link that loses nothing, with members that weren't initialized: the view, and then the service is
//! calm; or want of memory.

#![tactic(auto)]

mod first_laws;

pub use first_laws::first_views_begin_calm;
