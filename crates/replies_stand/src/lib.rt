//! What a coordinator answers, a client accepts. The crate has laws: functions that do nothing, whose contracts say what follows
//! from what.
//!
//! - [`clients_accept_answers`]: a client with the coordinator's views and checker accepts each Ok, and what stands in the way of an
//!   append at its place.
//! - [`clients_behind_accept_answers`]: so does one that has only the first of these views, unless it doesn't know the view of the
//!   reply's statement: then it is told that, and can ask for the views that it lacks.
//! - [`clients_ahead_accept_answers`]: so does one that has further views.
//!
//! A client and a coordinator share what their checkers accept. Nothing is said of a client whose views are others.

#![tactic(auto)]

mod laws;

pub use laws::{
    clients_accept_answers, clients_ahead_accept_answers, clients_behind_accept_answers,
};
