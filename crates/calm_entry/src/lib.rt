//! What operations on entries answer over a calm service. The crate has laws alone, as `calm` has: functions that do nothing,
//! whose contracts say what follows from what.
//!
//! A `CalmRun` (in `specs/`) is an operation of `op_entry` with its calls over a calm service: the store is honest and the link
//! loses nothing in them, and its chain of views has the first of the service's.
//!
//! - [`calm_services_take_entries`]: an append answers as the heights say, and the service is calm afterwards.
//! - [`calm_services_make_ledgers`]: a ledger is made where there is room for it, or stands already.
//! - [`calm_services_give_entries`]: an entry is read where it stands.
//! - [`calm_runs_know_views`]: the chain has the first of the views however far the operation has come, and all of them at its
//!   end.
//! - [`calm_settlings_gather_all`]: the settling of the next row of a ledger ends with a receipt by all members, unless their maps are
//!   full.
//!
//! Want of memory is no part of a law: where it ended a call nothing is said of what comes.

#![tactic(auto)]

mod run_laws;
mod settling_laws;

pub use run_laws::{
    calm_runs_know_views, calm_services_give_entries, calm_services_make_ledgers,
    calm_services_take_entries,
};
pub use settling_laws::calm_settlings_gather_all;
