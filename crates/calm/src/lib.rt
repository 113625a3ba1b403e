//! What a calm service is, and what the parts of an operation answer then. The crate has laws: functions that do nothing,
//! whose contracts say what follows from what; [`tail_of_entries`] and [`next_block`] make a ledger's rows by a plain program.
//!
//! A service is calm (`IsCalm` in `specs/Calm`) where all its views stand in the store, marked as complete and with what
//! ended those below, and all rows of its ledgers, each with an accepted receipt, and nothing above them; and the members
//! of the newest view are all active with one map, which has just these ledgers, and have so many stamps and signatures
//! left. A store that is honest and a link that loses nothing are given by the lists of calls (`AreHonest` and
//! `AreFaithful` of `port`); [`calls_are_split`] takes such a list apart.
//!
//! - [`refreshes_find_all_views`] and [`whole_refreshes_find_all_views`]: a refresh isn't refused, and where it ends its
//!   chain has all views.
//! - [`active_members_answer`]: one member signs the next row of a ledger, or says that its map is full, or signs the newest.
//! - [`rounds_gather_all_marks`] and [`rounds_find_full_maps`]: so do all members in a round, one by one and as a whole.
//! - [`reads_are_signed_alike`]: members that are asked for the newest entry of a ledger sign one tail and count.
//! - [`standing_rows_are_given`], [`standing_views_are_given`] and [`walks_end_at_standing_rows`]: what the store answers,
//!   and where a walk ends.
//! - [`ledgers_are_lists`]: what a ledger's entries say of its rows and its tail.
//! - [`calm_members_are_ready`] and [`calm_services_go_on`]: the members of a calm service can be asked, and it is calm
//!   again afterwards. [`calm_services_append`] and [`calm_services_read`] put this together.
//! - [`first_members_begin`] and [`new_services_are_calm`]: view 0 begins so that the service is calm.
//!
//! Want of memory is no part of a law: where it ended a call nothing is said of what comes.

#![tactic(auto)]

mod answer_laws;
mod calm_calls;
mod calm_laws;
mod first_laws;
mod ledger_laws;
mod read_laws;
mod refresh_laws;
mod round_laws;
mod rows;
mod store_laws;
mod trace_laws;
mod view_laws;

pub use answer_laws::active_members_answer;
pub use calm_calls::{calm_services_append, calm_services_read};
pub use calm_laws::{calm_members_are_ready, calm_services_go_on, new_services_are_calm};
pub use first_laws::first_members_begin;
pub use ledger_laws::ledgers_are_lists;
pub use read_laws::reads_are_signed_alike;
pub use refresh_laws::{refreshes_find_all_views, whole_refreshes_find_all_views};
pub use round_laws::{rounds_find_full_maps, rounds_gather_all_marks};
pub use rows::{next_block, tail_of_entries};
pub use store_laws::{standing_rows_are_given, walks_end_at_standing_rows};
pub use trace_laws::calls_are_split;
pub use view_laws::{standing_views_are_given, views_that_follow_extend};
