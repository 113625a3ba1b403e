//! What passes between a service's parts: rows and replies, views and what ends them, the calls of an endorser
//! with its answers, and the traits of the outside, [`Store`], [`Link`] and [`Service`].
//!
//! Each of these traits has one ghost member, `view`: the record of all that is known of an object (its counts, a
//! relation over numbers, calls and answers, and what the object tells of its inside, which is optional). Each call
//! has one clause, `StoreStep`, `LinkStep` or `ServiceStep`, over the view before and after. So a contract above names
//! one member where it would name many, and what an operation did is one list of such steps, the newest first, that
//! leads from the store and link at its entry to those at its end (`Ran` in `specs/Trace`). Whatever else is to be known
//! of an operation (its causes, its own calls, the rise of counts, what the store tells at the end) is a predicate over
//! that list or follows from it by the laws of this crate, [`calls_stand`] and those beside it. A list can't be made up:
//! a step's number stands in the relation only by making the call, and a call that is left out would be missing from the
//! count of calls.

#![tactic(auto)]

mod activation_proof;
mod chain;
mod endorser_answer;
mod endorser_call;
mod endorser_refusal;
mod final_map;
mod final_mark;
mod finals_form;
mod finals_reading;
mod key;
mod latest_reply;
mod laws;
mod link;
mod link_answer;
mod phase;
mod proof_cause;
mod reading;
mod reason;
mod refusal;
mod row;
mod row_reading;
mod service;
mod standing;
mod store;
mod store_answers;
mod stored;
mod trace;
mod view_form;
mod view_row;

pub use activation_proof::ActivationProof;
pub use chain::Chain;
pub use endorser_answer::EndorserAnswer;
pub use endorser_call::EndorserCall;
pub use endorser_refusal::EndorserRefusal;
pub use final_map::FinalMap;
pub use final_mark::FinalMark;
pub use finals_form::{read_finals, write_finals};
pub use key::Key;
pub use latest_reply::LatestReply;
pub use laws::{finals_have_own_bytes, rows_have_own_bytes, views_have_own_bytes};
pub use link::Link;
pub use link_answer::LinkAnswer;
pub use phase::Phase;
pub use proof_cause::ProofCause;
pub use reason::Reason;
pub use refusal::Refusal;
pub use row::Row;
pub use service::Service;
pub use standing::Standing;
pub use store::Store;
pub use store_answers::{Attached, Got, Put};
pub use stored::Stored;
pub use trace::{
    calls_stand, causes_count, endorsers_serve, links_are_faithful, stores_are_honest,
    stores_follow,
};
pub use view_form::{read_view, write_view};
pub use view_row::ViewRow;
