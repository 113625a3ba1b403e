//! The lines that a run prints, one for each line of its script that is answered.
//!
//! Each is bytes from 20 to 7E and a line feed: a word, and more words, one space before each. The repository's page
//! `docs/FORMATS.md` has them all.
//!
//! - [`view_line`], [`ok_line`], [`absent_line`] and [`conflict_line`] are what a client took, or the coordinator came to.
//! - [`bad_reply_line`] is a reply that the client refused, and [`refusal_line`] what the service refused, [`gap_line`] and
//!   [`reused_line`] among it.
//! - [`raw_line`] is what an endorser answered that was asked directly.
//! - [`no_reply_line`] and [`done_line`] are said where nothing was asked.

#![tactic(auto)]

mod causes;
mod lines;
mod names;

pub use causes::{gap_line, payload_of, refusal_line, reused_line};
pub use lines::{
    absent_line, bad_reply_line, conflict_line, done_line, no_reply_line, ok_line, raw_line,
    view_line,
};
