//! The language of scripts: what clients, endorsers and the store do in a run, line by line.
//!
//! - [`read`] gives the script that a text is, or its first bad line with the first cause
//!   ([`ScriptFault`], [`BadCause`]).
//! - [`Script`] is lines that read so. It gives its lines, tells whether it is plain, and is written
//!   as text again.
//! - [`Line`] is a line, and [`Act`] what a line asks of the service.
//! - [`push_word`], [`push_number`], [`push_payload`] and [`push_ids`] write words as lines have them.
//!
//! The repository's page `docs/FORMATS.md` has the language.

#![tactic(auto)]

pub mod act;
pub mod bad_cause;
mod counts;
mod form;
mod labels;
pub mod line;
mod line_fault;
mod line_reading;
mod operations;
mod reader;
mod reading;
pub mod script;
pub mod script_fault;
mod spelling;
mod standing;
mod words;
mod writing;

pub use act::Act;
pub use bad_cause::BadCause;
pub use line::Line;
pub use reading::read;
pub use script::Script;
pub use script_fault::ScriptFault;
pub use spelling::{push_ids, push_number, push_payload, push_word};
