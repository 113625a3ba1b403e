//! A script is run: its clients ask, its endorsers sign, its store lies, and all that was done stands in one record.
//!
//! - [`replay`] runs a script over the stand-ins for attested keys, puts the line of each script line that has one, and gives the record.
//!   [`replay_with`] does it with any signers and checkers. Only want of memory and a failing sink end a run ([`WorldFault`]); what the
//!   service refuses is a line like any other.
//! - [`Seals`] gives the signers and checkers of a run by the endorsers' ids, and the texts that lead to their keys. [`MacSeals`] is the
//!   stand-in for attested keys.
//! - [`set_up_texts`] gives the texts whose digests a run rests on before it begins, and [`nonce`] the nonce of a number.
//!
//! What a run is stands in `Runs` of `script_runs`, line by line: each makes of the coordinator, its store, its endorsers and the clients
//! what its kind does, and prints a line or none. `specs/Replayed` ties both ends to it: nothing was asked of any endorser when the run
//! began, the run belongs to its script (`Belongs` of `script_runs`), and the record has just the calls that the endorsers served and the
//! acts of the clients at its end. Each line of a kind that says something (`says_line`) prints one line, and the others none.
//!
//! A map from labels to lists of payloads and a list of views are all that the plain replies rest on: there is no service, no
//! endorser and no store. So what a service prints for a plain script can be held against it.
//!
//! - [`plain_replies`] gives the reply lines of a plain script. It reads all earlier lines for each line, and is meant for
//!   comparing.
//!
//! A run of a plain script prints just that. Two laws say so, line by line: [`plain_runs_begin`] of the first line, and
//! [`plain_lines_get_plain_replies`] of each request, restart, end and new client. What ties a run to what is known of it is `IsTied`
//! in `specs/Tied`: a calm coordinator over a store that tells no lie, one view that all clients know, and ledgers with just the known
//! payloads. That rests on no collision among the texts of the run (`IsRunnable` in `specs/PlainRun`).

#![tactic(auto)]

mod beginning;
mod client_lines;
mod fault_lines;
mod known;
mod mac_seals;
mod operation_lines;
mod plain;
mod plain_laws;
mod plain_scripts;
mod raw_lines;
mod recorded;
mod replaying;
mod roster;
mod run_line;
mod running;
mod seals;
mod set_up;
mod world_fault;

pub use mac_seals::MacSeals;
pub use plain::plain_replies;
pub use plain_laws::{plain_lines_get_plain_replies, plain_runs_begin};
pub use replaying::{replay, replay_with};
pub use script_world::nonce;
pub use seals::Seals;
pub use set_up::set_up_texts;
pub use world_fault::WorldFault;
