//! A clock of stamps that threads share: each number is drawn once.
//!
//! - [`ClockStart`] is a clock before it is opened under a name, [`Clock`] the clock, [`ClockName`] its name.
//! - [`Pass`] is the leave to draw stamps of one clock. It knows which stamps it drew and how many it has
//!   left. Passes are split off for threads, and joined again when these are done.
//!
//! Stamps are the numbers from 0 up. A clock gives 2^63 of them at most, and its first pass has them all
//! left. A pass holds no list when the program runs: what it drew is known to contracts alone, so no stamp
//! takes memory.
//!
//! A clock is one word of memory. What holds of it and of all its passes between any two steps is the
//! record `IsKept`: each number below the word stands once in the lists of all passes together, and no
//! other number in any; the lists have as many numbers as the word says; the word and what all passes have
//! left are 2^63 together. Each step on the word keeps this, whichever threads make it. A pass that is let
//! go stays counted: what it drew isn't drawn again, and what it had left is lost.

#![tactic(auto)]

mod clock;
mod clock_name;
mod clock_start;
mod laws;
mod pass;
mod steps;

pub use clock::Clock;
pub use clock_name::ClockName;
pub use clock_start::ClockStart;
pub use laws::{counts_add_up, crosses_threads, passes_share_no_number};
pub use nim_base::NoMemory;
pub use pass::Pass;
