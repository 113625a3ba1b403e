//! `nimble replay` reads a script from standard input, runs it and writes its reply lines.
//!
//! An input travels through these modules in this order: [`run`] takes the words, [`replay`] the source and the sink,
//! [`input`] reads the bytes, and [`lines`] has the two lines that may stand in place of all reply lines. What the bytes say
//! is read by `fault_script`; the texts that a script rests on come from `world_run`, and `least_collision` looks through
//! them; the run itself, with its reply lines, is `world_run`'s. [`status`] has the statuses that a run ends with.
#![tactic(auto)]

pub mod input;
pub mod lines;
pub mod replay;
pub mod run;
pub mod status;
#[cfg(test)]
mod tests;

use crate::run::run;
use crate::status::Status;
use nim_base::{NoMemory, Text};
use nim_outside::{StreamSink, StreamSource};
use std::process::ExitCode;
use std::{env, io};

/// The words after the program's name. Where the system has words that aren't text there are none,
/// which is no command.
fn words_of(rt: &HostRuntime) -> Result<Vec<Text>, NoMemory> {
    let mut words = Vec::new(rt.alloc());
    match env::args(rt) {
        Ok(args) => {
            for word in args.skip(1) {
                words.push(Text::of(rt.alloc(), word.as_bytes())?)?;
            }
        }
        Err(error) if error.kind() == io::ErrorKind::OutOfMemory => return Err(NoMemory),
        Err(_) => {}
    }
    Ok(words)
}

fn main(rt: HostRuntime) -> ExitCode {
    let Status(status) = match words_of(&rt) {
        Ok(words) => {
            let mut source = StreamSource::new(rt.stdin());
            let mut sink = StreamSink::new(io::writer(&rt));
            run(&rt, rt.alloc(), &words, &mut source, &mut sink)
        }
        Err(NoMemory) => Status::NO_MEMORY,
    };
    ExitCode::from(status)
}
