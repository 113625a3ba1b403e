//! Measures the parts, each beside its floor: the operation of std or of the kit that it can't do without,
//! as often and on as many threads, timed in the same run.
//!
//! Without words it makes one small round of each and prints its counts, which are the same in each run.
//! With the word `figures` it makes a long round of each and prints how many calls there were in a second.

#![tactic(auto)]

mod checks;
mod clock;
mod endorser;
mod operations;
mod round;
mod scripts;
mod stores;

use crate::round::Size;
use std::{env, io};

fn size(rt: &HostRuntime) -> io::Result<Size> {
    match env::args(rt)?.nth(1) {
        Some(word) if word.as_str() == "figures" => Ok(Size::Long),
        _ => Ok(Size::Small),
    }
}

fn main(rt: HostRuntime) -> io::Result<()> {
    let size = size(&rt)?;
    clock::measure(&rt, rt.alloc(), size)?;
    endorser::measure(&rt, rt.alloc(), size)?;
    checks::measure(&rt, rt.alloc(), size)?;
    operations::measure(&rt, rt.alloc(), size)?;
    stores::measure(&rt, rt.alloc(), size)?;
    scripts::measure(&rt, rt.alloc(), size)
}
