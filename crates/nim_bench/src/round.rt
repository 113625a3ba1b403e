use nim_base::NoMemory;
use std::alloc::AllocError;
use std::io;
use std::time::Duration;

/// How much of each is done.
#[derive(Clone, Copy, PartialEq, Eq)]
pub enum Size {
    /// So little that it takes no time; counts are printed.
    Small,
    /// So much that starting the threads doesn't count; rates are printed.
    Long,
}

/// What was done, on all threads together.
#[derive(Clone, Copy)]
pub struct Round {
    pub calls: u64,
    /// The sum of what the calls answered, modulo 2^64.
    pub sum: u64,
    pub time: Duration,
}

impl Round {
    /// Calls in a second.
    fn rate(&self) -> u128 {
        let nanoseconds = self.time.as_nanos().max(1);
        u128::from(self.calls).saturating_mul(1_000_000_000) / nanoseconds
    }
}

pub fn no_memory(_: NoMemory) -> io::Error {
    io::Error::from(AllocError)
}

/// Prints one line: a part's round, with what it was made of and how many, beside that of its floor.
pub fn show<R: Print>(
    rt: &R,
    size: Size,
    (of, number): (&str, u64),
    (part, work): (&str, &Round),
    (floor, least): (&str, &Round),
) -> io::Result<()> {
    match size {
        Size::Small => println!(rt;
            "{part}, {of} {number}: {} calls with the sum {}; {floor}: {} with the sum {}",
            work.calls, work.sum, least.calls, least.sum
        ),
        Size::Long => {
            let hundredths = work.time.as_nanos().saturating_mul(100)
                / least.time.as_nanos().max(1);
            println!(rt;
                "{part}, {of} {number}: {} a second; {floor}: {} a second; {}.{:02} times as long",
                work.rate(),
                least.rate(),
                hundredths / 100,
                hundredths % 100
            )
        }
    }
}
