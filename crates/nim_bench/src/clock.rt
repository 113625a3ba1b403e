ghost use Rattle.std.specs.Prelude.{◌≡◌, ◌≤◌};

use crate::round::{Round, Size, no_memory, show};
use stamp_clock::{Clock, ClockName, ClockStart, NoMemory, Pass};
use std::alloc::Global;
use std::marker::Brand;
use std::rt::Clock as Timer;
use std::sync::atomic::{AtomicU64, Ordering};
use std::thread::Threads;
use std::time::Instant;
use std::{io, thread};

/// Stamps of one clock, drawn by 1, 2 and 4 threads, beside as many bare additions to one word.
pub fn measure<R: Threads + Timer + Print + Sync>(
    rt: &R,
    alloc: Global,
    size: Size,
) -> io::Result<()> {
    let each = match size {
        Size::Small => 1000,
        Size::Long => 10_000_000,
    };
    for threads in [1, 2, 4] {
        let stamps = stamps(rt, alloc, threads, each)?;
        let additions = additions(rt, alloc, threads, each)?;
        show(
            rt,
            size,
            ("threads", threads),
            ("stamps", &stamps),
            ("fetch_add", &additions),
        )?;
    }
    Ok(())
}

fn stamps<R: Threads + Timer + Sync>(
    rt: &R,
    alloc: Global,
    threads: u64,
    each: u64,
) -> io::Result<Round> {
    let start = ClockStart::new(alloc).map_err(no_memory)?;
    stamps_of::<Brand, R>(rt, alloc, start, threads, each)
}

/// A pass and how many stamps are to be drawn with it.
#[derive(Drop)]
struct Share<K: ClockName> {
    pass: Pass<K>,
    count: u64,
    ghost enough: { count ≤ pass.left },
}

/// A pass and the sum of the stamps that were drawn with it.
#[derive(Drop)]
struct Drawn<K: ClockName> {
    pass: Pass<K>,
    sum: u64,
}

fn stamps_of<K: ClockName + Send + Sync, R: Threads + Timer + Sync>(
    rt: &R,
    alloc: Global,
    start: ClockStart,
    threads: u64,
    each: u64,
) -> io::Result<Round>
    requires { start ≡ K.clock }
{
    let (clock, mut rest) = start.open::<K>();
    let mut shares = Vec::new(alloc);
    for _ in 0..threads {
        if each <= rest.left() {
            shares.push(take_share(&clock, &mut rest, each).map_err(no_memory)?)?;
        }
    }
    let begin = Instant::now(rt)?;
    let brought = thread::map_vec(rt, shares, &|share| draw(&clock, share))?;
    let time = begin.elapsed(rt)?;
    let mut sum = 0u64;
    for drawn in brought {
        sum = sum.wrapping_add(drawn.sum);
        clock.join(&mut rest, drawn.pass);
    }
    Ok(Round {
        calls: clock.close(rest),
        sum,
        time,
    })
}

fn take_share<K: ClockName>(
    clock: &Clock<K>,
    rest: &mut Pass<K>,
    count: u64,
) -> Result<Share<K>, NoMemory>
    requires { count ≤ rest.old.left }
{
    let pass = clock.split(rest, count)?;
    Ok(Share { pass, count })
}

fn draw<K: ClockName>(clock: &Clock<K>, share: Share<K>) -> Drawn<K> {
    let Share { mut pass, count } = share;
    let mut sum = 0u64;
    for _ in 0..count {
        sum = sum.wrapping_add(clock.stamp(&mut pass));
    }
    Drawn { pass, sum }
}

fn additions<R: Threads + Timer + Sync>(
    rt: &R,
    alloc: Global,
    threads: u64,
    each: u64,
) -> io::Result<Round> {
    let word = AtomicU64::new(0);
    let mut counts = Vec::new(alloc);
    for _ in 0..threads {
        counts.push(each)?;
    }
    let begin = Instant::now(rt)?;
    let brought = thread::map_vec(rt, counts, &|count| add(&word, count))?;
    let time = begin.elapsed(rt)?;
    let mut sum = 0u64;
    for part in brought {
        sum = sum.wrapping_add(part);
    }
    Ok(Round {
        calls: word.load(Ordering::SeqCst),
        sum,
        time,
    })
}

fn add(word: &AtomicU64, count: u64) -> u64 {
    let mut sum = 0u64;
    for _ in 0..count {
        sum = sum.wrapping_add(word.fetch_add(1, Ordering::SeqCst));
    }
    sum
}
