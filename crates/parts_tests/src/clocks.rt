ghost use Rattle.std.specs.Prelude.{◌≡◌};

use stamp_clock::{Clock, ClockName, ClockStart, NoMemory, Pass};
use std::alloc::Global;
use std::marker::Brand;
use std::sync::{Mutex, Wait};
use std::test::Fail;
use std::thread;
use std::thread::Threads;

/// Each call once, with the stamps and what is left worked out by hand.
fn one_by_one<K: ClockName>(start: ClockStart) -> Result<([u64; 4], [u64; 4], u64), NoMemory>
    requires { start ≡ K.clock }
{
    let (clock, mut first) = start.open::<K>();
    let all = first.left();
    let zero = clock.stamp(&mut first);
    let mut second = clock.split(&mut first, 10)?;
    let one = clock.stamp(&mut second);
    let two = clock.stamp(&mut first);
    let three = clock.stamp(&mut second);
    let lefts = (first.left(), second.left());
    clock.join(&mut first, second);
    let joined = first.left();
    let count = clock.close(first);
    Ok((
        [zero, one, two, three],
        [all, lefts.0, lefts.1, joined],
        count,
    ))
}

#[test]
fn stamps_are_drawn_one_by_one(rt: HostRuntime) -> Result<(), Fail> {
    let start = ClockStart::new(rt.alloc())?;
    let (stamps, lefts, count) = one_by_one::<Brand>(start)?;
    assert_eq!(rt; stamps, [0, 1, 2, 3]);
    let all = 9_223_372_036_854_775_808;
    assert_eq!(rt; lefts, [all, all - 12, 8, all - 4]);
    assert_eq!(rt; count, 4);
    Ok(())
}

/// What one thread brings back.
#[derive(Drop)]
struct Drawn<K: ClockName> {
    stamps: Vec<u64>,
    pass: Pass<K>,
}

/// Draws as many stamps with its own pass as with one that all threads share under a lock.
fn draw_each<K: ClockName, R: Wait>(
    rt: &R,
    alloc: Global,
    clock: &Clock<K>,
    shared: &Mutex<Pass<K>>,
    mut pass: Pass<K>,
    rounds: u64,
) -> Result<Drawn<K>, NoMemory> {
    let mut stamps = Vec::new(alloc);
    for _ in 0..rounds {
        if pass.left() > 0 {
            stamps.push(clock.stamp(&mut pass))?;
        }
        let mut common = shared.lock(rt);
        if common.left() > 0 {
            stamps.push(clock.stamp(&mut common))?;
        }
    }
    Ok(Drawn { stamps, pass })
}

const THREADS: u64 = 4;

const ROUNDS: u64 = 1000;

/// The stamps that several threads drew at once, and what the clock says of their number.
fn draw_at_once<K: ClockName + Send + Sync, R: Threads + Wait + Sync>(
    rt: &R,
    alloc: Global,
    start: ClockStart,
) -> Result<(Vec<u64>, u64), NoMemory>
    requires { start ≡ K.clock }
{
    let (clock, mut first) = start.open::<K>();
    let common = clock.split(&mut first, THREADS * ROUNDS)?;
    let mut passes = Vec::new(alloc);
    for _ in 0..THREADS {
        if first.left() > ROUNDS {
            passes.push(clock.split(&mut first, ROUNDS)?)?;
        }
    }
    let shared = Mutex::new(common);
    let brought = thread::map_vec(
        rt,
        passes,
        &|pass| draw_each(rt, alloc, &clock, &shared, pass, ROUNDS),
    )?;
    let mut stamps = Vec::new(alloc);
    for drawn in brought {
        let Drawn { stamps: own, pass } = drawn?;
        for stamp in own {
            stamps.push(stamp)?;
        }
        clock.join(&mut first, pass);
    }
    clock.join(&mut first, shared.into_inner());
    Ok((stamps, clock.close(first)))
}

#[test]
fn threads_draw_each_number_once(rt: HostRuntime) -> Result<(), Fail> {
    let start = ClockStart::new(rt.alloc())?;
    let (mut stamps, count) = draw_at_once::<Brand, HostRuntime>(&rt, rt.alloc(), start)?;
    assert_eq!(rt; count, 8000);
    assert_eq!(rt; stamps.len(), 8000);
    stamps.sort()?;
    for (place, stamp) in (0..).zip(&stamps) {
        assert_eq!(rt; *stamp, place);
    }
    Ok(())
}
