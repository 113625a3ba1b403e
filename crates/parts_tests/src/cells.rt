ghost use Rattle.std.specs.Prelude.{◌≡◌, ◌≤◌, ◌^◌, []};

use crate::endorser_calls::{
    IDS, Seen, VIEW, answer_seen, append, finalize, first, held, latest, latest_of, refusal_seen,
    show, step, with_proof,
};
use endorser_cell::EndorserCell;
use endorser_core::{CellAnswer, Endorser};
use fixtures::{activate, digest, first_call};
use nim_base::{Digest, NoMemory, digest_of};
use port::{EndorserAnswer, EndorserCall, EndorserRefusal, Phase};
use seal::{KeyBook, MacScheme, MacSigner};
use stamp_clock::{Clock, ClockName, ClockStart, Pass};
use std::alloc::Global;
use std::marker::Brand;
use std::sync::{Mutex, Wait};
use std::test::Fail;
use std::thread::{Threads, join};

// What is written in hexadecimal was worked out with Python's hashlib, from the byte forms.

/// The tail of the ledger of `first entry` after that entry.
const TAIL_1: &str = "f24b2023c23401c4a03b26d14f6b72d8810e0ecfbbc643ef9338f5721b835e1d";

/// What a line kept, without its signature, and what a fresh endorser answers to the line's call after the calls
/// of the lines before.
#[derive(Clone, Copy, Debug, PartialEq, Eq)]
struct Kept {
    stamp: u64,
    answer: Seen,
    again: Seen,
}

fn kept_seen(answer: &CellAnswer) -> Seen {
    match answer {
        CellAnswer::Done => Seen::Done,
        CellAnswer::Signed { statement, .. } => Seen::Signed(*statement),
        CellAnswer::Finaled { .. } => Seen::Other,
        CellAnswer::Shown {
            phase,
            number,
            tail,
            count,
        } => Seen::Shown(*phase, *number, *tail, *count),
        CellAnswer::Refused(refusal) => refusal_seen(refusal),
    }
}

fn is_log_full(answer: &EndorserAnswer) -> bool {
    match answer {
        EndorserAnswer::Refused(EndorserRefusal::LogFull) => true,
        _ => false,
    }
}

/// The cell of id 1 of the three.
fn cell_of<K: ClockName>(
    alloc: Global,
    pass: Pass<K>,
) -> Result<EndorserCell<MacScheme, K>, NoMemory>
    requires { pass.drawn ≡ [] }
{
    let book = KeyBook::of_ids(alloc, &[1, 2, 3])?;
    let endorser = Endorser::new(1, MacSigner::of_id(1), book);
    Ok(EndorserCell::new(alloc, endorser, pass))
}

/// What a cell answered, what its lines kept, and how many stamps were drawn.
#[derive(Drop)]
struct Asked {
    answers: Vec<Seen>,
    kept: Vec<Kept>,
    full: u64,
    drawn: u64,
}

/// Makes the calls of a cell whose pass has so many stamps.
fn ask<K: ClockName>(
    alloc: Global,
    start: ClockStart,
    share: u64,
    calls: &[(EndorserCall, Seen)],
) -> Result<Asked, NoMemory>
    requires name { start ≡ K.clock }
    requires share { share ≤ 2 ^ 63 }
{
    let (clock, mut rest) = start.open::<K>();
    let pass = clock.split(&mut rest, share)?;
    let mut cell = cell_of(alloc, pass)?;
    let mut answers = Vec::new(alloc);
    let mut full = 0u64;
    for (call, _) in calls {
        let answer = cell.call(alloc, &clock, call)?;
        if is_log_full(&answer) {
            full = full.saturating_add(1);
        }
        answers.push(answer_seen(&answer))?;
    }
    let (lines, pass) = cell.take();
    clock.join(&mut rest, pass);
    let mut fresh = first(alloc)?;
    let mut kept = Vec::new(alloc);
    for line in &lines {
        kept.push(Kept {
            stamp: line.stamp,
            answer: kept_seen(&line.answer),
            again: step(alloc, &mut fresh, &line.call)?,
        })?;
    }
    Ok(Asked {
        answers,
        kept,
        full,
        drawn: clock.close(rest),
    })
}

fn calls_without_view(handle: Digest) -> [(EndorserCall, Seen); 5] {
    let shown = Seen::Shown(Phase::Uninitialized, 0, Digest::ZERO, 0);
    [
        (
            activate(digest(VIEW)),
            Seen::WrongPhase(Phase::Uninitialized),
        ),
        (
            append(handle, Digest::ZERO, handle, 0),
            Seen::WrongPhase(Phase::Uninitialized),
        ),
        (latest(handle), Seen::WrongPhase(Phase::Uninitialized)),
        (finalize(), Seen::WrongPhase(Phase::Uninitialized)),
        (show(handle), shown),
    ]
}

fn calls_with_view(alloc: Global, handle: Digest) -> Result<[(EndorserCall, Seen); 7], Fail> {
    let shown = Seen::Shown(Phase::Initialized, 0, Digest::ZERO, 0);
    Ok([
        (first_call(alloc, &IDS)?, Seen::Done),
        (first_call(alloc, &IDS)?, Seen::Done),
        (
            append(handle, Digest::ZERO, handle, 0),
            Seen::WrongPhase(Phase::Initialized),
        ),
        (latest(handle), Seen::WrongPhase(Phase::Initialized)),
        (finalize(), Seen::WrongPhase(Phase::Initialized)),
        (show(handle), shown),
        (activate(handle), Seen::BadView),
    ])
}

fn calls_while_active(alloc: Global, handle: Digest) -> Result<[(EndorserCall, Seen); 11], Fail> {
    let (zero, one) = (Digest::ZERO, digest(TAIL_1));
    Ok([
        (activate(digest(VIEW)), Seen::Done),
        (first_call(alloc, &IDS)?, Seen::Done),
        (with_proof(alloc, digest(VIEW))?, Seen::Done),
        (latest(handle), latest_of(handle, zero, 0)),
        (append(handle, zero, handle, 0), held(handle, one, 1)),
        (append(handle, zero, handle, 0), held(handle, one, 1)),
        (append(handle, zero, one, 0), Seen::Stands(1, one)),
        (append(handle, one, one, 2), Seen::Behind(1)),
        (finalize(), Seen::BadView),
        (latest(handle), latest_of(handle, one, 1)),
        (show(handle), Seen::Shown(Phase::Active, 0, one, 1)),
    ])
}

fn each_call(alloc: Global) -> Result<Vec<(EndorserCall, Seen)>, Fail> {
    let handle = digest_of(b"first entry");
    let mut table = Vec::new(alloc);
    for call in calls_without_view(handle) {
        table.push(call)?;
    }
    for call in calls_with_view(alloc, handle)? {
        table.push(call)?;
    }
    for call in calls_while_active(alloc, handle)? {
        table.push(call)?;
    }
    Ok(table)
}

#[test]
fn each_call_is_one_line(rt: HostRuntime) -> Result<(), Fail> {
    let alloc = rt.alloc();
    let table = each_call(alloc)?;
    let asked = ask::<Brand>(alloc, ClockStart::new(alloc)?, 1 << 40, &table)?;
    assert_eq!(rt; asked.drawn, 23);
    assert_eq!(rt; asked.kept.len(), 23);
    assert_eq!(rt; asked.full, 0);
    for (place, (_, answer)) in (0..).zip(&table) {
        let answer = *answer;
        assert_eq!(rt; asked.answers.get(place).copied(), Some(answer));
        let kept = Kept {
            stamp: place as u64,
            answer,
            again: answer,
        };
        assert_eq!(rt; asked.kept.get(place).copied(), Some(kept));
    }
    Ok(())
}

/// Without a stamp a cell answers at once, and with two it answers twice.
#[test]
fn stamps_run_out(rt: HostRuntime) -> Result<(), Fail> {
    let alloc = rt.alloc();
    let shown = Seen::Shown(Phase::Uninitialized, 0, Digest::ZERO, 0);
    for (share, full, drawn) in [(0, 3, 0), (2, 1, 2), (3, 0, 3)] {
        let table = [
            (show(Digest::ZERO), shown),
            (show(Digest::ZERO), shown),
            (show(Digest::ZERO), shown),
        ];
        let asked = ask::<Brand>(alloc, ClockStart::new(alloc)?, share, &table)?;
        assert_eq!(rt; asked.full, full, "{share}");
        assert_eq!(rt; asked.drawn, drawn, "{share}");
        assert_eq!(rt; asked.kept.len() as u64, drawn, "{share}");
    }
    Ok(())
}

const ROUNDS: u64 = 200;

/// Looks at a ledger with a cell that others call, too.
fn look_often<K: ClockName, R: Wait>(
    rt: &R,
    alloc: Global,
    clock: &Clock<K>,
    shared: &Mutex<EndorserCell<MacScheme, K>>,
) {
    for _ in 0..ROUNDS {
        let _ = shared.lock(rt).call(alloc, clock, &show(Digest::ZERO));
    }
}

/// The stamps of a cell's lines after two threads made calls at once.
fn call_at_once<K: ClockName + Send + Sync, R: Threads + Wait + Sync>(
    rt: &R,
    alloc: Global,
    start: ClockStart,
) -> Result<Vec<u64>, NoMemory>
    requires { start ≡ K.clock }
{
    let (clock, pass) = start.open::<K>();
    let shared = Mutex::new(cell_of(alloc, pass)?);
    join(
        rt,
        || look_often(rt, alloc, &clock, &shared),
        || look_often(rt, alloc, &clock, &shared),
    );
    let (lines, _) = shared.into_inner().take();
    let mut stamps = Vec::new(alloc);
    for line in &lines {
        stamps.push(line.stamp)?;
    }
    Ok(stamps)
}

#[test]
fn threads_share_a_cell(rt: HostRuntime) -> Result<(), Fail> {
    let start = ClockStart::new(rt.alloc())?;
    let stamps = call_at_once::<Brand, HostRuntime>(&rt, rt.alloc(), start)?;
    assert_eq!(rt; stamps.len(), 400);
    for (place, stamp) in (0..).zip(&stamps) {
        assert_eq!(rt; *stamp, place);
    }
    Ok(())
}
