ghost use Rattle.std.specs.Prelude.{◌≡◌};
ghost use Rattle.port.specs.Call.{call_of};
ghost use Rattle.port.specs.Heard.{heard_of};
ghost use Rattle.port.specs.Trace.{LinkFact};

use endorser_cell::{BankLine, CellBank, Loss};
use endorser_core::CellAnswer;
use fixtures::cell;
use nim_base::{Digest, NoMemory};
use port::{EndorserAnswer, EndorserCall, EndorserRefusal, Link, LinkAnswer};
use seal::MacScheme;
use stamp_clock::{ClockName, ClockStart};
use std::alloc::Global;
use std::marker::Brand;
use std::test::Fail;

/// Calls over the link and calls that pass none, and more losses, in turn.
const STEPS: [(u32, Step); 19] = [
    (1, Step::Lose(Loss::Reply, 1)),
    (1, Step::Lose(Loss::Request, 1)),
    (2, Step::Lose(Loss::Reply, 1)),
    (1, Step::Call),
    (2, Step::Call),
    (1, Step::Raw),
    (1, Step::Call),
    (1, Step::Call),
    (2, Step::Call),
    (9, Step::Call),
    (9, Step::Lose(Loss::Request, 5)),
    (9, Step::Call),
    (9, Step::Raw),
    (3, Step::Call),
    (3, Step::Lose(Loss::Reply, 1)),
    (3, Step::Raw),
    (3, Step::Call),
    (3, Step::Call),
    (3, Step::Raw),
];

/// What is answered to these, in turn, where id 3 has two stamps. Of the two losses of id 1 the request goes first; an id without an endorser
/// loses every call; and without a stamp left, the answer that says so is lost as any other.
const WORDS: [&str; 19] = [
    "", "", "", "lost", "lost", "shown", "lost", "shown", "shown", "lost", "", "lost", "none",
    "shown", "", "shown", "lost", "full", "full",
];

#[derive(Clone, Copy)]
enum Step {
    Call,
    Raw,
    Lose(Loss, u64),
}

/// What a bank answered and kept.
#[derive(Drop)]
struct Told {
    words: Vec<&'static str>,
    faults: [u64; 4],
    has: [bool; 4],
    noted: Vec<(Option<u64>, u32, bool, bool)>,
    lines: Vec<usize>,
}

fn word(answer: &EndorserAnswer) -> &'static str {
    match answer {
        EndorserAnswer::Shown { .. } => "shown",
        EndorserAnswer::Refused(EndorserRefusal::LogFull) => "full",
        _ => "other",
    }
}

fn heard_word(answer: &LinkAnswer) -> &'static str {
    match answer {
        LinkAnswer::Answered(answer) => word(answer),
        LinkAnswer::Lost => "lost",
        LinkAnswer::NoMemory => "no memory",
    }
}

/// Calls over any link.
fn call_over<L: Link>(link: &mut L, alloc: Global, id: u32, call: &EndorserCall) -> LinkAnswer
    ensures { LinkFact L.view link.old link.new id (call_of call.now) (heard_of result) }
{
    link.call(alloc, id, call)
}

fn take_step<K: ClockName>(
    alloc: Global,
    bank: &mut CellBank<'_, MacScheme, K>,
    id: u32,
    step: Step,
) -> &'static str {
    let call = EndorserCall::Show {
        handle: Digest::ZERO,
    };
    match step {
        Step::Call => heard_word(&call_over(bank, alloc, id, &call)),
        Step::Raw => match bank.raw(alloc, id, &call) {
            Some(Ok(answer)) => word(&answer),
            Some(Err(NoMemory)) => "no memory",
            None => "none",
        },
        Step::Lose(which, n) => {
            bank.lose(id, which, n);
            ""
        }
    }
}

fn noted(line: &BankLine) -> (Option<u64>, u32, bool, bool) {
    let full = match &line.answer {
        Some(CellAnswer::Refused(EndorserRefusal::LogFull)) => true,
        _ => false,
    };
    (
        line.number,
        line.id,
        line.answer.is_some() && !full,
        line.heard,
    )
}

fn run<K: ClockName>(alloc: Global, start: ClockStart) -> Result<Told, NoMemory>
    requires { start ≡ K.clock }
{
    let (clock, mut rest) = start.open::<K>();
    let passes = (
        clock.split(&mut rest, 100)?,
        clock.split(&mut rest, 100)?,
        clock.split(&mut rest, 2)?,
    );
    let mut cells = Vec::new(alloc);
    cells.push(cell(alloc, 1, passes.0)?)?;
    cells.push(cell(alloc, 2, passes.1)?)?;
    cells.push(cell(alloc, 3, passes.2)?)?;
    let mut bank = CellBank::new(alloc, &clock, cells);
    let mut words = Vec::new(alloc);
    for (id, step) in STEPS {
        words.push(take_step(alloc, &mut bank, id, step))?;
    }
    let faults = [1, 2, 3, 9].map(|id| bank.faults(id));
    let has = [1, 2, 3, 9].map(|id| bank.has(id));
    let mut kept = Vec::new(alloc);
    for line in bank.log() {
        kept.push(noted(line))?;
    }
    let mut lines = Vec::new(alloc);
    for cell in &bank.into_cells() {
        lines.push(cell.lines().len())?;
    }
    Ok(Told {
        words,
        faults,
        has,
        noted: kept,
        lines,
    })
}

#[test]
fn losses_are_used_up_request_before_reply(rt: HostRuntime) -> Result<(), Fail> {
    let alloc = rt.alloc();
    let told = run::<Brand>(alloc, ClockStart::new(alloc)?)?;
    for (place, word) in (0..).zip(WORDS) {
        assert_eq!(rt; told.words.get(place).copied(), Some(word));
    }
    assert_eq!(rt; told.faults, [2, 1, 1, 0]);
    assert_eq!(rt; told.has, [true, true, true, false]);
    // By number, id, whether an endorser served it, and whether that was heard.
    let noted = [
        (Some(0), 1, false, false),
        (Some(1), 2, true, false),
        (None, 1, true, true),
        (Some(2), 1, true, false),
        (Some(3), 1, true, true),
        (Some(4), 2, true, true),
        (Some(5), 9, false, false),
        (Some(6), 9, false, false),
        (Some(7), 3, true, true),
        (None, 3, true, true),
        (Some(8), 3, false, false),
        (Some(9), 3, false, true),
        (None, 3, false, true),
    ];
    assert_eq!(rt; told.noted.len(), 13);
    for (place, line) in (0..).zip(noted) {
        assert_eq!(rt; told.noted.get(place).copied(), Some(line));
    }
    assert_eq!(rt; told.lines.len(), 3);
    for (place, lines) in (0..).zip([3, 2, 2]) {
        assert_eq!(rt; told.lines.get(place).copied(), Some(lines));
    }
    Ok(())
}
