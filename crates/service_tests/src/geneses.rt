ghost use Rattle.std.specs.Prelude.{◌≡◌};

use blob_store::MemStore;
use endorser_cell::{CellBank, Loss};
use fixtures::{cell, config, initialize, members};
use nim_base::Digest;
use op_reconf::ReconfOp;
use port::{EndorserRefusal, Got, Key, Link, Phase, Reason, Refusal, Store, ViewRow};
use seal::KeyBook;
use stamp_clock::{ClockName, ClockStart};
use statement::{Config, ViewBlock};
use std::alloc::Global;
use std::marker::Brand;
use std::test::Fail;
use view_ledger::ViewChain;

const IDS: [u32; 3] = [1, 2, 3];

/// What goes wrong while view 0 of the members 1, 2 and 3 is set up: the store's call of a step, losses of calls, and
/// member 2, which another view has already. How that ends, which is marked as complete where it is `view`.
struct Case {
    failing: u32,
    lost: [(u32, Loss, u64); 2],
    strayed: bool,
    word: &'static str,
    reasons: [(u32, &'static str); 2],
}

const NEVER: u32 = 99;

const NONE: (u32, Loss, u64) = (1, Loss::Request, 0);

const NOBODY: (u32, &str) = (0, "");

const CASES: [Case; 7] = [
    Case {
        failing: NEVER,
        lost: [NONE, NONE],
        strayed: false,
        word: "view",
        reasons: [NOBODY, NOBODY],
    },
    Case {
        failing: NEVER,
        lost: [(2, Loss::Request, 1), NONE],
        strayed: false,
        word: "view",
        reasons: [NOBODY, NOBODY],
    },
    Case {
        failing: NEVER,
        lost: [(1, Loss::Request, 1), (3, Loss::Reply, 1)],
        strayed: false,
        word: "no quorum",
        reasons: [(1, "lost"), (3, "lost")],
    },
    Case {
        failing: NEVER,
        lost: [NONE, NONE],
        strayed: true,
        word: "view",
        reasons: [NOBODY, NOBODY],
    },
    Case {
        failing: NEVER,
        lost: [(1, Loss::Reply, 1), NONE],
        strayed: true,
        word: "no quorum",
        reasons: [(1, "lost"), (2, "initialized")],
    },
    Case {
        failing: 0,
        lost: [NONE, NONE],
        strayed: false,
        word: "fault",
        reasons: [NOBODY, NOBODY],
    },
    Case {
        failing: 7,
        lost: [NONE, NONE],
        strayed: false,
        word: "fault",
        reasons: [NOBODY, NOBODY],
    },
];

/// How the setting up of view 0 ended: in a word, with the first two reasons, and whether the view is marked.
#[derive(Drop)]
struct Ending {
    word: &'static str,
    reasons: [(u32, &'static str); 2],
    marked: bool,
}

fn word(config: &Config, answer: &Option<Result<&ViewRow, &Refusal>>) -> &'static str {
    match answer {
        Some(Ok(row)) if is_first(config, row) => "view",
        Some(Err(Refusal::StoreFault)) => "fault",
        Some(Err(Refusal::NoQuorum { need: 2, .. })) => "no quorum",
        _ => "other",
    }
}

fn is_first(config: &Config, row: &ViewRow) -> bool {
    let block = ViewBlock {
        prev: Digest::ZERO,
        config: config.digest(),
        number: 0,
    };
    row.block == block && row.config.members() == config.members() && row.finals.is_empty()
}

fn reason_word(reason: &Reason) -> &'static str {
    match reason {
        Reason::Lost => "lost",
        Reason::Refused {
            refusal: EndorserRefusal::WrongPhase {
                phase: Phase::Initialized,
            },
        } => "initialized",
        _ => "other",
    }
}

/// The reason at this place, with the member's id.
fn reason_at(answer: &Option<Result<&ViewRow, &Refusal>>, place: usize) -> (u32, &'static str) {
    match answer {
        Some(Err(Refusal::NoQuorum { reasons, .. })) => match reasons.get(place) {
            Some((id, reason)) => (*id, reason_word(reason)),
            None => NOBODY,
        },
        _ => NOBODY,
    }
}

/// How the setting up of view 0 ends, which is after eight steps at most.
fn set_up<L: Link>(
    alloc: Global,
    store: &mut MemStore,
    link: &mut L,
    failing: u32,
) -> Result<Ending, Fail> {
    let config = config(alloc, &IDS)?;
    let book = KeyBook::of_ids(alloc, &IDS)?;
    let chain = ViewChain::start(alloc, &config, &members(alloc, &IDS)?)?;
    let mut genesis = ReconfOp::genesis(chain);
    for step in 0..8 {
        if step == failing {
            store.fail_next(1);
        }
        if !genesis.step(alloc, store, link, &book) {
            break;
        }
    }
    let answer = genesis.answer();
    Ok(Ending {
        word: word(&config, &answer),
        reasons: [reason_at(&answer, 0), reason_at(&answer, 1)],
        marked: is_marked(alloc, store),
    })
}

fn is_marked(alloc: Global, store: &mut MemStore) -> bool {
    match store.get(alloc, &Key::View { number: 0 }) {
        Got::Some(stored) => match &stored.attached {
            Some(bytes) => bytes.bytes() == [1].as_slice(),
            None => false,
        },
        _ => false,
    }
}

/// How it ends over new cells and a new store, and how once more over the same.
fn ends<K: ClockName>(
    alloc: Global,
    start: ClockStart,
    case: &Case,
) -> Result<(Ending, Ending), Fail>
    requires { start ≡ K.clock }
{
    let (clock, mut rest) = start.open::<K>();
    let passes = (
        clock.split(&mut rest, 9)?,
        clock.split(&mut rest, 9)?,
        clock.split(&mut rest, 9)?,
    );
    let mut cells = Vec::new(alloc);
    cells.push(cell(alloc, 1, passes.0)?)?;
    cells.push(cell(alloc, 2, passes.1)?)?;
    cells.push(cell(alloc, 3, passes.2)?)?;
    let mut bank = CellBank::new(alloc, &clock, cells);
    if case.strayed {
        let other = initialize(alloc, Digest::ZERO, &[2], 0)?;
        let _ = bank.raw(alloc, 2, &other);
    }
    for (id, which, n) in case.lost {
        bank.lose(id, which, n);
    }
    let mut store = MemStore::new(alloc);
    let first = set_up(alloc, &mut store, &mut bank, case.failing)?;
    let again = set_up(alloc, &mut store, &mut bank, NEVER)?;
    Ok((first, again))
}

#[test]
fn view_0_is_set_up_by_a_quorum(rt: HostRuntime) -> Result<(), Fail> {
    let alloc = rt.alloc();
    for case in &CASES {
        let (first, again) = ends::<Brand>(alloc, ClockStart::new(alloc)?, case)?;
        assert_eq!(rt; first.word, case.word);
        assert_eq!(rt; first.reasons, case.reasons);
        assert_eq!(rt; first.marked, case.word == "view");
        assert_eq!(rt; again.word, "view");
        assert!(rt; again.marked);
    }
    Ok(())
}
