ghost use Rattle.std.specs.Prelude.{◌≡◌, []};

use crate::coordinators::Act::{
    Append, At, Fail as Fails, Fork, Genesis, Hide, Honest, Latest, New, Refused, Stale, Views,
};
use crate::refreshes::{Standing, one_view, stand};
use crate::said::{latest_said, refusal_said, standing_said};
use blob_store::{Lie, LyingStore, MemStore};
use coordinator::Coordinator;
use endorser_cell::CellBank;
use fixtures::{cell, config, first, later, members};
use nim_base::{Digest, Nonce};
use op_entry::{AppendOp, AtOp, LatestOp, NewOp};
use port::{Key, Link, Refusal, Service, Store, ViewRow};
use seal::KeyBook;
use stamp_clock::{Clock, ClockName, ClockStart, Pass};
use std::alloc::Global;
use std::marker::Brand;
use std::test::Fail;
use view_ledger::ViewChain;

/// What is asked of a coordinator over its one ledger, whose payloads are single letters, how many calls it refused, and
/// how its store lies and fails from then on.
#[derive(Clone, Copy)]
enum Act {
    Genesis,
    New,
    Append(u32, u8),
    Latest,
    At(u32),
    Views(u64),
    Refused,
    Hide(u64),
    Stale(u64, u64),
    Fork(u64),
    Fail,
    Honest,
}

const IDS: [u32; 3] = [1, 2, 3];

const NONCE: [u8; 16] = [7; 16];

const EACH_CALL: [(Act, &str); 10] = [
    (Genesis, "0:0"),
    (New, "ok 0 a"),
    (Append(1, b'b'), "ok 1 b"),
    (Append(1, b'z'), "conflict 1 b"),
    (Append(3, b'z'), "gap 2"),
    (Latest, "ok 1 b"),
    (At(0), "ok 0 a"),
    (At(2), "gap 2"),
    (Views(0), "0:0"),
    (Refused, "3"),
];

const LIES: [(Act, &str); 17] = [
    (Genesis, "0:0"),
    (New, "ok 0 a"),
    (Append(1, b'b'), "ok 1 b"),
    (Hide(0), ""),
    (Append(1, b'b'), "gap 0"),
    (At(0), "gap 0"),
    (Honest, ""),
    (Stale(1, 0), ""),
    (Latest, "badrow 1"),
    (Honest, ""),
    (Fork(1), ""),
    (Append(1, b'z'), "noquorum 2 1:stands 2:stands 3:stands"),
    (Honest, ""),
    (Fails, ""),
    (Views(1), "storefault"),
    (Views(1), ""),
    (Refused, "5"),
];

fn views_said(alloc: Global, answer: &Result<Vec<ViewRow>, Refusal>) -> Result<String, Fail> {
    match answer {
        Ok(rows) => {
            let mut said = format!(in alloc; "")?;
            for row in rows {
                let part = view_said(alloc, row)?;
                said.push_str(&part)?;
            }
            Ok(said)
        }
        Err(refusal) => refusal_said(alloc, refusal),
    }
}

/// The view's number, and how many finals it has.
fn view_said(alloc: Global, row: &ViewRow) -> Result<String, Fail> {
    let (number, finals) = (row.block.number, row.finals.len());
    Ok(format!(in alloc; "{number}:{finals}")?)
}

/// What is said of a call.
fn asked<S: Store, L: Link>(
    alloc: Global,
    coordinator: &mut Coordinator<S, L, KeyBook>,
    handle: &Digest,
    act: Act,
) -> Result<String, Fail> {
    match act {
        Genesis => match coordinator.genesis() {
            Ok(row) => view_said(alloc, &row),
            Err(refusal) => refusal_said(alloc, &refusal),
        },
        New => {
            let answer = coordinator.new_ledger(alloc, &Nonce(NONCE), b"a");
            standing_said(alloc, answer.as_ref())
        }
        Append(height, letter) => {
            if height == 0 {
                return Ok(format!(in alloc; "")?);
            }
            let answer = coordinator.append(
                alloc,
                handle,
                u64::from(height),
                &Nonce(NONCE),
                &[letter],
            );
            standing_said(alloc, answer.as_ref())
        }
        Latest => {
            let answer = coordinator.latest(alloc, handle, &Nonce(NONCE));
            latest_said(alloc, answer.as_ref())
        }
        At(height) => {
            let answer = coordinator.at(alloc, handle, u64::from(height));
            standing_said(alloc, answer.as_ref())
        }
        Views(from) => views_said(alloc, &coordinator.views(alloc, from)),
        _ => {
            let refused = coordinator.refused();
            Ok(format!(in alloc; "{refused}")?)
        }
    }
}

fn row_key(handle: &Digest, height: u64) -> Key {
    Key::Row {
        handle: *handle,
        height,
    }
}

/// Tells the store how to lie; false where it isn't told anything.
fn told(store: &mut LyingStore, handle: &Digest, act: Act) -> Result<bool, Fail> {
    match act {
        Hide(height) => {
            let key = row_key(handle, height);
            store.lie(Lie::Hide { key })?;
        }
        Stale(height, other) => {
            let (key, from) = (row_key(handle, height), row_key(handle, other));
            store.lie(Lie::Stale { key, from })?;
        }
        Fork(height) => {
            let key = row_key(handle, height);
            store.lie(Lie::Fork { key })?;
        }
        Fails => store.fail_next(1),
        Honest => store.honest(),
        _ => return Ok(false),
    }
    Ok(true)
}

/// Three members that have no view yet.
fn bank<'c, K: ClockName>(
    alloc: Global,
    clock: &'c Clock<K>,
    rest: &mut Pass<K>,
) -> Result<CellBank<'c, seal::MacScheme, K>, Fail> {
    let mut cells = Vec::new(alloc);
    for id in IDS {
        if 100 <= rest.left() {
            cells.push(cell(alloc, id, clock.split(rest, 100)?)?)?;
        }
    }
    Ok(CellBank::new(alloc, clock, cells))
}

fn first_chain(alloc: Global) -> Result<ViewChain, Fail> {
    Ok(ViewChain::start(alloc, &config(alloc, &IDS)?, &members(alloc, &IDS)?)?)
}

/// What is said of each call, over a store that can't lie and over one that can.
fn run<K: ClockName>(
    alloc: Global,
    start: ClockStart,
    lies: bool,
    lines: &[(Act, &'static str)],
) -> Result<Vec<String>, Fail>
    requires { start ≡ K.clock }
{
    let (clock, mut rest) = start.open::<K>();
    let bank = bank(alloc, &clock, &mut rest)?;
    let book = KeyBook::of_ids(alloc, &IDS)?;
    let handle = first(alloc, b'a')?.handle();
    let chain = first_chain(alloc)?;
    let mut said = Vec::new(alloc);
    if !lies {
        let mut coordinator = Coordinator::new(alloc, chain, MemStore::new(alloc), bank, book);
        for (act, _) in lines {
            said.push(asked(alloc, &mut coordinator, &handle, *act)?)?;
        }
        return Ok(said);
    }
    let mut coordinator = Coordinator::new(alloc, chain, LyingStore::new(alloc), bank, book);
    for (act, _) in lines {
        let words = if told(coordinator.store_mut(), &handle, *act)? {
            format!(in alloc; "")?
        } else {
            asked(alloc, &mut coordinator, &handle, *act)?
        };
        said.push(words)?;
    }
    Ok(said)
}

#[test]
fn coordinators_answer_whole_calls(rt: HostRuntime) -> Result<(), Fail> {
    let alloc = rt.alloc();
    let scripts: [(bool, &[(Act, &str)]); 3] = [
        (false, &EACH_CALL),
        (true, &EACH_CALL),
        (true, &LIES),
    ];
    for (lies, lines) in scripts {
        let said = run::<Brand>(alloc, ClockStart::new(alloc)?, lies, lines)?;
        assert_eq!(rt; said.len(), lines.len());
        for (line, words) in lines.iter().zip(&said) {
            assert_eq!(rt; words.as_str(), line.1);
        }
    }
    Ok(())
}

/// What is said of the views from this number on, where so much of view 1 stands, and once more where its finals are hidden.
fn views<K: ClockName>(
    alloc: Global,
    start: ClockStart,
    standing: Standing,
    from: u64,
) -> Result<(String, String), Fail>
    requires { start ≡ K.clock }
{
    let (clock, _) = start.open::<K>();
    let bank = CellBank::<seal::MacScheme, K>::new(alloc, &clock, Vec::new(alloc));
    let book = KeyBook::of_ids(alloc, &IDS)?;
    let chain = one_view(alloc)?;
    let mut store = LyingStore::new(alloc);
    stand(alloc, &mut store, &chain, standing)?;
    let mut coordinator = Coordinator::new(alloc, chain, store, bank, book);
    let first = views_said(alloc, &coordinator.views(alloc, from))?;
    let key = Key::Finals { number: 1 };
    coordinator.store_mut().lie(Lie::Hide { key })?;
    let hidden = views_said(alloc, &coordinator.views(alloc, from))?;
    Ok((first, hidden))
}

const VIEWS: [(Standing, u64, &str, &str); 8] = [
    (Standing::Nothing, 0, "0:0", "0:0"),
    (Standing::NoView, 0, "badview 1", "badview 1"),
    (Standing::Unmarked, 1, "", ""),
    (Standing::Marked, 0, "badfinals 1", "badfinals 1"),
    (Standing::Forged, 0, "badfinals 1", "badfinals 1"),
    (Standing::Ended, 0, "0:01:2", "badfinals 1"),
    (Standing::Ended, 1, "1:2", "badfinals 1"),
    (Standing::Ended, 2, "", ""),
];

#[test]
fn coordinators_show_their_views(rt: HostRuntime) -> Result<(), Fail> {
    let alloc = rt.alloc();
    for (standing, from, words, hidden) in VIEWS {
        let said = views::<Brand>(alloc, ClockStart::new(alloc)?, standing, from)?;
        assert_eq!(rt; said.0.as_str(), words);
        assert_eq!(rt; said.1.as_str(), hidden);
    }
    Ok(())
}

/// What four operations answer that are run by hand, one of each kind.
fn by_hand<K: ClockName>(alloc: Global, start: ClockStart) -> Result<[String; 4], Fail>
    requires { start ≡ K.clock }
{
    let (clock, mut rest) = start.open::<K>();
    let bank = bank(alloc, &clock, &mut rest)?;
    let book = KeyBook::of_ids(alloc, &IDS)?;
    let chain = first_chain(alloc)?;
    let handle = first(alloc, b'a')?.handle();
    let mut made = NewOp::new(chain.copy(alloc)?, first(alloc, b'a')?);
    let mut appended = AppendOp::new(chain.copy(alloc)?, later(alloc, handle, 1, b'b')?);
    let mut read = AtOp::new(chain.copy(alloc)?, handle, 1);
    let mut newest = LatestOp::new(chain.copy(alloc)?, handle, Nonce(NONCE));
    let mut coordinator = Coordinator::new(alloc, chain, MemStore::new(alloc), bank, book);
    let _ = coordinator.genesis();
    for _ in 0..9 {
        let _ = coordinator.step_new(alloc, &mut made);
    }
    for _ in 0..9 {
        let _ = coordinator.step_append(alloc, &mut appended);
    }
    for _ in 0..9 {
        let _ = coordinator.step_at(alloc, &mut read);
    }
    for _ in 0..9 {
        let _ = coordinator.step_latest(alloc, &mut newest);
    }
    Ok([
        standing_of(alloc, made.answer())?,
        standing_of(alloc, appended.answer())?,
        standing_of(alloc, read.answer())?,
        match newest.answer() {
            Some(answer) => latest_said(alloc, answer)?,
            None => format!(in alloc; "open")?,
        },
    ])
}

fn standing_of(
    alloc: Global,
    answer: Option<Result<&port::Standing, &Refusal>>,
) -> Result<String, Fail> {
    match answer {
        Some(answer) => standing_said(alloc, answer),
        None => Ok(format!(in alloc; "open")?),
    }
}

#[test]
fn operations_run_by_hand_over_a_coordinator(rt: HostRuntime) -> Result<(), Fail> {
    let alloc = rt.alloc();
    let said = by_hand::<Brand>(alloc, ClockStart::new(alloc)?)?;
    assert_eq!(rt; said[0].as_str(), "ok 0 a");
    assert_eq!(rt; said[1].as_str(), "ok 1 b");
    assert_eq!(rt; said[2].as_str(), "ok 1 b");
    assert_eq!(rt; said[3].as_str(), "ok 1 b");
    Ok(())
}
