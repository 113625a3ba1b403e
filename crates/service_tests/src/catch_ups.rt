ghost use Rattle.std.specs.Prelude.{◌≡◌, true};
ghost use Rattle.catch_up.specs.State.{is_live};
ghost use Rattle.chain_block.specs.Entry.{IsWithinLimits};

use blob_store::{Lie, LyingStore, MemStore};
use catch_up::{CatchUp, Progress};
use chain_block::{Entry, MetaBlock};
use endorser_core::Endorser;
use fixtures::{active, digest, first, later};
use nim_base::{Digest, NoMemory};
use port::{EndorserCall, Key, Link, LinkAnswer, Put, Reason, Refusal, Row, Store};
use seal::MacScheme;
use std::alloc::Global;
use std::test::Fail;

// What is written in hexadecimal was worked out with Python's hashlib, from the byte forms.

/// The ledger of the payloads `a`, `b` and `c`, and its tail after these.
const HANDLE: &str = "dc91f0b9e454590e6426608c803bb9e76f3a4b5a0f4bbfbd6cbcaeb29309f713";

const TAIL_3: &str = "1f2cbd3555c2a8f9aadff2273bcd1f9f49f6eaceda83bef447935dba2d72214e";

#[derive(Clone, Copy, Debug, PartialEq, Eq)]
enum Loss {
    Request,
    Reply,
}

/// The way to id 1 alone, which loses the next call as it is told to.
#[derive(Drop)]
struct Way {
    endorser: Endorser<MacScheme>,
    loses: Option<Loss>,
    lost: u64,
}

impl Link for Way {
    ghost use Rattle.std.specs.Prelude.{◌==◌, ◌-◌, ◌^◌, true, None};

    ghost view = { λ way. record { faults = λ id. way.lost; has = λ id. id == 1; calls = 2 ^ 64 - 1; was = λ n id call heard. Unit {0}; signs = λ key bytes sig. true; told = None; served = None; due = None } };

    fn call(&mut self, alloc: Global, id: u32, call: &EndorserCall) -> LinkAnswer {
        if id != 1 {
            return LinkAnswer::Lost;
        }
        if self.lost == u64::MAX {
            return LinkAnswer::NoMemory;
        }
        let loss = self.loses.take();
        if loss == Some(Loss::Request) {
            self.lost += 1;
            return LinkAnswer::Lost;
        }
        let Ok(answer) = self.endorser.step(alloc, call) else {
            return LinkAnswer::NoMemory;
        };
        if loss == Some(Loss::Reply) {
            self.lost += 1;
            return LinkAnswer::Lost;
        }
        LinkAnswer::Answered(answer)
    }

    fn faults(&self, id: u32) -> u64 {
        self.lost
    }

    fn has(&self, id: u32) -> bool {
        id == 1
    }
}

fn row(prev: Digest, entry: Entry) -> Row
    requires { IsWithinLimits entry }
{
    let metablock = MetaBlock {
        prev,
        entry: entry.entry_digest(),
        height: entry.height(),
    };
    Row { entry, metablock }
}

fn key(height: u64) -> Key {
    Key::Row {
        handle: digest(HANDLE),
        height,
    }
}

/// Puts the three rows of the ledger.
fn fill<S: Store>(alloc: Global, store: &mut S) -> Result<(), NoMemory> {
    let handle = digest(HANDLE);
    let first = row(Digest::ZERO, first(alloc, b'a')?);
    let second = row(first.metablock.tail(), later(alloc, handle, 1, b'b')?);
    let third = row(second.metablock.tail(), later(alloc, handle, 2, b'c')?);
    for row in [first, second, third] {
        let body = row.write(alloc)?;
        match store.put_new(alloc, &key(row.height()), body.bytes()) {
            Put::Done | Put::Taken => {}
            Put::Failed | Put::NoMemory => return Err(NoMemory),
        }
    }
    Ok(())
}

/// How a catch-up ended.
#[derive(Clone, Copy, Debug, PartialEq, Eq)]
enum Ending {
    Reached,
    Ahead(u64, Digest),
    Lost,
    Refused,
    OutOfPlace,
    StoreFault,
    Gap(Digest, u64),
    BadRow(Key),
    Other,
}

fn ending_of(progress: &Progress) -> Ending {
    match progress {
        Progress::More => Ending::Other,
        Progress::Reached => Ending::Reached,
        Progress::Ahead { count, tail } => Ending::Ahead(*count, *tail),
        Progress::Member { reason } => match reason {
            Reason::Lost => Ending::Lost,
            Reason::Refused { .. } => Ending::Refused,
            Reason::Other { .. } => Ending::OutOfPlace,
        },
        Progress::Row { refusal } => match refusal {
            Refusal::StoreFault => Ending::StoreFault,
            Refusal::Gap { handle, missing } => Ending::Gap(*handle, *missing),
            Refusal::BadRow { key, .. } => Ending::BadRow(*key),
            _ => Ending::Other,
        },
    }
}

/// Steps to the end: after how many steps that was, and how it ended.
fn finish<S: Store, L: Link>(
    alloc: Global,
    mut catch_up: CatchUp,
    store: &mut S,
    link: &mut L,
) -> Result<(u64, Ending), NoMemory>
    requires { is_live catch_up ≡ true }
{
    let mut steps = 1u64;
    loop {
        match catch_up.step(alloc, store, link)? {
            Progress::More => steps = steps.saturating_add(1),
            progress => return Ok((steps, ending_of(&progress))),
        }
    }
}

#[test]
fn a_member_is_brought_forward(rt: HostRuntime) -> Result<(), Fail> {
    let alloc = rt.alloc();
    let mut store = MemStore::new(alloc);
    fill(alloc, &mut store)?;
    let mut way = Way {
        endorser: active(alloc, 1, &[1, 2, 3])?,
        loses: None,
        lost: 0,
    };
    let handle = digest(HANDLE);
    let tail = digest(TAIL_3);
    for (from, to, loses, expected, count) in [
        // The first entry, one height.
        (0, 1, None, (2, Ending::Reached), 1),
        // A lost request leaves the member as it was; after a lost reply it has come further than it told.
        (1, 3, Some(Loss::Request), (2, Ending::Lost), 1),
        (1, 3, Some(Loss::Reply), (2, Ending::Lost), 2),
        // Signed again at the height that it had, and then further.
        (1, 3, None, (4, Ending::Reached), 3),
        // More stands than was sent: just the wanted count, or one above it.
        (0, 3, None, (2, Ending::Reached), 3),
        (0, 2, None, (2, Ending::Ahead(3, tail)), 3),
    ] {
        way.loses = loses;
        let catch_up = CatchUp::new(1, &handle, from, to);
        assert_eq!(rt; finish(alloc, catch_up, &mut store, &mut way)?, expected);
        assert_eq!(rt; way.endorser.row(&handle).1, count);
    }
    assert_eq!(rt; way.endorser.row(&handle), (tail, 3));
    assert_eq!(rt; way.faults(1), 2);
    Ok(())
}

#[test]
fn a_row_that_is_not_to_be_had_has_its_cause(rt: HostRuntime) -> Result<(), Fail> {
    let alloc = rt.alloc();
    let mut store = LyingStore::new(alloc);
    fill(alloc, &mut store)?;
    let mut way = Way {
        endorser: active(alloc, 1, &[1, 2, 3])?,
        loses: None,
        lost: 0,
    };
    let handle = digest(HANDLE);
    let catch_up = CatchUp::new(1, &handle, 0, 4);
    assert_eq!(rt;
        finish(alloc, catch_up, &mut store, &mut way)?,
        (7, Ending::Gap(handle, 3))
    );
    let catch_up = CatchUp::new(2, &handle, 0, 4);
    assert_eq!(rt;
        finish(alloc, catch_up, &mut store, &mut way)?,
        (2, Ending::Lost)
    );
    store.lie(Lie::Hide { key: key(1) })?;
    let catch_up = CatchUp::new(1, &handle, 1, 3);
    assert_eq!(rt;
        finish(alloc, catch_up, &mut store, &mut way)?,
        (1, Ending::Gap(handle, 1))
    );
    store.lie(Lie::Stale {
        key: key(1),
        from: key(0),
    })?;
    let catch_up = CatchUp::new(1, &handle, 1, 3);
    assert_eq!(rt;
        finish(alloc, catch_up, &mut store, &mut way)?,
        (1, Ending::BadRow(key(1)))
    );
    store.honest();
    store.fail_next(1);
    let catch_up = CatchUp::new(1, &handle, 1, 3);
    assert_eq!(rt;
        finish(alloc, catch_up, &mut store, &mut way)?,
        (1, Ending::StoreFault)
    );
    let catch_up = CatchUp::new(1, &handle, 1, 3);
    assert_eq!(rt;
        finish(alloc, catch_up, &mut store, &mut way)?,
        (2, Ending::Reached)
    );
    Ok(())
}
