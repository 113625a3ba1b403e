ghost use Rattle.std.specs.Prelude.{◌≡◌, ◌≤◌};
ghost use Rattle.chain_block.specs.Entry.{IsWithinLimits, height_of};

use crate::round::{Round, Size, no_memory, show};
use blob_store::MemStore;
use chain_block::{Entry, tail_of};
use endorser_cell::CellBank;
use fixtures::{activate, cell, config, first, first_call, later, members};
use nim_base::{Digest, digest_of};
use op_entry::{AppendOp, NewOp};
use port::{Refusal, Standing};
use seal::{Checker, KeyBook, MacScheme, MacSigner, Signer};
use stamp_clock::{Clock, ClockName, ClockStart, Pass};
use statement::Statement;
use std::alloc::{AllocError, Global};
use std::io;
use std::marker::Brand;
use std::rt::Clock as Timer;
use std::time::Instant;
use view_ledger::ViewChain;

const IDS: [u32; 3] = [1, 2, 3];

const PAYLOAD: u8 = b'p';

/// More stamps than the calls of a cell take.
const SHARE: u64 = 1 << 40;

/// More than an operation takes here.
const MOST_STEPS: u64 = 100;

/// Whole appends to one ledger over a store in memory and three cells, beside the digests and signatures that as many need.
pub fn measure<R: Timer + Print>(rt: &R, alloc: Global, size: Size) -> io::Result<()> {
    let appends = match size {
        Size::Small => 3,
        Size::Long => 20_000,
    };
    let start = ClockStart::new(alloc).map_err(no_memory)?;
    let work = timed_appends::<R, Brand>(rt, alloc, start, appends)?;
    let floor = timed_least(rt, alloc, appends)?;
    show(
        rt,
        size,
        ("endorsers", 3),
        ("whole appends", &work),
        ("digests and signatures", &floor),
    )
}

fn out_of_memory<T: Drop>(_: T) -> io::Error {
    io::Error::from(AllocError)
}

/// What appends go to.
#[derive(Drop)]
struct Service<'c, K: ClockName> {
    store: MemStore,
    bank: CellBank<'c, MacScheme, K>,
    book: KeyBook,
}

/// An empty store, and three members that are active in their view.
fn begin<'c, K: ClockName>(
    alloc: Global,
    clock: &'c Clock<K>,
    mut rest: Pass<K>,
    view: Digest,
) -> io::Result<Service<'c, K>> {
    let mut cells = Vec::new(alloc);
    for id in IDS {
        if SHARE <= rest.left() {
            let pass = clock.split(&mut rest, SHARE).map_err(no_memory)?;
            cells.push(cell(alloc, id, pass).map_err(no_memory)?)?;
        }
    }
    let mut bank = CellBank::new(alloc, clock, cells);
    let call = first_call(alloc, &IDS).map_err(out_of_memory)?;
    for id in IDS {
        bank.raw(alloc, id, &call);
        bank.raw(alloc, id, &activate(view));
    }
    Ok(Service {
        store: MemStore::new(alloc),
        bank,
        book: KeyBook::of_ids(alloc, &IDS).map_err(no_memory)?,
    })
}

/// The count that a receipt is for, or 0.
fn count_of(answer: &Option<Result<Standing, Refusal>>) -> u64 {
    match answer {
        Some(Ok(standing)) => match standing.receipt.statement {
            Statement::Held { count, .. } => count,
            _ => 0,
        },
        _ => 0,
    }
}

/// Makes the ledger, and hands the chain back.
fn make<K: ClockName>(
    alloc: Global,
    service: &mut Service<'_, K>,
    chain: ViewChain,
) -> io::Result<ViewChain> {
    let mut op = NewOp::new(chain, first(alloc, PAYLOAD).map_err(no_memory)?);
    for _ in 0..MOST_STEPS {
        if !op.step(alloc, &mut service.store, &mut service.bank, &service.book) {
            break;
        }
    }
    Ok(op.into_chain())
}

/// Appends an entry, and hands the chain back with the count that was signed.
fn append<K: ClockName>(
    alloc: Global,
    service: &mut Service<'_, K>,
    chain: ViewChain,
    entry: Entry,
) -> (ViewChain, u64)
    requires later { 1 ≤ height_of entry }
    requires limits { IsWithinLimits entry }
{
    let mut op = AppendOp::new(chain, entry);
    for _ in 0..MOST_STEPS {
        if !op.step(alloc, &mut service.store, &mut service.bank, &service.book) {
            break;
        }
    }
    let (chain, answer) = op.into_parts();
    let count = count_of(&answer);
    (chain, count)
}

fn timed_appends<R: Timer, K: ClockName>(
    rt: &R,
    alloc: Global,
    start: ClockStart,
    appends: u32,
) -> io::Result<Round>
    requires { start ≡ K.clock }
{
    let (clock, rest) = start.open::<K>();
    let config = config(alloc, &IDS).map_err(out_of_memory)?;
    let roster = members(alloc, &IDS).map_err(no_memory)?;
    let chain = ViewChain::start(alloc, &config, &roster).map_err(out_of_memory)?;
    let view = chain.tail(0).unwrap_or(Digest::ZERO);
    let mut service = begin(alloc, &clock, rest, view)?;
    let handle = first(alloc, PAYLOAD).map_err(no_memory)?.handle();
    let mut chain = make(alloc, &mut service, chain)?;
    let mut sum = 0u64;
    let begin = Instant::now(rt)?;
    for below in 0..appends {
        let height = u64::from(below) + 1;
        if height <= u64::from(u32::MAX) {
            let entry = later(alloc, handle, height, PAYLOAD).map_err(no_memory)?;
            let (after, count) = append(alloc, &mut service, chain, entry);
            chain = after;
            sum = sum.wrapping_add(count);
        }
    }
    Ok(Round {
        calls: u64::from(appends),
        sum,
        time: begin.elapsed(rt)?,
    })
}

/// What an append can't do without: the digests of its entry and of the one below, the tails of both rows and of each
/// endorser's new row, and three signatures that are made and checked.
fn timed_least<R: Timer>(rt: &R, alloc: Global, appends: u32) -> io::Result<Round> {
    let entry = first(alloc, PAYLOAD).map_err(no_memory)?;
    let text = entry.write(alloc).map_err(no_memory)?;
    let book = KeyBook::of_ids(alloc, &IDS).map_err(no_memory)?;
    let mut sum = 0u64;
    let begin = Instant::now(rt)?;
    for height in 0..appends {
        let digest = digest_of(text.bytes());
        let below = tail_of(&digest, &digest_of(text.bytes()), u64::from(height));
        let signed = signed_by_all(alloc, &book, &digest, &below, u64::from(height))?;
        sum = sum.wrapping_add(signed);
    }
    Ok(Round {
        calls: u64::from(appends),
        sum,
        time: begin.elapsed(rt)?,
    })
}

/// How many of three endorsers' signatures over a new tail are accepted.
fn signed_by_all(
    alloc: Global,
    book: &KeyBook,
    entry: &Digest,
    below: &Digest,
    height: u64,
) -> io::Result<u64> {
    let mut good = 0u64;
    let own = tail_of(below, entry, height);
    for id in IDS {
        let mut signer = MacSigner::of_id(id);
        let statement = Statement::Held {
            view: own,
            handle: *entry,
            tail: tail_of(below, entry, height),
            count: height,
        };
        let bytes = statement.bytes();
        let sig = signer.sign(alloc, bytes.as_slice()).map_err(out_of_memory)?;
        if book.check(&signer.key(), bytes.as_slice(), sig.bytes()) {
            good = good.wrapping_add(1);
        }
    }
    Ok(good)
}
