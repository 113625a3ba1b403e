use crate::round::{Round, Size, show};
use chain_block::{MetaBlock, tail_of};
use fixtures::{first, member, receipt};
use nim_base::{Digest, NoMemory, digest_of};
use port::{Row, Standing};
use seal::{Checker, KeyBook};
use statement::{Config, Mark, Statement};
use std::alloc::{AllocError, Global};
use std::io;
use std::rt::Clock as Timer;
use std::time::Instant;
use verifier::Verifier;
use view_ledger::ViewChain;

const PAYLOAD: u8 = b'p';

/// Checks of a reply with a chain of 0 and of 1,000 metablocks, beside the digests and signatures that each
/// one needs.
pub fn measure<R: Timer + Print>(rt: &R, alloc: Global, size: Size) -> io::Result<()> {
    let (short, long) = match size {
        Size::Small => (3, 1),
        Size::Long => (100_000, 1_000),
    };
    measure_chain(rt, alloc, size, 0, short)?;
    measure_chain(rt, alloc, size, 1000, long)
}

fn no_memory<T: Drop>(_: T) -> io::Error {
    io::Error::from(AllocError)
}

/// Blocks above the first, and the tail to which they lead.
fn blocks(alloc: Global, tail: Digest, above: u64) -> io::Result<(Vec<MetaBlock>, Digest)> {
    let mut blocks = Vec::new(alloc);
    let mut prev = tail;
    for height in 0..above {
        let block = MetaBlock {
            prev,
            entry: tail,
            height: height.saturating_add(1),
        };
        prev = block.tail();
        blocks.push(block)?;
    }
    Ok((blocks, prev))
}

/// A client of a view of three.
fn client(alloc: Global) -> io::Result<Verifier<KeyBook>> {
    let members = [member(1), member(2), member(3)];
    let config = Config::of(alloc, &members).map_err(no_memory)?;
    let chain = ViewChain::start(alloc, &config, &members).map_err(no_memory)?;
    let book = KeyBook::of_ids(alloc, &[1, 2, 3]).map_err(no_memory)?;
    Ok(Verifier::new(chain, book))
}

/// The first row of a ledger.
fn first_row(alloc: Global) -> Result<Row, NoMemory> {
    let entry = first(alloc, PAYLOAD)?;
    let metablock = MetaBlock {
        prev: Digest::ZERO,
        entry: entry.handle(),
        height: 0,
    };
    Ok(Row { entry, metablock })
}

/// What a service replies of this row, with so many blocks above it.
fn reply(alloc: Global, view: Digest, row: Row, above: u64) -> io::Result<Standing> {
    let handle = row.handle();
    let (chain, tail) = blocks(alloc, row.metablock.tail(), above)?;
    let statement = Statement::Held {
        view,
        handle,
        tail,
        count: above.saturating_add(1),
    };
    Ok(Standing {
        row,
        chain,
        receipt: receipt(alloc, statement, &[(1, 1), (2, 2)]).map_err(no_memory)?,
    })
}

fn measure_chain<R: Timer + Print>(
    rt: &R,
    alloc: Global,
    size: Size,
    above: u64,
    calls: u64,
) -> io::Result<()> {
    let client = client(alloc)?;
    let view = client.chain().tail(0).unwrap_or(Digest::ZERO);
    let row = first_row(alloc).map_err(no_memory)?;
    let reply = reply(alloc, view, row, above)?;
    let work = timed_checks(rt, &client, &reply, calls)?;
    let floor = timed_least(rt, alloc, &reply, calls)?;
    show(
        rt,
        size,
        ("blocks", above),
        ("checks", &work),
        ("digests and signatures", &floor),
    )
}

fn timed_checks<R: Timer>(
    rt: &R,
    client: &Verifier<KeyBook>,
    reply: &Standing,
    calls: u64,
) -> io::Result<Round> {
    let handle = reply.row.handle();
    let begin = Instant::now(rt)?;
    let sum = checks(client, &handle, reply, calls);
    let time = begin.elapsed(rt)?;
    Ok(Round { calls, sum, time })
}

fn timed_least<R: Timer>(rt: &R, alloc: Global, reply: &Standing, calls: u64) -> io::Result<Round> {
    let book = KeyBook::of_ids(alloc, &[1, 2, 3]).map_err(no_memory)?;
    let entry = first(alloc, PAYLOAD).map_err(no_memory)?;
    let text = entry.write(alloc).map_err(no_memory)?;
    let begin = Instant::now(rt)?;
    let sum = least(&book, text.bytes(), reply, calls);
    let time = begin.elapsed(rt)?;
    Ok(Round { calls, sum, time })
}

fn checks(verifier: &Verifier<KeyBook>, handle: &Digest, reply: &Standing, calls: u64) -> u64 {
    let mut accepted = 0u64;
    for _ in 0..calls {
        if verifier.check_at(handle, 0, reply).is_ok() {
            accepted = accepted.wrapping_add(1);
        }
    }
    accepted
}

/// The digests of the entry and of each block, and the two signatures.
fn least(book: &KeyBook, entry: &[u8], reply: &Standing, calls: u64) -> u64 {
    let mut accepted = 0u64;
    let bytes = reply.receipt.statement.bytes();
    let keys = [member(1).key, member(2).key];
    for _ in 0..calls {
        let tail = last_tail(entry, reply.chain.as_slice());
        let good = are_signed(
            book,
            &keys,
            bytes.as_slice(),
            reply.receipt.marks.as_slice(),
        );
        if good && tail != Digest::ZERO {
            accepted = accepted.wrapping_add(1);
        }
    }
    accepted
}

fn last_tail(entry: &[u8], chain: &[MetaBlock]) -> Digest {
    let mut tail = tail_of(&Digest::ZERO, &digest_of(entry), 0);
    for block in chain {
        tail = tail_of(&tail, &block.entry, block.height);
    }
    tail
}

fn are_signed(book: &KeyBook, keys: &[Digest], bytes: &[u8], marks: &[Mark]) -> bool {
    let mut good = true;
    for (mark, key) in marks.iter().zip(keys) {
        good = book.check(key, bytes, mark.sig.bytes()) && good;
    }
    good
}
