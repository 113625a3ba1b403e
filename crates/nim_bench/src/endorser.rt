use crate::round::{Round, Size, no_memory, show};
use endorser_core::Endorser;
use nim_base::{Digest, NoMemory, digest_of};
use port::{EndorserAnswer, EndorserCall};
use seal::{KeyBook, MacScheme, MacSigner, Signer};
use statement::{Config, Member, Statement, ViewBlock};
use std::alloc::{AllocError, Global};
use std::io;
use std::rt::Clock as Timer;
use std::time::Instant;
use tail_map::TailMap;

const ID: u32 = 1;

/// The digests without which no append is signed: that of the new tail, and two for the signature.
const DIGESTS: u64 = 3;

/// Appends to an active endorser with few ledgers and with as many as it takes, beside the digests of as
/// many appends.
pub fn measure<R: Timer + Print>(rt: &R, alloc: Global, size: Size) -> io::Result<()> {
    for ledgers in [16, 4096] {
        let heights = match size {
            Size::Small => 2,
            Size::Long => 524_288 / ledgers,
        };
        let appends = appends(rt, alloc, ledgers, heights)?;
        let digests = digests(rt, appends.calls)?;
        show(
            rt,
            size,
            ("ledgers", ledgers),
            ("appends", &appends),
            ("digests", &digests),
        )?;
    }
    Ok(())
}

/// A ledger and its tail.
#[derive(Clone, Copy)]
struct Head {
    handle: Digest,
    tail: Digest,
}

/// The only member of its view, which it has begun.
fn active(alloc: Global) -> io::Result<Endorser<MacScheme>> {
    let signer = MacSigner::of_id(ID);
    let me = Member {
        id: ID,
        key: signer.key(),
    };
    let config = Config::of(alloc, &[me]).map_err(|_| io::Error::from(AllocError))?;
    let block = ViewBlock {
        prev: Digest::ZERO,
        config: config.digest(),
        number: 0,
    };
    let book = KeyBook::of_ids(alloc, &[ID]).map_err(no_memory)?;
    let mut endorser = Endorser::new(ID, signer, book);
    for call in [
        EndorserCall::Initialize {
            block,
            config,
            map: TailMap::new(alloc),
        },
        EndorserCall::Activate {
            view: block.tail(),
            proof: None,
        },
    ] {
        endorser.step(alloc, &call).map_err(no_memory)?;
    }
    Ok(endorser)
}

/// So many ledgers, each with its first entry.
fn begin_ledgers(
    alloc: Global,
    endorser: &mut Endorser<MacScheme>,
    ledgers: u64,
) -> io::Result<Vec<Head>> {
    let mut heads = Vec::new(alloc);
    for number in 0..ledgers {
        let mut head = Head {
            handle: digest_of(&number.to_be_bytes()),
            tail: Digest::ZERO,
        };
        append(alloc, endorser, &mut head, 0).map_err(no_memory)?;
        heads.push(head)?;
    }
    Ok(heads)
}

/// Adds an entry to a ledger, and answers the count that was signed, or 0.
fn append(
    alloc: Global,
    endorser: &mut Endorser<MacScheme>,
    head: &mut Head,
    height: u64,
) -> Result<u64, NoMemory> {
    let call = EndorserCall::Append {
        handle: head.handle,
        prev: head.tail,
        entry: head.handle,
        height,
    };
    let answer = endorser.step(alloc, &call)?;
    Ok(follow(head, &answer))
}

/// Goes on to the tail that was signed, and answers its count, or 0.
fn follow(head: &mut Head, answer: &EndorserAnswer) -> u64 {
    match answer {
        EndorserAnswer::Signed {
            statement: Statement::Held { tail, count, .. },
            ..
        } => {
            *head = Head {
                handle: head.handle,
                tail: *tail,
            };
            *count
        }
        _ => 0,
    }
}

/// An entry for each ledger, and the sum of the counts.
fn append_each(
    alloc: Global,
    endorser: &mut Endorser<MacScheme>,
    heads: &mut [Head],
    height: u64,
) -> Result<u64, NoMemory> {
    let mut sum = 0u64;
    for head in heads.iter_mut() {
        sum = sum.wrapping_add(append(alloc, endorser, head, height)?);
    }
    Ok(sum)
}

/// Appends at so many heights above the first entry of each ledger.
fn appends<R: Timer>(rt: &R, alloc: Global, ledgers: u64, heights: u64) -> io::Result<Round> {
    let mut endorser = active(alloc)?;
    let mut heads = begin_ledgers(alloc, &mut endorser, ledgers)?;
    let mut sum = 0u64;
    let begin = Instant::now(rt)?;
    for height in 1..heights.saturating_add(1) {
        let counts = append_each(alloc, &mut endorser, &mut heads, height).map_err(no_memory)?;
        sum = sum.wrapping_add(counts);
    }
    Ok(Round {
        calls: ledgers.saturating_mul(heights),
        sum,
        time: begin.elapsed(rt)?,
    })
}

/// The digests of so many appends: of a metablock, and of a statement behind a block and of a digest behind
/// one, as a keyed digest makes them.
fn digests<R: Timer>(rt: &R, appends: u64) -> io::Result<Round> {
    let mut metablock = [0; 73];
    let mut statement = [0; 64 + 105];
    let mut inner = [0; 64 + 32];
    let mut sum = 0u64;
    let begin = Instant::now(rt)?;
    for _ in 0..appends {
        let Digest(tail) = digest_of(&metablock);
        metablock[1..33].copy_from_slice(&tail);
        statement[129..161].copy_from_slice(&tail);
        let Digest(digest) = digest_of(&statement);
        inner[64..].copy_from_slice(&digest);
        let Digest([first, ..]) = digest_of(&inner);
        sum = sum.wrapping_add(u64::from(first));
    }
    Ok(Round {
        calls: appends.saturating_mul(DIGESTS),
        sum,
        time: begin.elapsed(rt)?,
    })
}
