ghost use Rattle.std.specs.Prelude.{◌≡◌, ℕ, List};
ghost use Rattle.chain_block.specs.declared.entry.Entry.{Entry as Intent};
ghost use Rattle.client_pass.specs.ClientList.{IsForEntry, IsForRead};

use chain_block::MetaBlock;
use client_pass::{ClientPass, TakeFault, draws_stay};
use fixtures::{finals, first, member, receipt, row};
use nim_base::{Digest, NoMemory, Nonce};
use port::{LatestReply, Standing, ViewRow};
use seal::KeyBook;
use stamp_clock::{Clock, ClockName, ClockStart};
use statement::{Config, Statement, ViewBlock};
use std::alloc::Global;
use std::marker::Brand;
use std::test::Fail;
use verifier::{ReplyFault, Verifier};
use view_ledger::{ReceiptFault, ViewChain, ViewFault};

const ALL: [(u32, u32); 3] = [(1, 1), (2, 2), (3, 3)];

/// The nonce of the first entry, and that of a read.
const OWN: Nonce = Nonce([7; 16]);

const READ: Nonce = Nonce([8; 16]);

fn client(alloc: Global) -> Result<Verifier<KeyBook>, Fail> {
    let roster = [
        member(1),
        member(2),
        member(3),
        member(4),
        member(5),
        member(6),
    ];
    let config = Config::of(alloc, &roster[..3])?;
    Ok(Verifier::new(
        ViewChain::start(alloc, &config, &roster)?,
        KeyBook::of_ids(alloc, &[1, 2, 3])?,
    ))
}

/// What a client of a ledger with one entry is replied: one good value and one bad one of each kind.
#[derive(Drop)]
struct Replies {
    handle: Digest,
    own: Standing,
    few: Standing,
    newest: LatestReply,
    stale: LatestReply,
    next: ViewRow,
    other: ViewRow,
}

fn held(
    alloc: Global,
    view: Digest,
    handle: Digest,
    tail: Digest,
    signers: &[(u32, u32)],
) -> Result<Standing, Fail> {
    let statement = Statement::Held {
        view,
        handle,
        tail,
        count: 1,
    };
    Ok(Standing {
        row: row(alloc, 1, handle)?,
        chain: Vec::new(alloc),
        receipt: receipt(alloc, statement, signers)?,
    })
}

fn latest(
    alloc: Global,
    view: Digest,
    handle: Digest,
    tail: Digest,
    nonce: Nonce,
) -> Result<LatestReply, Fail> {
    let statement = Statement::Latest {
        view,
        handle,
        tail,
        count: 1,
        nonce,
    };
    Ok(LatestReply {
        row: Some(row(alloc, 1, handle)?),
        receipt: receipt(alloc, statement, &ALL)?,
    })
}

fn next(alloc: Global, view: Digest, number: u64) -> Result<ViewRow, Fail> {
    let config = Config::of(alloc, &[member(4), member(5), member(6)])?;
    let block = ViewBlock {
        prev: view,
        config: config.digest(),
        number,
    };
    let finals = finals(alloc, view, block.tail(), &[(1, 1), (3, 3)])?;
    Ok(ViewRow {
        block,
        config,
        finals,
    })
}

fn make_replies(alloc: Global, view: Digest) -> Result<Replies, Fail> {
    let handle = first(alloc, 1)?.handle();
    let tail = MetaBlock {
        prev: Digest::ZERO,
        entry: handle,
        height: 0,
    }
    .tail();
    Ok(Replies {
        handle,
        own: held(alloc, view, handle, tail, &ALL)?,
        few: held(alloc, view, handle, tail, &ALL[..1])?,
        newest: latest(alloc, view, handle, tail, READ)?,
        stale: latest(alloc, view, handle, tail, OWN)?,
        next: next(alloc, view, 1)?,
        other: next(alloc, view, 2)?,
    })
}

type Outcome = Result<u64, TakeFault>;

// Takes a reply to an append, where a stamp is left. The draw stays one of that entry.
fn append<K: ClockName>(
    alloc: Global,
    clock: &Clock<K>,
    pass: &mut ClientPass<KeyBook, K>,
    draw: u64,
    reply: &Standing,
) -> Outcome
    requires { (entry : Intent) × IsForEntry pass.old.lines draw entry }
    ensures { (entry : Intent) → IsForEntry pass.old.lines draw entry → IsForEntry pass.new.lines draw entry }
{
    draws_stay();
    if pass.left() == 0 {
        return Err(TakeFault::NoMemory);
    }
    match pass.take_append(alloc, clock, draw, reply) {
        Ok(()) => Ok(0),
        Err(fault) => Err(fault),
    }
}

// Takes a reply to a latest read, where a stamp is left. The draw stays one for a read.
fn read<K: ClockName>(
    alloc: Global,
    clock: &Clock<K>,
    pass: &mut ClientPass<KeyBook, K>,
    draw: u64,
    handle: &Digest,
    reply: &LatestReply,
) -> Outcome
    requires { (nonce : List ℕ) × IsForRead pass.old.lines draw nonce }
    ensures { (nonce : List ℕ) → IsForRead pass.old.lines draw nonce → IsForRead pass.new.lines draw nonce }
{
    draws_stay();
    if pass.left() == 0 {
        return Err(TakeFault::NoMemory);
    }
    pass.take_latest(alloc, clock, draw, handle, reply)
}

// An append's draw, and its reply three times: a bad one, the good one, and the good one again.
fn append_again<K: ClockName>(
    alloc: Global,
    clock: &Clock<K>,
    pass: &mut ClientPass<KeyBook, K>,
    replies: &Replies,
) -> Result<[Outcome; 4], Fail> {
    let own = first(alloc, 1)?;
    if pass.left() == 0 {
        return Err(NoMemory.into());
    }
    let draw = pass.draw(alloc, clock, &own.nonce(), Some(&own))?;
    let bad = append(alloc, clock, pass, draw, &replies.few);
    let good = append(alloc, clock, pass, draw, &replies.own);
    let again = append(alloc, clock, pass, draw, &replies.own);
    Ok([Ok(draw), bad, good, again])
}

// The same for a latest read.
fn read_again<K: ClockName>(
    alloc: Global,
    clock: &Clock<K>,
    pass: &mut ClientPass<KeyBook, K>,
    replies: &Replies,
) -> Result<[Outcome; 4], Fail> {
    if pass.left() == 0 {
        return Err(NoMemory.into());
    }
    let draw = pass.draw(alloc, clock, &READ, None)?;
    let bad = read(alloc, clock, pass, draw, &replies.handle, &replies.stale);
    let good = read(alloc, clock, pass, draw, &replies.handle, &replies.newest);
    let again = read(alloc, clock, pass, draw, &replies.handle, &replies.newest);
    Ok([Ok(draw), bad, good, again])
}

type Unit = Result<(), TakeFault>;

// What names no draw: reads at a height, looks and views, a good one and a bad one each.
fn others<K: ClockName>(
    alloc: Global,
    clock: &Clock<K>,
    pass: &mut ClientPass<KeyBook, K>,
    replies: &Replies,
) -> [Unit; 6] {
    let mut answers = [Err(TakeFault::NoMemory); 6];
    if pass.left() > 0 {
        answers[0] = pass.take_at(alloc, clock, &replies.handle, 0, &replies.own);
    }
    if pass.left() > 0 {
        answers[1] = pass.take_at(alloc, clock, &replies.handle, 1, &replies.own);
    }
    if pass.left() > 0 {
        answers[2] = pass.look(alloc, clock, &replies.handle, 0, &replies.own);
    }
    if pass.left() > 0 {
        answers[3] = pass.look(alloc, clock, &replies.handle, 0, &replies.few);
    }
    if pass.left() > 0 {
        answers[4] = pass.take_view(alloc, clock, &replies.other);
    }
    if pass.left() > 0 {
        answers[5] = pass.take_view(alloc, clock, &replies.next);
    }
    answers
}

/// The stamps of twelve lines, which one clock drew for one pass.
const STAMPS: [u64; 12] = [0, 1, 2, 3, 4, 5, 6, 7, 8, 9, 10, 11];

/// What was answered, the stamps of the lines, the newest view, and how many stamps were drawn.
#[derive(Drop)]
struct Seen {
    appended: [Outcome; 4],
    read: [Outcome; 4],
    others: [Unit; 6],
    client: u32,
    newest: u64,
    left: u64,
    stamps: Vec<u64>,
    drawn: u64,
}

fn take_each<K: ClockName>(alloc: Global, start: ClockStart) -> Result<Seen, Fail>
    requires { start ≡ K.clock }
{
    let verifier = client(alloc)?;
    let view = verifier.chain().tail(0).unwrap_or(Digest::ZERO);
    let replies = make_replies(alloc, view)?;
    let (clock, pass) = start.open::<K>();
    let mut own = ClientPass::new(alloc, 4, verifier, pass);
    let appended = append_again(alloc, &clock, &mut own, &replies)?;
    let read = read_again(alloc, &clock, &mut own, &replies)?;
    let others = others(alloc, &clock, &mut own, &replies);
    let client = own.client();
    let newest = own.chain().number();
    let left = own.left();
    let (lines, pass) = own.take();
    let mut stamps = Vec::new(alloc);
    for line in &lines {
        stamps.push(line.stamp)?;
    }
    Ok(Seen {
        appended,
        read,
        others,
        client,
        newest,
        left,
        stamps,
        drawn: clock.close(pass),
    })
}

#[test]
fn a_pass_notes_each_outcome_once(rt: HostRuntime) -> Result<(), Fail> {
    let start = ClockStart::new(rt.alloc())?;
    let seen = take_each::<Brand>(rt.alloc(), start)?;
    let few = ReplyFault::BadReceipt {
        cause: ReceiptFault::Few { got: 1, need: 2 },
    };
    assert_eq!(rt;
        seen.appended,
        [
            Ok(0),
            Err(TakeFault::Reply { fault: few }),
            Ok(0),
            Err(TakeFault::Again),
        ]
    );
    assert_eq!(rt;
        seen.read,
        [
            Ok(3),
            Err(TakeFault::Reply {
                fault: ReplyFault::WrongNonce
            }),
            Ok(1),
            Err(TakeFault::Again),
        ]
    );
    assert_eq!(rt;
        seen.others,
        [
            Ok(()),
            Err(TakeFault::Reply {
                fault: ReplyFault::WrongHeight
            }),
            Ok(()),
            Err(TakeFault::Reply { fault: few }),
            Err(TakeFault::View {
                fault: ViewFault::BadLink
            }),
            Ok(()),
        ]
    );
    assert_eq!(rt; seen.client, 4);
    assert_eq!(rt; seen.newest, 1);
    assert_eq!(rt; seen.left, (1 << 63) - 12);
    assert_eq!(rt; seen.stamps.as_slice(), STAMPS.as_slice());
    assert_eq!(rt; seen.drawn, 12);
    Ok(())
}
