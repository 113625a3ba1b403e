use chain_block::MetaBlock;
use fixtures::{first, member, receipt, row};
use nim_base::{Digest, Nonce};
use port::{LatestReply, Row, Standing};
use seal::KeyBook;
use statement::{Config, Statement};
use std::alloc::Global;
use std::test::Fail;
use verifier::{ReplyFault, Verifier};
use view_ledger::{ReceiptFault, ViewChain};

const ALL: [(u32, u32); 3] = [(1, 1), (2, 2), (3, 3)];

fn client(alloc: Global) -> Result<Verifier<KeyBook>, Fail> {
    let roster = [member(1), member(2), member(3)];
    let config = Config::of(alloc, &roster)?;
    Ok(Verifier::new(
        ViewChain::start(alloc, &config, &roster)?,
        KeyBook::of_ids(alloc, &[1, 2, 3])?,
    ))
}

fn held(view: Digest, handle: Digest, tail: Digest, count: u64) -> Statement {
    Statement::Held {
        view,
        handle,
        tail,
        count,
    }
}

fn reply(
    alloc: Global,
    entry: Digest,
    statement: Statement,
    signers: &[(u32, u32)],
) -> Result<Standing, Fail> {
    Ok(Standing {
        row: row(alloc, 1, entry)?,
        chain: Vec::new(alloc),
        receipt: receipt(alloc, statement, signers)?,
    })
}

/// A client, and a ledger of one entry in its view.
#[derive(Drop)]
struct Ledger {
    client: Verifier<KeyBook>,
    view: Digest,
    handle: Digest,
    tail: Digest,
}

fn one_entry(alloc: Global) -> Result<Ledger, Fail> {
    let client = client(alloc)?;
    let view = client.chain().tail(0).unwrap_or(Digest::ZERO);
    let handle = first(alloc, 1)?.handle();
    let block = MetaBlock {
        prev: Digest::ZERO,
        entry: handle,
        height: 0,
    };
    Ok(Ledger {
        client,
        view,
        handle,
        tail: block.tail(),
    })
}

/// What the client says of a reply to a read of the ledger at a height.
fn at(
    alloc: Global,
    ledger: &Ledger,
    height: u64,
    entry: Digest,
    statement: Statement,
    signers: &[(u32, u32)],
) -> Result<Result<(), ReplyFault>, Fail> {
    let reply = reply(alloc, entry, statement, signers)?;
    Ok(ledger.client.check_at(&ledger.handle, height, &reply))
}

#[test]
fn standing_replies_are_taken(rt: HostRuntime) -> Result<(), Fail> {
    let alloc = rt.alloc();
    let ledger = one_entry(alloc)?;
    let (view, handle, tail) = (ledger.view, ledger.handle, ledger.tail);
    let seen = at(alloc, &ledger, 0, handle, held(view, handle, tail, 1), &ALL)?;
    assert_eq!(rt; seen, Ok(()));
    let good = reply(alloc, handle, held(view, handle, tail, 1), &ALL)?;
    let own = first(alloc, 1)?;
    assert_eq!(rt; ledger.client.check_append(&own, &good), Ok(()));
    let other = first(alloc, 2)?;
    assert_eq!(rt;
        ledger.client.check_append(&other, &good),
        Err(ReplyFault::WrongHandle)
    );
    Ok(())
}

#[test]
fn other_statements_are_refused(rt: HostRuntime) -> Result<(), Fail> {
    let alloc = rt.alloc();
    let ledger = one_entry(alloc)?;
    let (view, handle, tail) = (ledger.view, ledger.handle, ledger.tail);
    let latest = Statement::Latest {
        view,
        handle,
        tail,
        count: 1,
        nonce: Nonce([1; 16]),
    };
    let kind = at(alloc, &ledger, 0, handle, latest, &ALL)?;
    assert_eq!(rt; kind, Err(ReplyFault::WrongKind));
    let unknown = at(
        alloc,
        &ledger,
        0,
        handle,
        held(handle, handle, tail, 1),
        &ALL,
    )?;
    assert_eq!(rt; unknown, Err(ReplyFault::UnknownView));
    let other = at(alloc, &ledger, 0, handle, held(view, tail, tail, 1), &ALL)?;
    assert_eq!(rt; other, Err(ReplyFault::WrongHandle));
    let count = at(alloc, &ledger, 0, handle, held(view, handle, tail, 2), &ALL)?;
    assert_eq!(rt; count, Err(ReplyFault::WrongHeight));
    Ok(())
}

#[test]
fn other_rows_and_receipts_are_refused(rt: HostRuntime) -> Result<(), Fail> {
    let alloc = rt.alloc();
    let ledger = one_entry(alloc)?;
    let (view, handle, tail) = (ledger.view, ledger.handle, ledger.tail);
    let height = at(alloc, &ledger, 1, handle, held(view, handle, tail, 1), &ALL)?;
    assert_eq!(rt; height, Err(ReplyFault::WrongHeight));
    let entry = at(alloc, &ledger, 0, tail, held(view, handle, tail, 1), &ALL)?;
    assert_eq!(rt; entry, Err(ReplyFault::WrongEntry));
    let ends = held(view, handle, handle, 1);
    let ends = at(alloc, &ledger, 0, handle, ends, &ALL)?;
    assert_eq!(rt; ends, Err(ReplyFault::WrongTail));
    let few = at(
        alloc,
        &ledger,
        0,
        handle,
        held(view, handle, tail, 1),
        &[(1, 1)],
    )?;
    let cause = ReceiptFault::Few { got: 1, need: 2 };
    assert_eq!(rt; few, Err(ReplyFault::BadReceipt { cause }));
    Ok(())
}

/// What the client says of a reply to a latest read with this nonce.
fn latest(
    alloc: Global,
    ledger: &Ledger,
    nonce: Nonce,
    row: Option<Row>,
    statement: Statement,
) -> Result<Result<u64, ReplyFault>, Fail> {
    let reply = LatestReply {
        row,
        receipt: receipt(alloc, statement, &ALL)?,
    };
    Ok(ledger.client.check_latest(&ledger.handle, &nonce, &reply))
}

const DRAWN: Nonce = Nonce([1; 16]);

fn counted(ledger: &Ledger, tail: Digest, count: u64) -> Statement {
    Statement::Latest {
        view: ledger.view,
        handle: ledger.handle,
        tail,
        count,
        nonce: DRAWN,
    }
}

#[test]
fn latest_replies_are_taken(rt: HostRuntime) -> Result<(), Fail> {
    let alloc = rt.alloc();
    let ledger = one_entry(alloc)?;
    let (handle, tail) = (ledger.handle, ledger.tail);
    let empty = counted(&ledger, Digest::ZERO, 0);
    let none = latest(alloc, &ledger, DRAWN, None, empty)?;
    assert_eq!(rt; none, Ok(0));
    let own = row(alloc, 1, handle)?;
    let newest = counted(&ledger, tail, 1);
    let one = latest(alloc, &ledger, DRAWN, Some(own), newest)?;
    assert_eq!(rt; one, Ok(1));
    let empty = counted(&ledger, Digest::ZERO, 0);
    let nonce = latest(alloc, &ledger, Nonce([2; 16]), None, empty)?;
    assert_eq!(rt; nonce, Err(ReplyFault::WrongNonce));
    Ok(())
}

#[test]
fn other_newest_rows_are_refused(rt: HostRuntime) -> Result<(), Fail> {
    let alloc = rt.alloc();
    let ledger = one_entry(alloc)?;
    let handle = ledger.handle;
    let empty = counted(&ledger, Digest::ZERO, 0);
    let own = row(alloc, 1, handle)?;
    let beside = latest(alloc, &ledger, DRAWN, Some(own), empty)?;
    assert_eq!(rt; beside, Err(ReplyFault::WrongHeight));
    let one = counted(&ledger, Digest::ZERO, 1);
    let missing = latest(alloc, &ledger, DRAWN, None, one)?;
    assert_eq!(rt; missing, Err(ReplyFault::WrongEntry));
    let own = row(alloc, 1, handle)?;
    let one = counted(&ledger, Digest::ZERO, 1);
    let ends = latest(alloc, &ledger, DRAWN, Some(own), one)?;
    assert_eq!(rt; ends, Err(ReplyFault::WrongTail));
    Ok(())
}
