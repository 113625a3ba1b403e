use fixtures::{finals, member, receipt};
use nim_base::Digest;
use port::ViewRow;
use seal::KeyBook;
use statement::{Config, Statement, ViewBlock};
use std::alloc::Global;
use std::test::Fail;
use view_ledger::{ReceiptFault, ViewChain, ViewFault};

fn held(view: Digest) -> Statement {
    Statement::Held {
        view,
        handle: Digest::ZERO,
        tail: Digest::ZERO,
        count: 1,
    }
}

#[test]
fn receipts_by_one_change_each(rt: HostRuntime) -> Result<(), Fail> {
    let alloc = rt.alloc();
    let book = KeyBook::of_ids(alloc, &[1, 2, 3, 4, 5])?;
    let roster = [member(1), member(2), member(3), member(4)];
    let config = Config::of(alloc, &roster)?;
    let chain = ViewChain::start(alloc, &config, &roster)?;
    let view = chain.tail(0).unwrap_or(Digest::ZERO);
    let good = receipt(alloc, held(view), &[(1, 1), (2, 2), (4, 4)])?;
    assert_eq!(rt; chain.check_receipt(&book, &good), Ok(0));
    let unknown = receipt(alloc, held(Digest::ZERO), &[(1, 1), (2, 2), (4, 4)])?;
    assert_eq!(rt;
        chain.check_receipt(&book, &unknown),
        Err(ReceiptFault::UnknownView)
    );
    let twice = receipt(alloc, held(view), &[(1, 1), (2, 2), (2, 2)])?;
    assert_eq!(rt;
        chain.check_receipt(&book, &twice),
        Err(ReceiptFault::Order { id: 2 })
    );
    let stranger = receipt(alloc, held(view), &[(1, 1), (2, 2), (5, 5)])?;
    assert_eq!(rt;
        chain.check_receipt(&book, &stranger),
        Err(ReceiptFault::NotMember { id: 5 })
    );
    let forged = receipt(alloc, held(view), &[(1, 1), (2, 3), (4, 4)])?;
    assert_eq!(rt;
        chain.check_receipt(&book, &forged),
        Err(ReceiptFault::BadMark { id: 2 })
    );
    let half = receipt(alloc, held(view), &[(1, 1), (2, 2)])?;
    assert_eq!(rt;
        chain.check_receipt(&book, &half),
        Err(ReceiptFault::Few { got: 2, need: 3 })
    );
    Ok(())
}

fn next(
    alloc: Global,
    chain: &ViewChain,
    ids: [u32; 3],
    number: u64,
    signers: &[(u32, u32)],
) -> Result<ViewRow, Fail> {
    let view = chain.tail(0).unwrap_or(Digest::ZERO);
    let config = Config::of(alloc, &[member(ids[0]), member(ids[1]), member(ids[2])])?;
    let block = ViewBlock {
        prev: view,
        config: config.digest(),
        number,
    };
    let finals = finals(alloc, view, block.tail(), signers)?;
    Ok(ViewRow {
        block,
        config,
        finals,
    })
}

/// A chain of one view of three, and who checks its marks.
#[derive(Drop)]
struct Chain {
    views: ViewChain,
    book: KeyBook,
}

fn one_view(alloc: Global) -> Result<Chain, Fail> {
    let roster = [
        member(1),
        member(2),
        member(3),
        member(4),
        member(5),
        member(6),
    ];
    let config = Config::of(alloc, &[member(1), member(2), member(3)])?;
    Ok(Chain {
        views: ViewChain::start(alloc, &config, &roster)?,
        book: KeyBook::of_ids(alloc, &[1, 2, 3, 4, 5, 6, 7])?,
    })
}

/// What the chain says of a next view, which it takes where it can.
fn extended(
    alloc: Global,
    chain: &mut Chain,
    ids: [u32; 3],
    number: u64,
    signers: &[(u32, u32)],
) -> Result<Result<(), ViewFault>, Fail> {
    let next = next(alloc, &chain.views, ids, number, signers)?;
    Ok(chain.views.extend(&chain.book, &next))
}

#[test]
fn other_views_are_refused(rt: HostRuntime) -> Result<(), Fail> {
    let alloc = rt.alloc();
    let mut chain = one_view(alloc)?;
    let linked = extended(alloc, &mut chain, [4, 5, 6], 2, &[(1, 1), (3, 3)])?;
    assert_eq!(rt; linked, Err(ViewFault::BadLink));
    let forged = extended(alloc, &mut chain, [4, 5, 6], 1, &[(1, 1), (3, 2)])?;
    assert_eq!(rt; forged, Err(ViewFault::BadMark { id: 3 }));
    let few = extended(alloc, &mut chain, [4, 5, 6], 1, &[(2, 2)])?;
    assert_eq!(rt; few, Err(ViewFault::NoQuorum { got: 1, need: 2 }));
    let stranger = extended(alloc, &mut chain, [4, 5, 7], 1, &[(1, 1), (3, 3)])?;
    assert_eq!(rt; stranger, Err(ViewFault::NotGenuine { id: 7 }));
    assert_eq!(rt; chain.views.number(), 0);
    let config = Config::of(alloc, &[member(1), member(2)])?;
    let outside = ViewChain::start(alloc, &config, &[member(2)]);
    assert_eq!(rt; outside.err(), Some(ViewFault::NotGenuine { id: 1 }));
    Ok(())
}

#[test]
fn a_view_that_follows_is_taken(rt: HostRuntime) -> Result<(), Fail> {
    let alloc = rt.alloc();
    let mut chain = one_view(alloc)?;
    let first = chain.views.copy(alloc)?;
    let good = next(alloc, &first, [4, 5, 6], 1, &[(1, 1), (3, 3)])?;
    assert_eq!(rt; chain.views.extend(&chain.book, &good), Ok(()));
    assert_eq!(rt; chain.views.number(), 1);
    assert_eq!(rt; chain.views.tail(1), Some(good.block.tail()));
    assert_eq!(rt; chain.views.tail(2), None);
    assert_eq!(rt; chain.views.config(1).is_some(), true);
    assert_eq!(rt; chain.views.find(&good.block.tail()), Some(1));
    assert_eq!(rt; first.number(), 0);
    Ok(())
}
