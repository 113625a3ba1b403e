use crate::endorser_calls::{
    IDS, Seen, VIEW, answer_seen, append, begin_view, finalize, first, held, initialize, latest,
    latest_of, row, show, step, with_config, with_proof,
};
use crate::signing::{Counted, CountedScheme, OfOneByte};
use chain_block::tail_of;
use endorser_core::Endorser;
use fixtures::{activate, active, digest, member};
use nim_base::{Digest, digest_of};
use port::{EndorserAnswer, EndorserCall, Phase, ProofCause};
use seal::MacScheme;
use statement::{Member, Statement};
use std::alloc::Global;
use std::test::Fail;

// What is written in hexadecimal was worked out with Python's hashlib and hmac, from the byte forms.

/// The digests of the texts `first entry` and `second entry`.
const ENTRY_0: &str = "1794b44d84671d16aac5fc11175f14625688558bf7624865d788159d0fd94467";

const ENTRY_1: &str = "acddd9418ae35d692cbaaeb64703fa695cbfce3d2cfffe09214b200c6b4cc971";

/// The tails of their ledger after each.
const TAIL_1: &str = "f24b2023c23401c4a03b26d14f6b72d8810e0ecfbbc643ef9338f5721b835e1d";

const TAIL_2: &str = "3e3fb947ff9b4cf17bd2816aec08bd1334b34bdfaf004ffd1fdf8528c2b4002d";

/// What id 1 signs in this view: counts 1 and 2 as held, and count 2 with the nonce of sevens.
const HELD_1: &str = "8ce68973b900471431c6ee699efa9057cc1985268c0b75f9d8cd6f5f38d6d872";

const HELD_2: &str = "07bc2b172bcec5ce10d051207c7b9e397c0c98d66aaf869a4b49c65e7af49d12";

const LATEST_2: &str = "d5292425891271c7d210181adf0d712ad5935a63ab4d619f8299dd43f10b95a6";

#[test]
fn signed_statements(rt: HostRuntime) -> Result<(), Fail> {
    let alloc = rt.alloc();
    let mut endorser = active(alloc, 1, &IDS)?;
    let handle = digest(ENTRY_0);
    assert_eq!(rt; handle, digest_of(b"first entry"));
    for (call, statement, expected) in [
        (
            append(handle, Digest::ZERO, handle, 0),
            held(handle, digest(TAIL_1), 1),
            HELD_1,
        ),
        (
            append(handle, digest(TAIL_1), digest(ENTRY_1), 1),
            held(handle, digest(TAIL_2), 2),
            HELD_2,
        ),
        (
            latest(handle),
            latest_of(handle, digest(TAIL_2), 2),
            LATEST_2,
        ),
    ] {
        let answer = endorser.step(alloc, &call)?;
        assert_eq!(rt; answer_seen(&answer), statement);
        let accepted = match &answer {
            EndorserAnswer::Signed { sig, .. } => sig.bytes() == digest(expected).0.as_slice(),
            _ => false,
        };
        assert!(rt; accepted);
    }
    Ok(())
}

#[test]
fn without_a_view(rt: HostRuntime) -> Result<(), Fail> {
    let alloc = rt.alloc();
    let mut endorser = first(alloc)?;
    let handle = digest(ENTRY_0);
    let nobody = Seen::WrongPhase(Phase::Uninitialized);
    let three = [member(1), member(2), member(3)];
    let other_key = Member {
        id: 1,
        key: member(2).key,
    };
    let later = initialize(alloc, Digest::ZERO, &three, 1, &[])?;
    let mixed = with_config(alloc, begin_view(alloc)?, &[member(2)])?;
    let stranger = initialize(alloc, Digest::ZERO, &[member(2), member(3)], 0, &[])?;
    let impostor = initialize(alloc, Digest::ZERO, &[other_key, member(2)], 0, &[])?;
    let begins = begin_view(alloc)?;
    for (call, answer) in [
        (
            show(handle),
            Seen::Shown(Phase::Uninitialized, 0, Digest::ZERO, 0),
        ),
        (activate(digest(VIEW)), nobody),
        (append(handle, Digest::ZERO, handle, 0), nobody),
        (latest(handle), nobody),
        (finalize(), nobody),
        (later, Seen::BadView),
        (mixed, Seen::BadView),
        (stranger, Seen::NotMember),
        (impostor, Seen::NotMember),
        (
            show(handle),
            Seen::Shown(Phase::Uninitialized, 0, Digest::ZERO, 0),
        ),
        (begins, Seen::Done),
        (
            show(handle),
            Seen::Shown(Phase::Initialized, 0, Digest::ZERO, 0),
        ),
    ] {
        assert_eq!(rt; step(alloc, &mut endorser, &call)?, answer);
    }
    Ok(())
}

#[test]
fn with_a_view(rt: HostRuntime) -> Result<(), Fail> {
    let alloc = rt.alloc();
    let mut endorser = first(alloc)?;
    let handle = digest(ENTRY_0);
    let waits = Seen::WrongPhase(Phase::Initialized);
    let three = [member(1), member(2), member(3)];
    let rows = [row(handle, digest(TAIL_1))];
    let begins = begin_view(alloc)?;
    let again = begin_view(alloc)?;
    let with_row = initialize(alloc, Digest::ZERO, &three, 0, &rows)?;
    let on_another = initialize(alloc, handle, &three, 0, &[])?;
    let later = initialize(alloc, Digest::ZERO, &three, 1, &[])?;
    let mixed = with_config(alloc, begin_view(alloc)?, &[member(1)])?;
    let proven = with_proof(alloc, digest(VIEW))?;
    for (call, answer) in [
        (begins, Seen::Done),
        (again, Seen::Done),
        (with_row, waits),
        (on_another, waits),
        (later, waits),
        (mixed, waits),
        (append(handle, Digest::ZERO, handle, 0), waits),
        (latest(handle), waits),
        (finalize(), waits),
        (activate(handle), Seen::BadView),
        (proven, Seen::BadProof(ProofCause::First)),
        (
            show(handle),
            Seen::Shown(Phase::Initialized, 0, Digest::ZERO, 0),
        ),
        (activate(digest(VIEW)), Seen::Done),
        (show(handle), Seen::Shown(Phase::Active, 0, Digest::ZERO, 0)),
    ] {
        assert_eq!(rt; step(alloc, &mut endorser, &call)?, answer);
    }
    Ok(())
}

/// A first view on another view, or with a map that has a row, is taken and can't begin.
#[test]
fn views_that_cannot_begin(rt: HostRuntime) -> Result<(), Fail> {
    let alloc = rt.alloc();
    let handle = digest(ENTRY_0);
    let rows = [row(handle, digest(TAIL_1))];
    for (prev, rows, tail, count) in [
        (handle, &[][..], Digest::ZERO, 0),
        (Digest::ZERO, &rows, digest(TAIL_1), 1),
    ] {
        let mut endorser = first(alloc)?;
        let members = [member(1), member(2), member(3)];
        let call = initialize(alloc, prev, &members, 0, rows)?;
        assert_eq!(rt; step(alloc, &mut endorser, &call)?, Seen::Done);
        let view = match &call {
            EndorserCall::Initialize { block, .. } => block.tail(),
            _ => Digest::ZERO,
        };
        let shown = Seen::Shown(Phase::Initialized, 0, tail, count);
        assert_eq!(rt; step(alloc, &mut endorser, &show(handle))?, shown);
        let answer = step(alloc, &mut endorser, &activate(view))?;
        assert_eq!(rt; answer, Seen::BadProof(ProofCause::First));
        assert_eq!(rt; step(alloc, &mut endorser, &show(handle))?, shown);
    }
    Ok(())
}

#[test]
fn while_active(rt: HostRuntime) -> Result<(), Fail> {
    let alloc = rt.alloc();
    let mut endorser = active(alloc, 1, &IDS)?;
    let (handle, entry, zero) = (digest(ENTRY_0), digest(ENTRY_1), Digest::ZERO);
    let (one, two) = (digest(TAIL_1), digest(TAIL_2));
    let three = [member(1), member(2), member(3)];
    let again = begin_view(alloc)?;
    let with_row = initialize(alloc, zero, &three, 0, &[row(handle, one)])?;
    let proven = with_proof(alloc, digest(VIEW))?;
    for (call, answer) in [
        (again, Seen::Done),
        (with_row, Seen::WrongPhase(Phase::Active)),
        (activate(digest(VIEW)), Seen::Done),
        (proven, Seen::Done),
        (activate(handle), Seen::BadView),
        (finalize(), Seen::BadView),
        (latest(handle), latest_of(handle, Digest::ZERO, 0)),
        (append(handle, one, entry, 1), Seen::Behind(0)),
        (append(handle, one, entry, 0), Seen::OtherTail(zero)),
        (append(handle, zero, entry, 0), Seen::NotGenesis),
        (show(handle), Seen::Shown(Phase::Active, 0, zero, 0)),
        (append(handle, zero, handle, 0), held(handle, one, 1)),
        (append(handle, zero, handle, 0), held(handle, one, 1)),
        (append(handle, one, handle, 0), Seen::Stands(1, one)),
        (append(handle, zero, entry, 0), Seen::Stands(1, one)),
        (append(handle, zero, entry, 1), Seen::OtherTail(one)),
        (append(handle, zero, entry, 2), Seen::Behind(1)),
        (append(handle, one, entry, 1), held(handle, two, 2)),
        (append(handle, zero, handle, 0), Seen::Stands(2, two)),
        (append(handle, one, entry, 2), Seen::OtherTail(two)),
        (append(handle, two, entry, u64::MAX), Seen::Behind(2)),
        (latest(handle), latest_of(handle, two, 2)),
        (latest(entry), latest_of(entry, Digest::ZERO, 0)),
        (append(entry, zero, handle, 0), Seen::NotGenesis),
        (show(entry), Seen::Shown(Phase::Active, 0, zero, 0)),
        (show(handle), Seen::Shown(Phase::Active, 0, two, 2)),
    ] {
        assert_eq!(rt; step(alloc, &mut endorser, &call)?, answer);
    }
    Ok(())
}

#[test]
fn repeat(rt: HostRuntime) -> Result<(), Fail> {
    let alloc = rt.alloc();
    let mut endorser = active(alloc, 1, &IDS)?;
    let (handle, entry) = (digest(ENTRY_0), digest(ENTRY_1));
    let (one, two) = (digest(TAIL_1), digest(TAIL_2));
    for (call, answer) in [
        (
            append(handle, Digest::ZERO, handle, 0),
            held(handle, one, 1),
        ),
        (append(handle, one, entry, 1), held(handle, two, 2)),
        (append(handle, one, entry, 1), held(handle, two, 2)),
        (show(handle), Seen::Shown(Phase::Active, 0, two, 2)),
        (append(handle, one, handle, 1), Seen::Stands(2, two)),
        (show(handle), Seen::Shown(Phase::Active, 0, two, 2)),
    ] {
        assert_eq!(rt; step(alloc, &mut endorser, &call)?, answer);
    }
    Ok(())
}

/// A handle of its own for each number.
fn handle_of(number: u64) -> Digest {
    digest_of(&number.to_be_bytes())
}

#[test]
fn full(rt: HostRuntime) -> Result<(), Fail> {
    let alloc = rt.alloc();
    let zero = Digest::ZERO;
    let mut endorser = active(alloc, 1, &IDS)?;
    for number in 0..4096 {
        let handle = handle_of(number);
        let call = append(handle, zero, handle, 0);
        let answer = held(handle, tail_of(&zero, &handle, 0), 1);
        assert_eq!(rt; step(alloc, &mut endorser, &call)?, answer, "{number}");
    }
    let (first, last, next) = (handle_of(0), handle_of(4095), handle_of(4096));
    let tail = tail_of(&zero, &first, 0);
    for (call, answer) in [
        (append(next, zero, next, 0), Seen::Full),
        (append(next, zero, first, 0), Seen::NotGenesis),
        (append(next, tail, next, 0), Seen::OtherTail(zero)),
        (append(next, zero, next, 1), Seen::Behind(0)),
        (show(next), Seen::Shown(Phase::Active, 0, zero, 0)),
        (show(first), Seen::Shown(Phase::Active, 0, tail, 1)),
        (append(first, zero, first, 0), held(first, tail, 1)),
    ] {
        assert_eq!(rt; step(alloc, &mut endorser, &call)?, answer);
    }
    let tail = tail_of(&zero, &last, 0);
    let call = append(last, tail, first, 1);
    let answer = held(last, tail_of(&tail, &first, 1), 2);
    assert_eq!(rt; step(alloc, &mut endorser, &call)?, answer);
    Ok(())
}

#[test]
fn spent(rt: HostRuntime) -> Result<(), Fail> {
    let alloc = rt.alloc();
    let me = Member {
        id: 9,
        key: Digest([7; 32]),
    };
    let call = initialize(alloc, Digest::ZERO, &[me], 0, &[])?;
    let view = match &call {
        EndorserCall::Initialize { block, .. } => block.tail(),
        _ => Digest::ZERO,
    };
    let mut endorser = Endorser::<CountedScheme>::new(9, Counted { left: 2 }, OfOneByte);
    let (handle, zero) = (digest(ENTRY_0), Digest::ZERO);
    let tail = digest(TAIL_1);
    let held = Seen::Signed(Statement::Held {
        view,
        handle,
        tail,
        count: 1,
    });
    for (call, answer) in [
        (call, Seen::Done),
        (activate(view), Seen::Done),
        (append(handle, zero, tail, 0), Seen::NotGenesis),
        (append(handle, zero, handle, 0), held),
        (append(handle, zero, handle, 0), held),
        (append(handle, zero, handle, 0), Seen::Spent),
        (append(handle, tail, tail, 1), Seen::Spent),
        (append(tail, zero, tail, 0), Seen::Spent),
        (latest(handle), Seen::Spent),
        (append(handle, tail, tail, 2), Seen::Behind(1)),
        (append(handle, zero, tail, 0), Seen::Stands(1, tail)),
        (append(handle, zero, tail, 1), Seen::OtherTail(tail)),
        (append(tail, zero, handle, 0), Seen::NotGenesis),
        (finalize(), Seen::BadView),
        (show(tail), Seen::Shown(Phase::Active, 0, zero, 0)),
        (show(handle), Seen::Shown(Phase::Active, 0, tail, 1)),
    ] {
        assert_eq!(rt; step(alloc, &mut endorser, &call)?, answer);
    }
    Ok(())
}
