use blob_store::MemStore;
use fixtures::{config, members};
use nim_base::{Digest, Text};
use op_parts::{Refresh, RefreshProgress};
use port::{Attached, Key, Put, Refusal, Store, write_view};
use seal::{KeyBook, MacSigner, Signer};
use statement::{Statement, ViewBlock};
use std::alloc::Global;
use std::test::Fail;
use tail_map::TailMap;
use view_ledger::ViewChain;

const VIEW: Key = Key::View { number: 1 };

const FINALS: Key = Key::Finals { number: 1 };

/// What of view 1 stands in the store: bytes that are no view, the view, with the mark that it is complete, and with what
/// ended view 0, signed by members 1 and 3, and once for member 3 by another's signer.
#[derive(Clone, Copy, PartialEq, Eq)]
pub(crate) enum Standing {
    Nothing,
    NoView,
    Unmarked,
    Marked,
    Ended,
    Forged,
}

const CASES: [(Standing, &str, u64); 6] = [
    (Standing::Nothing, "fresh", 0),
    (Standing::NoView, "bad view", 0),
    (Standing::Unmarked, "fresh", 0),
    (Standing::Marked, "no finals", 0),
    (Standing::Ended, "fresh", 1),
    (Standing::Forged, "bad finals", 0),
];

fn refusal_word(refusal: &Refusal) -> &'static str {
    match refusal {
        Refusal::StoreFault => "fault",
        Refusal::BadRow {
            key: Key::View { number: 1 },
            bytes: Some(_),
        } => "bad view",
        Refusal::BadRow {
            key: Key::Finals { number: 1 },
            bytes: Some(_),
        } => "bad finals",
        Refusal::BadRow {
            key: Key::Finals { number: 1 },
            bytes: None,
        } => "no finals",
        _ => "other",
    }
}

/// How a refresh ends, which is after five steps at most.
fn end_of(
    alloc: Global,
    chain: &mut ViewChain,
    store: &mut MemStore,
    book: &KeyBook,
) -> &'static str {
    let mut refresh = Refresh::new();
    for _ in 0..5 {
        match refresh.step(alloc, chain, store, book) {
            Ok(RefreshProgress::More) => {}
            Ok(RefreshProgress::Fresh) => return "fresh",
            Ok(RefreshProgress::Refused { refusal }) => return refusal_word(&refusal),
            Err(_) => return "no memory",
        }
    }
    "more"
}

/// The bytes of what members 1 and 3 left when they ended view 0 with empty maps.
fn finals_body(alloc: Global, view: Digest, next: Digest, last: u32) -> Result<Text, Fail> {
    let map = TailMap::new(alloc).digest();
    let bytes = Statement::Final { view, next, map }.bytes();
    let mut text = Text::of(alloc, &[0x31, 2])?;
    for (id, signer) in [(1u32, 1), (3, last)] {
        let sig = MacSigner::of_id(signer).sign(alloc, bytes.as_slice())?;
        text.push(&id.to_be_bytes())?;
        text.push(&[0, 32])?;
        text.push(sig.bytes())?;
        text.push(&[0, 0, 0, 5, 0x30, 0, 0, 0, 0])?;
    }
    Ok(text)
}

fn put<S: Store>(alloc: Global, store: &mut S, key: &Key, body: &[u8]) -> bool {
    store.put_new(alloc, key, body) == Put::Done
}

/// Puts so much of the view into the store that follows the newest one, and says whether all of it could be put there.
pub(crate) fn stand<S: Store>(
    alloc: Global,
    store: &mut S,
    chain: &ViewChain,
    standing: Standing,
) -> Result<bool, Fail> {
    let view = chain.tail(0).unwrap_or(Digest::ZERO);
    let next = config(alloc, &[4, 5, 6])?;
    let block = ViewBlock {
        prev: view,
        config: next.digest(),
        number: 1,
    };
    let body = write_view(alloc, &block, &next)?;
    let done = match standing {
        Standing::Nothing => true,
        Standing::NoView => put(alloc, store, &VIEW, b"view") && mark(alloc, store),
        Standing::Unmarked => put(alloc, store, &VIEW, body.bytes()),
        _ => put(alloc, store, &VIEW, body.bytes()) && mark(alloc, store),
    };
    let finals = match standing {
        Standing::Ended => Some(finals_body(alloc, view, block.tail(), 3)?),
        Standing::Forged => Some(finals_body(alloc, view, block.tail(), 2)?),
        _ => None,
    };
    let ended = match finals {
        Some(body) => put(alloc, store, &FINALS, body.bytes()),
        None => true,
    };
    Ok(done && ended)
}

fn mark<S: Store>(alloc: Global, store: &mut S) -> bool {
    store.attach(alloc, &VIEW, &[1]) == Attached::Done
}

pub(crate) fn one_view(alloc: Global) -> Result<ViewChain, Fail> {
    let roster = members(alloc, &[1, 2, 3, 4, 5, 6])?;
    Ok(ViewChain::start(alloc, &config(alloc, &[1, 2, 3])?, &roster)?)
}

#[test]
fn chains_go_on_by_complete_views(rt: HostRuntime) -> Result<(), Fail> {
    let alloc = rt.alloc();
    let book = KeyBook::of_ids(alloc, &[1, 2, 3])?;
    for (standing, word, number) in CASES {
        let mut chain = one_view(alloc)?;
        let mut store = MemStore::new(alloc);
        assert!(rt; stand(alloc, &mut store, &chain, standing)?);
        assert_eq!(rt; end_of(alloc, &mut chain, &mut store, &book), word);
        assert_eq!(rt; chain.number(), number);
    }
    let mut chain = one_view(alloc)?;
    let mut store = MemStore::new(alloc);
    stand(alloc, &mut store, &chain, Standing::Ended)?;
    store.fail_next(1);
    assert_eq!(rt; end_of(alloc, &mut chain, &mut store, &book), "fault");
    assert_eq!(rt; end_of(alloc, &mut chain, &mut store, &book), "fresh");
    assert_eq!(rt; chain.number(), 1);
    Ok(())
}
