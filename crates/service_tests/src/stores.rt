ghost use Rattle.std.specs.Prelude.{◌≡◌, ◌≤◌, ◌↔◌};
ghost use Rattle.port.specs.Store.{Get, WasGot};
ghost use Rattle.port.specs.Trace.{StoreFact};

use blob_store::{Lie, LyingStore, MemStore};
use nim_base::Digest;
use port::{Attached, Got, Key, Put, Store};
use std::alloc::Global;
use std::test::Fail;

const FIRST: Key = Key::Row {
    handle: Digest::ZERO,
    height: 0,
};

const SECOND: Key = Key::Row {
    handle: Digest::ZERO,
    height: 1,
};

const VIEW: Key = Key::View { number: 0 };

/// What a get answered, in a word.
fn word(got: &Got) -> &'static str {
    match got {
        Got::Some(_) => "some",
        Got::None => "none",
        Got::Failed => "failed",
        Got::NoMemory => "no memory",
    }
}

/// Whether a get gave this body with this attached, nothing where that is empty.
fn gives(got: &Got, body: &str, attached: &str) -> bool {
    match got {
        Got::Some(stored) => {
            stored.body.bytes() == body.as_bytes()
                && match &stored.attached {
                    Some(bytes) => bytes.bytes() == attached.as_bytes(),
                    None => attached.is_empty(),
                }
        }
        _ => false,
    }
}

/// Puts a body at a key and gets what stands there, over any store.
fn put_and_get<S: Store>(store: &mut S, alloc: Global, key: &Key, body: &[u8]) -> (Put, Got)
    ensures stands { StoreFact S.view store.old store.new (Get key.now) (WasGot result.1) }
    ensures counts { (S.view store.old).faults ≤ (S.view store.new).faults }
{
    let put = store.put_new(alloc, key, body);
    let got = store.get(alloc, key);
    (put, got)
}

#[test]
fn generic_code_runs_over_each_store(rt: HostRuntime) {
    let alloc = rt.alloc();
    let mut honest = MemStore::new(alloc);
    for (body, put) in [(b"one", Put::Done), (b"two", Put::Taken)] {
        let answers = put_and_get(&mut honest, alloc, &FIRST, body);
        assert_eq!(rt; answers.0, put);
        assert!(rt; gives(&answers.1, "one", ""));
    }
    assert_eq!(rt; honest.faults(), 0);
    let mut lying = LyingStore::new(alloc);
    for (body, put) in [(b"one", Put::Done), (b"two", Put::Taken)] {
        let answers = put_and_get(&mut lying, alloc, &FIRST, body);
        assert_eq!(rt; answers.0, put);
        assert!(rt; gives(&answers.1, "one", ""));
    }
    assert_eq!(rt; lying.faults(), 0);
}

#[test]
fn honest_store_fails_as_asked(rt: HostRuntime) {
    let alloc = rt.alloc();
    let mut store = MemStore::new(alloc);
    store.fail_next(1);
    store.fail_next(2);
    assert_eq!(rt; store.put_new(alloc, &FIRST, b"lost"), Put::Failed);
    assert_eq!(rt; word(&store.get(alloc, &FIRST)), "failed");
    assert_eq!(rt; store.attach(alloc, &FIRST, b"lost"), Attached::Failed);
    assert_eq!(rt; store.faults(), 3);
    assert_eq!(rt; word(&store.get(alloc, &FIRST)), "none");
    assert_eq!(rt; store.attach(alloc, &FIRST, b"lost"), Attached::Absent);
    assert_eq!(rt; store.put_new(alloc, &FIRST, b"body"), Put::Done);
    assert_eq!(rt; store.put_new(alloc, &FIRST, b"other"), Put::Taken);
    assert_eq!(rt; store.put_new(alloc, &VIEW, b""), Put::Done);
    assert_eq!(rt; store.attach(alloc, &FIRST, b"old"), Attached::Done);
    assert_eq!(rt; store.attach(alloc, &FIRST, b"new"), Attached::Done);
    assert!(rt; gives(&store.get(alloc, &FIRST), "body", "new"));
    assert_eq!(rt; word(&store.get(alloc, &SECOND)), "none");
    assert!(rt; gives(&store.get(alloc, &VIEW), "", ""));
    assert_eq!(rt; store.faults(), 3);
}

#[test]
fn lies_hide_replace_and_fork(rt: HostRuntime) -> Result<(), Fail> {
    let alloc = rt.alloc();
    let mut store = LyingStore::new(alloc);
    assert_eq!(rt; store.put_new(alloc, &FIRST, b"first"), Put::Done);
    assert_eq!(rt; store.put_new(alloc, &SECOND, b"second"), Put::Done);
    assert_eq!(rt; store.attach(alloc, &FIRST, b"mark"), Attached::Done);

    // What is hidden isn't given, but stands; what isn't there is no lie.
    store.lie(Lie::Hide { key: SECOND })?;
    store.lie(Lie::Hide { key: VIEW })?;
    assert_eq!(rt; word(&store.get(alloc, &SECOND)), "none");
    assert_eq!(rt; store.faults(), 1);
    assert_eq!(rt; word(&store.get(alloc, &VIEW)), "none");
    assert!(rt; gives(&store.get(alloc, &FIRST), "first", "mark"));
    assert_eq!(rt; store.put_new(alloc, &SECOND, b"other"), Put::Taken);
    assert_eq!(rt; store.faults(), 1);
    let held = store.held(&SECOND);
    assert_eq!(rt;
        held.is_some_and(|stored| stored.body.bytes() == b"second".as_slice()),
        true
    );

    // The later lie for gets of a key alone holds, and gives what really stands at the other.
    store.lie(Lie::Stale {
        key: SECOND,
        from: FIRST,
    })?;
    assert!(rt; gives(&store.get(alloc, &SECOND), "first", "mark"));
    assert_eq!(rt; store.faults(), 2);
    store.lie(Lie::Stale {
        key: SECOND,
        from: VIEW,
    })?;
    assert_eq!(rt; word(&store.get(alloc, &SECOND)), "none");
    assert_eq!(rt; store.faults(), 3);

    // A put where the key forks replaces, and drops what was attached.
    store.lie(Lie::Fork { key: FIRST })?;
    store.fail_next(1);
    assert_eq!(rt; store.put_new(alloc, &FIRST, b"forked"), Put::Failed);
    assert_eq!(rt; store.put_new(alloc, &FIRST, b"forked"), Put::Done);
    assert_eq!(rt; store.faults(), 5);
    assert!(rt; gives(&store.get(alloc, &FIRST), "forked", ""));
    assert_eq!(rt; store.put_new(alloc, &VIEW, b"view"), Put::Done);

    // Lies end, what stands stays, and failures that are still to come come.
    store.fail_next(1);
    store.honest();
    assert_eq!(rt; word(&store.get(alloc, &SECOND)), "failed");
    assert!(rt; gives(&store.get(alloc, &SECOND), "second", ""));
    assert_eq!(rt; store.put_new(alloc, &FIRST, b"late"), Put::Taken);
    assert!(rt; gives(&store.get(alloc, &FIRST), "forked", ""));
    assert_eq!(rt; store.faults(), 6);
    assert!(rt; store.held(&VIEW).is_some());
    Ok(())
}
