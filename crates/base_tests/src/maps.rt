ghost use Rattle.std.specs.Prelude.{◌≡◌};

use crate::hexadecimal::bytes;
use nim_base::{Digest, FormFault};
use std::test::Fail;
use tail_map::{MapFault, TailMap, TailRow};

// The bytes and digests below were worked out with Python's struct and hashlib, by the form that the
// crate's pages give.

const A: &str = "0a0a0a0a0a0a0a0a0a0a0a0a0a0a0a0a0a0a0a0a0a0a0a0a0a0a0a0a0a0a0a0a";

const B: &str = "0b0b0b0b0b0b0b0b0b0b0b0b0b0b0b0b0b0b0b0b0b0b0b0b0b0b0b0b0b0b0b0b";

const T: &str = "000102030405060708090a0b0c0d0e0f101112131415161718191a1b1c1d1e1f";

const U: &str = "202122232425262728292a2b2c2d2e2f303132333435363738393a3b3c3d3e3f";

/// The rows (A, T, 258) and (B, U, 2^32).
const TWO: &[&str] = &[
    "3000000002",
    A,
    T,
    "0000000000000102",
    B,
    U,
    "0000000100000000",
];

/// The digest of 32 bytes that rise by one from the first.
fn rising(first: u8) -> Digest {
    let mut bytes = [first; 32];
    for i in 0..32 {
        bytes[i] = first.wrapping_add(i as u8);
    }
    Digest(bytes)
}

fn row(handle: u8, tail: u8, count: u64) -> TailRow
    ensures { result.count ≡ count }
{
    TailRow {
        handle: Digest([handle; 32]),
        tail: rising(tail),
        count,
    }
}

#[test]
fn maps_keep_their_rows(rt: HostRuntime) -> Result<(), Fail> {
    let alloc = rt.alloc();
    let mut map = TailMap::new(alloc);
    let none = "98daa68775d349d38e8af599a6feb67fc597d049d04d8cbde1f0a49bb85d89db";
    assert_eq!(rt; hex::encode(alloc, map.digest().0)?.as_str(), none);
    assert_eq!(rt; map.set(&row(0x0b, 0x20, 1 << 32)), Ok(()));
    map.reserve()?;
    assert_eq!(rt; map.set(&row(0x0a, 0, 258)), Ok(()));
    assert_eq!(rt; map.rows().len(), 2);
    assert_eq!(rt; map.get(&Digest([0x0a; 32])), (rising(0), 258));
    assert_eq!(rt; map.get(&Digest([0x0b; 32])), (rising(0x20), 1 << 32));
    assert_eq!(rt; map.get(&Digest([0x0c; 32])), (Digest::ZERO, 0));
    let two = "3f6558c99245ed4686225aa58e13e2bfe989516d9f2f023b84ba3e675e83164b";
    assert_eq!(rt; hex::encode(alloc, map.digest().0)?.as_str(), two);
    assert_eq!(rt; map.write(alloc)?.bytes(), bytes(alloc, TWO)?.bytes());
    let copy = map.copy(alloc)?;
    assert_eq!(rt; map.set(&row(0x0a, 0x20, 259)), Ok(()));
    let changed = "8e74cf65c0afaf7e2c747e5c4b1f6fcffd56630ab2b5c1f9efc4f7fcbcf97e33";
    assert_eq!(rt; hex::encode(alloc, map.digest().0)?.as_str(), changed);
    assert_eq!(rt; hex::encode(alloc, copy.digest().0)?.as_str(), two);
    Ok(())
}

/// 4,096 rows with the handle n in 32 bytes and the count n + 1, and one more.
#[test]
fn maps_are_full(rt: HostRuntime) -> Result<(), Fail> {
    let mut map = TailMap::new(rt.alloc());
    for n in 0..4097u64 {
        let mut handle = [0; 32];
        handle[24..].copy_from_slice(&n.to_be_bytes());
        let row = TailRow {
            handle: Digest(handle),
            tail: Digest::ZERO,
            count: n + 1,
        };
        let answer = if n < 4096 {
            Ok(())
        } else {
            Err(MapFault::Full)
        };
        assert_eq!(rt; map.set(&row), answer, "row {n}");
    }
    assert_eq!(rt; map.rows().len(), 4096);
    Ok(())
}

/// The bytes, and how many rows they are or the fault that they show first.
#[test]
fn maps_are_read_or_refused(rt: HostRuntime) -> Result<(), Fail> {
    let alloc = rt.alloc();
    let one = "0000000000000001";
    let zero = "0000000000000000";
    for (parts, answer) in [
        (TWO, Ok(2)),
        (&["3000000000"], Ok(0)),
        (&[], Err(FormFault::Short)),
        (&["31"], Err(FormFault::Kind)),
        (&["31ffffffff"], Err(FormFault::Kind)),
        (&["30"], Err(FormFault::Short)),
        (&["30000000"], Err(FormFault::Short)),
        (&["3000001001"], Err(FormFault::Value)),
        (&["3000001000"], Err(FormFault::Short)),
        (&["300000000000"], Err(FormFault::Trailing)),
        (&["3000000001", "0a0a"], Err(FormFault::Short)),
        (&["3000000001", A, "0001"], Err(FormFault::Short)),
        (
            &["3000000001", A, T, "00000000000001"],
            Err(FormFault::Short),
        ),
        (&["3000000001", A, T, zero], Err(FormFault::Value)),
        (
            &["3000000001", A, T, "0000000100000001"],
            Err(FormFault::Value),
        ),
        (&["3000000002", A, T, zero], Err(FormFault::Value)),
        (&["3000000002", A, T, one, A, U, one], Err(FormFault::Order)),
        (&["3000000002", B, U, one, A, T, one], Err(FormFault::Order)),
        (&["3000000002", A, T, one, A], Err(FormFault::Order)),
        (
            &["3000000002", A, T, one, A, U, zero],
            Err(FormFault::Order),
        ),
        (&["3000000002", B, U, one, "0a0a"], Err(FormFault::Short)),
        (
            &["3000000002", B, U, zero, A, T, one],
            Err(FormFault::Value),
        ),
        (&["3000000001", A, T, one, "00"], Err(FormFault::Trailing)),
        (
            &["3000000001", A, T, one, B, U, one],
            Err(FormFault::Trailing),
        ),
        (&["3000000002", A, T, one], Err(FormFault::Short)),
    ] {
        let text = bytes(alloc, parts)?;
        let read = match TailMap::read(alloc, text.bytes()) {
            Ok(map) => Ok(map.rows().len()),
            Err(fault) => Err(fault),
        };
        assert_eq!(rt; read, answer, "{parts:?}");
    }
    Ok(())
}
