ghost use Rattle.std.specs.Prelude.{IfOk};
ghost use Rattle.chain_block.specs.Entry.{IsWithinLimits};

use chain_block::{Entry, EntryFault, MetaBlock, links, tail_of};
use hex::FromHex;
use nim_base::{Digest, NoMemory, Nonce, Text};
use std::alloc::Global;
use std::test::Fail;

// The bytes, digests and tails below were worked out with Python's struct and hashlib, by the forms
// that the crate's pages give.

/// The first entry with the nonce of sixteen zeros and the payload `a`.
const FIRST: &str = "01000000000000000000000000000000000000000161";

/// Its digest, which is the ledger's handle.
const HANDLE: &str = "dc23c41fe1150c954ae7bab3f455808d458fb76d40825c9a0c4799649ba23a76";

/// The tail of the ledger with this entry alone.
const TAIL: &str = "03fbf23f85789220b478e5bf9d5e543b97aebb551d98f845fadbef5601863349";

/// The entry above it with the nonce 1 and the payload `b`, and its digest.
const SECOND: &str =
    "02dc23c41fe1150c954ae7bab3f455808d458fb76d40825c9a0c4799649ba23a760000000000000001000000000000000000000000000000010000000162";

const SECOND_DIGEST: &str = "718a34f49dcba2954d30dbefec2cc198a6d80d96d69ed4cce3cdbc7806e1863c";

/// The tail of the ledger with both entries.
const SECOND_TAIL: &str = "7024ad6342ce9df8af5b58f851a8878ac7f7f8c73282624c7e946f22590bc665";

fn digest(text: &str) -> Option<Digest> {
    Some(Digest(<[u8; 32] as FromHex>::from_hex(text).ok()?))
}

fn first(alloc: Global) -> Result<Entry, NoMemory>
    ensures { IfOk result IsWithinLimits }
{
    Ok(Entry::Genesis {
        nonce: Nonce([0; 16]),
        payload: Text::of(alloc, b"a")?,
    })
}

fn second(alloc: Global, handle: Digest) -> Result<Entry, NoMemory>
    ensures { IfOk result IsWithinLimits }
{
    let mut nonce = [0; 16];
    nonce[15] = 1;
    Ok(Entry::Later {
        handle,
        height: 1,
        nonce: Nonce(nonce),
        payload: Text::of(alloc, b"b")?,
    })
}

#[test]
fn entries_have_these_bytes(rt: HostRuntime) -> Result<(), Fail> {
    let alloc = rt.alloc();
    let entry = first(alloc)?;
    assert_eq!(rt;
        hex::encode(alloc, entry.write(alloc)?.bytes())?.as_str(),
        FIRST
    );
    assert_eq!(rt; Some(entry.entry_digest()), digest(HANDLE));
    assert_eq!(rt; Some(entry.handle()), digest(HANDLE));
    assert_eq!(rt; entry.height(), 0);

    let entry = second(alloc, entry.handle())?;
    assert_eq!(rt;
        hex::encode(alloc, entry.write(alloc)?.bytes())?.as_str(),
        SECOND
    );
    assert_eq!(rt; Some(entry.entry_digest()), digest(SECOND_DIGEST));
    assert_eq!(rt; Some(entry.handle()), digest(HANDLE));
    assert_eq!(rt; entry.height(), 1);
    assert_eq!(rt; entry.nonce().0[15], 1);
    Ok(())
}

#[test]
fn tails_lead_from_entry_to_entry(rt: HostRuntime) -> Result<(), Fail> {
    let alloc = rt.alloc();
    let entry = first(alloc)?;
    let next = second(alloc, entry.handle())?;
    let below = MetaBlock {
        prev: Digest::ZERO,
        entry: entry.entry_digest(),
        height: 0,
    };
    assert_eq!(rt; below.bytes()[0], 0x10);
    assert_eq!(rt; Some(below.tail()), digest(TAIL));
    let above = MetaBlock {
        prev: below.tail(),
        entry: next.entry_digest(),
        height: 1,
    };
    assert_eq!(rt; Some(above.tail()), digest(SECOND_TAIL));
    assert_eq!(rt;
        Some(tail_of(&above.prev, &above.entry, 1)),
        digest(SECOND_TAIL)
    );
    let bytes = above.bytes();
    assert_eq!(rt; MetaBlock::read(&bytes), Some(above));
    assert_eq!(rt; MetaBlock::read(&bytes[1..]), None);

    let tail = above.tail();
    for (blocks, prev, count, to, linked) in [
        ([below, above].as_slice(), Digest::ZERO, 0, tail, true),
        (&[above], below.tail(), 1, tail, true),
        (&[], tail, 2, tail, true),
        (&[], tail, 2, Digest::ZERO, false),
        (&[below, above], tail, 0, tail, false),
        (&[below, above], Digest::ZERO, 1, tail, false),
        (&[above, below], below.tail(), 1, tail, false),
        (&[below, above], Digest::ZERO, 0, Digest::ZERO, false),
    ] {
        assert_eq!(rt; links(blocks, &prev, count, &to), linked);
    }
    Ok(())
}

/// The bytes in hexadecimal, and what reading them answers: how long the payload is, or the fault.
#[test]
fn entries_are_read_or_refused(rt: HostRuntime) -> Result<(), Fail> {
    let alloc = rt.alloc();
    for (text, answer) in [
        (FIRST, Ok(1)),
        (SECOND, Ok(1)),
        ("", Err(EntryFault::Short)),
        ("03", Err(EntryFault::Kind)),
        ("01", Err(EntryFault::Short)),
        (
            "0100000000000000000000000000000000000000",
            Err(EntryFault::Short),
        ),
        (
            "010000000000000000000000000000000000010001",
            Err(EntryFault::Length),
        ),
        ("0100000000000000000000000000000000000000026161", Ok(2)),
        (
            "01000000000000000000000000000000000000000261",
            Err(EntryFault::Short),
        ),
        (
            "0100000000000000000000000000000000000000016161",
            Err(EntryFault::Trailing),
        ),
        (
            "02dc23c41fe1150c954ae7bab3f455808d458fb76d40825c9a0c4799649ba23a760000000000000000000000000000000000000000000000010000000162",
            Err(EntryFault::Height),
        ),
        (
            "02dc23c41fe1150c954ae7bab3f455808d458fb76d40825c9a0c4799649ba23a760000000100000000000000000000000000000000000000010000000162",
            Err(EntryFault::Height),
        ),
        (
            "02dc23c41fe1150c954ae7bab3f455808d458fb76d40825c9a0c4799649ba23a7600000000000000000000000000000000000000000000000100",
            Err(EntryFault::Short),
        ),
    ] {
        let bytes = hex::decode(alloc, text)?;
        let read = match Entry::read(alloc, &bytes) {
            Ok(Entry::Genesis { payload, .. } | Entry::Later { payload, .. }) => {
                Ok(payload.bytes().len())
            }
            Err(fault) => Err(fault),
        };
        assert_eq!(rt; read, answer, "{text}");
    }
    Ok(())
}
