ghost use Rattle.std.specs.Prelude.{IfOk};
ghost use Rattle.chain_block.specs.Entry.{IsWithinLimits};

use calm::{next_block, tail_of_entries};
use chain_block::Entry;
use hex::FromHex;
use nim_base::{Digest, NoMemory, Nonce, Text};
use std::alloc::Global;
use std::test::Fail;

// The digests and tails were worked out with Python's struct and hashlib, by the forms that `chain_block` gives.

/// The digest of the first entry with the nonce of sixteen zeros and the payload `a`.
const HANDLE: &str = "dc23c41fe1150c954ae7bab3f455808d458fb76d40825c9a0c4799649ba23a76";

/// The digest of the entry above it with the nonce 1 and the payload `b`.
const SECOND: &str = "718a34f49dcba2954d30dbefec2cc198a6d80d96d69ed4cce3cdbc7806e1863c";

/// The tails with the first entry, and with both.
const TAIL: &str = "03fbf23f85789220b478e5bf9d5e543b97aebb551d98f845fadbef5601863349";

const SECOND_TAIL: &str = "7024ad6342ce9df8af5b58f851a8878ac7f7f8c73282624c7e946f22590bc665";

fn digest(text: &str) -> Option<Digest> {
    Some(Digest(<[u8; 32] as FromHex>::from_hex(text).ok()?))
}

fn first(alloc: Global) -> Result<Entry, NoMemory>
    ensures { IfOk result IsWithinLimits }
{
    Ok(Entry::Genesis {
        nonce: Nonce([0; 16]),
        payload: Text::of(alloc, b"a")?,
    })
}

fn second(alloc: Global, handle: Digest) -> Result<Entry, NoMemory>
    ensures { IfOk result IsWithinLimits }
{
    let mut nonce = [0; 16];
    nonce[15] = 1;
    Ok(Entry::Later {
        handle,
        height: 1,
        nonce: Nonce(nonce),
        payload: Text::of(alloc, b"b")?,
    })
}

#[test]
fn ledgers_have_these_rows(rt: HostRuntime) -> Result<(), Fail> {
    let alloc = rt.alloc();
    let below = [first(alloc)?];
    let above = second(alloc, below[0].handle())?;
    let block = next_block(&below, &above);
    assert_eq!(rt; Some(block.prev), digest(TAIL));
    assert_eq!(rt; Some(block.entry), digest(SECOND));
    assert_eq!(rt; block.height, 1);

    let genesis = first(alloc)?;
    let block = next_block(&[], &genesis);
    assert_eq!(rt; block.prev, Digest::ZERO);
    assert_eq!(rt; Some(block.entry), digest(HANDLE));
    assert_eq!(rt; block.height, 0);
    assert_eq!(rt;
        Some(tail_of_entries(&[genesis, above])),
        digest(SECOND_TAIL)
    );
    Ok(())
}
