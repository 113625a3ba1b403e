ghost use Rattle.std.specs.Prelude.{◌≡◌, ◌≤◌, ◌++◌, length};
ghost use Rattle.sha2.specs.Sha256.{sha256};
ghost use Rattle.seal.specs.Hmac.{hmac, key_block, xor_each};

use nim_base::Digest;
use sha2::{Digest as _, Sha256};

const BLOCK: usize = 64;

const IPAD: u8 = 0x36;

const OPAD: u8 = 0x5C;

/// HMAC over SHA-256 (RFC 2104, section 2) under a key of at most 64 bytes. It takes no memory.
pub fn hmac(key: &[u8], bytes: &[u8]) -> Digest
    requires { length key.now ≤ 64 }
    ensures { result ≡ hmac key.now bytes.now }
{
    let Digest(inner) = digest_behind(&padded(key, IPAD), bytes);
    digest_behind(&padded(key, OPAD), &inner)
}

// The key, filled with zeros to a block, with each byte xor the pad.
fn padded(key: &[u8], pad: u8) -> [u8; BLOCK]
    requires { length key.now ≤ 64 }
    ensures { result ≡ xor_each pad (key_block key.now) }
{
    let mut block = [0; BLOCK];
    block[..key.len()].copy_from_slice(key);
    xor_each(&mut block, pad);
    block
}

fn xor_each(bytes: &mut [u8], pad: u8)
    ensures { bytes.new ≡ xor_each pad bytes.old }
{
    for byte in bytes.iter_mut() {
        *byte ^= pad;
    }
}

// The digest of the bytes with the block in front.
fn digest_behind(block: &[u8], bytes: &[u8]) -> Digest
    ensures { result ≡ sha256 (block.now ++ bytes.now) }
{
    let mut hasher = Sha256::new();
    hasher.update(block);
    hasher.update(bytes);
    Digest(hasher.finalize())
}
