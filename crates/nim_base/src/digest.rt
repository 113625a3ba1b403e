ghost use Rattle.std.specs.Prelude.{◌≡◌, replicate};
ghost use Rattle.sha2.specs.Sha256.{sha256};

use sha2::{Digest as _, Sha256};
use std::marker::Model;

/// A SHA-256 digest, 32 bytes (FIPS 180-4). Digests are compared byte by byte.
#[derive(Clone, Copy, Debug, PartialEq, Eq, PartialOrd, Ord)]
pub struct Digest(pub [u8; 32]);

impl Model for Digest {
    ghost use Rattle.std.specs.Prelude.{List, ℕ};

    ghost Value = { List ℕ };

    ghost view = { λ digest. digest.0 };

    ghost inverse = { λ bytes. record { 0 = bytes } };
}

impl Digest {
    /// 32 zero bytes, which stand for the tail of nothing.
    pub const ZERO: Digest = Digest([0; 32]);
}

impl Default for Digest {
    ghost is_default = { λ digest. digest ≡ replicate 32 0 };

    /// [`Digest::ZERO`]. No clause can name a constant of this type, so this one pins its bytes.
    fn default() -> Digest {
        Digest::ZERO
    }
}

/// The SHA-256 digest of some bytes (FIPS 180-4, section 6.2). It takes no memory.
pub fn digest_of(bytes: &[u8]) -> Digest
    ensures { result ≡ sha256 bytes.now }
{
    Digest(Sha256::digest(bytes))
}
