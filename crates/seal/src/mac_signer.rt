ghost use Rattle.std.specs.Prelude.{◌≡◌};
ghost use Rattle.seal.specs.MacKey.{mac, mac_key, secret_of};
ghost use Rattle.seal.specs.KeyBook.{is_signed_by};

use crate::keyed_hash::hmac;
use crate::mac_text::{key_text, secret_text};
use crate::sign_fault::SignFault;
use crate::signer::Signer;
use nim_base::{Digest, Text, digest_of};
use std::alloc::Global;
use std::marker::Model;

const SIZE: usize = 32;

/// A signer that stands in for the attested key of an id. Contracts see it as that id.
///
/// Its secret is the digest of [`secret_text`], its key that of [`key_text`], and its signature over
/// bytes is [`hmac`] of them under the secret, 32 bytes. It never runs out: the number of signatures left
/// is always the greatest of 64 bits.
#[derive(Drop)]
pub struct MacSigner {
    id: u32,
    secret: Digest,
    key: Digest,
}

impl Model for MacSigner {
    ghost use Rattle.std.specs.Prelude.{◌≡◌, ℕ};
    ghost use Rattle.seal.specs.MacKey.{mac_key, secret_of};

    ghost Value = { ℕ };

    ghost view = { λ signer. signer.id };

    ghost invariant = { λ signer. (signer.secret ≡ secret_of signer.id) × (signer.key ≡ mac_key signer.id) };
}

impl MacSigner {
    /// The signer of an id. It takes no memory.
    pub fn of_id(id: u32) -> MacSigner
        ensures { result ≡ id }
    {
        let secret = digest_of(&secret_text(id));
        let key = digest_of(&key_text(&secret));
        MacSigner { id, secret, key }
    }

    // The signature over the bytes.
    fn mac(&self, bytes: &[u8]) -> Digest
        ensures { result ≡ mac self.now bytes.now }
    {
        hmac(&self.secret.0, bytes)
    }

    // Whether this is the own key, and this the own signature over the bytes.
    pub(crate) fn signed(&self, key: &Digest, bytes: &[u8], sig: &[u8]) -> bool
        ensures { result ≡ is_signed_by self.now key.now bytes.now sig.now }
    {
        self.key == *key && self.mac(bytes).0.as_slice() == sig
    }
}

impl Signer for MacSigner {
    ghost use Rattle.std.specs.Prelude.{◌≡◌, ◌-◌, ◌^◌};
    ghost use Rattle.seal.specs.MacKey.{mac, mac_key};

    ghost key_of = { mac_key };

    ghost left_of = { λ _. 2 ^ 64 - 1 };

    ghost size_of = { λ _. 32 };

    ghost signs = { λ id bytes sig after. (sig ≡ mac id bytes) × (after ≡ id) };

    fn key(&self) -> Digest {
        self.key
    }

    fn left(&self) -> u64 {
        u64::MAX
    }

    fn size(&self) -> usize {
        SIZE
    }

    fn sign(&mut self, alloc: Global, bytes: &[u8]) -> Result<Text, SignFault> {
        Ok(Text::of(alloc, &self.mac(bytes).0)?)
    }
}
