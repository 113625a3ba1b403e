ghost use Rattle.std.specs.Prelude.{◌≡◌, ◌↔◌, List, ℕ, true, IfOk};
ghost use Rattle.seal.specs.KeyBook.{book_accepts, IsSignedByOne};

use crate::checker::Checker;
use crate::mac_signer::MacSigner;
use nim_base::{Digest, NoMemory};
use std::alloc::Global;
use std::marker::Model;

/// A checker that holds the secrets and keys of some ids. Contracts see it as the list of these ids.
///
/// It accepts what the [`MacSigner`] of one of its ids signs, under that signer's key, and nothing else:
/// a signature of another length or under a key that no id of the book has is refused. A check goes through
/// the keys and works out one [`hmac`](crate::hmac) for the key that it finds.
#[derive(Drop)]
pub struct KeyBook {
    signers: Vec<MacSigner>,
}

impl Model for KeyBook {
    ghost use Rattle.std.specs.Prelude.{List, ℕ};

    ghost Value = { List ℕ };

    ghost view = { λ book. book.signers.items };
}

impl KeyBook {
    /// The book of these ids, which may come in any order and more than once.
    pub fn of_ids(alloc: Global, ids: &[u32]) -> Result<KeyBook, NoMemory>
        ensures ids { IfOk result (λ book. book ≡ ids.now) }

        // It accepts just what one of the ids signs, under its key.
        ensures accepts { IfOk result (λ book. (key bytes sig : List ℕ) → (book_accepts book key bytes sig ≡ true) ↔ IsSignedByOne ids.now key bytes sig) }
    {
        let mut signers = Vec::with_capacity(alloc, ids.len())?;
        for id in ids {
            signers.push(MacSigner::of_id(*id))?;
        }
        Ok(KeyBook { signers })
    }

    fn accepts(&self, key: &Digest, bytes: &[u8], sig: &[u8]) -> bool
        ensures { result ≡ book_accepts self.now key.now bytes.now sig.now }
    {
        self.signers
            .iter()
            .any(|signer| signer.signed(key, bytes, sig))
    }
}

impl Checker for KeyBook {
    ghost use Rattle.seal.specs.KeyBook.{book_accepts};

    ghost accepts = { book_accepts };

    ghost use Rattle.seal.specs.BookLaws.{accepted_size};

    ghost limits = { accepted_size };

    fn check(&self, key: &Digest, bytes: &[u8], sig: &[u8]) -> bool {
        self.accepts(key, bytes, sig)
    }
}
