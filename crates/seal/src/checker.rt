use nim_base::Digest;

/// Who tells whether a signature is accepted under a key. It takes no memory.
pub trait Checker: Drop {
    ghost use Rattle.std.specs.Prelude.{◌≡◌, ℕ, List, Bool, true, IsTrue, length};
    ghost use Rattle.seal.specs.Signature.{IsSize};

    // By key, bytes and signature.
    ghost accepts: { Self → List ℕ → List ℕ → List ℕ → Bool };

    /// Whether the signature over the bytes is accepted under the key. Only signatures of 1 to
    /// [`MAX_SIGNATURE`](crate::MAX_SIGNATURE) bytes are.
    fn check(&self, key: &Digest, bytes: &[u8], sig: &[u8]) -> bool
        ensures accepted { result ≡ accepts self.now key.now bytes.now sig.now }
        ensures size { IsTrue result → IsSize (length sig.now) };

    ghost limits: { (checker : Self) (key bytes sig : List ℕ) → accepts checker key bytes sig ≡ true → IsSize (length sig) };
}
