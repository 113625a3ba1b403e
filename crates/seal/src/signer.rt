use crate::sign_fault::SignFault;
use nim_base::{Digest, Text};
use std::alloc::Global;

/// The most bytes that a signature has.
pub const MAX_SIGNATURE: usize = 16_384;

/// Who signs under one key.
pub trait Signer: Drop {
    ghost use Rattle.std.specs.Prelude.{◌≡◌, ◌≤◌, ◌+◌, ◌↔◌, ℕ, List, length, Err, IfOk, OnOk, OnErr};
    ghost use Rattle.seal.specs.Signature.{IsSize};
    ghost use Rattle.seal.specs.declared.sign_fault.SignFault.TheVariants.{Spent};

    ghost key_of: { Self → List ℕ };

    ghost left_of: { Self → ℕ };

    ghost size_of: { Self → ℕ };

    // A signer may sign these bytes so, and be that one afterwards.
    ghost signs: { Self → List ℕ → List ℕ → Self → Type 0 };

    /// The key under which a fitting checker accepts the signatures.
    fn key(&self) -> Digest
        ensures { result ≡ key_of self.now };

    /// How many signatures are left, or that at least so many are.
    fn left(&self) -> u64
        ensures { result ≡ left_of self.now };

    /// The number of bytes of each signature, from 1 to [`MAX_SIGNATURE`].
    fn size(&self) -> usize
        ensures size { result ≡ size_of self.now }
        ensures limits { IsSize result };

    /// Signs the bytes. `Spent` comes exactly where no signature is left.
    fn sign(&mut self, alloc: Global, bytes: &[u8]) -> Result<Text, SignFault>
        ensures signed { IfOk result (λ sig. signs self.old bytes.now sig.bytes self.new) }
        ensures size { IfOk result (λ sig. length sig.bytes ≡ size_of self.old) }

        // At most one signature is used up.
        ensures one { OnOk result (left_of self.old ≤ left_of self.new + 1) }
        ensures no_more { OnOk result (left_of self.new ≤ left_of self.old) }

        // What stays after every answer, and that a refusal changes nothing.
        ensures same_key { key_of self.new ≡ key_of self.old }
        ensures same_size { size_of self.new ≡ size_of self.old }
        ensures spent { (result ≡ Err Spent) ↔ (left_of self.old ≡ 0) }
        ensures refused { OnErr result (self.new ≡ self.old) };
}
