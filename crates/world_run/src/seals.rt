ghost use Rattle.std.specs.Prelude.{◌≡◌, ◌≤◌, IfOk, map};
ghost use Rattle.script_runs.specs.Ids.{IsId};

use nim_base::{NoMemory, Text};
use seal::{Checker, Scheme, Signer};
use std::alloc::Global;

/// Who signs and who checks in a run, by the endorsers' ids, which are 1 to 64.
pub trait Seals {
    /// The kind of its signers and checkers.
    type Scheme: Scheme;

    ghost use Rattle.std.specs.Prelude.{ℕ, List, Bool};
    ghost use Rattle.world_run.specs.Seals.{Leads};

    // The key of each id, and the texts that lead to it.
    ghost key_of: { Self → ℕ → List ℕ };

    ghost texts_of: { Self → ℕ → List (List ℕ) };

    // How many signatures each new signer of an id has left.
    ghost left_of: { Self → ℕ → ℕ };

    // It gives such a checker. All of these accept the same, by key, bytes and signature.
    ghost gives: { Self → Self.Scheme.Checker → Type 0 };

    ghost accepts: { Self → List ℕ → List ℕ → List ℕ → Bool };

    /// A new signer of the id. All that it gives for one id have one key, and each has at least one signature left.
    fn signer(&self, alloc: Global, id: u32) -> Result<<Self::Scheme as Scheme>::Signer, NoMemory>
        requires { IsId id }
        ensures key { IfOk result (λ signer. Self.Scheme.Signer.key_of signer ≡ key_of self.now id) }
        ensures left { IfOk result (λ signer. Self.Scheme.Signer.left_of signer ≡ left_of self.now id) }
        ensures some { 1 ≤ left_of self.now id }

        // Each checker that it gives fits the signer.
        ensures fits { IfOk result (λ signer. (checker : Self.Scheme.Checker) → gives self.now checker → Self.Scheme.fits signer checker) };

    /// A checker of the signatures of all ids.
    fn checker(&self, alloc: Global) -> Result<<Self::Scheme as Scheme>::Checker, NoMemory>
        ensures given { IfOk result (λ checker. gives self.now checker) }
        ensures accepts { IfOk result (λ checker. Self.Scheme.Checker.accepts checker ≡ accepts self.now) };

    /// The texts whose digests lead to the key of the id. The key is the digest of the last of them.
    fn texts(&self, alloc: Global, id: u32) -> Result<Vec<Text>, NoMemory>
        requires { IsId id }
        ensures texts { IfOk result (λ texts. map (λ text. text.bytes) texts.items ≡ texts_of self.now id) };

    ghost leads: { (seals : Self) (id : ℕ) → Leads (texts_of seals id) (key_of seals id) };
}
