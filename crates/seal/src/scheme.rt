use crate::checker::Checker;
use crate::signer::Signer;

/// A kind of signer and a kind of checker, and which of them fit each other: a checker that fits a
/// signer accepts what the signer signs, under the signer's key, and still fits afterwards.
pub trait Scheme {
    type Signer: Signer;

    type Checker: Checker;

    ghost use Rattle.std.specs.Prelude.{◌≡◌, ℕ, List, true};

    ghost fits: { Self.Signer → Self.Checker → Type 0 };

    ghost accepted: { (signer after : Self.Signer) (checker : Self.Checker) (bytes sig : List ℕ) → fits signer checker → Self.Signer.signs signer bytes sig after
        → (Self.Checker.accepts checker (Self.Signer.key_of signer) bytes sig ≡ true) × fits after checker };
}
