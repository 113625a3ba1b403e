ghost use Rattle.std.specs.Prelude.{◌≡◌};
ghost use Rattle.least_collision.specs.Collision.{digested_text};

use nim_base::{Digest, digest_of};
use std::marker::Model;

/// A text beside its digest.
#[derive(Debug, Drop)]
pub struct Digested<'a> {
    pub(crate) digest: Digest,
    pub(crate) text: &'a [u8],
}

impl<'a> Model for Digested<'a> {
    ghost use Rattle.least_collision.specs.Collision.{DigestedText};

    ghost Value = { DigestedText };

    ghost view = { λ digested. record { digest = digested.digest; text = digested.text.now } };
}

impl<'a> Digested<'a> {
    /// The text beside its SHA-256 digest.
    pub fn of(text: &'a [u8]) -> Digested<'a>
        ensures { result ≡ digested_text text.now }
    {
        Digested {
            digest: digest_of(text),
            text,
        }
    }

    /// The text beside a digest that is taken as it is given.
    pub fn given(digest: Digest, text: &'a [u8]) -> Digested<'a>
        ensures digest { result.digest ≡ digest }
        ensures text { result.text ≡ text.now }
    {
        Digested { digest, text }
    }
}
