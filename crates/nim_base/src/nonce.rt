use std::marker::Model;

/// A number of 16 bytes that a client draws once, so that an answer that carries it is no older
/// than the draw. Nonces are compared byte by byte.
#[derive(Clone, Copy, Debug, PartialEq, Eq, PartialOrd, Ord)]
pub struct Nonce(pub [u8; 16]);

impl Model for Nonce {
    ghost use Rattle.std.specs.Prelude.{List, ℕ};

    ghost Value = { List ℕ };

    ghost view = { λ nonce. nonce.0 };

    ghost inverse = { λ bytes. record { 0 = bytes } };
}
