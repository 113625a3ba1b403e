use crate::key_book::KeyBook;
use crate::mac_signer::MacSigner;
use crate::scheme::Scheme;

/// The stand-in for attested keys. A [`KeyBook`] fits the [`MacSigner`] of each id that it was made of.
pub struct MacScheme;

impl Scheme for MacScheme {
    type Signer = MacSigner;

    type Checker = KeyBook;

    ghost use Rattle.std.specs.Prelude.{Contains};

    ghost fits = { λ id ids. Contains ids id };

    ghost use Rattle.seal.specs.BookLaws.{fitting};

    ghost accepted = { λ id after ids bytes sig. fitting id after ids bytes sig };
}
