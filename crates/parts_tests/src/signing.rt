ghost use Rattle.std.specs.Prelude.{◌≡◌, ◌↔◌, true, Err, IfOk};
ghost use Rattle.seal.specs.declared.sign_fault.SignFault.TheVariants.{Spent};

use nim_base::{Digest, Text, digest_of};
use seal::{
    Checker, KeyBook, MAX_SIGNATURE, MacScheme, MacSigner, Scheme, SignFault, Signer, hmac,
    key_text, secret_text,
};
use std::alloc::Global;
use std::test::Fail;

// The first two keyed digests are the test cases 1 and 2 of RFC 4231. What else is written in hexadecimal
// was worked out with Python's hashlib and hmac.

const KEY_1: &str = "3b3c747d176f1c65764c278fe042bf5cb38ea1004cdfb6a237cf017ba7ec0881";

const SECRET_1: &str = "f500bc8f358aa135d96205283fe0ca52a4b02f4118ddc62ee5c6e4d6c2770eb5";

const KEY_2: &str = "7ed6dd0b4a9975cceb55cf50fc8e493baa471a5130b1387cf892573a94a57f3f";

const KEY_3: &str = "371ed668149a29877d70ac3f2a4934046ebb17e4b54559d1b31e8d56f604fbe5";

/// What the ids 1, 2 and 3 sign over `statement`.
const SIGNATURE_1: &str = "544ec8d93b9e3d7221210f754a68ea317f3199cc551af2ccc3903104e94ce160";

const SIGNATURE_2: &str = "1579e30df4b1ba2338d9809d2db4e04a638d3424570fe1b7ad85cce314d995bd";

const SIGNATURE_3: &str = "b0e5ae656ecfb271041553beeb3c9ed31e14bb4e460c816ffe4fdd409521b097";

/// The signature of id 1 with another last byte, with one byte less and with one more.
const CHANGED: &str = "544ec8d93b9e3d7221210f754a68ea317f3199cc551af2ccc3903104e94ce161";

const SHORTER: &str = "544ec8d93b9e3d7221210f754a68ea317f3199cc551af2ccc3903104e94ce1";

const LONGER: &str = "544ec8d93b9e3d7221210f754a68ea317f3199cc551af2ccc3903104e94ce16000";

/// The digest that is written so, or zeros.
fn digest(text: &str) -> Digest {
    let mut bytes = [0; 32];
    match hex::decode_to_slice(text, &mut bytes) {
        Ok(()) => Digest(bytes),
        Err(_) => Digest::ZERO,
    }
}

#[test]
fn keyed_digests(rt: HostRuntime) {
    for (key, bytes, answer) in [
        (
            &[0x0b; 20][..],
            "Hi There",
            "b0344c61d8db38535ca8afceaf0bf12b881dc200c9833da726e9376c2e32cff7",
        ),
        (
            b"Jefe",
            "what do ya want for nothing?",
            "5bdcc146bf60754e6a042426089575c75a003f089d2739839dec58b964ec3843",
        ),
        (
            b"",
            "",
            "b613679a0814d9ec772f95d778c35fc5ff1697c493715653c6c712144292c5ad",
        ),
        (
            b"0123456789abcdef0123456789abcdef0123456789abcdef0123456789abcdef",
            "a whole block",
            "fda78d1da6298fce061cf921f09078a87baa9dbb8b975e8752eee769de52fd8c",
        ),
    ] {
        assert_eq!(rt; hmac(key, bytes.as_bytes()), digest(answer), "{bytes}");
    }
}

#[test]
fn keys_of_ids(rt: HostRuntime) {
    let secret = digest_of(&secret_text(1));
    assert_eq!(rt; secret, digest(SECRET_1));
    assert_eq!(rt; digest_of(&key_text(&secret)), digest(KEY_1));
    assert_eq!(rt; MacSigner::of_id(1).key(), digest(KEY_1));
    assert_eq!(rt; MacSigner::of_id(2).key(), digest(KEY_2));
    assert_eq!(rt;
        MacSigner::of_id(u32::MAX).key(),
        digest("23819d13054bbb7f1a58edbc8d597f9f551e02374b30046f9509b8eb75dbefe2")
    );
}

#[test]
fn stand_in_signs_without_end(rt: HostRuntime) -> Result<(), Fail> {
    let mut signer = MacSigner::of_id(1);
    assert_eq!(rt; signer.size(), 32);
    for _ in 0..2 {
        assert_eq!(rt; signer.left(), u64::MAX);
        let sig = signer.sign(rt.alloc(), b"statement")?;
        assert_eq!(rt; sig.bytes(), digest(SIGNATURE_1).0.as_slice());
    }
    assert_eq!(rt; signer.left(), u64::MAX);
    Ok(())
}

/// What a book of the ids 2 and 1 says of a key, some bytes and a signature in hexadecimal.
#[test]
fn books_accept_or_refuse(rt: HostRuntime) -> Result<(), Fail> {
    let alloc = rt.alloc();
    let book = KeyBook::of_ids(alloc, &[2, 1])?;
    for (key, bytes, sig, accepted) in [
        (KEY_1, "statement", SIGNATURE_1, true),
        (KEY_2, "statement", SIGNATURE_2, true),
        (KEY_1, "statement", SIGNATURE_2, false),
        (KEY_2, "statement", SIGNATURE_1, false),
        (KEY_3, "statement", SIGNATURE_3, false),
        (KEY_3, "statement", SIGNATURE_1, false),
        (KEY_1, "statements", SIGNATURE_1, false),
        (KEY_1, "statement", CHANGED, false),
        (KEY_1, "statement", SHORTER, false),
        (KEY_1, "statement", LONGER, false),
        (KEY_1, "statement", "", false),
    ] {
        let answer = match hex::decode(alloc, sig) {
            Ok(sig) => Some(book.check(&digest(key), bytes.as_bytes(), &sig)),
            Err(_) => None,
        };
        assert_eq!(rt; answer, Some(accepted), "{key} {bytes} {sig}");
    }
    Ok(())
}

/// A signer that has as many signatures left as it says, each of one byte.
#[derive(Drop)]
pub(crate) struct Counted {
    pub(crate) left: u64,
}

impl Signer for Counted {
    ghost use Rattle.std.specs.Prelude.{◌≡◌, ◌∷◌, [], replicate};

    ghost key_of = { λ _. replicate 32 7 };

    ghost left_of = { λ signer. signer.left };

    ghost size_of = { λ _. 1 };

    ghost signs = { λ _ _ sig _. sig ≡ 9 ∷ [] };

    fn key(&self) -> Digest {
        Digest([7; 32])
    }

    fn left(&self) -> u64 {
        self.left
    }

    fn size(&self) -> usize {
        1
    }

    fn sign(&mut self, alloc: Global, _bytes: &[u8]) -> Result<Text, SignFault> {
        if self.left == 0 {
            return Err(SignFault::Spent);
        }
        let sig = Text::of(alloc, &[9])?;
        self.left -= 1;
        Ok(sig)
    }
}

/// Accepts each signature of one byte.
#[derive(Drop)]
pub(crate) struct OfOneByte;

impl Checker for OfOneByte {
    ghost use Rattle.std.specs.Prelude.{length, nat_eq};
    ghost use Rattle.std.proofs.Common.{arith};
    ghost use Rattle.std.proofs.lemmas.Bool.{eqb-true};

    ghost accepts = { λ _ _ _ sig. nat_eq (length sig) 1 };

    ghost limits = { λ _ _ _ sig good. let one = eqb-true (length sig) 1 good in (Prim.omega arith, Prim.omega arith) };

    fn check(&self, _key: &Digest, _bytes: &[u8], sig: &[u8]) -> bool {
        sig.len() == 1
    }
}

pub(crate) struct CountedScheme;

impl Scheme for CountedScheme {
    type Signer = Counted;

    type Checker = OfOneByte;

    ghost use Rattle.std.specs.Prelude.{⊤, length, nat_eq};
    ghost use Rattle.std.proofs.Common.{ap};

    ghost fits = { λ _ _. ⊤ };

    ghost accepted = { λ _ _ _ _ _ _ signed. (ap (λ sig. nat_eq (length sig) 1) signed, tt) };
}

/// Whether what the signer signs is accepted under its key.
fn is_accepted<G: Scheme>(
    alloc: Global,
    signer: &mut G::Signer,
    checker: &G::Checker,
    bytes: &[u8],
) -> Result<bool, SignFault>
    requires { G.fits signer.old checker.now }
    ensures accepted { IfOk result (λ accepted. accepted ≡ true) }
    ensures spent { (result ≡ Err Spent) ↔ (G.Signer.left_of signer.old ≡ 0) }
{
    let key = signer.key();
    let sig = signer.sign(alloc, bytes)?;
    Ok(checker.check(&key, bytes, sig.bytes()))
}

#[test]
fn signers_run_out(rt: HostRuntime) {
    let mut signer = Counted { left: 3 };
    for left in [3, 2, 1] {
        assert_eq!(rt; signer.left(), left);
        let answer = is_accepted::<CountedScheme>(
            rt.alloc(),
            &mut signer,
            &OfOneByte,
            b"statement",
        );
        assert_eq!(rt; answer, Ok(true));
    }
    assert_eq!(rt; signer.left(), 0);
    let answer = is_accepted::<CountedScheme>(rt.alloc(), &mut signer, &OfOneByte, b"statement");
    assert_eq!(rt; answer, Err(SignFault::Spent));
    assert_eq!(rt; signer.left(), 0);
}

#[test]
fn stand_in_is_a_scheme(rt: HostRuntime) -> Result<(), Fail> {
    let mut signer = MacSigner::of_id(2);
    let book = KeyBook::of_ids(rt.alloc(), &[1, 2, 3])?;
    let answer = is_accepted::<MacScheme>(rt.alloc(), &mut signer, &book, b"statement");
    assert_eq!(rt; answer, Ok(true));
    assert!(rt; signer.size() <= MAX_SIGNATURE);
    can_cross_threads(&signer);
    can_cross_threads(&book);
    Ok(())
}

fn can_cross_threads<T: Send + Sync>(_value: &T) {}

#[test]
fn faults_are_told_in_words(rt: HostRuntime) -> Result<(), Fail> {
    let alloc = rt.alloc();
    assert_eq!(rt;
        format!(in alloc; "{}", SignFault::Spent)?.as_str(),
        "no signature is left"
    );
    assert_eq!(rt;
        format!(in alloc; "{}", SignFault::NoMemory)?.as_str(),
        "out of memory"
    );
    Ok(())
}
