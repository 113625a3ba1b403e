use nim_base::{Digest, NoMemory, Text, digest_of};
use seal::{Checker, MacSigner, Signer};
use std::alloc::Global;
use std::test::Fail;
use world_run::{MacSeals, Seals};

/// Whether the texts of an id are the five bytes of its secret, and 40 in hexadecimal before the digest of these.
fn are_texts(alloc: Global, texts: &[Text], id: u8) -> Result<bool, NoMemory> {
    let secret = [0x41, 0, 0, 0, id];
    let mut key = Text::of(alloc, &[0x40])?;
    key.push(&digest_of(&secret).0)?;
    let good = match texts {
        [first, last] => first.bytes() == secret.as_slice() && last.bytes() == key.bytes(),
        _ => false,
    };
    Ok(good)
}

fn last_digest(texts: &[Text]) -> Digest {
    match texts.last() {
        Some(text) => digest_of(text.bytes()),
        None => Digest::ZERO,
    }
}

#[test]
fn stand_ins_sign_under_keys_that_texts_lead_to(rt: HostRuntime) -> Result<(), Fail> {
    let alloc = rt.alloc();
    let seals = MacSeals;
    let checker = seals.checker(alloc)?;
    for id in [1, 2, 64] {
        let mut signer: MacSigner = seals.signer(alloc, u32::from(id))?;
        let texts = seals.texts(alloc, u32::from(id))?;
        assert!(rt; are_texts(alloc, &texts, id)?);
        assert_eq!(rt; last_digest(&texts), signer.key());
        let sig = signer.sign(alloc, b"a statement")?;
        assert!(rt; checker.check(&signer.key(), b"a statement", sig.bytes()));
        assert!(rt; !checker.check(&signer.key(), b"another one", sig.bytes()));
    }
    let stranger = MacSigner::of_id(65).key();
    let sig = MacSigner::of_id(65).sign(alloc, b"a statement")?;
    assert!(rt; !checker.check(&stranger, b"a statement", sig.bytes()));
    Ok(())
}
