ghost use Rattle.std.specs.Prelude.{◌≡◌, IfOk};
ghost use Rattle.script_runs.specs.Ids.{all_ids};

use crate::seals::Seals;
use nim_base::{NoMemory, Text, digest_of};
use seal::{KeyBook, MacScheme, MacSigner, key_text, secret_text};
use std::alloc::Global;

/// How many ids there are.
pub(crate) const IDS: u32 = 64;

/// The stand-in for attested keys: the secret of an id is the digest of 41 in hexadecimal and the id in 4 bytes, and its key the
/// digest of 40 and the secret.
#[derive(Clone, Copy, Debug, Drop)]
pub struct MacSeals;

impl Seals for MacSeals {
    type Scheme = MacScheme;

    ghost use Rattle.std.specs.Prelude.{◌≡◌, ◌-◌, ◌^◌};
    ghost use Rattle.seal.specs.KeyBook.{book_accepts};
    ghost use Rattle.seal.specs.MacKey.{mac_key};
    ghost use Rattle.script_runs.specs.Ids.{all_ids};
    ghost use Rattle.world_run.specs.Seals.{mac_texts, mac_texts_lead};

    ghost key_of = { λ seals id. mac_key id };

    ghost texts_of = { λ seals id. mac_texts id };

    ghost left_of = { λ seals id. 2 ^ 64 - 1 };

    ghost gives = { λ seals book. book ≡ all_ids };

    ghost accepts = { λ seals. book_accepts all_ids };

    ghost leads = { λ seals id. mac_texts_lead id };

    fn signer(&self, alloc: Global, id: u32) -> Result<MacSigner, NoMemory> {
        Ok(MacSigner::of_id(id))
    }

    fn checker(&self, alloc: Global) -> Result<KeyBook, NoMemory> {
        KeyBook::of_ids(alloc, &ids(alloc)?)
    }

    fn texts(&self, alloc: Global, id: u32) -> Result<Vec<Text>, NoMemory> {
        let secret = secret_text(id);
        let mut texts = Vec::with_capacity(alloc, 2)?;
        texts.push(Text::of(alloc, &secret)?)?;
        texts.push(Text::of(alloc, &key_text(&digest_of(&secret)))?)?;
        Ok(texts)
    }
}

fn ids(alloc: Global) -> Result<Vec<u32>, NoMemory>
    ensures { IfOk result (λ ids. ids.items ≡ all_ids) }
{
    let mut ids = Vec::with_capacity(alloc, IDS as usize)?;
    for below in 0..IDS {
        ids.push(below + 1)?;
    }
    Ok(ids)
}
