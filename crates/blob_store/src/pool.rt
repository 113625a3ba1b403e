ghost use Rattle.std.specs.Prelude.{◌≡◌, [], map, false, is_some, IfOk, OnOk, OnErr, IfSome};
ghost use Rattle.port.specs.declared.key.Key.{Key};
ghost use Rattle.port.specs.Contents.{is_same_key};
ghost use Rattle.blob_store.specs.Pool.{held_at, is_held, with_bytes};

use crate::rows::keys_tie;
use nim_base::{NoMemory, Text};
use port::Key;
use std::alloc::Global;
use std::collections::BTreeMap;
use std::sync::Arc;

/// Bytes by keys, the same bytes of one key once.
#[derive(Drop)]
pub(crate) struct Pool {
    texts: BTreeMap<Key, Vec<Arc<Text>>>,
}

impl Pool {
    pub fn new(alloc: Global) -> Pool
        ensures { (key : Key) → held_at result key ≡ [] }
    {
        Pool {
            texts: BTreeMap::new(alloc),
        }
    }

    /// These bytes, shared with whoever asked for the same of this key before.
    pub fn share(&mut self, alloc: Global, key: &Key, bytes: &[u8]) -> Result<Arc<Text>, NoMemory>
        ensures bytes { IfOk result (λ text. text.value.bytes ≡ bytes.now) }
        ensures once { OnOk result (held_at self.new key.now ≡ with_bytes (held_at self.old key.now) bytes.now) }
        ensures same { OnErr result (held_at self.new key.now ≡ held_at self.old key.now) }
        ensures others { (other : Key) → is_same_key key.now other ≡ false → held_at self.new other ≡ held_at self.old other }
    {
        keys_tie();
        match self.texts.get_mut(key) {
            Some(texts) => share_in(alloc, texts, bytes),
            None => {
                let mut texts = Vec::new(alloc);
                let text = share_in(alloc, &mut texts, bytes)?;
                let _ = self.texts.insert(*key, texts)?;
                Ok(text)
            }
        }
    }
}

fn share_in(alloc: Global, texts: &mut Vec<Arc<Text>>, bytes: &[u8]) -> Result<Arc<Text>, NoMemory>
    ensures bytes { IfOk result (λ text. text.value.bytes ≡ bytes.now) }
    ensures once { OnOk result (map (λ text. text.value.bytes) texts.new.items ≡ with_bytes (map (λ text. text.value.bytes) texts.old.items) bytes.now) }
    ensures same { OnErr result (texts.new.items ≡ texts.old.items) }
{
    if let Some(text) = find(texts, bytes) {
        return Ok(Arc::try_clone(text)?);
    }
    let text = Arc::new(alloc, Text::of(alloc, bytes)?)?;
    texts.push(Arc::try_clone(&text)?)?;
    Ok(text)
}

fn find<'a>(texts: &'a [Arc<Text>], bytes: &[u8]) -> Option<&'a Arc<Text>>
    ensures bytes { IfSome result (λ text. text.now.value.bytes ≡ bytes.now) }
    ensures held { is_some result ≡ is_held (map (λ text. text.value.bytes) texts.now) bytes.now }
{
    for text in texts {
        if text.bytes() == bytes {
            return Some(text);
        }
    }
    None
}
