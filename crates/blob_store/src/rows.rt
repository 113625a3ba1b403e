ghost use Rattle.std.specs.Prelude.{◌≡◌, ◌↔◌, is_some, OnOk, OnErr, IsTrue};
ghost use Rattle.std.specs.Option.{option_copied, option_map};
ghost use Rattle.std.specs.Ordering.{is_eq};
ghost use Rattle.port.specs.declared.key.Key.{Key};
ghost use Rattle.port.specs.Contents.{is_same_key, nothing, put};
ghost use Rattle.port.specs.Store.{at};
ghost use Rattle.blob_store.specs.Rows.{contents_of};

use nim_base::{NoMemory, Text};
use port::{Key, Stored};
use std::alloc::Global;
use std::collections::BTreeMap;

/// What stands at each key.
#[derive(Drop)]
pub(crate) struct Rows {
    map: BTreeMap<Key, Stored>,
}

// Two keys tie in their order just where they are the same.
pub(crate) fn keys_tie()
    ensures { (a b : Key) → is_eq (⟦<Key as Ord>⟧.cmp a b) ≡ is_same_key a b }
{}

impl Rows {
    pub fn new(alloc: Global) -> Rows
        ensures { contents_of result ≡ nothing }
    {
        Rows {
            map: BTreeMap::new(alloc),
        }
    }

    pub fn find(&self, key: &Key) -> Option<&Stored>
        ensures { option_copied result ≡ contents_of self.now key.now }
    {
        keys_tie();
        self.map.get(key)
    }

    pub fn has(&self, key: &Key) -> bool
        ensures { result ≡ is_some (contents_of self.now key.now) }
    {
        self.find(key).is_some()
    }

    /// What stands at a source.
    pub fn find_at(&self, source: &Option<Key>) -> Option<&Stored>
        ensures { option_copied result ≡ at (contents_of self.now) source.now }
    {
        match source {
            None => None,
            Some(key) => self.find(key),
        }
    }

    /// Whether the same stands at the key as at the source.
    pub fn agree(&self, key: &Key, source: &Option<Key>) -> bool
        ensures { IsTrue result ↔ (at (contents_of self.now) source.now ≡ contents_of self.now key.now) }
    {
        match (self.find_at(source), self.find(key)) {
            (None, None) => true,
            (Some(one), Some(other)) => same_stored(one, other),
            _ => false,
        }
    }

    pub fn set(&mut self, key: &Key, stored: Stored) -> Result<(), NoMemory>
        ensures ok { OnOk result (contents_of self.new ≡ put (contents_of self.old) key.now stored) }
        ensures err { OnErr result (contents_of self.new ≡ contents_of self.old) }
    {
        keys_tie();
        let _ = self.map.insert(*key, stored)?;
        Ok(())
    }
}

fn same_stored(one: &Stored, other: &Stored) -> bool
    ensures { IsTrue result ↔ (one.now ≡ other.now) }
{
    one.body.bytes() == other.body.bytes() && same_bytes(&one.attached, &other.attached)
}

fn same_bytes(one: &Option<Text>, other: &Option<Text>) -> bool
    ensures { IsTrue result ↔ (option_map (λ text. text.bytes) one.now ≡ option_map (λ text. text.bytes) other.now) }
{
    match (one, other) {
        (None, None) => true,
        (Some(one), Some(other)) => one.bytes() == other.bytes(),
        _ => false,
    }
}
