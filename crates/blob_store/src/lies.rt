ghost use Rattle.std.specs.Prelude.{◌≡◌, Option, Some, None, true, IfOk, OnOk, OnErr};
ghost use Rattle.blob_store.specs.MemStore.{itself, never};
ghost use Rattle.blob_store.specs.Lies.{source_of, forks_of, point, fork, source_after, forks_after};

use crate::lie::Lie;
use crate::rows::keys_tie;
use nim_base::NoMemory;
use port::Key;
use std::alloc::Global;
use std::collections::BTreeMap;

/// The lies that a store was told, by key. Of those for gets of one key the latest alone holds.
#[derive(Drop)]
pub(crate) struct Lies {
    sources: BTreeMap<Key, Option<Key>>,
    forks: BTreeMap<Key, bool>,
}

impl Lies {
    pub fn new(alloc: Global) -> Lies
        ensures source { source_of result ≡ itself }
        ensures forks { forks_of result ≡ never }
    {
        Lies {
            sources: BTreeMap::new(alloc),
            forks: BTreeMap::new(alloc),
        }
    }

    /// Where a get of the key looks.
    pub fn source(&self, key: &Key) -> Option<Key>
        ensures { result ≡ source_of self.now key.now }
    {
        keys_tie();
        match self.sources.get(key) {
            Some(source) => *source,
            None => Some(*key),
        }
    }

    /// Whether a put at the key replaces what stands.
    pub fn forks(&self, key: &Key) -> bool
        ensures { result ≡ forks_of self.now key.now }
    {
        keys_tie();
        match self.forks.get(key) {
            Some(forks) => *forks,
            None => false,
        }
    }

    pub fn add(&mut self, lie: &Lie) -> Result<(), NoMemory>
        ensures source { OnOk result (source_of self.new ≡ source_after (source_of self.old) lie.now) }
        ensures forks { OnOk result (forks_of self.new ≡ forks_after (forks_of self.old) lie.now) }
        ensures same_source { OnErr result (source_of self.new ≡ source_of self.old) }
        ensures same_forks { OnErr result (forks_of self.new ≡ forks_of self.old) }
    {
        match lie {
            Lie::Hide { key } => self.point(key, None),
            Lie::Stale { key, from } => self.point(key, Some(*from)),
            Lie::Fork { key } => self.fork(key),
        }
    }

    fn point(&mut self, key: &Key, source: Option<Key>) -> Result<(), NoMemory>
        ensures source { OnOk result (source_of self.new ≡ point (source_of self.old) key.now source) }
        ensures same { OnErr result (source_of self.new ≡ source_of self.old) }
        ensures forks { forks_of self.new ≡ forks_of self.old }
    {
        keys_tie();
        let _ = self.sources.insert(*key, source)?;
        Ok(())
    }

    fn fork(&mut self, key: &Key) -> Result<(), NoMemory>
        ensures forks { OnOk result (forks_of self.new ≡ fork (forks_of self.old) key.now) }
        ensures same { OnErr result (forks_of self.new ≡ forks_of self.old) }
        ensures source { source_of self.new ≡ source_of self.old }
    {
        keys_tie();
        let _ = self.forks.insert(*key, true)?;
        Ok(())
    }

    pub fn clear(&mut self)
        ensures source { source_of self.new ≡ itself }
        ensures forks { forks_of self.new ≡ never }
    {
        self.sources.clear();
        self.forks.clear();
    }
}
