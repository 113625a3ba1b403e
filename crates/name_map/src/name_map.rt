ghost use Rattle.std.specs.Prelude.{◌≡◌, [], OnOk, OnErr};

use nim_base::NoMemory;
use std::alloc::Global;
use std::collections::BTreeMap;
use std::marker::Model;

/// What each name means, if anything.
pub struct NameMap<V: Copy> {
    values: BTreeMap<Vec<u8>, V>,
}

impl<V: Copy> Model for NameMap<V> {
    ghost use Rattle.std.specs.Prelude.{ℕ, List, map};

    ghost Value = { List (List ℕ × V) };

    ghost view = { λ own. map (λ entry. (entry.0.items, entry.1)) own.values.entries };
}

impl<V: Copy> Drop for NameMap<V> {
    fn drop(self) {
        let NameMap { values: _ } = self;
    }
}

impl<V: Copy> NameMap<V> {
    ghost use Rattle.name_map.specs.NameMap.{means, with_name};

    /// No name means anything yet. It takes no memory.
    pub fn new(alloc: Global) -> NameMap<V>
        ensures { result ≡ [] }
    {
        NameMap {
            values: BTreeMap::new(alloc),
        }
    }

    /// What the name means.
    pub fn get(&self, name: &[u8]) -> Option<V>
        ensures { result ≡ means self.now name.now }
    {
        self.values.get(name).copied()
    }

    /// Lets the name mean this, whatever it meant.
    pub fn set(&mut self, alloc: Global, name: &[u8], value: V) -> Result<(), NoMemory>
        ensures set { OnOk result (means self.new ≡ with_name (means self.old) name.now value) }
        ensures same { OnErr result (self.new ≡ self.old) }
    {
        let _ = self.values.insert(Vec::from_slice(alloc, name)?, value)?;
        Ok(())
    }
}
