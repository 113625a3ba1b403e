ghost use Rattle.std.specs.Prelude.{◌≡◌, ℕ, List, Some, None, if◌then◌else◌, OnOk, OnErr};
ghost use Rattle.std.specs.Str.{bytes_eq};
ghost use Rattle.run_clients.specs.Places.{at};

use nim_base::NoMemory;
use std::alloc::Global;
use std::collections::BTreeMap;

/// Places by name.
#[derive(Drop)]
pub(crate) struct Places {
    map: BTreeMap<Vec<u8>, usize>,
}

impl Places {
    pub fn new(alloc: Global) -> Places
        ensures { (name : List ℕ) → at result name ≡ None }
    {
        Places {
            map: BTreeMap::new(alloc),
        }
    }

    pub fn find(&self, name: &[u8]) -> Option<usize>
        ensures { result ≡ at self.now name.now }
    {
        self.map.get(name).copied()
    }

    pub fn set(&mut self, alloc: Global, name: &[u8], place: usize) -> Result<(), NoMemory>
        ensures set { OnOk result ((other : List ℕ) → at self.new other ≡ (if bytes_eq other name.now then Some place else at self.old other)) }
        ensures same { OnErr result ((other : List ℕ) → at self.new other ≡ at self.old other) }
    {
        let _ = self.map.insert(Vec::from_slice(alloc, name)?, place)?;
        Ok(())
    }
}
