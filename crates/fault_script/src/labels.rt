ghost use Rattle.std.specs.Prelude.{◌≡◌, ◌||◌, ℕ, List, false, OnOk};
ghost use Rattle.std.specs.Option.{option_map_or};
ghost use Rattle.std.specs.Str.{bytes_eq};
ghost use Rattle.fault_script.specs.Kept.{has};
ghost use Rattle.fault_script.specs.Labels.{has_label, makes_used_label};
ghost use Rattle.fault_script.specs.Seen.{command_of};

use crate::line::Line;
use nim_base::NoMemory;
use std::alloc::Global;
use std::collections::BTreeSet;

/// The labels that lines used.
#[derive(Drop)]
pub(crate) struct Labels {
    used: BTreeSet<Vec<u8>>,
}

impl Labels {
    pub fn new(alloc: Global) -> Labels
        ensures { (name : List ℕ) → has result name ≡ false }
    {
        Labels {
            used: BTreeSet::new(alloc),
        }
    }

    fn has(&self, name: &[u8]) -> bool
        ensures { result ≡ has self.now name.now }
    {
        self.used.contains(name)
    }

    /// Whether a line makes a label that is used.
    pub fn forbid(&self, line: &Line) -> bool
        ensures { result ≡ makes_used_label (has self.now) (command_of line.now) }
    {
        if !line.is_new() {
            return false;
        }
        match line.label() {
            Some(label) => self.has(label),
            None => false,
        }
    }

    fn add(&mut self, alloc: Global, label: &[u8]) -> Result<(), NoMemory>
        ensures { OnOk result ((name : List ℕ) → has self.new name ≡ (has self.old name || bytes_eq name label.now)) }
    {
        let _ = self.used.insert(Vec::from_slice(alloc, label)?)?;
        Ok(())
    }

    /// Notes the label of a line.
    pub fn note(&mut self, alloc: Global, line: &Line) -> Result<(), NoMemory>
        ensures { OnOk result ((name : List ℕ) → has self.new name ≡ (has self.old name || has_label name (command_of line.now))) }
    {
        match line.label() {
            Some(label) => self.add(alloc, label),
            None => Ok(()),
        }
    }
}
