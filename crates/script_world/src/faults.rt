// Calls that are to be lost, and a store that is to lie or to fail.
ghost use Rattle.std.specs.Prelude.{◌≡◌, ◌+◌, ◌-◌, ◌^◌, min, OnOk};
ghost use Rattle.blob_store.specs.LyingStore.{held_in, lying_view};
ghost use Rattle.blob_store.specs.MemStore.{itself, never};
ghost use Rattle.blob_store.specs.declared.lie.Lie.TheVariants as lies;
ghost use Rattle.endorser_cell.specs.Asking.{LosesMore};
ghost use Rattle.port.specs.declared.key.Key.TheVariants.{Row};
ghost use Rattle.script_world.specs.Faults.{LiesSo};
ghost use Rattle.script_world.specs.Going.{GoesOn};
ghost use Rattle.script_world.specs.Labels.{handle_for};
ghost use Rattle.script_world.specs.Raw.{OnlyLink, OnlyStore};
ghost use Rattle.script_world.specs.Running.{world_of};

use crate::labels::handle_for;
use crate::world::World;
use blob_store::Lie;
use endorser_cell::Loss;
use nim_base::NoMemory;
use port::Key;
use roster_bank::RunName;
use seal::Scheme;

impl<'w, G: Scheme, K: RunName> World<'w, G, K> {
    /// `lose request ID N` and `lose reply ID N`: so many more calls of the id are lost, before its endorser took a step or after.
    pub fn lose(&mut self, id: u32, which: Loss, n: u64)
        ensures rest { OnlyLink self.old self.new }
        ensures cells { LosesMore self.old.state.link.cells self.new.state.link.cells id which n }
        ensures log { self.new.state.link.log ≡ self.old.state.link.log }
        ensures goes { GoesOn (world_of self.old) (world_of self.new) }
    {
        self.coordinator.link_mut().lose(id, which, n);
    }

    /// `store fail N`: so many more calls of the store fail before they do anything.
    pub fn fail_next(&mut self, n: u64)
        ensures rest { OnlyStore self.old self.new }
        ensures due { (held_in self.new.state.store).due ≡ min ((held_in self.old.state.store).due + n) (2 ^ 64 - 1 - (lying_view self.old.state.store).faults) }
        ensures contents { (held_in self.new.state.store).contents ≡ (held_in self.old.state.store).contents }
        ensures source { (held_in self.new.state.store).source ≡ (held_in self.old.state.store).source }
        ensures forks { (held_in self.new.state.store).forks ≡ (held_in self.old.state.store).forks }
        ensures goes { GoesOn (world_of self.old) (world_of self.new) }
    {
        self.coordinator.store_mut().fail_next(n);
    }

    /// `store hide LABEL HEIGHT`: gets of that row are answered that nothing stands there.
    pub fn hide(&mut self, label: &[u8], height: u64) -> Result<(), NoMemory>
        ensures rest { OnlyStore self.old self.new }
        ensures lies { OnOk result (LiesSo self.old.state.store self.new.state.store (lies.Hide (Row (handle_for (world_of self.old).labels label.now) height))) }
        ensures goes { GoesOn (world_of self.old) (world_of self.new) }
    {
        let key = self.row_key(label, height);
        self.tell(Lie::Hide { key })
    }

    /// `store stale LABEL HEIGHT FROM`: gets of the first row are given what stands at the second one.
    pub fn stale(&mut self, label: &[u8], height: u64, from: u64) -> Result<(), NoMemory>
        ensures rest { OnlyStore self.old self.new }
        ensures lies { OnOk result (LiesSo self.old.state.store self.new.state.store (lies.Stale (Row (handle_for (world_of self.old).labels label.now) height) (Row (handle_for (world_of self.old).labels label.now) from))) }
        ensures goes { GoesOn (world_of self.old) (world_of self.new) }
    {
        let key = self.row_key(label, height);
        let from = self.row_key(label, from);
        self.tell(Lie::Stale { key, from })
    }

    /// `store fork LABEL HEIGHT`: a put of that row replaces one that stands, with nothing attached.
    pub fn fork(&mut self, label: &[u8], height: u64) -> Result<(), NoMemory>
        ensures rest { OnlyStore self.old self.new }
        ensures lies { OnOk result (LiesSo self.old.state.store self.new.state.store (lies.Fork (Row (handle_for (world_of self.old).labels label.now) height))) }
        ensures goes { GoesOn (world_of self.old) (world_of self.new) }
    {
        let key = self.row_key(label, height);
        self.tell(Lie::Fork { key })
    }

    /// `store honest`: all lies end. What stands stays, and so do failures that are still to come.
    pub fn honest(&mut self)
        ensures rest { OnlyStore self.old self.new }
        ensures source { (held_in self.new.state.store).source ≡ itself }
        ensures forks { (held_in self.new.state.store).forks ≡ never }
        ensures held { (held_in self.new.state.store).contents ≡ (held_in self.old.state.store).contents }
        ensures due { (held_in self.new.state.store).due ≡ (held_in self.old.state.store).due }
        ensures goes { GoesOn (world_of self.old) (world_of self.new) }
    {
        self.coordinator.store_mut().honest();
    }

    fn tell(&mut self, lie: Lie) -> Result<(), NoMemory>
        ensures rest { OnlyStore self.old self.new }
        ensures lies { OnOk result (LiesSo self.old.state.store self.new.state.store lie) }
        ensures goes { GoesOn (world_of self.old) (world_of self.new) }
    {
        self.coordinator.store_mut().lie(lie)?;
        Ok(())
    }

    fn row_key(&self, label: &[u8], height: u64) -> Key
        ensures { result ≡ Row (handle_for (world_of self.now).labels label.now) height }
    {
        Key::Row {
            handle: handle_for(&self.labels, label),
            height,
        }
    }
}
