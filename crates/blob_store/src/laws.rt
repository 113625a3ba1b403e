// What a store that was told no lie answers.
ghost use Rattle.std.specs.Prelude.{◌≡◌, List, Some};
ghost use Rattle.port.specs.Store.{Truth};
ghost use Rattle.port.specs.Trace.{Event, Ran};
ghost use Rattle.blob_store.specs.LyingStore.{lying_view};
ghost use Rattle.blob_store.specs.TrueStores.{NeitherLiesNorFails, AnsweredHonestly};

use crate::lying_store::LyingStore;
use port::{Link, stores_follow};

/// A store that lies as it was told to answers every call honestly while no lie holds and no failure is due, whatever its
/// count of faults does. What it tells of its contents is always what really stands.
pub fn true_stores_are_honest<L: Link>()
    ensures told { (store : LyingStore) (truth : Truth) → (lying_view store).truth ≡ Some truth → (lying_view store).told ≡ Some truth.contents }
    ensures honest { (old new : LyingStore) (link link' : L) (events : List Event) → Ran lying_view L.view old link events new link'
        → (truth : Truth) → (lying_view old).truth ≡ Some truth → NeitherLiesNorFails truth → AnsweredHonestly new truth events }
{
    stores_follow::<LyingStore, L>();
}
