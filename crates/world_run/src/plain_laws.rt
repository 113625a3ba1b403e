// What a run of a plain script prints over a calm service.
ghost use Rattle.std.specs.Prelude.{◌≡◌, ◌+◌, ℕ, List, [], ◌∷◌, ◌++◌, Result};
ghost use Rattle.fault_script.specs.Command.{Request, Command, Plain, Restart, End};
ghost use Rattle.port.specs.Cause.{Cause};
ghost use Rattle.port.specs.View.{ViewRow};
ghost use Rattle.blob_store.specs.LyingStore.{lying_view, held_in};
ghost use Rattle.blob_store.specs.TrueStores.{NeitherLiesNorFails};
ghost use Rattle.view_ledger.specs.Receipts.{Accepts};
ghost use Rattle.calm_first.specs.First.{BeforeFirst};
ghost use Rattle.coordinator.specs.CalmStates.{IsBeforeFirst};
ghost use Rattle.coordinator.specs.First.{SaysOfFirst};
ghost use Rattle.script_world.specs.Lines.{Restarted, HasClientMore};
ghost use Rattle.script_world.specs.World.{World};
ghost use Rattle.world_run.specs.Plain.{Known, reply_to_request, after_request};
ghost use Rattle.world_run.specs.PlainRun.{IsRunnable};
ghost use Rattle.script_runs.specs.Runs.{Does};
ghost use Rattle.world_run.specs.Tied.{IsTied, BeginsTied};
ghost use Rattle.script_runs.specs.Begins.{IsUnbegun};

use blob_store::{LyingStore, true_stores_are_honest};
use coordinator::{calm_coordinators_answer, calm_coordinators_begin, calm_coordinators_go_on};
use port::Link;
use replies_stand::clients_accept_answers;
use seal::Checker;

/// A run over a calm service, of whose ledgers the plain replies know, prints at each request the plain reply, and the plain replies
/// know of its ledgers then. Each member has one stamp and one signature less, at most.
pub fn plain_lines_get_plain_replies<L: Link, C: Checker>()
    ensures request { (checks : Accepts) (texts_of : ℕ → List (List ℕ)) (script before after : List Command) (request : Request) (old new : World L C) (known : Known) (place left : ℕ) (line : List ℕ)
        → IsRunnable texts_of script → script ≡ before ++ Plain request ∷ after → IsTied C.accepts checks L.view before old known (left + 1) → Does C.accepts L.view old new place request line
        → (line ≡ reply_to_request known request) × IsTied C.accepts checks L.view (before ++ Plain request ∷ []) new (after_request known request) left }
    // A restart, the end and a new client change nothing that is known.
    ensures restart { (checks : Accepts) (texts_of : ℕ → List (List ℕ)) (script before after : List Command) (old new : World L C) (known : Known) (left : ℕ)
        → IsRunnable texts_of script → script ≡ before ++ Restart ∷ after → IsTied C.accepts checks L.view before old known (left + 1) → Restarted old new
        → IsTied C.accepts checks L.view (before ++ Restart ∷ []) new known left }
    ensures end { (checks : Accepts) (texts_of : ℕ → List (List ℕ)) (script before after : List Command) (world : World L C) (known : Known) (left : ℕ)
        → IsRunnable texts_of script → script ≡ before ++ End ∷ after → IsTied C.accepts checks L.view before world known (left + 1)
        → IsTied C.accepts checks L.view (before ++ End ∷ []) world known left }
    ensures client { (checks : Accepts) (before : List Command) (old new : World L C) (known : Known) (left : ℕ)
        → IsTied C.accepts checks L.view before old known left → HasClientMore C.accepts checks old new → IsTied C.accepts checks L.view before new known left }
{
    calm_coordinators_answer::<LyingStore, L, C>();
    calm_coordinators_go_on::<LyingStore, L, C>();
    clients_accept_answers::<LyingStore, L, C>();
    true_stores_are_honest::<L>();
}

/// A run whose store is empty and whose members were never initialized begins so that the plain replies know of it, or wants memory.
pub fn plain_runs_begin<L: Link, C: Checker>()
    ensures { (old new : World L C) (ids : List ℕ) (answer : Result ViewRow Cause) (first : BeforeFirst)
        → SaysOfFirst C.accepts lying_view L.view old.state new.state answer → new ≡ record old { state = new.state } → IsUnbegun old
        → IsBeforeFirst C.accepts lying_view L.view old.state first → NeitherLiesNorFails (held_in old.state.store) → BeginsTied C.accepts L.view new ids first answer }
{
    calm_coordinators_begin::<LyingStore, L, C>();
    true_stores_are_honest::<L>();
}
