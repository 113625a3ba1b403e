// What a user of a coordinator reads off what it says.
ghost use Rattle.std.specs.Prelude.{◌<◌, ℕ, List, Err};
ghost use Rattle.port.specs.declared.key.Key.TheVariants as keys;
ghost use Rattle.port.specs.declared.store_answers.Got.TheVariants as gots;
ghost use Rattle.port.specs.Cause.{Cause, StoreFault, Gap};
ghost use Rattle.port.specs.Service.{ServiceCall, Refused};
ghost use Rattle.port.specs.Store.{Get, WasGot};
ghost use Rattle.port.specs.Trace.{StoreFact};
ghost use Rattle.coordinator.specs.First.{SaysOfFirst};
ghost use Rattle.coordinator.specs.Laws.{Shown};
ghost use Rattle.coordinator.specs.Says.{coordinator_says};
ghost use Rattle.coordinator.specs.State.{State};

use op_entry::entry_refusals_are_shown;
use op_latest::latest_refusals_are_shown;
use port::{Link, Store, calls_stand, causes_count};
use seal::Checker;

/// The calls that were made to the store and the link show the cause of each refusal.
pub fn refusals_are_shown<S: Store, L: Link, C: Checker>()
    ensures call { (old new : State S L C) (call : ServiceCall) (cause : Cause) → coordinator_says C.accepts S.view L.view old new call (Refused cause)
        → Shown S.view L.view old new cause }
    ensures first { (old new : State S L C) (cause : Cause) → SaysOfFirst C.accepts S.view L.view old new (Err cause) → Shown S.view L.view old new cause }
{
    entry_refusals_are_shown();
    latest_refusals_are_shown();
}

/// Where a call was refused for a fault of the store, the store's count of faults rose in it.
pub fn store_faults_are_counted<S: Store, L: Link, C: Checker>()
    ensures call { (old new : State S L C) (call : ServiceCall) → coordinator_says C.accepts S.view L.view old new call (Refused StoreFault)
        → (S.view old.store).faults < (S.view new.store).faults }
    ensures first { (old new : State S L C) → SaysOfFirst C.accepts S.view L.view old new (Err StoreFault) → (S.view old.store).faults < (S.view new.store).faults }
{
    refusals_are_shown::<S, L, C>();
    causes_count::<S, L>();
}

/// Where a call was refused for a gap, the store said in it that the row is none, under a number.
pub fn gaps_stand<S: Store, L: Link, C: Checker>()
    ensures { (old new : State S L C) (call : ServiceCall) (handle : List ℕ) (missing : ℕ)
        → coordinator_says C.accepts S.view L.view old new call (Refused (Gap handle missing))
        → StoreFact S.view old.store new.store (Get (keys.Row handle missing)) (WasGot gots.None) }
{
    refusals_are_shown::<S, L, C>();
    calls_stand::<S, L>();
}
