// What a coordinator answers that is calm.
ghost use Rattle.std.specs.Prelude.{◌≡◌, ◌+◌, ℕ, Result};
ghost use Rattle.chain_block.specs.declared.entry.Entry.{Entry};
ghost use Rattle.chain_block.specs.Entry.{handle_of};
ghost use Rattle.port.specs.Cause.{Cause};
ghost use Rattle.port.specs.Service.{ServiceCall, ServiceAnswer};
ghost use Rattle.port.specs.View.{ViewRow};
ghost use Rattle.calm.specs.Calls.{Later, StaysCalm, GrowsCalm};
ghost use Rattle.calm.specs.Calm.{ServiceState, with_next};
ghost use Rattle.calm.specs.StandingViews.{IsFront};
ghost use Rattle.calm_first.specs.First.{BeforeFirst};
ghost use Rattle.coordinator.specs.CalmStates.{Tells, IsBeforeFirst, IsCalmOver, WasHonest, BeginsCalm, CalmlyServed, after};
ghost use Rattle.coordinator.specs.First.{SaysOfFirst};
ghost use Rattle.coordinator.specs.Says.{coordinator_says};
ghost use Rattle.coordinator.specs.State.{State};

use calm::{
    calls_are_split, calm_services_go_on, refreshes_find_all_views, standing_views_are_given,
    views_that_follow_extend, whole_refreshes_find_all_views,
};
use port::{Link, Store, finals_have_own_bytes, links_are_faithful, stores_are_honest};
use seal::Checker;

/// A coordinator that is calm, whose store counts no fault in a call, answers as a calm service does, or wants memory. Its members
/// have one stamp and one signature less then, at most.
pub fn calm_coordinators_answer<S: Store, L: Link, C: Checker>()
    ensures quiet { (old new : State S L C) (call : ServiceCall) (answer : ServiceAnswer) (service : ServiceState) (left : ℕ)
        → coordinator_says C.accepts S.view L.view old new call answer → IsCalmOver C.accepts S.view L.view old service → service.left ≡ left + 1
        → (S.view new.store).faults ≡ (S.view old.store).faults → CalmlyServed C.accepts S.view L.view new call answer service left }
    // The same of a store of which it is known in another way that it neither lies nor fails.
    ensures honest { (old new : State S L C) (call : ServiceCall) (answer : ServiceAnswer) (service : ServiceState) (left : ℕ)
        → coordinator_says C.accepts S.view L.view old new call answer → IsCalmOver C.accepts S.view L.view old service → service.left ≡ left + 1
        → WasHonest S.view L.view old new service.contents → CalmlyServed C.accepts S.view L.view new call answer service left }
{
    calls_are_split();
    calm_services_go_on();
    finals_have_own_bytes();
    links_are_faithful::<S, L>();
    refreshes_find_all_views();
    standing_views_are_given();
    stores_are_honest::<S, L>();
    views_that_follow_extend();
    whole_refreshes_find_all_views();
}

/// A coordinator whose store is empty and whose members of view 0 were never initialized sets up view 0 where its store counts no fault,
/// or wants memory, and is calm then. Each member takes two stamps and no signature for it.
pub fn calm_coordinators_begin<S: Store, L: Link, C: Checker>()
    ensures quiet { (old new : State S L C) (answer : Result ViewRow Cause) (first : BeforeFirst)
        → SaysOfFirst C.accepts S.view L.view old new answer → IsBeforeFirst C.accepts S.view L.view old first
        → (S.view new.store).faults ≡ (S.view old.store).faults → BeginsCalm C.accepts S.view L.view new first answer }
    // The same of a store of which it is known in another way that it neither lies nor fails.
    ensures honest { (old new : State S L C) (answer : Result ViewRow Cause) (first : BeforeFirst)
        → SaysOfFirst C.accepts S.view L.view old new answer → IsBeforeFirst C.accepts S.view L.view old first
        → WasHonest S.view L.view old new first.contents → BeginsCalm C.accepts S.view L.view new first answer }
{
    links_are_faithful::<S, L>();
    stores_are_honest::<S, L>();
}

/// A coordinator is calm again after an answer that leaves the service calm, and so is one that is begun anew over a chain of the first
/// of the views.
pub fn calm_coordinators_go_on<S: Store, L: Link, C: Checker>()
    ensures stays { (state : State S L C) (service : ServiceState) (later : Later) → Tells C.accepts S.view L.view state (after service later) → StaysCalm service later
        → IsCalmOver C.accepts S.view L.view state (record service { bank = later.bank; left = later.left }) }
    ensures grows { (state : State S L C) (service : ServiceState) (entry : Entry) (later : Later) → Tells C.accepts S.view L.view state (after service later) → GrowsCalm service entry later
        → IsCalmOver C.accepts S.view L.view state (with_next service (handle_of entry) entry later.contents later.bank later.left) }
    ensures restarts { (old new : State S L C) (service : ServiceState) → IsCalmOver C.accepts S.view L.view old service
        → new.store ≡ old.store → new.link ≡ old.link → new.checker ≡ old.checker → IsFront service.roster service.configs new.chain
        → IsCalmOver C.accepts S.view L.view new service }
{}
