// Laws of lists of calls.
ghost use Rattle.std.specs.Prelude.{◌≡◌, ◌⊎◌, ◌+◌, ◌≤◌, ◌<◌, ℕ, true, false, List, Some};
ghost use Rattle.port.specs.Call.{Call};
ghost use Rattle.port.specs.Contents.{Contents};
ghost use Rattle.port.specs.Heard.{Heard, Lost};
ghost use Rattle.port.specs.Store.{StoreCall, StoreAnswer, Truth, is_failed};
ghost use Rattle.port.specs.Link.{Bank, Served};
ghost use Rattle.port.specs.Trace.{Event, AtStore, AtLink, Ran, Had, StoreFact, LinkFact, AreHonest, AllFollow, AreFaithful, AllServe, failed_in, lost_in};

use crate::link::Link;
use crate::store::Store;

/// Each call that was made stands under a number from the first state on.
pub fn calls_stand<S: Store, L: Link>()
    ensures store { (s s' : S) (l l' : L) (events : List Event) → Ran S.view L.view s l events s' l'
        → (call : StoreCall) (answer : StoreAnswer) → Had events (AtStore call answer) → StoreFact S.view s s' call answer }
    ensures link { (s s' : S) (l l' : L) (events : List Event) → Ran S.view L.view s l events s' l'
        → (id : ℕ) (call : Call) (heard : Heard) → Had events (AtLink id call heard) → LinkFact L.view l l' id call heard }
{}

/// Counts of faults never fall, and where a call failed or was lost its count rose.
pub fn causes_count<S: Store, L: Link>()
    ensures store { (s s' : S) (l l' : L) (events : List Event) → Ran S.view L.view s l events s' l'
        → (S.view s).faults ≤ (S.view s').faults }
    ensures failed { (s s' : S) (l l' : L) (events : List Event) → Ran S.view L.view s l events s' l'
        → (call : StoreCall) (answer : StoreAnswer) → Had events (AtStore call answer) → is_failed answer ≡ true
        → (S.view s).faults < (S.view s').faults }
    ensures link { (s s' : S) (l l' : L) (events : List Event) → Ran S.view L.view s l events s' l'
        → (id : ℕ) → (L.view l).faults id ≤ (L.view l').faults id }
    ensures lost { (s s' : S) (l l' : L) (events : List Event) → Ran S.view L.view s l events s' l'
        → (id : ℕ) (call : Call) → Had events (AtLink id call Lost)
        → ((L.view l).faults id < (L.view l').faults id) ⊎ ((L.view l).has id ≡ false) }
{}

/// Where a store tells its contents and counts no fault, all its answers are those of a map.
pub fn stores_are_honest<S: Store, L: Link>()
    ensures { (s s' : S) (l l' : L) (events : List Event) → Ran S.view L.view s l events s' l'
        → (contents : Contents) → (S.view s).told ≡ Some contents → (S.view s').faults ≡ (S.view s).faults
        → (after : Contents) × ((S.view s').told ≡ Some after) × AreHonest contents events after }
{}

/// Where a store tells what really stands, all its answers are by that, and each failure is one that was due.
pub fn stores_follow<S: Store, L: Link>()
    ensures { (s s' : S) (l l' : L) (events : List Event) → Ran S.view L.view s l events s' l'
        → (truth : Truth) → (S.view s).truth ≡ Some truth
        → (after : Truth) × ((S.view s').truth ≡ Some after) × AllFollow truth events after × (truth.due ≡ after.due + failed_in events) }
{}

/// Where a link tells its endorsers, all that is heard is by their table.
pub fn links_are_faithful<S: Store, L: Link>()
    ensures { (s s' : S) (l l' : L) (events : List Event) → Ran S.view L.view s l events s' l'
        → (bank : Bank) → (L.view l).told ≡ Some bank
        → (after : Bank) × ((L.view l').told ≡ Some after) × AreFaithful (L.view l).signs bank events after }
{}

/// Where a link tells what was served, the calls that were answered are added, and of those that were lost some;
/// and each loss of an endorser's call is one that was due.
pub fn endorsers_serve<S: Store, L: Link>()
    ensures served { (s s' : S) (l l' : L) (events : List Event) → Ran S.view L.view s l events s' l'
        → (served : List Served) → (L.view l).served ≡ Some served
        → (after : List Served) × ((L.view l').served ≡ Some after) × AllServe served events after }
    ensures due { (s s' : S) (l l' : L) (events : List Event) → Ran S.view L.view s l events s' l'
        → (before : ℕ → ℕ) → (L.view l).due ≡ Some before
        → (after : ℕ → ℕ) × ((L.view l').due ≡ Some after) × ((id : ℕ) → (L.view l).has id ≡ true → before id ≡ after id + lost_in id events) }
{}
