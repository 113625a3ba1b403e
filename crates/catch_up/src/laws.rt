ghost use Rattle.std.specs.Prelude.{◌≡◌, ◌++◌, ◌∷◌, ◌<◌, ℕ, List, Some, Ok};
ghost use Rattle.port.specs.declared.key.Key.TheVariants.{Row as RowKey};
ghost use Rattle.port.specs.declared.reason.Reason.{Reason};
ghost use Rattle.port.specs.declared.refusal.Refusal.{Refusal};
ghost use Rattle.port.specs.declared.store_answers.Got.TheVariants.{Some as Given};
ghost use Rattle.port.specs.Answer.{Answer, Refused, Stands};
ghost use Rattle.port.specs.Call.{Call};
ghost use Rattle.port.specs.Cause.{HadAnswer, TellsCount, IsMemberShown, IsShown, member_cause_of, cause_of};
ghost use Rattle.port.specs.GoodRow.{IsGoodRow};
ghost use Rattle.port.specs.Heard.{Heard};
ghost use Rattle.port.specs.Row.{Content};
ghost use Rattle.port.specs.Store.{StoreCall, StoreAnswer, Get, WasGot};
ghost use Rattle.port.specs.Stored.{Stored};
ghost use Rattle.port.specs.Trace.{Event, AtStore, AtLink, Had};
ghost use Rattle.catch_up.specs.State.{Target};
ghost use Rattle.catch_up.specs.Told.{told};
ghost use Rattle.catch_up.specs.OwnCalls.{OwnCalls, append_of};
ghost use Rattle.catch_up.specs.Says.{Says};

use crate::progress::Progress;

/// What an answer says of the newest call shows its cause in all calls: the member told the wanted count, or one above it,
/// or has this reason; or the store's answer is the refusal's cause.
pub fn answers_are_shown()
    ensures reached { (target : Target) (height : ℕ) (event : Event) (past : List Event) → Says target height event (Ok Progress.Reached)
        → (answer : Answer) × HadAnswer (event ∷ past) target.member answer × TellsCount answer target.count }
    ensures ahead { (target : Target) (height : ℕ) (event : Event) (past : List Event) (count : ℕ) (tail : List ℕ) → Says target height event (Ok (Progress.Ahead count tail))
        → (target.count < count) × HadAnswer (event ∷ past) target.member (Refused (Stands count tail)) }
    ensures member { (target : Target) (height : ℕ) (event : Event) (past : List Event) (reason : Reason) → Says target height event (Ok (Progress.Member reason))
        → IsMemberShown (event ∷ past) target.member (member_cause_of reason) }
    ensures row { (target : Target) (height : ℕ) (event : Event) (past : List Event) (refusal : Refusal) → Says target height event (Ok (Progress.Row refusal))
        → IsShown (event ∷ past) (cause_of refusal) }
{}

/// A catch-up calls the store for rows of its ledger below the wanted count alone, and the link for appends to its member
/// alone, each of a good row that the store gave before.
pub fn calls_are_own()
    ensures store { (target : Target) (from : ℕ) (events : List Event) → OwnCalls target from events
        → (call : StoreCall) (answer : StoreAnswer) → Had events (AtStore call answer)
        → (height : ℕ) × (height < target.count) × (call ≡ Get (RowKey target.handle height)) }
    ensures link { (target : Target) (from : ℕ) (events : List Event) → OwnCalls target from events
        → (id : ℕ) (call : Call) (heard : Heard) → Had events (AtLink id call heard)
        → (id ≡ target.member) × ((height : ℕ) × (stored : Stored) × (row : Content) × (height < target.count)
        × Had events (AtStore (Get (RowKey target.handle height)) (WasGot (Given stored))) × IsGoodRow target.handle height stored.body row
        × (call ≡ append_of target.handle row.metablock)) }
{}

/// What was told last in later calls, after earlier ones, was told last in all of them.
pub fn counts_are_told_on()
    ensures { (member before : ℕ) (later earlier : List Event) → told member before (later ++ earlier) ≡ told member (told member before earlier) later }
{}
