// What an honest store answers in which the rows of a ledger stand.
ghost use Rattle.std.specs.Prelude.{◌≡◌, ℕ, ◌<◌, ◌≤◌, ◌++◌, ◌∷◌, [], List, length, None, Some, Result};
ghost use Rattle.chain_block.specs.declared.entry.Entry.{Entry};
ghost use Rattle.nim_base.specs.declared.no_memory.NoMemory.{NoMemory};
ghost use Rattle.statement.specs.declared.member.Member.{Member};
ghost use Rattle.port.specs.declared.key.Key.{Key};
ghost use Rattle.port.specs.declared.key.Key.TheVariants as keys;
ghost use Rattle.port.specs.declared.store_answers.Put.{Put};
ghost use Rattle.port.specs.declared.store_answers.Got.{Got};
ghost use Rattle.port.specs.declared.store_answers.Attached.{Attached};
ghost use Rattle.port.specs.Cause.{Cause};
ghost use Rattle.port.specs.Contents.{Contents};
ghost use Rattle.port.specs.GoodRow.{IsGoodRow};
ghost use Rattle.port.specs.Row.{Content};
ghost use Rattle.port.specs.Stored.{Stored};
ghost use Rattle.port.specs.Store.{PutNew, Get, Attach, WasPut, WasGot, WasAttached, IsHonest};
ghost use Rattle.port.specs.Trace.{Event, AreHonest};
ghost use Rattle.catch_up.specs.Says.{IsRowRefused};
ghost use Rattle.view_ledger.specs.Receipts.{Accepts};
ghost use Rattle.op_parts.specs.declared.walk.WalkProgress.{WalkProgress};
ghost use Rattle.op_parts.specs.Walk.{Place, Says};
ghost use Rattle.calm.specs.Ledgers.{row_above};
ghost use Rattle.calm.specs.StandingRows.{StandsAbove, StandRows};
ghost use Rattle.calm.specs.Storing.{GivesRow, GivesNone, FindsTaken, TakesBody, TakesBytes, IsAbove, EndsAtRow, EndsAtTop};

use port::rows_have_own_bytes;

/// What an honest store answers in which the rows of a ledger stand with their receipts.
pub fn standing_rows_are_given()
    ensures row { (accepts : Accepts) (configs : List (List Member)) (contents after : Contents) (handle : List ℕ) (entries below above : List Entry) (entry : Entry) (got : Got)
        → StandRows accepts configs contents handle entries → entries ≡ below ++ entry ∷ above
        → IsHonest contents (Get (keys.Row handle (length below))) (WasGot got) after → GivesRow accepts configs handle below entry got }
    ensures none { (accepts : Accepts) (configs : List (List Member)) (contents after : Contents) (handle : List ℕ) (entries : List Entry) (height : ℕ) (got : Got)
        → StandRows accepts configs contents handle entries → length entries ≤ height → IsHonest contents (Get (keys.Row handle height)) (WasGot got) after → GivesNone got }
    // No catch-up is refused for it.
    ensures kept { (accepts : Accepts) (configs : List (List Member)) (contents after : Contents) (handle : List ℕ) (below : List Entry) (entry : Entry) (event : Event) (cause : Cause)
        → StandsAbove accepts configs contents handle below entry → AreHonest contents (event ∷ []) after → IsRowRefused handle (length below) event cause → ⊥ }
    // There is one row for its bytes.
    ensures one { (below : List Entry) (entry : Entry) (handle bytes : List ℕ) (row : Content)
        → IsGoodRow handle (length below) bytes (row_above below entry) → IsGoodRow handle (length below) bytes row → row ≡ row_above below entry }
    ensures taken { (accepts : Accepts) (configs : List (List Member)) (contents after : Contents) (handle : List ℕ) (entries : List Entry) (height : ℕ) (body : List ℕ) (answer : Put)
        → StandRows accepts configs contents handle entries → height < length entries
        → IsHonest contents (PutNew (keys.Row handle height) body) (WasPut answer) after → FindsTaken contents answer after }
    ensures put { (accepts : Accepts) (configs : List (List Member)) (contents after : Contents) (handle : List ℕ) (entries : List Entry) (height : ℕ) (body : List ℕ) (answer : Put)
        → StandRows accepts configs contents handle entries → length entries ≤ height
        → IsHonest contents (PutNew (keys.Row handle height) body) (WasPut answer) after → TakesBody contents (keys.Row handle height) body answer after }
    ensures attached { (contents after : Contents) (key : Key) (stored : Stored) (bytes : List ℕ) (answer : Attached)
        → contents key ≡ Some stored → IsHonest contents (Attach key bytes) (WasAttached answer) after → TakesBytes contents key stored bytes answer after }
{
    rows_have_own_bytes();
}

/// A walk ends at once at a row that stands with its receipt, and where nothing stands.
pub fn walks_end_at_standing_rows()
    ensures row { (accepts : Accepts) (configs : List (List Member)) (contents later : Contents) (handle : List ℕ) (below : List Entry) (entry : Entry) (place after : Place) (got : Got) (result : Result WalkProgress NoMemory)
        → (stands : StandsAbove accepts configs contents handle below entry) → IsAbove below place → IsHonest contents (Get (keys.Row handle place.height)) (WasGot got) later
        → Says accepts configs handle place got after result → EndsAtRow accepts configs handle below entry stands.stored place after result }
    ensures top { (accepts : Accepts) (configs : List (List Member)) (contents later : Contents) (handle : List ℕ) (place after : Place) (got : Got) (result : Result WalkProgress NoMemory)
        → contents (keys.Row handle place.height) ≡ None → IsHonest contents (Get (keys.Row handle place.height)) (WasGot got) later
        → Says accepts configs handle place got after result → EndsAtTop place after result }
{
    rows_have_own_bytes();
}
