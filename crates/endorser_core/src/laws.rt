ghost use Rattle.std.specs.Prelude.{◌≡◌, ◌+◌, ◌<◌, ◌≤◌, ◌++◌, ◌∷◌, [], Bool, List, ℕ, Option};
ghost use Rattle.statement.specs.declared.member.Member.{Member};
ghost use Rattle.statement.specs.declared.statement.Statement.TheVariants.{Held, Latest};
ghost use Rattle.port.specs.Call.{Call};
ghost use Rattle.port.specs.Answer.{Signed};
ghost use Rattle.port.specs.Table.{State, View, Active, cell, outcome};
ghost use Rattle.endorser_core.specs.Shown.{row_of};
ghost use Rattle.endorser_core.specs.Line.{Line, IsLawful, IsLawfulAt, replay, state_after};
ghost use Rattle.endorser_core.specs.Laws.{rank, count_of, IsSignedIn};

use tail_map::one_row_changes;

/// An endorser's phase never goes back.
pub fn phases_never_go_back()
    ensures { (me : Member) (state : State) (call : Call) (sig : Option (List ℕ))
        → rank state ≤ rank (outcome state (cell me state call) sig).0 }
{
    one_row_changes();
}

/// The count of a ledger never falls, and an active endorser's rises by one at most.
pub fn counts_never_fall()
    ensures never { (me : Member) (state : State) (call : Call) (sig : Option (List ℕ)) (handle : List ℕ)
        → count_of state handle ≤ count_of (outcome state (cell me state call) sig).0 handle }
    ensures one { (me : Member) (own : View) (call : Call) (sig : Option (List ℕ)) (handle : List ℕ)
        → count_of (outcome (Active own) (cell me (Active own) call) sig).0 handle ≤ count_of (Active own) handle + 1 }
{
    one_row_changes();
}

/// What an endorser signs as held, or with a nonce, is the ledger's tail and count after the step.
pub fn what_is_signed_is_held()
    ensures held { (me : Member) (state : State) (call : Call) (sig : Option (List ℕ)) (view handle tail : List ℕ) (count : ℕ) (signature : List ℕ)
        → (outcome state (cell me state call) sig).1 ≡ Signed (Held view handle tail count) signature
        → row_of (outcome state (cell me state call) sig).0 handle ≡ (tail, count) }
    ensures latest { (me : Member) (state : State) (call : Call) (sig : Option (List ℕ)) (view handle tail nonce : List ℕ) (count : ℕ) (signature : List ℕ)
        → (outcome state (cell me state call) sig).1 ≡ Signed (Latest view handle tail count nonce) signature
        → row_of (outcome state (cell me state call) sig).0 handle ≡ (tail, count) }
{
    one_row_changes();
}

/// Two statements of one endorser that hold one count of one ledger in one view have one tail.
pub fn one_tail_a_count()
    ensures { (accepts : List ℕ → List ℕ → List ℕ → Bool) (me : Member) (lines : List Line) (view handle tail tail' : List ℕ) (count : ℕ)
        → IsLawful accepts me lines → IsSignedIn lines (Held view handle tail count) → IsSignedIn lines (Held view handle tail' count) → tail ≡ tail' }
{
    one_row_changes();
}

/// A call list goes on with a line that is lawful after it.
pub fn lines_go_on()
    ensures lawful { (accepts : List ℕ → List ℕ → List ℕ → Bool) (me : Member) (lines : List Line) (line : Line)
        → IsLawful accepts me lines → IsLawfulAt accepts me (replay me lines) line → IsLawful accepts me (lines ++ line ∷ []) }
    ensures replayed { (me : Member) (lines : List Line) (line : Line)
        → replay me (lines ++ line ∷ []) ≡ state_after me (replay me lines) line }
{}
