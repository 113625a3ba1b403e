// What a round ends with where its members are active with one map.
ghost use Rattle.std.specs.Prelude.{◌≡◌, ℕ, ◌<◌, ◌≤◌, List, [], length, map, take, Option};
ghost use Rattle.statement.specs.Config.{ids, quorum, weight_together};
ghost use Rattle.statement.specs.Mark.{Content as Mark, id_of};
ghost use Rattle.port.specs.Answer.{Full};
ghost use Rattle.port.specs.Cause.{MemberCause, Denied};
ghost use Rattle.port.specs.Contents.{Contents};
ghost use Rattle.port.specs.Link.{Bank};
ghost use Rattle.port.specs.Trace.{Event, AreHonest, AreFaithful};
ghost use Rattle.view_ledger.specs.Receipts.{IsAccepted};
ghost use Rattle.op_parts.specs.declared.round_refusal.Contention.{Contention};
ghost use Rattle.op_parts.specs.RoundRefusal.{cause_without_quorum};
ghost use Rattle.op_parts.specs.RoundSound.{AreAsked, Sound};
ghost use Rattle.op_parts.specs.RoundState.{State};
ghost use Rattle.calm.specs.Members.{AreAble, WereAsked};
ghost use Rattle.calm.specs.Appending.{ReadyRound, RoundHasRoom, RoundIsFull, rows_after, receipt_of, IsRefusedByFirst, AsksOnce};

use op_parts::members_are_shown;

/// Of members that are active with one map, in which there is room for the row, each that was asked has signed it.
pub fn rounds_gather_all_marks()
    ensures marks { (round : ReadyRound) (asked : ℕ) (marks : List Mark) (reasons : List (ℕ × MemberCause)) (past : List Event) (after : Bank)
        → RoundHasRoom round → AreAsked round.accepts round.ask asked marks reasons past → AreFaithful round.signs round.bank past after
        → map id_of marks ≡ take asked (ids round.ask.members) }
    ensures no_reason { (round : ReadyRound) (asked : ℕ) (marks : List Mark) (reasons : List (ℕ × MemberCause)) (past : List Event) (after : Bank)
        → RoundHasRoom round → AreAsked round.accepts round.ask asked marks reasons past → AreFaithful round.signs round.bank past after
        → reasons ≡ [] }
    // Those that were asked hold the row now, and all other endorsers and the store are as they were.
    ensures hold { (round : ReadyRound) (asked : ℕ) (marks : List Mark) (reasons : List (ℕ × MemberCause)) (past : List Event) (after : Bank)
        → RoundHasRoom round → AreAsked round.accepts round.ask asked marks reasons past → AreFaithful round.signs round.bank past after
        → WereAsked round.bank round.view round.ask.members (rows_after round) round.left asked after }
    ensures same { (round : ReadyRound) (asked : ℕ) (marks : List Mark) (reasons : List (ℕ × MemberCause)) (past : List Event) (after : Bank) (contents later : Contents)
        → RoundHasRoom round → AreAsked round.accepts round.ask asked marks reasons past → AreFaithful round.signs round.bank past after
        → AreHonest contents past later → later ≡ contents }
    // No member is caught up, however far the round has come.
    ensures once { (round : ReadyRound) (state : State) (past : List Event) (after : Bank)
        → RoundHasRoom round → Sound round.accepts round.ask state past → AreFaithful round.signs round.bank past after → AsksOnce state.stage }
    // Where all were asked they all hold the row, and their marks make a receipt that their view accepts.
    ensures all { (round : ReadyRound) (state : State) (past : List Event) (after : Bank)
        → RoundHasRoom round → Sound round.accepts round.ask state past → state.asked ≡ length round.ask.members → AreFaithful round.signs round.bank past after
        → AreAble after round.view round.ask.members (rows_after round) round.left }
    ensures quorum { (round : ReadyRound) (state : State) (past : List Event) (after : Bank)
        → RoundHasRoom round → Sound round.accepts round.ask state past → state.asked ≡ length round.ask.members → AreFaithful round.signs round.bank past after
        → quorum round.ask.members ≤ weight_together round.ask.members (map id_of state.marks) }
    ensures accepted { (round : ReadyRound) (state : State) (past : List Event) (after : Bank)
        → RoundHasRoom round → Sound round.accepts round.ask state past → state.asked ≡ length round.ask.members → AreFaithful round.signs round.bank past after
        → IsAccepted round.accepts round.ask.members round.ask.view (receipt_of round.ask state.marks) }
{
    members_are_shown();
}

/// Of members that are active with one map, in which there is neither a row of the ledger nor room for one, each that was
/// asked has said so.
pub fn rounds_find_full_maps()
    ensures reasons { (round : ReadyRound) (asked : ℕ) (marks : List Mark) (reasons : List (ℕ × MemberCause)) (past : List Event) (after : Bank)
        → RoundIsFull round → AreAsked round.accepts round.ask asked marks reasons past → AreFaithful round.signs round.bank past after
        → reasons ≡ map (λ id. (id, Denied Full)) (take asked (ids round.ask.members)) }
    ensures no_mark { (round : ReadyRound) (asked : ℕ) (marks : List Mark) (reasons : List (ℕ × MemberCause)) (past : List Event) (after : Bank)
        → RoundIsFull round → AreAsked round.accepts round.ask asked marks reasons past → AreFaithful round.signs round.bank past after
        → marks ≡ [] }
    // Those that were asked hold what they held, and all other endorsers and the store are as they were.
    ensures hold { (round : ReadyRound) (asked : ℕ) (marks : List Mark) (reasons : List (ℕ × MemberCause)) (past : List Event) (after : Bank)
        → RoundIsFull round → AreAsked round.accepts round.ask asked marks reasons past → AreFaithful round.signs round.bank past after
        → WereAsked round.bank round.view round.ask.members round.rows round.left asked after }
    ensures same { (round : ReadyRound) (asked : ℕ) (marks : List Mark) (reasons : List (ℕ × MemberCause)) (past : List Event) (after : Bank) (contents later : Contents)
        → RoundIsFull round → AreAsked round.accepts round.ask asked marks reasons past → AreFaithful round.signs round.bank past after
        → AreHonest contents past later → later ≡ contents }
    // No member is caught up, however far the round has come.
    ensures once { (round : ReadyRound) (state : State) (past : List Event) (after : Bank)
        → RoundIsFull round → Sound round.accepts round.ask state past → AreFaithful round.signs round.bank past after → AsksOnce state.stage }
    // Where all were asked there is no quorum, and the refusal is that the first member's map is full.
    ensures all { (round : ReadyRound) (state : State) (past : List Event) (after : Bank)
        → RoundIsFull round → Sound round.accepts round.ask state past → state.asked ≡ length round.ask.members → AreFaithful round.signs round.bank past after
        → AreAble after round.view round.ask.members round.rows round.left }
    ensures few { (round : ReadyRound) (state : State) (past : List Event) (after : Bank)
        → RoundIsFull round → Sound round.accepts round.ask state past → state.asked ≡ length round.ask.members → AreFaithful round.signs round.bank past after
        → weight_together round.ask.members (map id_of state.marks) < quorum round.ask.members }
    ensures refusal { (round : ReadyRound) (state : State) (past : List Event) (after : Bank)
        → RoundIsFull round → Sound round.accepts round.ask state past → state.asked ≡ length round.ask.members → AreFaithful round.signs round.bank past after
        → (from : ℕ) (higher : Option Contention) → IsRefusedByFirst round.ask.members (cause_without_quorum from (quorum round.ask.members) higher state.reasons) }
{}
