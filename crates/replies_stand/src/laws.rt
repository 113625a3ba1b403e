// What clients make of a coordinator's answers.
ghost use Rattle.std.specs.Prelude.{◌≡◌, ℕ, List, None, IsOk};
ghost use Rattle.std.specs.Result.{result_err};
ghost use Rattle.chain_block.specs.declared.entry.Entry.{Entry};
ghost use Rattle.chain_block.specs.Entry.{bare};
ghost use Rattle.statement.specs.declared.member.Member.{Member};
ghost use Rattle.port.specs.Cause.{Conflict};
ghost use Rattle.port.specs.Reply.{Standing, LatestReply};
ghost use Rattle.port.specs.Service.{NewLedger, Append, Latest, At, Stood, Replied, Refused};
ghost use Rattle.verifier.specs.Fronts.{AreFirstOf, HaveOwnTails};
ghost use Rattle.verifier.specs.Outcomes.{append_outcome, at_outcome, latest_outcome};
ghost use Rattle.coordinator.specs.Entries.{first_entry, later_entry};
ghost use Rattle.coordinator.specs.Says.{coordinator_says};
ghost use Rattle.coordinator.specs.State.{State};
ghost use Rattle.replies_stand.specs.Judging.{unknown_view};

use port::{Link, Store};
use seal::Checker;
use verifier::{fronts_judge_alike, outcomes_mean};

/// A client that has the coordinator's views accepts what it answers to a new ledger, an append, a read at a height and a read of a
/// newest entry.
pub fn clients_accept_answers<S: Store, L: Link, C: Checker>()
    ensures new_ledger { (old new : State S L C) (nonce payload : List ℕ) (entry : Entry) (standing : Standing)
        → coordinator_says C.accepts S.view L.view old new (NewLedger nonce payload) (Stood standing) → bare entry ≡ first_entry nonce payload
        → append_outcome (C.accepts old.checker) new.chain.configs entry standing ≡ None }
    ensures append { (old new : State S L C) (handle : List ℕ) (height : ℕ) (nonce payload : List ℕ) (entry : Entry) (standing : Standing)
        → coordinator_says C.accepts S.view L.view old new (Append handle height nonce payload) (Stood standing) → bare entry ≡ later_entry handle height nonce payload
        → append_outcome (C.accepts old.checker) new.chain.configs entry standing ≡ None }
    ensures at { (old new : State S L C) (handle : List ℕ) (height : ℕ) (standing : Standing)
        → coordinator_says C.accepts S.view L.view old new (At handle height) (Stood standing)
        → at_outcome (C.accepts old.checker) new.chain.configs handle height standing ≡ None }
    ensures latest { (old new : State S L C) (handle nonce : List ℕ) (reply : LatestReply)
        → coordinator_says C.accepts S.view L.view old new (Latest handle nonce) (Replied reply)
        → IsOk (latest_outcome (C.accepts old.checker) new.chain.configs handle nonce reply) }
    // What stands in the place of an entry that was to be appended. A new ledger meets no other.
    ensures conflict { (old new : State S L C) (handle : List ℕ) (height : ℕ) (nonce payload : List ℕ) (standing : Standing)
        → coordinator_says C.accepts S.view L.view old new (Append handle height nonce payload) (Refused (Conflict standing))
        → at_outcome (C.accepts old.checker) new.chain.configs handle height standing ≡ None }
    ensures no_conflict { (old new : State S L C) (nonce payload : List ℕ) (standing : Standing)
        → coordinator_says C.accepts S.view L.view old new (NewLedger nonce payload) (Refused (Conflict standing)) → ⊥ }
{
    outcomes_mean();
}

/// A client that has only the first of the coordinator's views, no two of which have one tail, accepts the same, unless it doesn't know
/// the view of the reply's statement.
pub fn clients_behind_accept_answers<S: Store, L: Link, C: Checker>()
    ensures new_ledger { (old new : State S L C) (nonce payload : List ℕ) (entry : Entry) (standing : Standing) (front : List (List Member))
        → coordinator_says C.accepts S.view L.view old new (NewLedger nonce payload) (Stood standing) → bare entry ≡ first_entry nonce payload
        → AreFirstOf front new.chain.configs → HaveOwnTails new.chain.configs
        → append_outcome (C.accepts old.checker) front entry standing ≡ unknown_view front standing.receipt }
    ensures append { (old new : State S L C) (handle : List ℕ) (height : ℕ) (nonce payload : List ℕ) (entry : Entry) (standing : Standing) (front : List (List Member))
        → coordinator_says C.accepts S.view L.view old new (Append handle height nonce payload) (Stood standing) → bare entry ≡ later_entry handle height nonce payload
        → AreFirstOf front new.chain.configs → HaveOwnTails new.chain.configs
        → append_outcome (C.accepts old.checker) front entry standing ≡ unknown_view front standing.receipt }
    ensures at { (old new : State S L C) (handle : List ℕ) (height : ℕ) (standing : Standing) (front : List (List Member))
        → coordinator_says C.accepts S.view L.view old new (At handle height) (Stood standing)
        → AreFirstOf front new.chain.configs → HaveOwnTails new.chain.configs
        → at_outcome (C.accepts old.checker) front handle height standing ≡ unknown_view front standing.receipt }
    ensures latest { (old new : State S L C) (handle nonce : List ℕ) (reply : LatestReply) (front : List (List Member))
        → coordinator_says C.accepts S.view L.view old new (Latest handle nonce) (Replied reply)
        → AreFirstOf front new.chain.configs → HaveOwnTails new.chain.configs
        → result_err (latest_outcome (C.accepts old.checker) front handle nonce reply) ≡ unknown_view front reply.receipt }
    ensures conflict { (old new : State S L C) (handle : List ℕ) (height : ℕ) (nonce payload : List ℕ) (standing : Standing) (front : List (List Member))
        → coordinator_says C.accepts S.view L.view old new (Append handle height nonce payload) (Refused (Conflict standing))
        → AreFirstOf front new.chain.configs → HaveOwnTails new.chain.configs
        → at_outcome (C.accepts old.checker) front handle height standing ≡ unknown_view front standing.receipt }
{
    outcomes_mean();
    fronts_judge_alike();
}

/// A client that has further views beside the coordinator's, no two of which have one tail, accepts the same.
pub fn clients_ahead_accept_answers<S: Store, L: Link, C: Checker>()
    ensures new_ledger { (old new : State S L C) (nonce payload : List ℕ) (entry : Entry) (standing : Standing) (configs : List (List Member))
        → coordinator_says C.accepts S.view L.view old new (NewLedger nonce payload) (Stood standing) → bare entry ≡ first_entry nonce payload
        → AreFirstOf new.chain.configs configs → HaveOwnTails configs
        → append_outcome (C.accepts old.checker) configs entry standing ≡ None }
    ensures append { (old new : State S L C) (handle : List ℕ) (height : ℕ) (nonce payload : List ℕ) (entry : Entry) (standing : Standing) (configs : List (List Member))
        → coordinator_says C.accepts S.view L.view old new (Append handle height nonce payload) (Stood standing) → bare entry ≡ later_entry handle height nonce payload
        → AreFirstOf new.chain.configs configs → HaveOwnTails configs
        → append_outcome (C.accepts old.checker) configs entry standing ≡ None }
    ensures at { (old new : State S L C) (handle : List ℕ) (height : ℕ) (standing : Standing) (configs : List (List Member))
        → coordinator_says C.accepts S.view L.view old new (At handle height) (Stood standing)
        → AreFirstOf new.chain.configs configs → HaveOwnTails configs
        → at_outcome (C.accepts old.checker) configs handle height standing ≡ None }
    ensures latest { (old new : State S L C) (handle nonce : List ℕ) (reply : LatestReply) (configs : List (List Member))
        → coordinator_says C.accepts S.view L.view old new (Latest handle nonce) (Replied reply)
        → AreFirstOf new.chain.configs configs → HaveOwnTails configs
        → IsOk (latest_outcome (C.accepts old.checker) configs handle nonce reply) }
    ensures conflict { (old new : State S L C) (handle : List ℕ) (height : ℕ) (nonce payload : List ℕ) (standing : Standing) (configs : List (List Member))
        → coordinator_says C.accepts S.view L.view old new (Append handle height nonce payload) (Refused (Conflict standing))
        → AreFirstOf new.chain.configs configs → HaveOwnTails configs
        → at_outcome (C.accepts old.checker) configs handle height standing ≡ None }
{
    outcomes_mean();
    fronts_judge_alike();
}
