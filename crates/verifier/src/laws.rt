// What the outcomes of the checks mean, and what clients of different chains make of one reply.
ghost use Rattle.std.specs.Prelude.{◌≡◌, ◌≢◌, ◌↔◌, ◌^◌, ◌<◌, ℕ, true, false, List, length, Some, None, Ok, Err};
ghost use Rattle.chain_block.specs.declared.entry.Entry.{Entry};
ghost use Rattle.chain_block.specs.Entry.{bare, handle_of, height_of};
ghost use Rattle.sha2.specs.Sha256.{sha256};
ghost use Rattle.statement.specs.declared.member.Member.{Member};
ghost use Rattle.statement.specs.declared.statement.Statement.TheVariants.{Held, Latest};
ghost use Rattle.statement.specs.Statement.{view_of};
ghost use Rattle.port.specs.Reply.{Standing, LatestReply};
ghost use Rattle.view_ledger.specs.Receipts.{Accepts};
ghost use Rattle.view_ledger.specs.Views.{tail_at};
ghost use Rattle.verifier.specs.declared.reply_fault.ReplyFault.TheVariants.{UnknownView};
ghost use Rattle.verifier.specs.Fronts.{AreFirstOf, HaveOwnTails};
ghost use Rattle.verifier.specs.Outcomes.{is_known, append_outcome, at_outcome, latest_outcome};
ghost use Rattle.verifier.specs.Yes.{Stands, IsLatest};

use statement::view_blocks_have_own_bytes;

/// What it means that a reply has no fault, without a call of a check.
pub fn outcomes_mean()
    ensures append { (accepts : Accepts) (configs : List (List Member)) (entry : Entry) (reply : Standing)
        → (append_outcome accepts configs entry reply ≡ None) ↔ (Stands accepts configs (handle_of entry) (height_of entry) reply × (bare entry ≡ reply.row.entry)) }
    ensures at { (accepts : Accepts) (configs : List (List Member)) (handle : List ℕ) (height : ℕ) (reply : Standing)
        → (at_outcome accepts configs handle height reply ≡ None) ↔ Stands accepts configs handle height reply }
    ensures latest { (accepts : Accepts) (configs : List (List Member)) (handle nonce : List ℕ) (count : ℕ) (reply : LatestReply)
        → (latest_outcome accepts configs handle nonce reply ≡ Ok count) ↔ IsLatest accepts configs handle nonce count reply }
{}

/// A client that has the first views of a chain, no two of which have one tail, judges a reply as one that has all of them, where it
/// knows the view of the reply's statement. Where it doesn't know it, that is the fault.
pub fn fronts_judge_alike()
    ensures append { (accepts : Accepts) (front configs : List (List Member)) (entry : Entry) (reply : Standing)
        → AreFirstOf front configs → HaveOwnTails configs → is_known front (view_of reply.receipt.statement) ≡ true
        → append_outcome accepts front entry reply ≡ append_outcome accepts configs entry reply }
    ensures at { (accepts : Accepts) (front configs : List (List Member)) (handle : List ℕ) (height : ℕ) (reply : Standing)
        → AreFirstOf front configs → HaveOwnTails configs → is_known front (view_of reply.receipt.statement) ≡ true
        → at_outcome accepts front handle height reply ≡ at_outcome accepts configs handle height reply }
    ensures latest { (accepts : Accepts) (front configs : List (List Member)) (handle nonce : List ℕ) (reply : LatestReply)
        → AreFirstOf front configs → HaveOwnTails configs → is_known front (view_of reply.receipt.statement) ≡ true
        → latest_outcome accepts front handle nonce reply ≡ latest_outcome accepts configs handle nonce reply }
    ensures append_unknown { (accepts : Accepts) (front : List (List Member)) (entry : Entry) (reply : Standing) (view handle tail : List ℕ) (count : ℕ)
        → reply.receipt.statement ≡ Held view handle tail count → is_known front view ≡ false
        → append_outcome accepts front entry reply ≡ Some UnknownView }
    ensures at_unknown { (accepts : Accepts) (front : List (List Member)) (asked : List ℕ) (height : ℕ) (reply : Standing) (view handle tail : List ℕ) (count : ℕ)
        → reply.receipt.statement ≡ Held view handle tail count → is_known front view ≡ false
        → at_outcome accepts front asked height reply ≡ Some UnknownView }
    ensures latest_unknown { (accepts : Accepts) (front : List (List Member)) (asked asked_nonce : List ℕ) (reply : LatestReply) (view handle tail nonce : List ℕ) (count : ℕ)
        → reply.receipt.statement ≡ Latest view handle tail count nonce → is_known front view ≡ false
        → latest_outcome accepts front asked asked_nonce reply ≡ Err UnknownView }
{}

/// Two views of a chain with one tail show two texts with one SHA-256 digest.
pub fn shared_tails_collide()
    ensures { (configs : List (List Member)) (one other : ℕ) → length configs < 2 ^ 64 → one < length configs → other < length configs → one ≢ other
        → tail_at configs one ≡ tail_at configs other → (a b : List ℕ) × (a ≢ b) × (sha256 a ≡ sha256 b) }
{
    view_blocks_have_own_bytes();
}
