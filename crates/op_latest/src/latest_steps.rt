// What a latest read does next.
ghost use Rattle.std.specs.Prelude.{◌≡◌, ◌≤◌, ◌<◌, ◌+◌, ◌-◌, ◌*◌, length, slice_get, IfOk};
ghost use Rattle.statement.specs.Config.{IsConfig};
ghost use Rattle.view_ledger.specs.Views.{newest_config};
ghost use Rattle.op_latest.specs.LatestJudged.{latest};
ghost use Rattle.op_latest.specs.LatestState.{IsInTurn, calls_after, calls_each, members_of, stage_of};
ghost use Rattle.op_latest.specs.LatestSteps.{AsksNext, Begins, Decides, Fits, Proceeds, Settles, concluded, without_quorum, with_vote, with_receipt};
ghost use Rattle.op_latest.specs.LatestVote.{quorum_head, vote_of};

use crate::latest_claim::LatestClaim;
use crate::latest_head::LatestHead;
use crate::latest_second::SecondAsking;
use crate::latest_stage::LatestStage;
use crate::latest_vote::{LatestVote, MemberVote};
use crate::latest_votes::{
    first_above, has_quorum, marks_of, next_other, quorum_head, reasons_of, target,
};
use catch_up::CatchUp;
use nim_base::NoMemory;
use op_parts::{needed, refusal_of};
use port::LatestReply;
use statement::{Mark, Member, Receipt, Statement};
use std::alloc::Global;
use view_ledger::ViewChain;

/// The member of the chain's newest view at this place.
pub fn member_at(chain: &ViewChain, place: usize) -> Option<Member>
    ensures member { result ≡ slice_get (newest_config chain.now.configs) place }
    ensures config { IsConfig (newest_config chain.now.configs) }
{
    let members = chain.config(chain.number())?.members();
    if place >= members.len() {
        return None;
    }
    Some(members[place])
}

fn member_count(chain: &ViewChain) -> usize
    ensures count { result ≡ members_of chain.now }
    ensures config { IsConfig (newest_config chain.now.configs) }
{
    match chain.config(chain.number()) {
        Some(config) => config.members().len(),
        None => 0,
    }
}

fn head_of_quorum(chain: &ViewChain, votes: &[MemberVote]) -> Option<LatestHead>
    ensures { result ≡ quorum_head (newest_config chain.now.configs) votes.now }
{
    quorum_head(chain.config(chain.number())?, votes)
}

/// After these votes of the first asking.
pub fn ask_next(
    alloc: Global,
    chain: &ViewChain,
    claim: &LatestClaim,
    votes: Vec<MemberVote>,
) -> Result<LatestStage, NoMemory>
    requires { length votes.items ≤ members_of chain.now }
    ensures config { IsConfig (newest_config chain.now.configs) }
    ensures next { IfOk result (λ stage. AsksNext claim.now chain.now votes.items (stage_of stage)) }
    ensures fits { IfOk result (λ stage. Fits chain.now ((members_of chain.now - length votes.items) + (members_of chain.now * calls_each + 1)) (stage_of stage)) }
{
    if votes.len() < member_count(chain) {
        return Ok(LatestStage::First { votes });
    }
    decide(alloc, chain, claim, votes)
}

// After the votes of all members.
fn decide(
    alloc: Global,
    chain: &ViewChain,
    claim: &LatestClaim,
    votes: Vec<MemberVote>,
) -> Result<LatestStage, NoMemory>
    requires { length votes.items ≡ members_of chain.now }
    ensures decides { IfOk result (λ stage. Decides claim.now chain.now votes.items (stage_of stage)) }
    ensures fits { IfOk result (λ stage. Fits chain.now (members_of chain.now * calls_each + 1) (stage_of stage)) }
{
    match head_of_quorum(chain, &votes) {
        Some(head) => conclude(alloc, chain, claim, head, votes),
        None => {
            let head = target(&votes);
            proceed(alloc, chain, claim, head, votes, 0)
        }
    }
}

// The second asking, from this place on.
fn proceed(
    alloc: Global,
    chain: &ViewChain,
    claim: &LatestClaim,
    head: LatestHead,
    votes: Vec<MemberVote>,
    place: usize,
) -> Result<LatestStage, NoMemory>
    requires { length votes.items ≡ members_of chain.now }
    ensures proceeds { IfOk result (λ stage. Proceeds claim.now chain.now head votes.items place (stage_of stage)) }
    ensures fits { IfOk result (λ stage. Fits chain.now ((members_of chain.now - place) * calls_each + 1) (stage_of stage)) }
{
    match next_other(&votes, &head, place) {
        Some(other) => {
            let place = other.place;
            let second = SecondAsking { votes, head, place };
            begin(chain, claim, second, other.count)
        }
        None => conclude(alloc, chain, claim, head, votes),
    }
}

// The turn of a member that told another head, with this count.
fn begin(
    chain: &ViewChain,
    claim: &LatestClaim,
    second: SecondAsking,
    count: u64,
) -> Result<LatestStage, NoMemory>
    requires place { second.place < length second.votes }
    requires all { length second.votes ≡ members_of chain.now }
    ensures begins { IfOk result (λ stage. Begins claim.now chain.now second count (stage_of stage)) }
    ensures fits { IfOk result (λ stage. Fits chain.now (calls_each + calls_after chain.now second.place) (stage_of stage)) }
{
    let Some(member) = member_at(chain, second.place) else {
        return Err(NoMemory);
    };
    let wanted = second.head.count;
    if count >= wanted {
        return Ok(LatestStage::Again { second });
    }
    let catch_up = CatchUp::new(member.id, &claim.handle, count, wanted);
    Ok(LatestStage::CatchUp { second, catch_up })
}

// Nobody is to be asked any more.
fn conclude(
    alloc: Global,
    chain: &ViewChain,
    claim: &LatestClaim,
    head: LatestHead,
    votes: Vec<MemberVote>,
) -> Result<LatestStage, NoMemory>
    ensures concludes { IfOk result (λ stage. stage_of stage ≡ concluded claim.now chain.now head votes.items) }
    ensures fits { IfOk result (λ stage. Fits chain.now 1 (stage_of stage)) }
{
    let Some(config) = chain.config(chain.number()) else {
        return Err(NoMemory);
    };
    if !has_quorum(config, &votes, &head) {
        return without_quorum(alloc, chain, &head, votes);
    }
    let marks = marks_of(alloc, &head, votes)?;
    Ok(with_receipt(claim, head, marks))
}

fn with_receipt(claim: &LatestClaim, head: LatestHead, marks: Vec<Mark>) -> LatestStage
    ensures { stage_of result ≡ with_receipt head (record { statement = latest claim.now head.tail head.count; marks = marks.items }) }
{
    let statement = Statement::Latest {
        view: claim.view,
        handle: claim.handle,
        tail: head.tail,
        count: head.count,
        nonce: claim.nonce,
    };
    let receipt = Receipt { statement, marks };
    if head.count == 0 {
        let answer = Ok(LatestReply { row: None, receipt });
        return LatestStage::Ended { answer };
    }
    LatestStage::Row { head, receipt }
}

fn without_quorum(
    alloc: Global,
    chain: &ViewChain,
    head: &LatestHead,
    votes: Vec<MemberVote>,
) -> Result<LatestStage, NoMemory>
    ensures { IfOk result (λ stage. stage_of stage ≡ without_quorum chain.now head.now votes.items) }
{
    let higher = first_above(&votes, head.count);
    let reasons = reasons_of(alloc, head, votes)?;
    let refusal = refusal_of(chain.number(), needed(chain), higher, reasons);
    Ok(LatestStage::Ended {
        answer: Err(refusal),
    })
}

/// After the first read of the member that is asked next.
pub fn after_first(
    alloc: Global,
    chain: &ViewChain,
    claim: &LatestClaim,
    votes: Vec<MemberVote>,
    id: u32,
    vote: LatestVote,
) -> Result<LatestStage, NoMemory>
    requires { length votes.items < members_of chain.now }
    ensures next { IfOk result (λ stage. AsksNext claim.now chain.now (with_vote id (vote_of vote) votes.items) (stage_of stage)) }
    ensures fits { IfOk result (λ stage. Fits chain.now ((members_of chain.now - (length votes.items + 1)) + (members_of chain.now * calls_each + 1)) (stage_of stage)) }
{
    let mut votes = votes;
    votes.push(MemberVote { id, vote })?;
    ask_next(alloc, chain, claim, votes)
}

/// The turn of a member ends with this vote.
pub fn end_turn(
    alloc: Global,
    chain: &ViewChain,
    claim: &LatestClaim,
    second: SecondAsking,
    id: u32,
    vote: LatestVote,
) -> Result<LatestStage, NoMemory>
    requires { IsInTurn chain.now second }
    ensures settles { IfOk result (λ stage. Settles claim.now chain.now second id (vote_of vote) (stage_of stage)) }
    ensures fits { IfOk result (λ stage. Fits chain.now (calls_after chain.now second.place) (stage_of stage)) }
{
    let SecondAsking {
        mut votes,
        head,
        place,
    } = second;
    votes[place] = MemberVote { id, vote };
    proceed(alloc, chain, claim, head, votes, place + 1)
}
