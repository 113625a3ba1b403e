// What follows from the votes of a view's members.
ghost use Rattle.std.specs.Prelude.{◌≡◌, ◌≤◌, ◌<◌, ℕ, length, None, IfOk, IfSome};
ghost use Rattle.std.specs.Option.{option_map};
ghost use Rattle.port.specs.Cause.{member_cause_of};
ghost use Rattle.op_parts.specs.RoundRefusal.{causes};
ghost use Rattle.op_latest.specs.LatestVote.{above, first_above, greatest, has_quorum, heads, mark_of, marks_of, quorum_head, reason_of, reasons_of, target, vote_of};
ghost use Rattle.op_latest.specs.LatestTurn.{IsOther, IsSettledAt};

use crate::latest_head::LatestHead;
use crate::latest_vote::{LatestVote, MemberVote};
use nim_base::{Digest, NoMemory};
use op_parts::Contention;
use port::{EndorserRefusal, Reason};
use statement::{Config, Mark};
use std::alloc::Global;
use view_ledger::weight;

/// The first head that a quorum tells, where there is one.
pub fn quorum_head(config: &Config, votes: &[MemberVote]) -> Option<LatestHead>
    ensures { result ≡ quorum_head config.now votes.now }
{
    for one in votes {
        if let Some(head) = one.vote.head() {
            if has_quorum(config, votes, &head) {
                return Some(head);
            }
        }
    }
    None
}

/// Whether the members that tell this head are a quorum.
pub fn has_quorum(config: &Config, votes: &[MemberVote], head: &LatestHead) -> bool
    ensures { result ≡ has_quorum config.now votes.now head.now }
{
    let mut got = 0;
    for one in votes {
        if one.vote.is_for(head) {
            got += weight(config, one.id);
        }
    }
    got >= config.quorum()
}

/// The first head with the greatest count, and that of a ledger without entries where none is told.
pub fn target(votes: &[MemberVote]) -> LatestHead
    ensures { result ≡ target votes.now }
{
    let count = greatest(votes);
    for one in votes {
        if let Some(head) = one.vote.head() {
            if head.count == count {
                return head;
            }
        }
    }
    LatestHead {
        tail: Digest::default(),
        count: 0,
    }
}

fn greatest(votes: &[MemberVote]) -> u64
    ensures { result ≡ greatest (heads votes.now) }
{
    let mut most = 0;
    for one in votes {
        if let Some(head) = one.vote.head() {
            most = most.max(head.count);
        }
    }
    most
}

/// A member that told another head than the wanted one: its place among the members, and the count.
#[derive(Clone, Copy)]
pub struct Other {
    pub place: usize,
    pub count: u64,
}

/// The first such member, from a place on.
pub fn next_other(votes: &[MemberVote], head: &LatestHead, place: usize) -> Option<Other>
    ensures other { IfSome result (λ other. (place ≤ other.place) × IsOther head.now votes.now other.place other.count) }
    ensures between { IfSome result (λ other. (n : ℕ) → place ≤ n → n < other.place → IsSettledAt head.now votes.now n) }
    ensures none { result ≡ None → (n : ℕ) → place ≤ n → n < length votes.now → IsSettledAt head.now votes.now n }
{
    for place in place..votes.len() {
        let one = &votes[place];
        if let LatestVote::Told { count, .. } = &one.vote {
            if !one.vote.is_for(head) {
                return Some(Other {
                    place,
                    count: *count,
                });
            }
        }
    }
    None
}

/// The first member that came to a count above this one.
pub fn first_above(votes: &[MemberVote], first: u64) -> Option<Contention>
    ensures { result ≡ first_above first votes.now }
{
    for one in votes {
        if let Some(later) = count_above(&one.vote, first) {
            return Some(Contention {
                member: one.id,
                first,
                later,
            });
        }
    }
    None
}

fn count_above(vote: &LatestVote, first: u64) -> Option<u64>
    ensures { (id : ℕ) → option_map (λ later. record { member = id; first = first; later = later }) result ≡ above first id (vote_of vote.now) }
{
    match vote {
        LatestVote::Told { count, .. } | LatestVote::Ahead { count, .. } if *count > first => {
            Some(*count)
        }
        _ => None,
    }
}

/// The marks of the members that tell the head.
pub fn marks_of(
    alloc: Global,
    head: &LatestHead,
    votes: Vec<MemberVote>,
) -> Result<Vec<Mark>, NoMemory>
    ensures { IfOk result (λ marks. marks.items ≡ marks_of head.now votes.items) }
{
    let mut marks = Vec::new(alloc);
    for MemberVote { id, vote } in votes {
        if let Some(mark) = mark_of(head, id, vote) {
            marks.push(mark)?;
        }
    }
    Ok(marks)
}

/// The reasons of the members that don't.
pub fn reasons_of(
    alloc: Global,
    head: &LatestHead,
    votes: Vec<MemberVote>,
) -> Result<Vec<(u32, Reason)>, NoMemory>
    ensures { IfOk result (λ reasons. causes reasons.items ≡ reasons_of head.now votes.items) }
{
    let mut reasons = Vec::new(alloc);
    for MemberVote { id, vote } in votes {
        if let Some(reason) = reason_of(head, vote) {
            reasons.push((id, reason))?;
        }
    }
    Ok(reasons)
}

fn mark_of(head: &LatestHead, id: u32, vote: LatestVote) -> Option<Mark>
    ensures { result ≡ mark_of head.now id (vote_of vote) }
{
    match vote {
        LatestVote::Told { tail, count, sig } => {
            if head.is(&tail, count) {
                Some(Mark { id, sig })
            } else {
                None
            }
        }
        LatestVote::Ahead { .. } | LatestVote::Reason { .. } => None,
    }
}

fn reason_of(head: &LatestHead, vote: LatestVote) -> Option<Reason>
    ensures { option_map member_cause_of result ≡ reason_of head.now (vote_of vote) }
{
    match vote {
        LatestVote::Told { tail, count, .. } => {
            if head.is(&tail, count) {
                None
            } else {
                Some(Reason::Other { count, tail })
            }
        }
        LatestVote::Ahead { count, tail } => Some(Reason::Refused {
            refusal: EndorserRefusal::Stands { count, tail },
        }),
        LatestVote::Reason { reason } => Some(reason),
    }
}
