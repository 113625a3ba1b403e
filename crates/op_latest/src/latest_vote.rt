ghost use Rattle.std.specs.Prelude.{◌≡◌};
ghost use Rattle.op_latest.specs.LatestVote.{head_of, is_for, vote_of};

use crate::latest_head::LatestHead;
use nim_base::{Digest, Text};
use port::Reason;
use std::marker::Model;

/// What a member made known when a ledger's latest tail was asked for.
#[derive(Debug, Drop)]
pub enum LatestVote {
    /// This tail and count, signed.
    Told { tail: Digest, count: u64, sig: Text },
    /// In its catch-up, that this count stands, above the wanted one, and its tail.
    Ahead { count: u64, tail: Digest },
    /// Why it doesn't count.
    Reason { reason: Reason },
}

impl LatestVote {
    /// The head that it tells, where it tells one.
    pub fn head(&self) -> Option<LatestHead>
        ensures { result ≡ head_of (vote_of self.now) }
    {
        match self {
            LatestVote::Told { tail, count, .. } => Some(LatestHead {
                tail: *tail,
                count: *count,
            }),
            _ => None,
        }
    }

    /// Whether it tells this head.
    pub fn is_for(&self, head: &LatestHead) -> bool
        ensures { result ≡ is_for head.now (vote_of self.now) }
    {
        match self {
            LatestVote::Told { tail, count, .. } => head.is(tail, *count),
            _ => false,
        }
    }
}

/// The vote of one member.
#[derive(Debug, Drop)]
pub struct MemberVote {
    pub id: u32,
    pub vote: LatestVote,
}

impl Model for MemberVote {
    ghost use Rattle.op_latest.specs.LatestVote.{MemberVote, vote_of};

    ghost Value = { MemberVote };

    ghost view = { λ one. record { id = one.id; vote = vote_of one.vote } };
}
