use crate::latest_head::LatestHead;
use crate::latest_vote::MemberVote;
use std::marker::Model;

/// The second asking of a latest read, at the turn of one member.
#[derive(Debug, Drop)]
pub struct SecondAsking {
    /// The votes of all members, in rising ids.
    pub votes: Vec<MemberVote>,
    /// The target.
    pub head: LatestHead,
    /// The member's place.
    pub place: usize,
}

impl Model for SecondAsking {
    ghost use Rattle.op_latest.specs.LatestTurn.{Second};

    ghost Value = { Second };

    ghost view = { λ second. record { votes = second.votes.items; head = second.head; place = second.place } };
}
