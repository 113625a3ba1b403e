use crate::latest_head::LatestHead;
use crate::latest_second::SecondAsking;
use crate::latest_vote::MemberVote;
use catch_up::CatchUp;
use op_parts::Refresh;
use port::{LatestReply, Refusal};
use statement::Receipt;

/// What a latest read does next.
#[derive(Debug, Drop)]
pub enum LatestStage {
    /// Its chain of views goes on.
    Refresh {
        refresh: Refresh,
    },
    /// It asks the next member, after these votes.
    First {
        votes: Vec<MemberVote>,
    },
    /// A member that told a lower count than the target's is brought forward.
    CatchUp {
        second: SecondAsking,
        catch_up: CatchUp,
    },
    /// It asks a member once more.
    Again {
        second: SecondAsking,
    },
    /// It gets the row whose tail was signed.
    Row {
        head: LatestHead,
        receipt: Receipt,
    },
    /// It has ended.
    Ended {
        answer: Result<LatestReply, Refusal>,
    },
}
