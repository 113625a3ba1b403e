ghost use Rattle.std.specs.Prelude.{◌+◌, ◌<◌, ◌^◌};

/// Which half of a call gets lost.
#[derive(Clone, Copy, Debug, PartialEq, Eq)]
pub enum Loss {
    /// The call doesn't reach the endorser.
    Request,
    /// The endorser takes its step, and its answer isn't heard.
    Reply,
}

/// How calls of one endorser over a link get lost: how many are still to lose their request, how many their reply,
/// and how many were lost. Together they fit 64 bits, so each loss is counted.
#[derive(Clone, Copy, Debug)]
pub struct Losses {
    pub requests: u64,
    pub replies: u64,
    pub lost: u64,
    ghost fits: { requests + replies + lost < 2 ^ 64 },
}

impl Losses {
    ghost use Rattle.std.specs.Prelude.{◌≡◌};
    ghost use Rattle.endorser_cell.specs.Losses.{IsMore, IsNone, LosesReply, LosesRequest};

    pub(crate) fn none() -> Losses
        ensures { IsNone result }
    {
        Losses {
            requests: 0,
            replies: 0,
            lost: 0,
        }
    }

    /// So many more are to be lost, as far as all losses fit 64 bits.
    pub(crate) fn more(self, which: Loss, n: u64) -> Losses
        ensures { IsMore self which n result }
    {
        let room = u64::MAX - self.requests - self.replies - self.lost;
        let more = n.min(room);
        match which {
            Loss::Request => Losses {
                requests: self.requests + more,
                replies: self.replies,
                lost: self.lost,
            },
            Loss::Reply => Losses {
                requests: self.requests,
                replies: self.replies + more,
                lost: self.lost,
            },
        }
    }

    /// A request was lost.
    pub(crate) fn without_request(self) -> Losses
        requires { 0 < self.requests }
        ensures { LosesRequest self result }
    {
        Losses {
            requests: self.requests - 1,
            replies: self.replies,
            lost: self.lost + 1,
        }
    }

    /// A reply was lost.
    pub(crate) fn without_reply(self) -> Losses
        requires { 0 < self.replies }
        ensures { LosesReply self result }
    {
        Losses {
            requests: self.requests,
            replies: self.replies - 1,
            lost: self.lost + 1,
        }
    }
}
