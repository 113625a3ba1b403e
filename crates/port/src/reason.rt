use crate::endorser_refusal::EndorserRefusal;
use nim_base::Digest;

/// Why a member doesn't count towards a quorum.
#[derive(Debug, Drop)]
pub enum Reason {
    /// The call or its answer was lost, or there is no endorser of its id.
    Lost,
    /// It refused.
    Refused { refusal: EndorserRefusal },
    /// It signed another tail or count, this one. Where its answer was out of place, both are zeros.
    Other { count: u64, tail: Digest },
}
