use crate::endorser_answer::EndorserAnswer;

/// What a link answers to a call.
#[derive(Debug, Drop)]
pub enum LinkAnswer {
    /// The endorser's answer.
    Answered(EndorserAnswer),
    /// The call or its answer was lost, or there is no endorser of this id. The endorser may have taken its step.
    Lost,
    NoMemory,
}
