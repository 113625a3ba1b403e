use crate::cell_answer::CellAnswer;
use port::EndorserCall;
use std::marker::Model;

/// One call of an endorser: its stamp, what was asked and what was answered.
#[derive(Debug, Drop)]
pub struct CellLine {
    pub stamp: u64,
    pub call: EndorserCall,
    pub answer: CellAnswer,
}

impl Model for CellLine {
    ghost use Rattle.port.specs.Call.{call_of};
    ghost use Rattle.endorser_core.specs.Line.{Line};
    ghost use Rattle.endorser_core.specs.LineAnswer.{kept_of};

    ghost Value = { Line };

    ghost view = { λ line. record { stamp = line.stamp; call = call_of line.call; answer = kept_of line.answer } };
}
