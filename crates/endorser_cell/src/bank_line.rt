use endorser_core::CellAnswer;
use port::EndorserCall;
use std::marker::Model;

/// One call that a bank of endorsers was asked.
#[derive(Drop)]
pub struct BankLine {
    /// Its number among the calls over the link. `None` where it came another way.
    pub number: Option<u64>,
    pub id: u32,
    pub call: EndorserCall,
    /// What is kept of the endorser's answer, also of one that was lost. `None` where the call reached no endorser.
    pub answer: Option<CellAnswer>,
    /// Whether the answer was heard.
    pub heard: bool,
}

impl Model for BankLine {
    ghost use Rattle.std.specs.Option.{option_map};
    ghost use Rattle.port.specs.Call.{call_of};
    ghost use Rattle.endorser_core.specs.LineAnswer.{kept_of};
    ghost use Rattle.endorser_cell.specs.BankLine.{BankLine};

    ghost Value = { BankLine };

    ghost view = { λ line. record { number = line.number; id = line.id; call = call_of line.call; answer = option_map kept_of line.answer; heard = line.heard } };
}
