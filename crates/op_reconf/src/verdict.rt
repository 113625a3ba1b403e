ghost use Rattle.std.specs.Prelude.{◌≡◌, Some, IfOk};
ghost use Rattle.std.specs.Option.{option_map};
ghost use Rattle.port.specs.Answer.{Refused, answer_of, denial_of};
ghost use Rattle.port.specs.Cause.{member_cause_of};
ghost use Rattle.port.specs.Heard.{heard_of};
ghost use Rattle.op_reconf.specs.SettingUp.{Gives, reason_in, stray};

use nim_base::{Digest, NoMemory};
use port::{EndorserAnswer, EndorserRefusal, LinkAnswer, Reason};

/// What was heard of a call that sets up a member: nothing where it is done, and else its reason.
pub fn reason_of(heard: LinkAnswer) -> Result<Option<Reason>, NoMemory>
    ensures { IfOk result (λ reason. Gives (heard_of heard) (option_map member_cause_of reason)) }
{
    match heard {
        LinkAnswer::Answered(answer) => Ok(reason_in(answer)),
        LinkAnswer::Lost => Ok(Some(Reason::Lost)),
        LinkAnswer::NoMemory => Err(NoMemory),
    }
}

fn reason_in(answer: EndorserAnswer) -> Option<Reason>
    ensures { option_map member_cause_of result ≡ reason_in (answer_of answer) }
{
    match answer {
        EndorserAnswer::Done => None,
        EndorserAnswer::Refused(refusal) => Some(reason_to_refuse(refusal)),
        _ => Some(out_of_place()),
    }
}

// A member is behind only where it is asked to append.
fn reason_to_refuse(refusal: EndorserRefusal) -> Reason
    ensures { Some (member_cause_of result) ≡ reason_in (Refused (denial_of refusal)) }
{
    match refusal {
        EndorserRefusal::Behind { .. } => out_of_place(),
        refusal => Reason::Refused { refusal },
    }
}

// The answer is none to what was asked.
fn out_of_place() -> Reason
    ensures { member_cause_of result ≡ stray }
{
    Reason::Other {
        count: 0,
        tail: Digest::default(),
    }
}
