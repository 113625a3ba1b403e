// The words for what is refused, and for phases.
ghost use Rattle.std.specs.Prelude.{◌≡◌};
ghost use Rattle.port.specs.Answer.{denial_of};
ghost use Rattle.port.specs.Cause.{member_cause_of};
ghost use Rattle.reply_lines.specs.Names.{denial_word, fault_word, phase_word, reason_word};

use port::{EndorserRefusal, Phase, Reason};
use verifier::ReplyFault;

pub(crate) fn phase_word(phase: Phase) -> &'static [u8]
    ensures { result.now ≡ phase_word phase }
{
    match phase {
        Phase::Uninitialized => b"uninitialized",
        Phase::Initialized => b"initialized",
        Phase::Active => b"active",
        Phase::Finalized => b"finalized",
    }
}

pub(crate) fn denial_word(refusal: &EndorserRefusal) -> &'static [u8]
    ensures { result.now ≡ denial_word (denial_of refusal.now) }
{
    match refusal {
        EndorserRefusal::Behind { .. } => b"behind",
        EndorserRefusal::Stands { .. } => b"stands",
        EndorserRefusal::OtherTail { .. } => b"othertail",
        EndorserRefusal::NotGenesis => b"notgenesis",
        EndorserRefusal::Full => b"full",
        EndorserRefusal::Tall => b"tall",
        EndorserRefusal::NotMember => b"notmember",
        EndorserRefusal::BadView => b"badview",
        EndorserRefusal::BadProof { .. } => b"badproof",
        EndorserRefusal::WrongPhase { .. } => b"wrongphase",
        EndorserRefusal::Finalized { .. } => b"finalized",
        EndorserRefusal::OtherNext { .. } => b"othernext",
        EndorserRefusal::Spent => b"spent",
        EndorserRefusal::LogFull => b"logfull",
    }
}

pub(crate) fn reason_word(reason: &Reason) -> &'static [u8]
    ensures { result.now ≡ reason_word (member_cause_of reason.now) }
{
    match reason {
        Reason::Lost => b"lost",
        Reason::Refused { refusal } => denial_word(refusal),
        Reason::Other { .. } => b"other",
    }
}

pub(crate) fn fault_word(fault: ReplyFault) -> &'static [u8]
    ensures { result.now ≡ fault_word fault }
{
    match fault {
        ReplyFault::WrongKind => b"wrongkind",
        ReplyFault::UnknownView => b"unknownview",
        ReplyFault::WrongHandle => b"wronghandle",
        ReplyFault::WrongHeight => b"wrongheight",
        ReplyFault::WrongNonce => b"wrongnonce",
        ReplyFault::WrongEntry => b"wrongentry",
        ReplyFault::WrongTail => b"wrongtail",
        ReplyFault::BadReceipt { .. } => b"badreceipt",
    }
}
