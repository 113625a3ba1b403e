ghost use Rattle.std.specs.Prelude.{◌≡◌, ◌≤◌, ◌++◌, [], length};
ghost use Rattle.port.specs.Answer.{answer_of, denial_of, kept};
ghost use Rattle.endorser_core.specs.LineAnswer.{kept_of};
ghost use Rattle.endorser_core.specs.Shown.{sig_size};
ghost use Rattle.port.specs.Answer.{Refused};

use endorser_core::CellAnswer;
use nim_base::Text;
use port::{EndorserAnswer, EndorserRefusal};

// What a line keeps of an answer. Its signature goes into an empty text with room for it, so no memory is taken.
pub(crate) fn line_answer(answer: &EndorserAnswer, room: Text) -> CellAnswer
    requires empty { room.bytes ≡ [] }
    requires room { sig_size (answer_of answer.now) ≤ room.room }
    ensures { kept_of result ≡ kept (answer_of answer.now) }
{
    match answer {
        EndorserAnswer::Done => CellAnswer::Done,
        EndorserAnswer::Signed { statement, sig } => CellAnswer::Signed {
            statement: *statement,
            sig: filled(room, sig.bytes()),
        },
        EndorserAnswer::Finaled {
            statement,
            sig,
            map: _,
        } => CellAnswer::Finaled {
            statement: *statement,
            sig: filled(room, sig.bytes()),
        },
        EndorserAnswer::Shown {
            phase,
            number,
            tail,
            count,
        } => CellAnswer::Shown {
            phase: *phase,
            number: *number,
            tail: *tail,
            count: *count,
        },
        EndorserAnswer::Refused(refusal) => CellAnswer::Refused(line_refusal(refusal, room)),
    }
}

// The same refusal, where a signature in it goes into the text.
fn line_refusal(refusal: &EndorserRefusal, room: Text) -> EndorserRefusal
    requires empty { room.bytes ≡ [] }
    requires room { sig_size (Refused (denial_of refusal.now)) ≤ room.room }
    ensures { denial_of result ≡ denial_of refusal.now }
{
    match refusal {
        EndorserRefusal::Behind { count } => EndorserRefusal::Behind { count: *count },
        EndorserRefusal::Stands { count, tail } => EndorserRefusal::Stands {
            count: *count,
            tail: *tail,
        },
        EndorserRefusal::OtherTail { tail } => EndorserRefusal::OtherTail { tail: *tail },
        EndorserRefusal::NotGenesis => EndorserRefusal::NotGenesis,
        EndorserRefusal::Full => EndorserRefusal::Full,
        EndorserRefusal::Tall => EndorserRefusal::Tall,
        EndorserRefusal::NotMember => EndorserRefusal::NotMember,
        EndorserRefusal::BadView => EndorserRefusal::BadView,
        EndorserRefusal::BadProof { cause } => EndorserRefusal::BadProof { cause: *cause },
        EndorserRefusal::WrongPhase { phase } => EndorserRefusal::WrongPhase { phase: *phase },
        EndorserRefusal::Finalized { statement, sig } => EndorserRefusal::Finalized {
            statement: *statement,
            sig: filled(room, sig.bytes()),
        },
        EndorserRefusal::OtherNext { next } => EndorserRefusal::OtherNext { next: *next },
        EndorserRefusal::Spent => EndorserRefusal::Spent,
        EndorserRefusal::LogFull => EndorserRefusal::LogFull,
    }
}

// The text with these bytes at its end, for which it has room.
fn filled(mut text: Text, bytes: &[u8]) -> Text
    requires { length bytes.now ≤ text.room }
    ensures { result.bytes ≡ text.bytes ++ bytes.now }
{
    text.fill(bytes);
    text
}
