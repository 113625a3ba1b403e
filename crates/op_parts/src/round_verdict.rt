ghost use Rattle.std.specs.Prelude.{◌≡◌, ◌↔◌, IsTrue, List, ℕ, Bool};
ghost use Rattle.port.specs.Answer.{answer_of, denial_of, Refused};
ghost use Rattle.port.specs.Heard.{heard_of, Answered};
ghost use Rattle.view_ledger.specs.Receipts.{Accepts};
ghost use Rattle.op_parts.specs.RoundOutcome.{IsMark, IsOutcome, IsJudged, held, stray, outcome_of};

use nim_base::{Digest, NoMemory, Text};
use port::{EndorserAnswer, EndorserRefusal, LinkAnswer, Reason};
use seal::Checker;
use statement::{Member, Statement};

/// What an answer to the append of a row makes of the member.
#[derive(Drop)]
pub enum Verdict {
    /// It signed the row.
    Mark { sig: Text },
    /// It has this reason not to count.
    Reason { reason: Reason },
}

/// What a member of a view claims that has signed a row: in this view it holds the ledger at this tail, which is the row's.
#[derive(Clone, Copy)]
pub struct Claim {
    pub view: Digest,
    pub handle: Digest,
    pub tail: Digest,
    pub height: u64,
}

impl Claim {
    /// What was heard of the append of the row. A signature counts where it is accepted under the member's key, over
    /// the statement that the member holds the row in this view.
    pub fn judge<C: Checker>(
        &self,
        checker: &C,
        member: &Member,
        heard: LinkAnswer,
    ) -> Result<Verdict, NoMemory>
        ensures { IsJudged (C.accepts checker.now) self.now member.now.key (heard_of heard) result }
    {
        match heard {
            LinkAnswer::Answered(answer) => Ok(self.judge_answer(checker, member, answer)),
            LinkAnswer::Lost => Ok(Verdict::Reason {
                reason: Reason::Lost,
            }),
            LinkAnswer::NoMemory => Err(NoMemory),
        }
    }

    fn judge_answer<C: Checker>(
        &self,
        checker: &C,
        member: &Member,
        answer: EndorserAnswer,
    ) -> Verdict
        ensures { IsOutcome (C.accepts checker.now) self.now member.now.key (Answered (answer_of answer)) (outcome_of result) }
    {
        match answer {
            EndorserAnswer::Signed { statement, sig } => {
                if self.is_signed(checker, member, &statement, &sig) {
                    Verdict::Mark { sig }
                } else {
                    out_of_place()
                }
            }
            EndorserAnswer::Refused(refusal) => self.judge_refusal(refusal),
            _ => out_of_place(),
        }
    }

    fn judge_refusal(&self, refusal: EndorserRefusal) -> Verdict
        ensures { (accepts : Accepts) (key : List ℕ) → IsOutcome accepts self.now key (Answered (Refused (denial_of refusal))) (outcome_of result) }
    {
        match refusal {
            EndorserRefusal::Behind { count } if count >= self.height => out_of_place(),
            refusal => Verdict::Reason {
                reason: Reason::Refused { refusal },
            },
        }
    }

    fn is_signed<C: Checker>(
        &self,
        checker: &C,
        member: &Member,
        statement: &Statement,
        sig: &Text,
    ) -> bool
        ensures { IsTrue result ↔ IsMark (C.accepts checker.now) self.now member.now.key statement.now sig.now.bytes }
    {
        self.is_claimed(statement)
            && checker.check(&member.key, statement.bytes().as_slice(), sig.bytes())
    }

    fn is_claimed(&self, statement: &Statement) -> bool
        ensures { IsTrue result ↔ (statement.now ≡ held self.now) }
    {
        match statement {
            Statement::Held {
                view,
                handle,
                tail,
                count,
            } => {
                *view == self.view
                    && *handle == self.handle
                    && *tail == self.tail
                    && *count > self.height
                    && *count - self.height == 1
            }
            Statement::Latest { .. } | Statement::Final { .. } => false,
        }
    }
}

// The answer is none to what was asked.
fn out_of_place() -> Verdict
    ensures { outcome_of result ≡ stray }
{
    Verdict::Reason {
        reason: Reason::Other {
            count: 0,
            tail: Digest::default(),
        },
    }
}
