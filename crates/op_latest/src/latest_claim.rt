ghost use Rattle.std.specs.Prelude.{◌≡◌, ℕ, List, None, IfSome, ◌↔◌, IsTrue};
ghost use Rattle.port.specs.Answer.{answer_of, denial_of, Refused, Signed};
ghost use Rattle.port.specs.Heard.{heard_of, Answered};
ghost use Rattle.view_ledger.specs.Receipts.{Accepts};
ghost use Rattle.op_latest.specs.LatestVote.{vote_of};
ghost use Rattle.op_latest.specs.LatestJudged.{IsHead, IsJudged, IsVote, latest, stray};

use crate::latest_head::LatestHead;
use crate::latest_vote::LatestVote;
use nim_base::{Digest, NoMemory, Nonce, Text};
use port::{EndorserAnswer, EndorserRefusal, LinkAnswer, Reason};
use seal::Checker;
use statement::{Member, Statement};

/// What is asked of a view's members: the ledger's tail and count in this view, told to the one who drew the nonce.
#[derive(Clone, Copy, Debug)]
pub struct LatestClaim {
    /// The tail of the view.
    pub view: Digest,
    pub handle: Digest,
    pub nonce: Nonce,
}

impl LatestClaim {
    /// What was heard of the read. A signature counts where it is accepted under the member's key, over the statement
    /// that in the view the ledger has some tail and count, with the nonce. An answer that is none to the read is the
    /// reason `Other` with zeros, and so is a count of 0 with a tail that isn't 32 zeros, which no ledger has.
    pub fn judge<C: Checker>(
        &self,
        checker: &C,
        member: &Member,
        heard: LinkAnswer,
    ) -> Result<LatestVote, NoMemory>
        ensures { IsJudged (C.accepts checker.now) self.now member.now.key (heard_of heard) result }
    {
        match heard {
            LinkAnswer::Answered(answer) => Ok(self.judge_answer(checker, member, answer)),
            LinkAnswer::Lost => Ok(LatestVote::Reason {
                reason: Reason::Lost,
            }),
            LinkAnswer::NoMemory => Err(NoMemory),
        }
    }

    fn judge_answer<C: Checker>(
        &self,
        checker: &C,
        member: &Member,
        answer: EndorserAnswer,
    ) -> LatestVote
        ensures { IsVote (C.accepts checker.now) self.now member.now.key (Answered (answer_of answer)) (vote_of result) }
    {
        match answer {
            EndorserAnswer::Signed { statement, sig } => {
                self.judge_signed(checker, member, statement, sig)
            }
            EndorserAnswer::Refused(refusal) => self.judge_refusal(refusal),
            _ => out_of_place(),
        }
    }

    fn judge_signed<C: Checker>(
        &self,
        checker: &C,
        member: &Member,
        statement: Statement,
        sig: Text,
    ) -> LatestVote
        ensures { IsVote (C.accepts checker.now) self.now member.now.key (Answered (Signed statement sig.bytes)) (vote_of result) }
    {
        let Some(LatestHead { tail, count }) = self.head_in(&statement) else {
            return out_of_place();
        };
        if checker.check(&member.key, statement.bytes().as_slice(), sig.bytes()) {
            LatestVote::Told { tail, count, sig }
        } else {
            out_of_place()
        }
    }

    // The head that the statement tells in answer to the read.
    fn head_in(&self, statement: &Statement) -> Option<LatestHead>
        ensures some { IfSome result (λ head. (statement.now ≡ latest self.now head.tail head.count) × IsHead head.tail head.count) }
        ensures none { result ≡ None → (tail : List ℕ) (count : ℕ) → statement.now ≡ latest self.now tail count → IsHead tail count → ⊥ }
    {
        match statement {
            Statement::Latest {
                view,
                handle,
                tail,
                count,
                nonce,
            } => {
                if *view == self.view
                    && *handle == self.handle
                    && *nonce == self.nonce
                    && is_head(tail, *count)
                {
                    return Some(LatestHead {
                        tail: *tail,
                        count: *count,
                    });
                }
                None
            }
            Statement::Held { .. } | Statement::Final { .. } => None,
        }
    }

    fn judge_refusal(&self, refusal: EndorserRefusal) -> LatestVote
        ensures { (accepts : Accepts) (key : List ℕ) → IsVote accepts self.now key (Answered (Refused (denial_of refusal))) (vote_of result) }
    {
        match refusal {
            EndorserRefusal::Behind { .. } => out_of_place(),
            refusal => LatestVote::Reason {
                reason: Reason::Refused { refusal },
            },
        }
    }
}

// Whether a ledger can have this tail and count.
fn is_head(tail: &Digest, count: u64) -> bool
    ensures { IsTrue result ↔ IsHead tail.now count }
{
    count > 0 || *tail == Digest::default()
}

// The answer is none to what was asked.
fn out_of_place() -> LatestVote
    ensures { vote_of result ≡ stray }
{
    LatestVote::Reason {
        reason: Reason::Other {
            count: 0,
            tail: Digest::default(),
        },
    }
}
