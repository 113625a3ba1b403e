ghost use Rattle.std.specs.Prelude.{◌≡◌};
ghost use Rattle.client_pass.specs.Answers.{answer_by, view_answer_by};

use crate::take_fault::TakeFault;
use verifier::ReplyFault;
use view_ledger::ViewFault;

/// The answer to a reply whose check had this fault, or none.
pub(crate) fn answer_by(fault: Option<ReplyFault>) -> Result<(), TakeFault>
    ensures { result ≡ answer_by fault }
{
    match fault {
        None => Ok(()),
        Some(fault) => Err(TakeFault::Reply { fault }),
    }
}

/// The answer to a view whose check had this fault, or none.
pub(crate) fn view_answer_by(fault: Option<ViewFault>) -> Result<(), TakeFault>
    ensures { result ≡ view_answer_by fault }
{
    match fault {
        None => Ok(()),
        Some(fault) => Err(TakeFault::View { fault }),
    }
}
