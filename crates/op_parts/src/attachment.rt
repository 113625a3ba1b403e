// The receipt that is attached to a row.
ghost use Rattle.std.specs.Prelude.{◌≡◌, ◌↔◌, ℕ, Some, None, Ok, IsTrue, IfOk, IfSome};
ghost use Rattle.std.specs.Option.{option_map};
ghost use Rattle.statement.specs.Receipt.{Receipt};
ghost use Rattle.view_ledger.specs.Receipts.{IsAcceptedIn};
ghost use Rattle.op_parts.specs.Attachment.{IsAttached, IsHeld, IsReceiptFor, ReadsAsReceipt};

use nim_base::{Digest, FormFault, NoMemory, Text};
use seal::Checker;
use statement::{Receipt, Statement};
use std::alloc::Global;
use view_ledger::ViewChain;

/// What a receipt of a row is to say: that the ledger has this tail and count.
#[derive(Clone, Copy)]
pub struct Head {
    pub handle: Digest,
    pub tail: Digest,
    pub count: u64,
}

/// The receipt that is attached, where it says that the ledger has this head and the chain accepts it. Bytes that
/// don't read, and any other receipt, count as none.
pub fn accepted_receipt<C: Checker>(
    alloc: Global,
    chain: &ViewChain,
    checker: &C,
    head: &Head,
    attached: &Option<Text>,
) -> Result<Option<Receipt>, NoMemory>
    ensures some { IfOk result (λ found. IfSome found (IsAttached (C.accepts checker.now) chain.now.configs head.now (option_map (λ text. text.bytes) attached.now))) }
    ensures none { result ≡ Ok None → (receipt : Receipt) → IsAttached (C.accepts checker.now) chain.now.configs head.now (option_map (λ text. text.bytes) attached.now) receipt → ⊥ }
{
    let Some(bytes) = attached else {
        return Ok(None);
    };
    let Some(receipt) = receipt_of(alloc, bytes.bytes())? else {
        return Ok(None);
    };
    if is_for(chain, checker, head, &receipt) {
        return Ok(Some(receipt));
    }
    Ok(None)
}

// The receipt whose bytes these are, or none.
fn receipt_of(alloc: Global, bytes: &[u8]) -> Result<Option<Receipt>, NoMemory>
    ensures good { IfOk result (λ found. IfSome found (ReadsAsReceipt bytes.now)) }
    ensures only { (receipt : Receipt) → ReadsAsReceipt bytes.now receipt → IfOk result (λ found. found ≡ Some receipt) }
{
    match Receipt::read(alloc, bytes) {
        Ok(receipt) => Ok(Some(receipt)),
        Err(FormFault::NoMemory) => Err(NoMemory),
        Err(_) => Ok(None),
    }
}

fn is_for<C: Checker>(chain: &ViewChain, checker: &C, head: &Head, receipt: &Receipt) -> bool
    ensures { IsTrue result ↔ IsReceiptFor (C.accepts checker.now) chain.now.configs head.now receipt.now }
{
    is_held(head, &receipt.statement) && is_accepted(chain, checker, receipt)
}

fn is_accepted<C: Checker>(chain: &ViewChain, checker: &C, receipt: &Receipt) -> bool
    ensures { IsTrue result ↔ ((number : ℕ) × IsAcceptedIn (C.accepts checker.now) chain.now.configs number receipt.now) }
{
    match chain.check_receipt(checker, receipt) {
        Ok(_) => true,
        Err(_) => false,
    }
}

fn is_held(head: &Head, statement: &Statement) -> bool
    ensures { IsTrue result ↔ IsHeld head.now statement.now }
{
    match statement {
        Statement::Held {
            view: _,
            handle,
            tail,
            count,
        } => *handle == head.handle && *tail == head.tail && *count == head.count,
        _ => false,
    }
}
