ghost use Rattle.std.specs.Prelude.{◌≡◌, ◌+◌, ◌==◌, length, option_copied};
ghost use Rattle.view_ledger.specs.Receipts.{receipt_outcome};
ghost use Rattle.verifier.specs.Outcomes.{first_failed, bad_receipt, standing_tests, latest_tests};

use crate::reply_fault::ReplyFault;
use crate::rows::{has_row, is_newest, is_own, is_row_of, is_tail, leads};
use chain_block::{Entry, MetaBlock};
use nim_base::{Digest, Nonce};
use port::Row;
use seal::Checker;
use statement::Receipt;
use view_ledger::ViewChain;

/// The first fault of a reply that is to stand, but for its receipt.
pub(crate) fn standing_fault(
    chain: &ViewChain,
    asked: &Digest,
    height: u64,
    own: Option<&Entry>,
    row: &Row,
    blocks: &[MetaBlock],
    view: &Digest,
    handle: &Digest,
    tail: &Digest,
    count: u64,
) -> Option<ReplyFault>
    ensures { result ≡ first_failed (standing_tests chain.now.configs asked.now height (option_copied own.entry) row.now blocks.now view.now handle.now tail.now count) }
{
    if chain.find(view).is_none() {
        return Some(ReplyFault::UnknownView);
    }
    if handle != asked {
        return Some(ReplyFault::WrongHandle);
    }
    if row.metablock.height != height || !is_count(count, row.metablock.height, blocks.len()) {
        return Some(ReplyFault::WrongHeight);
    }
    if !is_own(own, row) || !is_row_of(asked, row) {
        return Some(ReplyFault::WrongEntry);
    }
    if !leads(row, blocks, tail) {
        return Some(ReplyFault::WrongTail);
    }
    None
}

/// Whether so many entries end so many blocks above a height.
fn is_count(count: u64, height: u64, above: usize) -> bool
    ensures { result ≡ (count == height + 1 + above) }
{
    match height.checked_add(above as u64) {
        Some(newest) => count != 0 && count - 1 == newest,
        None => false,
    }
}

/// The first fault of a reply to a latest read, but for its receipt.
pub(crate) fn latest_fault(
    chain: &ViewChain,
    asked: &Digest,
    asked_nonce: &Nonce,
    row: &Option<Row>,
    view: &Digest,
    handle: &Digest,
    tail: &Digest,
    count: u64,
    nonce: &Nonce,
) -> Option<ReplyFault>
    ensures { result ≡ first_failed (latest_tests chain.now.configs asked.now asked_nonce.now row.now view.now handle.now tail.now count nonce.now) }
{
    if chain.find(view).is_none() {
        return Some(ReplyFault::UnknownView);
    }
    if handle != asked {
        return Some(ReplyFault::WrongHandle);
    }
    if !is_newest(count, row) {
        return Some(ReplyFault::WrongHeight);
    }
    if nonce != asked_nonce {
        return Some(ReplyFault::WrongNonce);
    }
    if !has_row(asked, count, row) {
        return Some(ReplyFault::WrongEntry);
    }
    if !is_tail(tail, row) {
        return Some(ReplyFault::WrongTail);
    }
    None
}

/// The fault of a receipt that isn't accepted.
pub(crate) fn receipt_fault<C: Checker>(
    checker: &C,
    chain: &ViewChain,
    receipt: &Receipt,
) -> Option<ReplyFault>
    ensures { result ≡ bad_receipt (receipt_outcome (C.accepts checker.now) chain.now.configs receipt.now) }
{
    match chain.check_receipt(checker, receipt) {
        Ok(_) => None,
        Err(cause) => Some(ReplyFault::BadReceipt { cause }),
    }
}
