ghost use Rattle.std.specs.Prelude.{◌≡◌, ◌<◌, ◌≤◌, ◌++◌, ◌∷◌, [], length, map, take, Some, None, IfOk, IfSome, OnOk};
ghost use Rattle.std.specs.Result.{result_err};
ghost use Rattle.view_ledger.specs.Views.{newest_tail, newest_config, config_at, tail_of_view, number_of, next_block};
ghost use Rattle.view_ledger.specs.Receipts.{receipt_outcome};
ghost use Rattle.view_ledger.specs.Extension.{AreGenuine, extend_fault, final_bytes, finals_fault};
ghost use Rattle.view_ledger.specs.Kept.{config_of, kept_chain, HaveTails, AreViews};
ghost use Rattle.view_ledger.specs.Numbered.{block_at};

use crate::finals::{finals_fault, first_not_genuine};
use crate::marks::marks_fault;
use crate::receipt_fault::ReceiptFault;
use crate::view::View;
use crate::view_fault::ViewFault;
use nim_base::{Digest, NoMemory};
use port::FinalMark;
use seal::Checker;
use statement::{Config, Mark, Member, Statement, ViewBlock};
use std::alloc::Global;

/// The place of the newest view that has this tail.
pub(crate) fn find_view(views: &[View], view: &Digest) -> Option<usize>
    requires { HaveTails views.now }
    ensures found { result ≡ number_of (map config_of views.now) view.now }
    ensures view { IfSome result (λ number. tail_of_view (map config_of views.now) number ≡ Some view.now) }
    ensures below { IfSome result (λ number. number < length views.now) }
{
    let mut number = views.len();
    while number > 0 {
        number -= 1;
        if views[number].tail == *view {
            return Some(number);
        }
    }
    None
}

/// The number of the view under which a receipt is accepted, by the statement and the marks that it has.
pub(crate) fn judge<C: Checker>(
    checker: &C,
    views: &[View],
    statement: &Statement,
    marks: &[Mark],
) -> Result<u64, ReceiptFault>
    requires { HaveTails views.now }
    ensures { result ≡ receipt_outcome (C.accepts checker.now) (map config_of views.now) (record { statement = statement.now; marks = marks.now }) }
{
    let Some(number) = find_view(views, &statement.view()) else {
        return Err(ReceiptFault::UnknownView);
    };
    let bytes = statement.bytes();
    match marks_fault(checker, &views[number].config, bytes.as_slice(), marks) {
        Some(fault) => Err(fault),
        None => Ok(number as u64),
    }
}

/// The tail of the newest view, zeros where there is none.
fn newest_tail(views: &[View]) -> Digest
    requires { HaveTails views.now }
    ensures { result ≡ newest_tail (map config_of views.now) }
{
    if views.is_empty() {
        return Digest::ZERO;
    }
    views[views.len() - 1].tail
}

/// The block that makes the config the view after these.
fn block_after(views: &[View], config: &Config) -> ViewBlock
    requires { HaveTails views.now }
    ensures { result ≡ next_block (map config_of views.now) config.now }
{
    ViewBlock {
        prev: newest_tail(views),
        config: config.digest(),
        number: views.len() as u64,
    }
}

/// View 0 of this config.
pub(crate) fn first_view(alloc: Global, config: &Config) -> Result<View, NoMemory>
    ensures tail { IfOk result (λ view. view.tail ≡ newest_tail (config.now ∷ [])) }
    ensures config { IfOk result (λ view. view.config ≡ config.now) }
{
    let tail = block_after(&[], config).tail();
    Ok(View {
        tail,
        config: config.copy(alloc)?,
    })
}

/// The tail of the next view that has this block, config and finals, where it follows.
pub(crate) fn tail_of_next<C: Checker>(
    checker: &C,
    roster: &[Member],
    views: &[View],
    block: &ViewBlock,
    config: &Config,
    finals: &[FinalMark],
) -> Result<Digest, ViewFault>
    requires { AreViews roster.now views.now }
    ensures fault { result_err result ≡ extend_fault (C.accepts checker.now) (kept_chain roster.now views.now) (record { block = block.now; config = config.now; finals = finals.now }) }
    ensures tail { IfOk result (λ tail. tail ≡ newest_tail (map config_of views.now ++ config.now ∷ [])) }
    ensures genuine { OnOk result (AreGenuine roster.now config.now) }
{
    let expected = block_after(views, config);
    if *block != expected {
        return Err(ViewFault::BadLink);
    }
    let tail = expected.tail();
    let newest = &views[views.len() - 1];
    if let Some(fault) = finals_fault(checker, &newest.config, &newest.tail, &tail, finals) {
        return Err(fault);
    }
    if let Some(id) = first_not_genuine(roster, config.members()) {
        return Err(ViewFault::NotGenuine { id });
    }
    Ok(tail)
}

/// The tail of the view below this place, zeros where there is none.
fn tail_below(views: &[View], place: usize) -> Digest
    requires tails { HaveTails views.now }
    requires within { place ≤ length views.now }
    ensures { result ≡ newest_tail (take place (map config_of views.now)) }
{
    if place == 0 {
        return Digest::ZERO;
    }
    views[place - 1].tail
}

/// The block of the view at this place.
pub(crate) fn block_at(views: &[View], place: usize) -> ViewBlock
    requires tails { HaveTails views.now }
    requires within { place < length views.now }
    ensures { result ≡ block_at (map config_of views.now) place }
{
    ViewBlock {
        prev: tail_below(views, place),
        config: views[place].config.digest(),
        number: place as u64,
    }
}

/// The first cause for which the finals don't end the view below this place for the one that stands there.
pub(crate) fn fault_at<C: Checker>(
    checker: &C,
    views: &[View],
    place: usize,
    finals: &[FinalMark],
) -> Option<ViewFault>
    requires tails { HaveTails views.now }
    requires first { 1 ≤ place }
    requires within { place < length views.now }
    ensures { let below = take place (map config_of views.now) in result ≡ finals_fault (C.accepts checker.now) (newest_config below) (final_bytes below (config_at (map config_of views.now) place)) finals.now }
{
    let below = &views[place - 1];
    finals_fault(
        checker,
        &below.config,
        &below.tail,
        &views[place].tail,
        finals,
    )
}

pub(crate) fn copy_views(alloc: Global, views: &[View]) -> Result<Vec<View>, NoMemory>
    ensures { IfOk result (λ copies. copies.items ≡ views.now) }
{
    let mut copies = Vec::with_capacity(alloc, views.len())?;
    for view in views {
        copies.push(View {
            tail: view.tail,
            config: view.config.copy(alloc)?,
        })?;
    }
    Ok(copies)
}
