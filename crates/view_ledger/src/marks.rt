ghost use Rattle.std.specs.Prelude.{◌≡◌, ◌≤◌, None, map, unwrap_or};
ghost use Rattle.statement.specs.Ids.{first_fall, is_above};
ghost use Rattle.statement.specs.Config.{weight_of, weight_together};
ghost use Rattle.statement.specs.Mark.{id_of};
ghost use Rattle.view_ledger.specs.Receipts.{is_signed, first_stranger, first_bad_mark, marks_fault};

use crate::receipt_fault::ReceiptFault;
use seal::Checker;
use statement::{Config, Mark};

/// Whether the member with this id signed the bytes so.
pub(crate) fn is_signed<C: Checker>(
    checker: &C,
    config: &Config,
    bytes: &[u8],
    id: u32,
    sig: &[u8],
) -> bool
    ensures { result ≡ is_signed (C.accepts checker.now) config.now bytes.now id sig.now }
{
    match config.key(id) {
        Some(key) => checker.check(&key, bytes, sig),
        None => false,
    }
}

/// Whether the id is above the one before it, if there is one.
pub(crate) fn is_above(before: Option<u32>, id: u32) -> bool
    ensures { result ≡ is_above before id }
{
    match before {
        None => true,
        Some(before) => before < id,
    }
}

/// The first cause for which the marks over these bytes are none of a quorum.
#[tactic(auto, unfolding(crate::specs::Receipts::marks_fault))]
pub(crate) fn marks_fault<C: Checker>(
    checker: &C,
    config: &Config,
    bytes: &[u8],
    marks: &[Mark],
) -> Option<ReceiptFault>
    ensures { result ≡ marks_fault (C.accepts checker.now) config.now bytes.now marks.now }
{
    if let Some(id) = first_fall(marks) {
        return Some(ReceiptFault::Order { id });
    }
    if let Some(id) = first_stranger(config, marks) {
        return Some(ReceiptFault::NotMember { id });
    }
    if let Some(id) = first_bad_mark(checker, config, bytes, marks) {
        return Some(ReceiptFault::BadMark { id });
    }
    let got = weight_of_marks(config, marks);
    let need = config.quorum();
    if got < need {
        return Some(ReceiptFault::Few {
            got: got as u64,
            need: need as u64,
        });
    }
    None
}

fn first_fall(marks: &[Mark]) -> Option<u32>
    ensures { result ≡ first_fall None (map id_of marks.now) }
{
    let mut before = None;
    for mark in marks {
        if !is_above(before, mark.id) {
            return Some(mark.id);
        }
        before = Some(mark.id);
    }
    None
}

fn first_stranger(config: &Config, marks: &[Mark]) -> Option<u32>
    ensures { result ≡ first_stranger config.now marks.now }
{
    for mark in marks {
        if config.key(mark.id).is_none() {
            return Some(mark.id);
        }
    }
    None
}

fn first_bad_mark<C: Checker>(
    checker: &C,
    config: &Config,
    bytes: &[u8],
    marks: &[Mark],
) -> Option<u32>
    ensures { result ≡ first_bad_mark (C.accepts checker.now) config.now bytes.now marks.now }
{
    for mark in marks {
        if !is_signed(checker, config, bytes, mark.id, mark.sig.bytes()) {
            return Some(mark.id);
        }
    }
    None
}

/// What the members with these marks weigh together, each mark for itself.
pub fn weight_of_marks(config: &Config, marks: &[Mark]) -> usize
    ensures { result ≡ weight_together config.now (map id_of marks.now) }
{
    let mut got = 0;
    for mark in marks {
        got += weight(config, mark.id);
    }
    got
}

/// What the member with this id weighs, 0 where there is none.
pub fn weight(config: &Config, id: u32) -> usize
    ensures weight { result ≡ unwrap_or (weight_of config.now id) 0 }
    ensures small { result ≤ 1 }
{
    config.weight(id).unwrap_or(0)
}
