// What endorsers signed for a read of a newest row, by the lines of their calls.
ghost use Rattle.std.specs.Prelude.{◌≡◌, ◌++◌, IfOk, OnOk, map, option_to_list};
ghost use Rattle.endorser_cell.specs.Cells.{cell_of};
ghost use Rattle.endorser_core.specs.LineAnswer.{kept_of};
ghost use Rattle.script_world.specs.Signed.{all_signed, is_for, mark_of, newest_signed, or_before, signed_by_answer, signed_in_cell};

use endorser_core::{CellAnswer, CellLine};
use nim_base::{Digest, NoMemory, Nonce, Text};
use roster_bank::{RosterBank, RunName};
use seal::Scheme;
use statement::{Mark, Statement};
use std::alloc::Global;
use std::marker::Model;

/// A statement, and the signature over it of the endorser with this id.
#[derive(Drop)]
pub(crate) struct Signed {
    pub(crate) id: u32,
    pub(crate) statement: Statement,
    pub(crate) sig: Text,
}

impl Model for Signed {
    ghost use Rattle.script_world.specs.Signed.{Signed};

    ghost Value = { Signed };

    ghost view = { λ signed. record { id = signed.id; statement = signed.statement; sig = signed.sig.bytes } };
}

/// Whether the statement tells a newest row of this ledger to the one who drew the nonce.
fn is_for(statement: &Statement, handle: &Digest, nonce: &Nonce) -> bool
    ensures { result ≡ is_for handle.now nonce.now statement.now }
{
    match statement {
        Statement::Latest {
            handle: ledger,
            nonce: drawn,
            ..
        } => ledger == handle && drawn == nonce,
        _ => false,
    }
}

/// What the endorser of the id signed so with this answer, if anything.
fn signed_by_answer(
    alloc: Global,
    answer: &CellAnswer,
    handle: &Digest,
    nonce: &Nonce,
    id: u32,
) -> Result<Option<Signed>, NoMemory>
    ensures { IfOk result (λ signed. signed ≡ signed_by_answer handle.now nonce.now id (kept_of answer.now)) }
{
    match answer {
        CellAnswer::Signed { statement, sig } => {
            if !is_for(statement, handle, nonce) {
                return Ok(None);
            }
            Ok(Some(Signed {
                id,
                statement: *statement,
                sig: Text::of(alloc, sig.bytes())?,
            }))
        }
        _ => Ok(None),
    }
}

/// What it signed so newest, by the lines of its calls.
fn newest_signed(
    alloc: Global,
    lines: &[CellLine],
    handle: &Digest,
    nonce: &Nonce,
    id: u32,
) -> Result<Option<Signed>, NoMemory>
    ensures { IfOk result (λ signed. signed ≡ newest_signed handle.now nonce.now id lines.now) }
{
    let mut newest = None;
    for line in lines {
        let signed = signed_by_answer(alloc, &line.answer, handle, nonce, id)?;
        newest = or_before(newest, signed);
    }
    Ok(newest)
}

fn or_before(before: Option<Signed>, signed: Option<Signed>) -> Option<Signed>
    ensures { result ≡ or_before before signed }
{
    match signed {
        Some(signed) => Some(signed),
        None => before,
    }
}

/// What the endorser of the id signed so newest.
fn signed_by<G: Scheme, K: RunName>(
    alloc: Global,
    bank: &RosterBank<'_, G, K>,
    handle: &Digest,
    nonce: &Nonce,
    id: u32,
) -> Result<Option<Signed>, NoMemory>
    ensures { IfOk result (λ signed. signed ≡ signed_in_cell handle.now nonce.now id (cell_of bank.now.cells id)) }
{
    match bank.cell(id) {
        Some(cell) => newest_signed(alloc, cell.lines(), handle, nonce, id),
        None => Ok(None),
    }
}

/// What those of the ids signed so newest that did, in the order of the ids.
pub(crate) fn all_signed<G: Scheme, K: RunName>(
    alloc: Global,
    bank: &RosterBank<'_, G, K>,
    handle: &Digest,
    nonce: &Nonce,
    ids: &[u32],
) -> Result<Vec<Signed>, NoMemory>
    ensures { IfOk result (λ all. all.items ≡ all_signed handle.now nonce.now bank.now.cells ids.now) }
{
    let mut all = Vec::new(alloc);
    for id in ids {
        let signed = signed_by(alloc, bank, handle, nonce, *id)?;
        push_some(&mut all, signed)?;
    }
    Ok(all)
}

fn push_some(all: &mut Vec<Signed>, signed: Option<Signed>) -> Result<(), NoMemory>
    ensures { OnOk result (all.new.items ≡ all.old.items ++ option_to_list signed) }
{
    match signed {
        Some(signed) => {
            all.push(signed)?;
            Ok(())
        }
        None => Ok(()),
    }
}

/// The marks of these signatures.
pub(crate) fn marks_of(alloc: Global, all: Vec<Signed>) -> Result<Vec<Mark>, NoMemory>
    ensures { IfOk result (λ marks. marks.items ≡ map mark_of all.items) }
{
    let mut marks = Vec::with_capacity(alloc, all.len())?;
    for signed in all {
        marks.push(mark_of(signed))?;
    }
    Ok(marks)
}

fn mark_of(signed: Signed) -> Mark
    ensures { result ≡ mark_of signed }
{
    let Signed { id, sig, .. } = signed;
    Mark { id, sig }
}
