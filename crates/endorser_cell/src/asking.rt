// One call of a cell, and its line in the list of a bank: over lists, so that the bank itself only calls these.
ghost use Rattle.std.specs.Prelude.{◌≡◌, ◌++◌, ◌∷◌, [], Some, IfOk, OnErr};
ghost use Rattle.port.specs.Call.{call_of};
ghost use Rattle.port.specs.Answer.{answer_of};
ghost use Rattle.port.specs.Heard.{heard_of};
ghost use Rattle.endorser_cell.specs.Asking.{Asks, AsksCell, IsNoted, IsRaw, LosesMore};
ghost use Rattle.endorser_cell.specs.BankLine.{asked_line, unserved};
ghost use Rattle.endorser_cell.specs.EndorserCell.{Calls};

use crate::bank_line::BankLine;
use crate::endorser_cell::EndorserCell;
use crate::line_answer::line_answer;
use crate::losses::Loss;
use crate::places::place_of;
use nim_base::{NoMemory, Text};
use port::{EndorserAnswer, EndorserCall, LinkAnswer};
use seal::Scheme;
use stamp_clock::{Clock, ClockName};
use std::alloc::Global;

/// Lets more calls of the id lose that half.
pub(crate) fn lose_more<G: Scheme, K: ClockName>(
    cells: &mut Vec<EndorserCell<G, K>>,
    id: u32,
    which: Loss,
    n: u64,
)
    ensures { LosesMore cells.old.items cells.new.items id which n }
{
    let Some(place) = place_of(cells, id) else {
        return;
    };
    let cell = &mut cells[place];
    let losses = cell.losses().more(which, n);
    cell.set_losses(losses);
}

/// A call that passes no link. `None` says that no endorser has the id.
pub(crate) fn ask_raw<G: Scheme, K: ClockName>(
    alloc: Global,
    clock: &Clock<K>,
    cells: &mut Vec<EndorserCell<G, K>>,
    log: &mut Vec<BankLine>,
    id: u32,
    call: &EndorserCall,
) -> Option<Result<EndorserAnswer, NoMemory>>
    ensures { IsRaw G.Signer.key_of G.Signer.left_of G.Signer.size_of G.Signer.signs G.fits cells.old.items cells.new.items log.old.items log.new.items id (call_of call.now) result }
{
    let place = place_of(cells, id)?;
    let answer = ask(alloc, clock, &mut cells[place], log, None, id, call, true);
    Some(answer)
}

/// A call over the link. Where no endorser has the id it is lost.
pub(crate) fn ask_id<G: Scheme, K: ClockName>(
    alloc: Global,
    clock: &Clock<K>,
    cells: &mut Vec<EndorserCell<G, K>>,
    log: &mut Vec<BankLine>,
    number: u64,
    id: u32,
    call: &EndorserCall,
) -> LinkAnswer
    ensures { Asks G.Signer.key_of G.Signer.left_of G.Signer.size_of G.Signer.signs G.fits cells.old.items cells.new.items log.old.items log.new.items number id (call_of call.now) (heard_of result) }
{
    let Some(place) = place_of(cells, id) else {
        return note_lost(alloc, log, number, id, call);
    };
    call_cell(alloc, clock, &mut cells[place], log, number, id, call)
}

/// A call over the link, of the cell whose id it is. A request is lost before a reply.
fn call_cell<G: Scheme, K: ClockName>(
    alloc: Global,
    clock: &Clock<K>,
    cell: &mut EndorserCell<G, K>,
    log: &mut Vec<BankLine>,
    number: u64,
    id: u32,
    call: &EndorserCall,
) -> LinkAnswer
    ensures { AsksCell G.Signer.key_of G.Signer.left_of G.Signer.size_of G.Signer.signs G.fits cell.old cell.new log.old.items log.new.items number id (call_of call.now) (heard_of result) }
{
    let losses = cell.losses();
    if losses.requests > 0 {
        let Ok(()) = note(alloc, log, number, id, call) else {
            return LinkAnswer::NoMemory;
        };
        cell.set_losses(losses.without_request());
        return LinkAnswer::Lost;
    }
    let heard = losses.replies == 0;
    let Ok(answer) = ask(alloc, clock, cell, log, Some(number), id, call, heard) else {
        return LinkAnswer::NoMemory;
    };
    if heard {
        return LinkAnswer::Answered(answer);
    }
    cell.set_losses(losses.without_reply());
    LinkAnswer::Lost
}

/// Notes a call that is lost before an endorser takes its step.
fn note_lost(
    alloc: Global,
    log: &mut Vec<BankLine>,
    number: u64,
    id: u32,
    call: &EndorserCall,
) -> LinkAnswer
    ensures { IsNoted log.old.items log.new.items (unserved number id (call_of call.now)) (heard_of result) }
{
    match note(alloc, log, number, id, call) {
        Ok(()) => LinkAnswer::Lost,
        Err(NoMemory) => LinkAnswer::NoMemory,
    }
}

fn note(
    alloc: Global,
    log: &mut Vec<BankLine>,
    number: u64,
    id: u32,
    call: &EndorserCall,
) -> Result<(), NoMemory>
    ensures ok { IfOk result (λ _. log.new.items ≡ log.old.items ++ unserved number id (call_of call.now) ∷ []) }
    ensures err { OnErr result (log.new.items ≡ log.old.items) }
{
    let call = call.copy(alloc)?;
    log.push(BankLine {
        number: Some(number),
        id,
        call,
        answer: None,
        heard: false,
    })?;
    Ok(())
}

/// Asks the cell, and notes the call with what is kept of the answer. All memory is taken before.
fn ask<G: Scheme, K: ClockName>(
    alloc: Global,
    clock: &Clock<K>,
    cell: &mut EndorserCell<G, K>,
    log: &mut Vec<BankLine>,
    number: Option<u64>,
    id: u32,
    call: &EndorserCall,
    heard: bool,
) -> Result<EndorserAnswer, NoMemory>
    ensures answers { IfOk result (λ answer. Calls G.Signer.key_of G.Signer.left_of G.Signer.size_of G.Signer.signs G.fits cell.old cell.new (call_of call.now) (answer_of answer)) }
    ensures noted { IfOk result (λ answer. log.new.items ≡ log.old.items ++ asked_line number id (call_of call.now) (answer_of answer) heard ∷ []) }
    ensures same_cell { OnErr result (cell.new ≡ cell.old) }
    ensures same_log { OnErr result (log.new.items ≡ log.old.items) }
{
    log.reserve(1)?;
    let asked = call.copy(alloc)?;
    let room = Text::with_room(alloc, cell.endorser().most_sig())?;
    let answer = cell.call(alloc, clock, call)?;
    log.push_reserved(BankLine {
        number,
        id,
        call: asked,
        answer: Some(line_answer(&answer, room)),
        heard,
    });
    Ok(answer)
}
