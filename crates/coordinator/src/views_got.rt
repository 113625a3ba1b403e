// The finals of a chain's views, as a store gives them.
ghost use Rattle.std.specs.Prelude.{◌≡◌, ◌≤◌, ◌<◌, List, length};
ghost use Rattle.port.specs.declared.key.Key.TheVariants as keys;
ghost use Rattle.port.specs.declared.store_answers.Got.{Got};
ghost use Rattle.port.specs.declared.store_answers.Got.TheVariants as gots;
ghost use Rattle.port.specs.Cause.{cause_of};
ghost use Rattle.port.specs.Store.{StoreStep, Get, WasGot};
ghost use Rattle.port.specs.Stored.{Stored};
ghost use Rattle.coordinator.specs.ViewsGot.{ComesTo, finals_event};
ghost use Rattle.coordinator.specs.ViewsRun.{row_answer};

use nim_base::Text;
use op_parts::read_marks;
use port::{Got, Key, Refusal, Store, ViewRow};
use seal::Checker;
use std::alloc::Global;
use view_ledger::ViewChain;

/// The chain's view of this number, with what the store gives of the finals for which it follows.
pub(crate) fn get_row<S: Store, C: Checker>(
    alloc: Global,
    chain: &ViewChain,
    number: u64,
    store: &mut S,
    checker: &C,
) -> Result<ViewRow, Refusal>
    requires first { 1 ≤ number }
    requires known { number < length chain.now.configs }
    ensures { (got : Got) × StoreStep S.view store.old store.new (Get (keys.Finals number)) (WasGot got) × ComesTo (C.accepts checker.now) chain.now number (finals_event number got) (row_answer result) }
{
    let got = store.get(alloc, &Key::Finals { number });
    row_of(alloc, chain, number, checker, got)
}

// By what the store gave for the finals.
fn row_of<C: Checker>(
    alloc: Global,
    chain: &ViewChain,
    number: u64,
    checker: &C,
    got: Got,
) -> Result<ViewRow, Refusal>
    requires first { 1 ≤ number }
    requires known { number < length chain.now.configs }
    ensures { ComesTo (C.accepts checker.now) chain.now number (finals_event number got) (row_answer result) }
{
    match got {
        Got::Some(stored) => row_by(alloc, chain, number, checker, stored.body),
        Got::None => Err(bad_finals(number, None)),
        Got::Failed => Err(Refusal::StoreFault),
        Got::NoMemory => Err(Refusal::NoMemory),
    }
}

// By these bytes of finals.
fn row_by<C: Checker>(
    alloc: Global,
    chain: &ViewChain,
    number: u64,
    checker: &C,
    bytes: Text,
) -> Result<ViewRow, Refusal>
    requires first { 1 ≤ number }
    requires known { number < length chain.now.configs }
    ensures { (stored : Stored) → stored.body ≡ bytes.bytes → ComesTo (C.accepts checker.now) chain.now number (finals_event number (gots.Some stored)) (row_answer result) }
{
    let Ok(read) = read_marks(alloc, bytes.bytes()) else {
        return Err(Refusal::NoMemory);
    };
    let Some(finals) = read else {
        return Err(bad_finals(number, Some(bytes)));
    };
    match chain.finals_fault(checker, number, finals.as_slice()) {
        Some(_) => Err(bad_finals(number, Some(bytes))),
        None => match chain.row(alloc, number, finals) {
            Ok(row) => Ok(row),
            Err(_) => Err(Refusal::NoMemory),
        },
    }
}

fn bad_finals(number: u64, bytes: Option<Text>) -> Refusal
    ensures { result ≡ Refusal.BadRow (keys.Finals number) bytes }
{
    Refusal::BadRow {
        key: Key::Finals { number },
        bytes,
    }
}
