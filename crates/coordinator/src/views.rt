// The views of a coordinator, as they are asked for.
ghost use Rattle.std.specs.Prelude.{◌≡◌, ◌≤◌, [], IfOk};
ghost use Rattle.coordinator.specs.Views.{with_first};
ghost use Rattle.coordinator.specs.ViewsRun.{HasRefreshed, HasGot, ViewsRan, rows_answer};

use crate::ended::Ended;
use crate::views_got::get_row;
use nim_base::NoMemory;
use op_parts::{Refresh, RefreshProgress, refreshes_grow};
use port::{Refusal, Store, ViewRow};
use seal::Checker;
use std::alloc::Global;
use view_ledger::ViewChain;

/// The complete views from this number on.
pub(crate) fn views_from<S: Store, C: Checker>(
    alloc: Global,
    chain: ViewChain,
    from: u64,
    store: &mut S,
    checker: &C,
) -> Ended<Vec<ViewRow>>
    ensures { ViewsRan (C.accepts checker.now) S.view from chain store.old result.chain store.new (rows_answer result.answer) }
{
    let mut chain = chain;
    let answer = refresh_and_get(alloc, &mut chain, from, store, checker);
    Ended { chain, answer }
}

fn refresh_and_get<S: Store, C: Checker>(
    alloc: Global,
    chain: &mut ViewChain,
    from: u64,
    store: &mut S,
    checker: &C,
) -> Result<Vec<ViewRow>, Refusal>
    ensures { ViewsRan (C.accepts checker.now) S.view from chain.old store.old chain.new store.new (rows_answer result) }
{
    refreshes_grow();
    refresh(alloc, chain, store, checker)?;
    let Ok(below) = begin(alloc, chain, from) else {
        return Err(Refusal::NoMemory);
    };
    get_rows(alloc, chain, from.max(1), below, store, checker)
}

fn refresh<S: Store, C: Checker>(
    alloc: Global,
    chain: &mut ViewChain,
    store: &mut S,
    checker: &C,
) -> Result<(), Refusal>
    ensures { HasRefreshed (C.accepts checker.now) S.view chain.old store.old chain.new store.new result }
{
    let mut refresh = Refresh::new();
    loop {
        match refresh.step(alloc, chain, store, checker) {
            Ok(RefreshProgress::More) => {}
            Ok(RefreshProgress::Fresh) => return Ok(()),
            Ok(RefreshProgress::Refused { refusal }) => return Err(refusal),
            Err(NoMemory) => return Err(Refusal::NoMemory),
        }
    }
}

// View 0, where it is asked for. It has no finals.
fn begin(alloc: Global, chain: &ViewChain, from: u64) -> Result<Vec<ViewRow>, NoMemory>
    ensures { IfOk result (λ rows. rows.items ≡ with_first chain.now from []) }
{
    let _newest = chain.number();
    let mut rows = Vec::new(alloc);
    if from == 0 {
        rows.push(chain.row(alloc, 0, Vec::new(alloc))?)?;
    }
    Ok(rows)
}

// The views of the chain from the first number on, after these.
fn get_rows<S: Store, C: Checker>(
    alloc: Global,
    chain: &ViewChain,
    first: u64,
    below: Vec<ViewRow>,
    store: &mut S,
    checker: &C,
) -> Result<Vec<ViewRow>, Refusal>
    requires { 1 ≤ first }
    ensures { HasGot (C.accepts checker.now) S.view chain.now first below.items store.old store.new (rows_answer result) }
{
    let mut rows = below;
    let mut number = first;
    while number <= chain.number() {
        let row = get_row(alloc, chain, number, store, checker)?;
        let Ok(()) = rows.push(row) else {
            return Err(Refusal::NoMemory);
        };
        number += 1;
    }
    Ok(rows)
}
