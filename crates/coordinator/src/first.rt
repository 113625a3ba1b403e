// The whole setting up of view 0.
ghost use Rattle.std.specs.Prelude.{◌≡◌, List};
ghost use Rattle.op_reconf.specs.State.{answer_of};
ghost use Rattle.coordinator.specs.First.{FirstRan};

use crate::ended::Ended;
use calm_first::first_views_begin_calm;
use op_reconf::{ReconfOp, first_refusals_are_shown};
use port::{Link, Store, ViewRow};
use seal::Checker;
use std::alloc::Global;
use view_ledger::ViewChain;

/// Sets up view 0 of the chain.
pub(crate) fn set_up<S: Store, L: Link, C: Checker>(
    alloc: Global,
    chain: ViewChain,
    store: &mut S,
    link: &mut L,
    checker: &C,
) -> Ended<ViewRow>
    ensures { FirstRan (C.accepts checker.now) S.view L.view chain store.old link.old result.chain store.new link.new (answer_of result.answer) }
{
    first_refusals_are_shown();
    first_views_begin_calm();
    let mut op = ReconfOp::genesis(chain);
    while op.step(alloc, store, link, checker) {}
    let (chain, answer) = op.into_parts();
    match answer {
        Some(answer) => Ended { chain, answer },
        None => unreachable!(),
    }
}
