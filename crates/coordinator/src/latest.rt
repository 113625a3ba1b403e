// The whole read of a ledger's newest entry.
ghost use Rattle.std.specs.Prelude.{◌≡◌, List};
ghost use Rattle.op_latest.specs.LatestState.{outcome_of};
ghost use Rattle.coordinator.specs.Latest.{LatestRan};

use crate::ended::Ended;
use calm_latest::calm_services_answer_latest;
use nim_base::{Digest, Nonce};
use op_entry::LatestOp;
use port::{LatestReply, Link, Store};
use seal::Checker;
use std::alloc::Global;
use view_ledger::ViewChain;

/// Reads the newest entry of the ledger, for the one who drew the nonce.
pub(crate) fn read_latest<S: Store, L: Link, C: Checker>(
    alloc: Global,
    chain: ViewChain,
    handle: Digest,
    nonce: Nonce,
    store: &mut S,
    link: &mut L,
    checker: &C,
) -> Ended<LatestReply>
    ensures { LatestRan (C.accepts checker.now) S.view L.view (record { handle = handle; nonce = nonce }) chain store.old link.old result.chain store.new link.new (outcome_of result.answer) }
{
    calm_services_answer_latest();
    let mut op = LatestOp::new(chain, handle, nonce);
    while op.step(alloc, store, link, checker) {}
    let (chain, answer) = op.into_parts();
    match answer {
        Some(answer) => Ended { chain, answer },
        None => unreachable!(),
    }
}
