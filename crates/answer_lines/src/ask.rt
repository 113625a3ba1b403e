ghost use Rattle.std.specs.Prelude.{◌≡◌};
ghost use Rattle.chain_block.specs.Entry.{IsWithinLimits};
ghost use Rattle.port.specs.Service.{stood};
ghost use Rattle.coordinator.specs.Says.{coordinator_says};
ghost use Rattle.answer_lines.specs.Asking.{call_for};

use chain_block::Entry;
use coordinator::Coordinator;
use port::{Link, Refusal, Service, Standing, Store};
use seal::Checker;
use std::alloc::Global;

/// Asks for a new ledger with this first entry, or for this append.
pub fn ask_own<S: Store, L: Link, C: Checker>(
    alloc: Global,
    coordinator: &mut Coordinator<S, L, C>,
    entry: &Entry,
) -> Result<Standing, Refusal>
    requires { IsWithinLimits entry.now }
    ensures { coordinator_says C.accepts S.view L.view coordinator.old coordinator.new (call_for entry.now) (stood result) }
{
    match entry {
        Entry::Genesis { nonce, payload } => coordinator.new_ledger(alloc, nonce, payload.bytes()),
        Entry::Later {
            handle,
            height,
            nonce,
            payload,
        } => coordinator.append(alloc, handle, *height, nonce, payload.bytes()),
    }
}
