// What the settling of the next row of a ledger ends with over a calm service.
ghost use Rattle.std.specs.Prelude.{◌≡◌, List, []};
ghost use Rattle.chain_block.specs.declared.meta_block.MetaBlock.{MetaBlock};
ghost use Rattle.statement.specs.Receipt.{Receipt};
ghost use Rattle.port.specs.Cause.{Cause};
ghost use Rattle.settle.specs.Says.{IsSettled, IsRefused};
ghost use Rattle.calm.specs.Calls.{GrowsCalm};
ghost use Rattle.calm_entry.specs.NextSettling.{NextSettling, settling_of, IsRoomFor, IsNoRoomFor, IsForFullMap};

use calm::{
    calls_are_split, calm_members_are_ready, calm_services_append, ledgers_are_lists,
    rounds_find_full_maps, rounds_gather_all_marks, standing_rows_are_given,
};
use op_parts::{members_are_shown, round_calls_are_own};

/// The settling of the next row of a ledger over a calm service, once the row was put, is one round in which all members sign it,
/// and the attach of their receipt. No member is caught up, and no row above is looked for.
pub fn calm_settlings_gather_all()
    // Where the ledger has an entry, or there is room for one more: the receipt is the row's own, and the service is calm again
    // with its entry. It isn't refused.
    ensures own { (run : NextSettling) (chain : List MetaBlock) (receipt : Receipt) → IsRoomFor run.service run.entry
        → IsSettled run.service.accepts (settling_of run) run.calls chain receipt → chain ≡ [] }
    ensures calm { (run : NextSettling) (chain : List MetaBlock) (receipt : Receipt) → IsRoomFor run.service run.entry
        → IsSettled run.service.accepts (settling_of run) run.calls chain receipt → GrowsCalm run.service run.entry run.later }
    ensures stands { (run : NextSettling) (cause : Cause) → IsRoomFor run.service run.entry
        → IsRefused run.service.accepts (settling_of run) run.calls cause → ⊥ }
    // Where there is none it has no receipt, and is refused since a member's map is full.
    ensures none { (run : NextSettling) (chain : List MetaBlock) (receipt : Receipt) → IsNoRoomFor run.service run.entry
        → IsSettled run.service.accepts (settling_of run) run.calls chain receipt → ⊥ }
    ensures full { (run : NextSettling) (cause : Cause) → IsNoRoomFor run.service run.entry
        → IsRefused run.service.accepts (settling_of run) run.calls cause → IsForFullMap cause }
{
    calls_are_split();
    calm_members_are_ready();
    calm_services_append();
    ledgers_are_lists();
    rounds_find_full_maps();
    rounds_gather_all_marks();
    standing_rows_are_given();
    members_are_shown();
    round_calls_are_own();
}
