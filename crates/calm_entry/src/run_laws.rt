// What an operation on entries answers over a calm service.
ghost use Rattle.std.specs.Prelude.{◌≡◌, ◌≢◌, ℕ, ◌≤◌, List, Result, Err};
ghost use Rattle.chain_block.specs.declared.entry.Entry.{Entry};
ghost use Rattle.chain_block.specs.Entry.{height_of};
ghost use Rattle.port.specs.Cause.{Cause, NoMemory};
ghost use Rattle.port.specs.Reply.{Standing};
ghost use Rattle.port.specs.RowForm.{IsStored};
ghost use Rattle.op_entry.specs.Ask.{NewLedger, AppendEntry, ReadAt};
ghost use Rattle.op_entry.specs.State.{Ended};
ghost use Rattle.calm.specs.StandingViews.{IsFront};
ghost use Rattle.calm.specs.Calls.{CalmAppend, CalmNew, CalmAt, IsFirstOrNone};
ghost use Rattle.calm_entry.specs.CalmRun.{CalmRun, all_views};

use crate::settling_laws::calm_settlings_gather_all;
use calm::{
    calls_are_split, ledgers_are_lists, refreshes_find_all_views, standing_rows_are_given,
    whole_refreshes_find_all_views,
};

/// An append of an entry above the first one answers as the heights say: at the count the entry stands then, below it what stands
/// there is told, and above it that the row below is missing.
pub fn calm_services_take_entries()
    ensures { (run : CalmRun) (entry : Entry) (answer : Result Standing Cause) → run.ask ≡ AppendEntry entry → IsStored entry → 1 ≤ height_of entry
        → run.state.stage ≡ Ended answer → CalmAppend run.service entry answer run.later }
{
    calls_are_split();
    calm_settlings_gather_all();
    ledgers_are_lists();
    standing_rows_are_given();
    whole_refreshes_find_all_views();
}

/// A ledger whose handle stands for nothing else is made where there is room for one more, and stands already where it was made
/// before.
pub fn calm_services_make_ledgers()
    ensures { (run : CalmRun) (entry : Entry) (answer : Result Standing Cause) → run.ask ≡ NewLedger entry → IsStored entry → IsFirstOrNone run.service entry
        → run.state.stage ≡ Ended answer → CalmNew run.service entry answer run.later }
{
    calls_are_split();
    calm_settlings_gather_all();
    ledgers_are_lists();
    standing_rows_are_given();
    whole_refreshes_find_all_views();
}

/// A read at a height answers with the row that stands there, or that it is missing.
pub fn calm_services_give_entries()
    ensures { (run : CalmRun) (handle : List ℕ) (height : ℕ) (answer : Result Standing Cause) → run.ask ≡ ReadAt handle height
        → run.state.stage ≡ Ended answer → CalmAt run.service handle height answer run.later }
{
    calls_are_split();
    ledgers_are_lists();
    standing_rows_are_given();
    whole_refreshes_find_all_views();
}

/// The chain of views of an operation over a calm service.
pub fn calm_runs_know_views()
    // However far it has come, it has the first of the views.
    ensures front { (run : CalmRun) → IsFront run.service.roster run.service.configs run.state.chain }
    // Once it has an answer it has all of them, unless memory was wanted.
    ensures all { (run : CalmRun) (answer : Result Standing Cause) → run.state.stage ≡ Ended answer → answer ≢ Err NoMemory
        → run.state.chain ≡ all_views run.service }
{
    calls_are_split();
    ledgers_are_lists();
    refreshes_find_all_views();
    standing_rows_are_given();
    whole_refreshes_find_all_views();
}
