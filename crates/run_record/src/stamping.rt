ghost use Rattle.std.specs.Prelude.{◌≡◌, ℕ, ◌+◌, ◌<◌, List, [], length, map, slice_index, slice_index_or, slice_set, vec_items, vec_len, IfOk, OnOk};
ghost use Rattle.std.specs.List.{AllByRecursion};
ghost use Rattle.std.specs.List.Sorted.{IsStrictlyIncreasing};
ghost use Rattle.stamp_clock.specs.Stamps.{EachOnce};
ghost use Rattle.view_ledger.specs.Receipts.{Accepts};
ghost use Rattle.view_ledger.specs.Views.{ViewChain};
ghost use Rattle.client_pass.specs.ClientList.{IsClientList, stamps_of};
ghost use Rattle.client_pass.specs.Record.{AreLawful, IsRecord, call_stamps, stamp_lists, stamps};
ghost use Rattle.run_record.specs.Events.{AreEvents, is_endorser, is_client, places};
ghost use Rattle.run_record.specs.Stamping.{AreStamped, IsRecordUnstamped, act_stamped, acts_of, call_stamped, calls_of, change_at, given};

use crate::actor::Actor;
use client_pass::{ClientLine, Record};
use endorser_core::CellLine;
use nim_base::NoMemory;
use statement::{Config, Member};
use std::alloc::Global;

/// The record of a run whose events came in this order. Each list has one line for each event of its actor,
/// and the line of an event gets the event's place in the order as its stamp, from 0.
///
/// It goes once through the order, and takes the memory of one number for each list.
pub fn record_of(
    alloc: Global,
    order: &[Actor],
    genesis: Config,
    roster: Vec<Member>,
    mut cells: Vec<Vec<CellLine>>,
    mut passes: Vec<Vec<ClientLine>>,
) -> Result<Record, NoMemory>
    requires events { AreEvents order.now (map vec_items cells.items) (map vec_items passes.items) }
    ensures genesis { IfOk result (λ made. made.genesis ≡ genesis) }
    ensures roster { IfOk result (λ made. made.roster ≡ roster.items) }
    ensures calls { IfOk result (λ made. map calls_of made.cells ≡ map calls_of (map vec_items cells.items)) }
    ensures acts { IfOk result (λ made. map acts_of made.passes ≡ map acts_of (map vec_items passes.items)) }
    ensures call_stamps { IfOk result (λ made. (place : ℕ) → slice_index_or (map call_stamps made.cells) place [] ≡ places (is_endorser place) order.now) }
    ensures act_stamps { IfOk result (λ made. (place : ℕ) → slice_index_or (map stamps_of made.passes) place [] ≡ places (is_client place) order.now) }
    ensures rising { IfOk result (λ made. AllByRecursion IsStrictlyIncreasing (stamp_lists made)) }
    ensures each_once { IfOk result (λ made. EachOnce (stamps made) (length (stamps made))) }
    ensures count { IfOk result (λ made. length (stamps made) ≡ length order.now) }
    ensures lawful { IfOk result (λ made. (accepts : Accepts) → AreLawful accepts roster.items (map vec_items cells.items) → AreLawful accepts roster.items made.cells) }
    ensures clients { IfOk result (λ made. (accepts : Accepts) (chain : ViewChain) → AllByRecursion (IsClientList accepts chain) (map vec_items passes.items) → AllByRecursion (IsClientList accepts chain) made.passes) }
    ensures is_record { IfOk result (λ made. (accepts : Accepts) → IsRecordUnstamped accepts (given genesis roster.items (map vec_items cells.items) (map vec_items passes.items)) → IsRecord accepts made) }
{
    stamp_all(alloc, order, &mut cells, &mut passes)?;
    Ok(Record {
        genesis,
        roster,
        cells,
        passes,
    })
}

fn stamp_all(
    alloc: Global,
    order: &[Actor],
    cells: &mut Vec<Vec<CellLine>>,
    passes: &mut Vec<Vec<ClientLine>>,
) -> Result<(), NoMemory>
    requires events { AreEvents order.now (map vec_items cells.old.items) (map vec_items passes.old.items) }
    ensures cells { OnOk result (AreStamped call_stamped is_endorser order.now (map vec_items cells.old.items) (map vec_items cells.new.items)) }
    ensures passes { OnOk result (AreStamped act_stamped is_client order.now (map vec_items passes.old.items) (map vec_items passes.new.items)) }
{
    let mut calls = vec![in alloc; 0; cells.len()]?;
    let mut acts = vec![in alloc; 0; passes.len()]?;
    for (stamp, actor) in order.iter().enumerate() {
        match *actor {
            Actor::Endorser { place } => stamp_call(cells, &mut calls, place, stamp as u64),
            Actor::Client { place } => stamp_act(passes, &mut acts, place, stamp as u64),
        }
    }
    Ok(())
}

/// Gives the endorser's next line that stamp.
fn stamp_call(cells: &mut Vec<Vec<CellLine>>, next: &mut Vec<usize>, place: usize, stamp: u64)
    requires list { place < vec_len cells.old }
    requires next { place < vec_len next.old }
    requires line { slice_index next.old.items place < length (slice_index_or (map vec_items cells.old.items) place []) }
    ensures lines { map vec_items cells.new.items ≡ change_at (change_at (call_stamped stamp) (slice_index next.old.items place)) place (map vec_items cells.old.items) }
    ensures next { next.new.items ≡ slice_set next.old.items place (slice_index next.old.items place + 1) }
{
    let call = next[place];
    let lines = &mut cells[place];
    lines[call].stamp = stamp;
    next[place] = call + 1;
}

/// Gives the client's next line that stamp.
fn stamp_act(passes: &mut Vec<Vec<ClientLine>>, next: &mut Vec<usize>, place: usize, stamp: u64)
    requires list { place < vec_len passes.old }
    requires next { place < vec_len next.old }
    requires line { slice_index next.old.items place < length (slice_index_or (map vec_items passes.old.items) place []) }
    ensures lines { map vec_items passes.new.items ≡ change_at (change_at (act_stamped stamp) (slice_index next.old.items place)) place (map vec_items passes.old.items) }
    ensures next { next.new.items ≡ slice_set next.old.items place (slice_index next.old.items place + 1) }
{
    let act = next[place];
    let lines = &mut passes[place];
    lines[act].stamp = stamp;
    next[place] = act + 1;
}
