ghost use Rattle.std.specs.Prelude.{◌≡◌, ◌≢◌, ℕ, [], ◌∷◌, map, slice_index_or, AllPairs, IfOk};
ghost use Rattle.statement.specs.declared.member.Member.{Member as GenuineMember};
ghost use Rattle.statement.specs.Config.{ids};
ghost use Rattle.view_ledger.specs.Extension.{AreGenuine};
ghost use Rattle.client_pass.specs.ClientList.{stamps_of};
ghost use Rattle.client_pass.specs.Record.{IsRecord, call_stamps};
ghost use Rattle.endorser_cell.specs.BankLine.{served_by};
ghost use Rattle.roster_bank.specs.Roster.{lists_of};
ghost use Rattle.run_record.specs.Events.{is_client, is_endorser, places};
ghost use Rattle.run_record.specs.Stamping.{acts_of, calls_of};
ghost use Rattle.run_order.specs.Order.{order_of};

use crate::order::order_of;
use client_acts::ClientActs;
use client_pass::Record;
use nim_base::NoMemory;
use roster_bank::{RosterBank, RunName, places_are_of_served_calls};
use run_record::record_of;
use seal::Scheme;
use statement::{Config, Member};
use std::alloc::Global;

/// The record of a run with these clients and this bank: the lines of its endorsers and of its clients, each with its place in the order
/// of the run as its stamp, from 0. A call that no endorser served is no event.
pub fn record_of_run<G: Scheme, K: RunName>(
    alloc: Global,
    genesis: Config,
    roster: Vec<Member>,
    clients: ClientActs<'_, G::Checker, K>,
    bank: RosterBank<'_, G, K>,
) -> Result<Record, NoMemory>
    ensures genesis { IfOk result (λ made. made.genesis ≡ genesis) }
    ensures roster { IfOk result (λ made. made.roster ≡ roster.items) }
    ensures calls { IfOk result (λ made. map calls_of made.cells ≡ map calls_of (lists_of bank.entry.cells)) }
    ensures acts { IfOk result (λ made. map acts_of made.passes ≡ map (λ client. acts_of client.lines) clients.entry.clients) }
    ensures call_stamps { IfOk result (λ made. (place : ℕ) → slice_index_or (map call_stamps made.cells) place [] ≡ places (is_endorser place) (order_of (ids K.members) (served_by [] bank.entry.log) clients.entry.turns)) }
    ensures act_stamps { IfOk result (λ made. (place : ℕ) → slice_index_or (map stamps_of made.passes) place [] ≡ places (is_client place) (order_of (ids K.members) (served_by [] bank.entry.log) clients.entry.turns)) }
    // Where the roster is the run's, view 0 is that of the genesis, of members of the roster, and no two keys are one, it is a record.
    ensures record { IfOk result (λ made. roster.items ≡ K.members → clients.entry.first ≡ record { roster = K.members; configs = genesis ∷ [] }
        → AllPairs (λ (one other : GenuineMember). one.key ≢ other.key) K.members → AreGenuine K.members genesis → IsRecord K.accepts made) }
{
    places_are_of_served_calls();
    let order = order_of(alloc, clients.turns(), &bank)?;
    let cells = bank.into_lists(alloc)?;
    let passes = clients.into_lines()?;
    let made = record_of(alloc, &order, genesis, roster, cells, passes)?;
    Ok(made)
}
