ghost use Rattle.std.specs.Prelude.{◌≡◌, ◌-◌, ◌++◌, map, take, drop, slice_get, option_and_then, option_to_list, IfOk, OnOk};
ghost use Rattle.statement.specs.Config.{ids};
ghost use Rattle.roster_bank.specs.Places.{place_served, places_served};
ghost use Rattle.run_record.specs.declared.actor.Actor.TheVariants.{Endorser};
ghost use Rattle.run_order.specs.Order.{lines, order_from};

use client_acts::Turn;
use nim_base::NoMemory;
use roster_bank::{RosterBank, RunName, places_grow};
use run_record::Actor;
use seal::Scheme;
use std::alloc::Global;

/// Adds the place of the endorser that served this line of the bank's list, if one did.
fn push_place<G: Scheme, K: RunName>(
    bank: &RosterBank<'_, G, K>,
    line: usize,
    places: &mut Vec<usize>,
) -> Result<(), NoMemory>
    ensures { OnOk result (places.new.items ≡ places.old.items ++ option_to_list (option_and_then (place_served (ids K.members)) (slice_get bank.now.log line))) }
{
    if let Some(place) = bank.place_served(line) {
        places.push(place)?;
    }
    Ok(())
}

/// The place of the endorser of each call that was served, the first call first.
fn places_served<G: Scheme, K: RunName>(
    alloc: Global,
    bank: &RosterBank<'_, G, K>,
) -> Result<Vec<usize>, NoMemory>
    ensures { IfOk result (λ places. places.items ≡ places_served (ids K.members) bank.now.log) }
{
    places_grow();
    let mut places = Vec::with_capacity(alloc, bank.served())?;
    for line in 0..bank.log().len() {
        push_place(bank, line, &mut places)?;
    }
    Ok(places)
}

/// Adds the events of the calls from the first of these numbers up to the second.
fn push_calls(
    places: &[usize],
    from: usize,
    upto: usize,
    order: &mut Vec<Actor>,
) -> Result<(), NoMemory>
    ensures { OnOk result (order.new.items ≡ order.old.items ++ map Endorser (take (upto - from) (drop from places.now))) }
{
    let end = upto.min(places.len());
    for call in from..end {
        order.push(Actor::Endorser {
            place: places[call],
        })?;
    }
    Ok(())
}

/// Adds so many events of the client at this place.
fn push_lines(client: usize, count: usize, order: &mut Vec<Actor>) -> Result<(), NoMemory>
    ensures { OnOk result (order.new.items ≡ order.old.items ++ lines client count) }
{
    for _ in 0..count {
        order.push(Actor::Client { place: client })?;
    }
    Ok(())
}

/// Who acted in each event of the run: before the lines of a turn come the calls that had been served then.
pub(crate) fn order_of<G: Scheme, K: RunName>(
    alloc: Global,
    turns: &[Turn],
    bank: &RosterBank<'_, G, K>,
) -> Result<Vec<Actor>, NoMemory>
    ensures { IfOk result (λ order. order.items ≡ order_from (map Endorser) (places_served (ids K.members) bank.now.log) 0 turns.now) }
{
    let places = places_served(alloc, bank)?;
    let mut order = Vec::new(alloc);
    let mut next = 0;
    for turn in turns {
        push_calls(&places, next, turn.calls, &mut order)?;
        push_lines(turn.client, turn.lines, &mut order)?;
        next = next.max(turn.calls);
    }
    push_calls(&places, next, places.len(), &mut order)?;
    Ok(order)
}
