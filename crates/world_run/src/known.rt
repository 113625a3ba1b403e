// What is known of ledgers and views after some lines.
ghost use Rattle.std.specs.Prelude.{◌≡◌, IfOk, OnOk, map};
ghost use Rattle.fault_script.specs.Seen.{command_of, commands_of, request_of};
ghost use Rattle.world_run.specs.Plain.{Known, after_request, first_used, is_used, known_after};

use fault_script::{Act, Line};
use nim_base::NoMemory;
use std::alloc::Global;

/// What an act makes of the payloads of a ledger.
fn add_payload<'a>(act: &'a Act, label: &[u8], payloads: &mut Vec<&'a [u8]>) -> Result<(), NoMemory>
    ensures { OnOk result ((known : Known) → map (λ payload. payload.now) payloads.old.items ≡ known.ledgers label.now
        → map (λ payload. payload.now) payloads.new.items ≡ (after_request known (request_of act.now)).ledgers label.now) }
{
    match act {
        Act::New {
            label: own,
            payload,
            ..
        } => {
            if own.bytes() == label {
                payloads.clear();
                payloads.push(payload.bytes())?;
            }
        }
        Act::Append {
            label: own,
            height,
            payload,
            ..
        } => {
            if own.bytes() == label && *height == payloads.len() as u64 {
                payloads.push(payload.bytes())?;
            }
        }
        Act::Latest { .. } | Act::At { .. } | Act::Reconfigure { .. } => {}
    }
    Ok(())
}

/// The payloads in a ledger after these lines, the oldest first.
pub(crate) fn payloads_after<'a>(
    alloc: Global,
    lines: &'a [Line],
    label: &[u8],
) -> Result<Vec<&'a [u8]>, NoMemory>
    ensures { IfOk result (λ payloads. map (λ payload. payload.now) payloads.items ≡ (known_after (commands_of lines.now)).ledgers label.now) }
{
    let mut payloads = Vec::new(alloc);
    for line in lines {
        if let Line::Plain { act } = line {
            add_payload(act, label, &mut payloads)?;
        }
    }
    Ok(payloads)
}

/// The first of these ids that stands in a view.
pub(crate) fn first_used(views: &[&[u32]], ids: &[u32]) -> Option<u32>
    ensures { result ≡ first_used (map (λ ids. ids.now) views.now) ids.now }
{
    for id in ids {
        if is_used(views, *id) {
            return Some(*id);
        }
    }
    None
}

fn is_used(views: &[&[u32]], id: u32) -> bool
    ensures { result ≡ is_used (map (λ ids. ids.now) views.now) id }
{
    for ids in views {
        if ids.contains(&id) {
            return true;
        }
    }
    false
}

/// What an act makes of the views.
fn add_view<'a>(act: &'a Act, views: &mut Vec<&'a [u32]>) -> Result<(), NoMemory>
    ensures { OnOk result ((known : Known) → map (λ ids. ids.now) views.old.items ≡ known.views
        → map (λ ids. ids.now) views.new.items ≡ (after_request known (request_of act.now)).views) }
{
    if let Act::Reconfigure { ids } = act {
        if first_used(views, ids).is_none() {
            views.push(ids)?;
        }
    }
    Ok(())
}

/// The ids of each view after these lines, from view 0 on.
pub(crate) fn views_after(alloc: Global, lines: &[Line]) -> Result<Vec<&[u32]>, NoMemory>
    ensures { IfOk result (λ views. map (λ ids. ids.now) views.items ≡ (known_after (commands_of lines.now)).views) }
{
    let mut views = Vec::new(alloc);
    for line in lines {
        match line {
            Line::Genesis { ids } => {
                views.clear();
                views.push(ids.as_slice())?;
            }
            Line::Plain { act } => add_view(act, &mut views)?,
            _ => {}
        }
    }
    Ok(views)
}
