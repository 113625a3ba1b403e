ghost use Rattle.std.specs.Prelude.{◌≡◌, ◌++◌, IfOk, OnOk, map};
ghost use Rattle.std.specs.Option.{option_map};
ghost use Rattle.fault_script.specs.Seen.{command_of, commands_of, request_of};
ghost use Rattle.world_run.specs.Plain.{append_reply, at_reply, known_after, latest_reply, nothing, replies, reply_to, reply_to_request, view_reply};

use crate::known::{first_used, payloads_after, views_after};
use fault_script::{Act, Line, Script};
use nim_base::{NoMemory, Text};
use reply_lines::{absent_line, conflict_line, gap_line, ok_line, reused_line, view_line};
use std::alloc::Global;

fn append_reply(
    alloc: Global,
    standing: &[&[u8]],
    label: &[u8],
    height: u64,
    payload: &[u8],
) -> Result<Text, NoMemory>
    ensures { IfOk result (λ line. line.bytes ≡ append_reply (map (λ one. one.now) standing.now) label.now height payload.now) }
{
    let count = standing.len() as u64;
    if height == count {
        return ok_line(alloc, label, height, payload);
    }
    if height < count {
        return conflict_line(alloc, label, height, standing[height as usize]);
    }
    gap_line(alloc, label, height - 1)
}

fn at_reply(alloc: Global, standing: &[&[u8]], label: &[u8], height: u64) -> Result<Text, NoMemory>
    ensures { IfOk result (λ line. line.bytes ≡ at_reply (map (λ one. one.now) standing.now) label.now height) }
{
    if height < standing.len() as u64 {
        return ok_line(alloc, label, height, standing[height as usize]);
    }
    gap_line(alloc, label, height)
}

fn latest_reply(alloc: Global, standing: &[&[u8]], label: &[u8]) -> Result<Text, NoMemory>
    ensures { IfOk result (λ line. line.bytes ≡ latest_reply (map (λ one. one.now) standing.now) label.now) }
{
    let count = standing.len();
    if count == 0 {
        return absent_line(alloc, label);
    }
    ok_line(alloc, label, count as u64 - 1, standing[count - 1])
}

fn view_reply(alloc: Global, views: &[&[u32]], ids: &[u32]) -> Result<Text, NoMemory>
    ensures { IfOk result (λ line. line.bytes ≡ view_reply (map (λ one. one.now) views.now) ids.now) }
{
    match first_used(views, ids) {
        Some(id) => reused_line(alloc, id),
        None => view_line(alloc, views.len() as u64, ids),
    }
}

/// What an act is answered after these lines.
fn act_reply(alloc: Global, earlier: &[Line], act: &Act) -> Result<Text, NoMemory>
    ensures { IfOk result (λ line. line.bytes ≡ reply_to_request (known_after (commands_of earlier.now)) (request_of act.now)) }
{
    match act {
        Act::New { label, payload, .. } => ok_line(alloc, label.bytes(), 0, payload.bytes()),
        Act::Append {
            label,
            height,
            payload,
            ..
        } => {
            let standing = payloads_after(alloc, earlier, label.bytes())?;
            append_reply(alloc, &standing, label.bytes(), *height, payload.bytes())
        }
        Act::Latest { label, .. } => {
            let standing = payloads_after(alloc, earlier, label.bytes())?;
            latest_reply(alloc, &standing, label.bytes())
        }
        Act::At { label, height, .. } => {
            let standing = payloads_after(alloc, earlier, label.bytes())?;
            at_reply(alloc, &standing, label.bytes(), *height)
        }
        Act::Reconfigure { ids } => view_reply(alloc, &views_after(alloc, earlier)?, ids),
    }
}

/// Adds what a line is answered after these lines, if it is answered.
fn push_reply(
    alloc: Global,
    earlier: &[Line],
    line: &Line,
    replies: &mut Vec<Text>,
) -> Result<(), NoMemory>
    ensures { OnOk result (map (λ text. text.bytes) replies.new.items
        ≡ map (λ text. text.bytes) replies.old.items ++ reply_to (known_after (commands_of earlier.now)) (command_of line.now)) }
{
    match line {
        Line::Genesis { ids } => replies.push(view_line(alloc, 0, ids)?)?,
        Line::Plain { act } => replies.push(act_reply(alloc, earlier, act)?)?,
        _ => {}
    }
    Ok(())
}

/// The reply lines of a script whose acts are all done at once, each with its line feed. What is begun, lost, lied about or
/// asked of an endorser directly changes nothing here.
pub fn plain_replies(alloc: Global, script: &Script) -> Result<Vec<Text>, NoMemory>
    ensures { IfOk result (λ lines. map (λ line. line.bytes) lines.items ≡ replies nothing script.now) }
{
    let lines = script.lines();
    let mut said = Vec::new(alloc);
    for (i, line) in lines.iter().enumerate() {
        push_reply(alloc, &lines[..i], line, &mut said)?;
    }
    Ok(said)
}
