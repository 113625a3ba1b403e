ghost use Rattle.std.specs.Prelude.{◌≡◌, ◌++◌, [], ◌∷◌, IfOk, OnOk};
ghost use Rattle.std.specs.List.{flat_map};
ghost use Rattle.fault_script.specs.Seen.{command_of, commands_of, request_of};
ghost use Rattle.fault_script.specs.Spelling.{act_values, act_word, fault_values, line_text, opening, raw_values, spaced, values, whole_text};

use crate::act::Act;
use crate::line::Line;
use crate::spelling::{push_ids, push_number, push_payload, push_word};
use nim_base::{NoMemory, Text};
use std::alloc::Global;

fn act_word(act: &Act) -> &'static [u8]
    ensures { result.now ≡ act_word (request_of act.now) }
{
    match act {
        Act::New { .. } => b"new",
        Act::Append { .. } => b"append",
        Act::Latest { .. } => b"latest",
        Act::At { .. } => b"at",
        Act::Reconfigure { .. } => b"reconfigure",
    }
}

fn push_act_values(alloc: Global, text: &mut Text, act: &Act) -> Result<(), NoMemory>
    ensures { OnOk result (text.new.bytes ≡ text.old.bytes ++ spaced (act_values (request_of act.now))) }
{
    match act {
        Act::New {
            client,
            label,
            payload,
        } => {
            push_word(text, client.bytes())?;
            push_word(text, label.bytes())?;
            push_payload(text, payload.bytes())
        }
        Act::Append {
            client,
            label,
            height,
            payload,
        } => {
            push_word(text, client.bytes())?;
            push_word(text, label.bytes())?;
            push_number(alloc, text, *height)?;
            push_payload(text, payload.bytes())
        }
        Act::Latest { client, label } => {
            push_word(text, client.bytes())?;
            push_word(text, label.bytes())
        }
        Act::At {
            client,
            label,
            height,
        } => {
            push_word(text, client.bytes())?;
            push_word(text, label.bytes())?;
            push_number(alloc, text, *height)
        }
        Act::Reconfigure { ids } => push_ids(alloc, text, ids),
    }
}

fn opening(line: &Line) -> &'static [u8]
    ensures { result.now ≡ opening (command_of line.now) }
{
    match line {
        Line::Genesis { .. } => b"genesis",
        Line::Plain { act } => act_word(act),
        Line::Restart => b"restart",
        Line::Begin { .. } => b"begin",
        Line::Step { .. } => b"step",
        Line::Finish { .. } => b"finish",
        Line::Retry { .. } => b"retry",
        Line::LoseRequest { .. } => b"lose request",
        Line::LoseReply { .. } => b"lose reply",
        Line::StoreFail { .. } => b"store fail",
        Line::StoreHide { .. } => b"store hide",
        Line::StoreStale { .. } => b"store stale",
        Line::StoreFork { .. } => b"store fork",
        Line::StoreHonest => b"store honest",
        Line::RawAppend { .. } => b"raw append",
        Line::RawLatest { .. } => b"raw latest",
        Line::RawShow { .. } => b"raw show",
        Line::RawFinalize { .. } => b"raw finalize",
        Line::Offer { .. } => b"offer",
        Line::Forge { .. } => b"forge",
        Line::End => b"end",
    }
}

fn push_raw_values(alloc: Global, text: &mut Text, line: &Line) -> Result<(), NoMemory>
    ensures { OnOk result (text.new.bytes ≡ text.old.bytes ++ spaced (raw_values (command_of line.now))) }
{
    match line {
        Line::RawAppend {
            id,
            label,
            height,
            payload,
            nonce,
        } => {
            push_number(alloc, text, u64::from(*id))?;
            push_word(text, label.bytes())?;
            push_number(alloc, text, *height)?;
            push_payload(text, payload.bytes())?;
            push_number(alloc, text, *nonce)
        }
        Line::RawLatest { id, label, nonce } => {
            push_number(alloc, text, u64::from(*id))?;
            push_word(text, label.bytes())?;
            push_number(alloc, text, *nonce)
        }
        Line::RawShow { id, label } => {
            push_number(alloc, text, u64::from(*id))?;
            push_word(text, label.bytes())
        }
        Line::RawFinalize { id, ids } => {
            push_number(alloc, text, u64::from(*id))?;
            push_ids(alloc, text, ids)
        }
        _ => Ok(()),
    }
}

fn push_fault_values(alloc: Global, text: &mut Text, line: &Line) -> Result<(), NoMemory>
    ensures { OnOk result (text.new.bytes ≡ text.old.bytes ++ spaced (fault_values (command_of line.now))) }
{
    match line {
        Line::LoseRequest { id, n } | Line::LoseReply { id, n } => {
            push_number(alloc, text, u64::from(*id))?;
            push_number(alloc, text, *n)
        }
        Line::StoreFail { n } => push_number(alloc, text, *n),
        Line::StoreHide { label, height } | Line::StoreFork { label, height } => {
            push_word(text, label.bytes())?;
            push_number(alloc, text, *height)
        }
        Line::StoreStale {
            label,
            height,
            from,
        } => {
            push_word(text, label.bytes())?;
            push_number(alloc, text, *height)?;
            push_number(alloc, text, *from)
        }
        _ => push_raw_values(alloc, text, line),
    }
}

fn push_values(alloc: Global, text: &mut Text, line: &Line) -> Result<(), NoMemory>
    ensures { OnOk result (text.new.bytes ≡ text.old.bytes ++ spaced (values (command_of line.now))) }
{
    match line {
        Line::Genesis { ids } => push_ids(alloc, text, ids),
        Line::Plain { act } => push_act_values(alloc, text, act),
        Line::Begin { op, act } => {
            push_word(text, op.bytes())?;
            push_word(text, act_word(act))?;
            push_act_values(alloc, text, act)
        }
        Line::Step { op, n } => {
            push_word(text, op.bytes())?;
            push_number(alloc, text, *n)
        }
        Line::Finish { op } | Line::Retry { op } => push_word(text, op.bytes()),
        Line::Offer { op, ids } => {
            push_word(text, op.bytes())?;
            push_ids(alloc, text, ids)
        }
        Line::Forge { op, count, ids } => {
            push_word(text, op.bytes())?;
            push_number(alloc, text, *count)?;
            push_ids(alloc, text, ids)
        }
        _ => push_fault_values(alloc, text, line),
    }
}

fn push_line(alloc: Global, text: &mut Text, line: &Line) -> Result<(), NoMemory>
    ensures { OnOk result (text.new.bytes ≡ text.old.bytes ++ (line_text (command_of line.now) ++ 10 ∷ [])) }
{
    text.push(opening(line))?;
    push_values(alloc, text, line)?;
    text.push(b"\n")
}

/// The lines as text, each with its line feed.
pub(crate) fn write_lines(alloc: Global, lines: &[Line]) -> Result<Text, NoMemory>
    ensures { IfOk result (λ text. text.bytes ≡ whole_text (commands_of lines.now)) }
{
    let mut text = Text::of(alloc, b"")?;
    for line in lines {
        push_line(alloc, &mut text, line)?;
    }
    Ok(text)
}
