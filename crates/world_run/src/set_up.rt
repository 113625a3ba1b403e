ghost use Rattle.std.specs.Prelude.{◌≡◌, ◌≤◌, ◌++◌, IfOk, OnOk, map, bytes_eq};
ghost use Rattle.std.specs.List.{flat_map, list_any};
ghost use Rattle.std.specs.Option.{option_map};
ghost use Rattle.fault_script.specs.Labels.{label_of, label_of_request};
ghost use Rattle.fault_script.specs.Seen.{command_of, commands_of, request_of};
ghost use Rattle.fault_script.specs.Within.{IsRequestWithin, IsWithin};
ghost use Rattle.script_runs.specs.Ids.{all_ids};
ghost use Rattle.world_run.specs.SetUp.{AllWithin, draws_of, draws_of_request, first_entries, first_entry, first_entry_of_request, label_text, made_by, made_by_request, set_up_texts, text_of_label};

use crate::mac_seals::IDS;
use crate::seals::Seals;
use chain_block::Entry;
use fault_script::{Act, Line, Script};
use nim_base::{NoMemory, Text};
use script_world::nonce;
use std::alloc::Global;

/// The kind of the text whose digest is the handle of a label that no line makes.
const LABEL: u8 = 0x43;

fn draws_of_act(act: &Act) -> u64
    ensures exact { result ≡ draws_of_request (request_of act.now) }
    ensures few { result ≤ 1 }
{
    match act {
        Act::New { .. } | Act::Append { .. } | Act::Latest { .. } => 1,
        Act::At { .. } | Act::Reconfigure { .. } => 0,
    }
}

/// How many nonces a line draws.
pub(crate) fn draws_of(line: &Line) -> u64
    ensures exact { result ≡ draws_of (command_of line.now) }
    ensures few { result ≤ 1 }
{
    match line {
        Line::Plain { act } | Line::Begin { act, .. } => draws_of_act(act),
        _ => 0,
    }
}

fn push_entry_of_act(
    alloc: Global,
    draw: u64,
    act: &Act,
    texts: &mut Vec<Text>,
) -> Result<(), NoMemory>
    requires { IsRequestWithin (request_of act.now) }
    ensures { OnOk result (map (λ text. text.bytes) texts.new.items
        ≡ map (λ text. text.bytes) texts.old.items ++ first_entry_of_request draw (request_of act.now)) }
{
    if let Act::New { payload, .. } = act {
        let entry = Entry::Genesis {
            nonce: nonce(draw),
            payload: Text::of(alloc, payload.bytes())?,
        };
        texts.push(entry.write(alloc)?)?;
    }
    Ok(())
}

// Adds the first entry that a line makes with the nonce of this number, if it makes one.
fn push_first_entry(
    alloc: Global,
    draw: u64,
    line: &Line,
    texts: &mut Vec<Text>,
) -> Result<(), NoMemory>
    requires { IsWithin (command_of line.now) }
    ensures { OnOk result (map (λ text. text.bytes) texts.new.items
        ≡ map (λ text. text.bytes) texts.old.items ++ first_entry draw (command_of line.now)) }
{
    match line {
        Line::Plain { act } => push_entry_of_act(alloc, draw, act, texts),
        Line::Begin { act, .. } => push_entry_of_act(alloc, draw, act, texts),
        _ => Ok(()),
    }
}

fn push_first_entries(alloc: Global, lines: &[Line], texts: &mut Vec<Text>) -> Result<(), NoMemory>
    requires { AllWithin (commands_of lines.now) }
    ensures { OnOk result (map (λ text. text.bytes) texts.new.items
        ≡ map (λ text. text.bytes) texts.old.items ++ first_entries 0 (commands_of lines.now)) }
{
    let mut draws = 0;
    for line in lines {
        push_first_entry(alloc, draws, line, texts)?;
        draws += draws_of(line);
    }
    Ok(())
}

fn push_made_by_act<'a>(act: &'a Act, labels: &mut Vec<&'a [u8]>) -> Result<(), NoMemory>
    ensures { OnOk result (map (λ one. one.now) labels.new.items
        ≡ map (λ one. one.now) labels.old.items ++ made_by_request (request_of act.now)) }
{
    if let Act::New { label, .. } = act {
        labels.push(label.bytes())?;
    }
    Ok(())
}

fn push_made<'a>(line: &'a Line, labels: &mut Vec<&'a [u8]>) -> Result<(), NoMemory>
    ensures { OnOk result (map (λ one. one.now) labels.new.items
        ≡ map (λ one. one.now) labels.old.items ++ made_by (command_of line.now)) }
{
    match line {
        Line::Plain { act } => push_made_by_act(act, labels),
        Line::Begin { act, .. } => push_made_by_act(act, labels),
        _ => Ok(()),
    }
}

// The labels that lines make.
fn made_labels(alloc: Global, lines: &[Line]) -> Result<Vec<&[u8]>, NoMemory>
    ensures { IfOk result (λ labels. map (λ one. one.now) labels.items ≡ flat_map made_by (commands_of lines.now)) }
{
    let mut labels = Vec::new(alloc);
    for line in lines {
        push_made(line, &mut labels)?;
    }
    Ok(labels)
}

fn label_of_act(act: &Act) -> Option<&[u8]>
    ensures { option_map (λ label. label.now) result ≡ label_of_request (request_of act.now) }
{
    match act {
        Act::New { label, .. } => Some(label.bytes()),
        Act::Append { label, .. } => Some(label.bytes()),
        Act::Latest { label, .. } => Some(label.bytes()),
        Act::At { label, .. } => Some(label.bytes()),
        Act::Reconfigure { .. } => None,
    }
}

/// The label that a line has, if it has one.
pub(crate) fn label_of(line: &Line) -> Option<&[u8]>
    ensures { option_map (λ label. label.now) result ≡ label_of (command_of line.now) }
{
    match line {
        Line::Plain { act } => label_of_act(act),
        Line::Begin { act, .. } => label_of_act(act),
        Line::StoreHide { label, .. } => Some(label.bytes()),
        Line::StoreStale { label, .. } => Some(label.bytes()),
        Line::StoreFork { label, .. } => Some(label.bytes()),
        Line::RawAppend { label, .. } => Some(label.bytes()),
        Line::RawLatest { label, .. } => Some(label.bytes()),
        Line::RawShow { label, .. } => Some(label.bytes()),
        _ => None,
    }
}

fn is_among(made: &[&[u8]], label: &[u8]) -> bool
    ensures { result ≡ list_any (bytes_eq label.now) (map (λ one. one.now) made.now) }
{
    for one in made {
        if label == *one {
            return true;
        }
    }
    false
}

fn push_text_of_label(
    alloc: Global,
    made: &[&[u8]],
    label: &[u8],
    texts: &mut Vec<Text>,
) -> Result<(), NoMemory>
    ensures { OnOk result (map (λ text. text.bytes) texts.new.items
        ≡ map (λ text. text.bytes) texts.old.items ++ text_of_label (map (λ one. one.now) made.now) label.now) }
{
    if !is_among(made, label) {
        let mut text = Text::of(alloc, &[LABEL])?;
        text.push(label)?;
        texts.push(text)?;
    }
    Ok(())
}

// Adds the text of a line's label, where no line makes that.
fn push_label_text(
    alloc: Global,
    made: &[&[u8]],
    line: &Line,
    texts: &mut Vec<Text>,
) -> Result<(), NoMemory>
    ensures { OnOk result (map (λ text. text.bytes) texts.new.items
        ≡ map (λ text. text.bytes) texts.old.items ++ label_text (map (λ one. one.now) made.now) (command_of line.now)) }
{
    match label_of(line) {
        Some(label) => push_text_of_label(alloc, made, label, texts),
        None => Ok(()),
    }
}

fn push_label_texts(
    alloc: Global,
    made: &[&[u8]],
    lines: &[Line],
    texts: &mut Vec<Text>,
) -> Result<(), NoMemory>
    ensures { OnOk result (map (λ text. text.bytes) texts.new.items
        ≡ map (λ text. text.bytes) texts.old.items ++ flat_map (label_text (map (λ one. one.now) made.now)) (commands_of lines.now)) }
{
    for line in lines {
        push_label_text(alloc, made, line, texts)?;
    }
    Ok(())
}

fn push_all(texts: &mut Vec<Text>, more: Vec<Text>) -> Result<(), NoMemory>
    ensures { OnOk result (map (λ text. text.bytes) texts.new.items
        ≡ map (λ text. text.bytes) texts.old.items ++ map (λ text. text.bytes) more.items) }
{
    let mut more = more;
    texts.append(&mut more)?;
    Ok(())
}

// The texts that lead to the keys of all ids.
fn key_texts<M: Seals>(alloc: Global, seals: &M) -> Result<Vec<Text>, NoMemory>
    ensures { IfOk result (λ texts. map (λ text. text.bytes) texts.items ≡ flat_map (M.texts_of seals.now) all_ids) }
{
    let mut texts = Vec::new(alloc);
    for below in 0..IDS {
        push_all(&mut texts, seals.texts(alloc, below + 1)?)?;
    }
    Ok(texts)
}

/// The texts whose digests a run of a script rests on before it begins: those that lead to the keys of the ids 1 to 64, the first entries
/// that its `new` lines make, begun ones too, and 43 in hexadecimal before each label that no `new` line makes. A text comes once for each
/// line that has it.
pub fn set_up_texts<M: Seals>(
    alloc: Global,
    seals: &M,
    script: &Script,
) -> Result<Vec<Text>, NoMemory>
    ensures { IfOk result (λ texts. map (λ text. text.bytes) texts.items ≡ set_up_texts (M.texts_of seals.now) script.now) }
{
    let lines = script.lines();
    let mut texts = key_texts(alloc, seals)?;
    push_first_entries(alloc, lines, &mut texts)?;
    let made = made_labels(alloc, lines)?;
    push_label_texts(alloc, &made, lines, &mut texts)?;
    Ok(texts)
}
