ghost use Rattle.std.specs.Prelude.{◌≡◌, ◌++◌, IfOk, OnOk};
ghost use Rattle.fault_script.specs.Spelling.{spaced};
ghost use Rattle.port.specs.Answer.{answer_of};
ghost use Rattle.reply_lines.specs.Lines.{absent_line, bad_reply_line, conflict_line, count_in, done_line, entry_values, no_reply_line, ok_line, raw_line, raw_values, view_line};

use crate::names::{denial_word, fault_word, phase_word};
use fault_script::{push_ids, push_number, push_payload, push_word};
use nim_base::{NoMemory, Text};
use port::EndorserAnswer;
use statement::Statement;
use std::alloc::Global;
use verifier::ReplyFault;

/// `view NUMBER IDS`: view 0 was set up, or the service moved to this view, of the endorsers with these ids.
pub fn view_line(alloc: Global, number: u64, ids: &[u32]) -> Result<Text, NoMemory>
    ensures { IfOk result (λ line. line.bytes ≡ view_line number ids.now) }
{
    let mut line = Text::of(alloc, b"view")?;
    push_number(alloc, &mut line, number)?;
    push_ids(alloc, &mut line, ids)?;
    line.push(b"\n")?;
    Ok(line)
}

fn push_entry(
    alloc: Global,
    line: &mut Text,
    label: &[u8],
    height: u64,
    payload: &[u8],
) -> Result<(), NoMemory>
    ensures { OnOk result (line.new.bytes ≡ line.old.bytes ++ spaced (entry_values label.now height payload.now)) }
{
    push_word(line, label)?;
    push_number(alloc, line, height)?;
    push_payload(line, payload)
}

/// `ok LABEL HEIGHT =PAYLOAD`: a client took this entry of the ledger.
pub fn ok_line(alloc: Global, label: &[u8], height: u64, payload: &[u8]) -> Result<Text, NoMemory>
    ensures { IfOk result (λ line. line.bytes ≡ ok_line label.now height payload.now) }
{
    let mut line = Text::of(alloc, b"ok")?;
    push_entry(alloc, &mut line, label, height, payload)?;
    line.push(b"\n")?;
    Ok(line)
}

/// `conflict LABEL HEIGHT =PAYLOAD`: this entry stands there, and a client looked at it.
pub fn conflict_line(
    alloc: Global,
    label: &[u8],
    height: u64,
    payload: &[u8],
) -> Result<Text, NoMemory>
    ensures { IfOk result (λ line. line.bytes ≡ conflict_line label.now height payload.now) }
{
    let mut line = Text::of(alloc, b"conflict")?;
    push_entry(alloc, &mut line, label, height, payload)?;
    line.push(b"\n")?;
    Ok(line)
}

/// `absent LABEL`: a client took it that the ledger has no entry.
pub fn absent_line(alloc: Global, label: &[u8]) -> Result<Text, NoMemory>
    ensures { IfOk result (λ line. line.bytes ≡ absent_line label.now) }
{
    let mut line = Text::of(alloc, b"absent")?;
    push_word(&mut line, label)?;
    line.push(b"\n")?;
    Ok(line)
}

/// `badreply WORD`: a client refused a reply for this fault, whose name in small letters the word is.
pub fn bad_reply_line(alloc: Global, fault: ReplyFault) -> Result<Text, NoMemory>
    ensures { IfOk result (λ line. line.bytes ≡ bad_reply_line fault) }
{
    let mut line = Text::of(alloc, b"badreply")?;
    push_word(&mut line, fault_word(fault))?;
    line.push(b"\n")?;
    Ok(line)
}

fn count_in(statement: &Statement) -> u64
    ensures { result ≡ count_in statement.now }
{
    match statement {
        Statement::Held { count, .. } => *count,
        Statement::Latest { count, .. } => *count,
        _ => 0,
    }
}

fn push_answer(alloc: Global, line: &mut Text, answer: &EndorserAnswer) -> Result<(), NoMemory>
    ensures { OnOk result (line.new.bytes ≡ line.old.bytes ++ spaced (raw_values (answer_of answer.now))) }
{
    match answer {
        EndorserAnswer::Done => push_word(line, b"done"),
        EndorserAnswer::Signed { statement, .. } => {
            push_word(line, b"signed")?;
            push_number(alloc, line, count_in(statement))
        }
        EndorserAnswer::Finaled { .. } => push_word(line, b"finaled"),
        EndorserAnswer::Shown { phase, count, .. } => {
            push_word(line, b"shown")?;
            push_word(line, phase_word(*phase))?;
            push_number(alloc, line, *count)
        }
        EndorserAnswer::Refused(refusal) => push_word(line, denial_word(refusal)),
    }
}

/// `raw signed COUNT`, `raw finaled`, `raw shown PHASE COUNT`, or `raw WORD` with the name of the refusal in small letters:
/// what an endorser answered that was asked directly.
pub fn raw_line(alloc: Global, answer: &EndorserAnswer) -> Result<Text, NoMemory>
    ensures { IfOk result (λ line. line.bytes ≡ raw_line (answer_of answer.now)) }
{
    let mut line = Text::of(alloc, b"raw")?;
    push_answer(alloc, &mut line, answer)?;
    line.push(b"\n")?;
    Ok(line)
}

/// `noreply`: no endorser had signed what was to be offered.
pub fn no_reply_line(alloc: Global) -> Result<Text, NoMemory>
    ensures { IfOk result (λ line. line.bytes ≡ no_reply_line) }
{
    Text::of(alloc, b"noreply\n")
}

/// `done OP`: the operation that was to be retried had brought its client a reply.
pub fn done_line(alloc: Global, op: &[u8]) -> Result<Text, NoMemory>
    ensures { IfOk result (λ line. line.bytes ≡ done_line op.now) }
{
    let mut line = Text::of(alloc, b"done")?;
    push_word(&mut line, op)?;
    line.push(b"\n")?;
    Ok(line)
}
