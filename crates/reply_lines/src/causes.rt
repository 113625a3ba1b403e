ghost use Rattle.std.specs.Prelude.{◌≡◌, ◌∷◌, [], ◌++◌, IfOk, OnOk, codes, map};
ghost use Rattle.std.specs.Fmt.{decimal};
ghost use Rattle.fault_script.specs.Spelling.{spaced};
ghost use Rattle.port.specs.Cause.{NoMemory as WantsMemory, cause_of, member_cause_of};
ghost use Rattle.reply_lines.specs.Lines.{line};
ghost use Rattle.reply_lines.specs.Causes.{bad_row_line, gap_line, payload_of, reason_value, refusal_line, reused_line};

use crate::lines::conflict_line;
use crate::names::reason_word;
use chain_block::Entry;
use fault_script::{push_number, push_word};
use nim_base::{NoMemory, Text};
use port::{Key, Reason, Refusal};
use std::alloc::Global;

/// What a service refused: `conflict LABEL HEIGHT =PAYLOAD`, `gap LABEL MISSING`, `noquorum NEED` with ` ID:WORD` for each
/// reason, `viewmoved FROM`, `storefault`, `badrow LABEL HEIGHT`, `badview NUMBER`, `badfinals NUMBER`, `contended ID FIRST
/// LATER`, `full`, `toofar NEEDED` or `reused ID`. The label is that of the ledger of which the refusal speaks. Want of memory
/// has no line.
pub fn refusal_line(alloc: Global, label: &[u8], refusal: &Refusal) -> Result<Text, NoMemory>
    ensures line { IfOk result (λ line. line.bytes ≡ refusal_line label.now (cause_of refusal.now)) }
    ensures no_memory { IfOk result (λ line. cause_of refusal.now ≡ WantsMemory → ⊥) }
{
    match refusal {
        Refusal::Conflict { standing } => conflict_line(
            alloc,
            label,
            standing.row.height(),
            payload_of(&standing.row.entry),
        ),
        Refusal::Gap { missing, .. } => gap_line(alloc, label, *missing),
        Refusal::NoQuorum { need, reasons } => no_quorum_line(alloc, *need, reasons),
        Refusal::ViewMoved { from, .. } => number_line(alloc, b"viewmoved", *from),
        Refusal::StoreFault => Text::of(alloc, b"storefault\n"),
        Refusal::BadRow { key, .. } => bad_row_line(alloc, label, key),
        Refusal::Contended {
            member,
            first,
            later,
        } => contended_line(alloc, *member, *first, *later),
        Refusal::Full { .. } => Text::of(alloc, b"full\n"),
        Refusal::TooFar { needed } => number_line(alloc, b"toofar", *needed),
        Refusal::Reused { id } => reused_line(alloc, *id),
        Refusal::NoMemory => Err(NoMemory),
    }
}

/// `gap LABEL MISSING`: the ledger has no entry at this height.
pub fn gap_line(alloc: Global, label: &[u8], missing: u64) -> Result<Text, NoMemory>
    ensures { IfOk result (λ line. line.bytes ≡ gap_line label.now missing) }
{
    named_line(alloc, b"gap", label, missing)
}

/// `reused ID`: the endorser with this id stands in an earlier view.
pub fn reused_line(alloc: Global, id: u32) -> Result<Text, NoMemory>
    ensures { IfOk result (λ line. line.bytes ≡ reused_line id) }
{
    number_line(alloc, b"reused", u64::from(id))
}

/// The payload of an entry, as lines print it.
pub fn payload_of(entry: &Entry) -> &[u8]
    ensures { result.now ≡ payload_of entry.now }
{
    match entry {
        Entry::Genesis { payload, .. } => payload.bytes(),
        Entry::Later { payload, .. } => payload.bytes(),
    }
}

/// A word and a number.
fn number_line(alloc: Global, word: &[u8], number: u64) -> Result<Text, NoMemory>
    ensures { IfOk result (λ text. text.bytes ≡ line word.now (decimal number ∷ [])) }
{
    let mut line = Text::of(alloc, word)?;
    push_number(alloc, &mut line, number)?;
    line.push(b"\n")?;
    Ok(line)
}

/// A word, a label and a number.
fn named_line(alloc: Global, word: &[u8], label: &[u8], number: u64) -> Result<Text, NoMemory>
    ensures { IfOk result (λ text. text.bytes ≡ line word.now (label.now ∷ decimal number ∷ [])) }
{
    let mut line = Text::of(alloc, word)?;
    push_word(&mut line, label)?;
    push_number(alloc, &mut line, number)?;
    line.push(b"\n")?;
    Ok(line)
}

fn bad_row_line(alloc: Global, label: &[u8], key: &Key) -> Result<Text, NoMemory>
    ensures { IfOk result (λ text. text.bytes ≡ bad_row_line label.now key.now) }
{
    match key {
        Key::Row { height, .. } => named_line(alloc, b"badrow", label, *height),
        Key::View { number } => number_line(alloc, b"badview", *number),
        Key::Finals { number } => number_line(alloc, b"badfinals", *number),
    }
}

fn contended_line(alloc: Global, member: u32, first: u64, later: u64) -> Result<Text, NoMemory>
    ensures { IfOk result (λ text. text.bytes ≡ line (codes "contended") (decimal member ∷ decimal first ∷ decimal later ∷ [])) }
{
    let mut line = Text::of(alloc, b"contended")?;
    push_number(alloc, &mut line, u64::from(member))?;
    push_number(alloc, &mut line, first)?;
    push_number(alloc, &mut line, later)?;
    line.push(b"\n")?;
    Ok(line)
}

fn push_reason(alloc: Global, line: &mut Text, id: u32, reason: &Reason) -> Result<(), NoMemory>
    ensures { OnOk result (line.new.bytes ≡ line.old.bytes ++ 32 ∷ reason_value (id, member_cause_of reason.now)) }
{
    push_number(alloc, line, u64::from(id))?;
    line.push(b":")?;
    line.push(reason_word(reason))
}

fn push_reasons(alloc: Global, line: &mut Text, reasons: &[(u32, Reason)]) -> Result<(), NoMemory>
    ensures { OnOk result (line.new.bytes ≡ line.old.bytes
        ++ spaced (map reason_value (map (λ r. (r.0, member_cause_of r.1)) reasons.now))) }
{
    for (id, reason) in reasons {
        push_reason(alloc, line, *id, reason)?;
    }
    Ok(())
}

/// The quorum, and each member that doesn't count with its reason.
fn no_quorum_line(alloc: Global, need: u64, reasons: &[(u32, Reason)]) -> Result<Text, NoMemory>
    ensures { IfOk result (λ text. text.bytes
        ≡ line (codes "noquorum") (decimal need ∷ map reason_value (map (λ r. (r.0, member_cause_of r.1)) reasons.now))) }
{
    let mut line = Text::of(alloc, b"noquorum")?;
    push_number(alloc, &mut line, need)?;
    push_reasons(alloc, &mut line, reasons)?;
    line.push(b"\n")?;
    Ok(line)
}
