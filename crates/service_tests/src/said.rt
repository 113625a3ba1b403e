// What an operation answers, as a line of text.
use chain_block::Entry;
use port::{EndorserRefusal, Key, LatestReply, Reason, Refusal, Row, Standing};
use std::alloc::Global;
use std::test::Fail;

pub(crate) fn standing_said(
    alloc: Global,
    answer: Result<&Standing, &Refusal>,
) -> Result<String, Fail> {
    match answer {
        Ok(standing) => row_said(alloc, "ok", &standing.row, standing.chain.len()),
        Err(refusal) => refusal_said(alloc, refusal),
    }
}

pub(crate) fn latest_said(
    alloc: Global,
    answer: Result<&LatestReply, &Refusal>,
) -> Result<String, Fail> {
    match answer {
        Ok(reply) => match &reply.row {
            None => Ok(format!(in alloc; "absent")?),
            Some(row) => row_said(alloc, "ok", row, 0),
        },
        Err(refusal) => refusal_said(alloc, refusal),
    }
}

/// A word, a height, a payload of one letter and, where there are any, how many blocks lead on.
fn row_said(alloc: Global, word: &str, row: &Row, blocks: usize) -> Result<String, Fail> {
    let height = row.height();
    let letter = letter_of(&row.entry);
    if blocks == 0 {
        return Ok(format!(in alloc; "{word} {height} {letter}")?);
    }
    Ok(format!(in alloc; "{word} {height} {letter} + {blocks}")?)
}

fn letter_of(entry: &Entry) -> char {
    let payload = match entry {
        Entry::Genesis { payload, .. } => payload,
        Entry::Later { payload, .. } => payload,
    };
    match payload.bytes().first() {
        Some(letter) => char::from(*letter),
        None => '-',
    }
}

pub(crate) fn refusal_said(alloc: Global, refusal: &Refusal) -> Result<String, Fail> {
    let said = match refusal {
        Refusal::Conflict { standing } => {
            return row_said(alloc, "conflict", &standing.row, standing.chain.len());
        }
        Refusal::Gap { missing, .. } => format!(in alloc; "gap {missing}")?,
        Refusal::NoQuorum { need, reasons } => return no_quorum_said(alloc, *need, reasons),
        Refusal::StoreFault => format!(in alloc; "storefault")?,
        Refusal::BadRow {
            key: Key::Row { height, .. },
            ..
        } => format!(in alloc; "badrow {height}")?,
        Refusal::BadRow {
            key: Key::View { number },
            ..
        } => format!(in alloc; "badview {number}")?,
        Refusal::BadRow {
            key: Key::Finals { number },
            ..
        } => format!(in alloc; "badfinals {number}")?,
        Refusal::Contended {
            member,
            first,
            later,
        } => format!(in alloc; "contended {member} {first} {later}")?,
        _ => format!(in alloc; "other")?,
    };
    Ok(said)
}

fn no_quorum_said(alloc: Global, need: u64, reasons: &[(u32, Reason)]) -> Result<String, Fail> {
    let mut said = format!(in alloc; "noquorum {need}")?;
    for (id, reason) in reasons {
        let word = word_of(reason);
        let part = format!(in alloc; " {id}:{word}")?;
        said.push_str(&part)?;
    }
    Ok(said)
}

fn word_of(reason: &Reason) -> &'static str {
    match reason {
        Reason::Lost => "lost",
        Reason::Other { .. } => "other",
        Reason::Refused { refusal } => match refusal {
            EndorserRefusal::Stands { .. } => "stands",
            EndorserRefusal::OtherTail { .. } => "othertail",
            EndorserRefusal::WrongPhase { .. } => "wrongphase",
            _ => "refused",
        },
    }
}
