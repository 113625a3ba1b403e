use client_pass::{ClientLine, Record};
use endorser_core::CellLine;
use fault_script::{push_number, read};
use least_collision::least_collision;
use nim_base::{NoMemory, Text};
use nim_outside::MemSink;
use std::alloc::Global;
use std::test::Fail;
use world_run::{MacSeals, replay, set_up_texts};

const FIRST_PATH: &str = "genesis 1,2,3\nnew c L1 =a\nappend c L1 1 =b\nend\n";

/// A nonce is used by endorsers before its client draws it, and a client that is never heard of asks nothing.
const EARLY: &str = "genesis 1,2,3\n\
    new c L1 =a\n\
    raw latest 1 L1 1\n\
    raw latest 2 L1 1\n\
    begin r latest c L1\n\
    offer r 1,2\n\
    end\n";

/// A request and a reply are lost, and two clients act in turn.
const LOST: &str = "genesis 1,2,3\n\
    new c L1 =a\n\
    lose request 2 1\n\
    lose reply 3 1\n\
    append d L1 1 =b\n\
    at c L1 0\n\
    end\n";

/// The record of a script whose texts don't collide.
fn record_of(alloc: Global, text: &str) -> Option<Record> {
    let Ok(script) = read(alloc, text.as_bytes()) else {
        return None;
    };
    let Ok(texts) = set_up_texts(alloc, &MacSeals, &script) else {
        return None;
    };
    match least_collision(alloc, &texts) {
        Ok(None) => {
            let mut sink = MemSink::new(alloc, Vec::new(alloc));
            replay(alloc, &script, &mut sink).ok()
        }
        _ => None,
    }
}

fn push_calls(alloc: Global, text: &mut Text, lines: &[CellLine]) -> Result<(), NoMemory> {
    for line in lines {
        push_number(alloc, text, line.stamp)?;
    }
    if !lines.is_empty() {
        text.push(b",")?;
    }
    Ok(())
}

fn push_acts(alloc: Global, text: &mut Text, lines: &[ClientLine]) -> Result<(), NoMemory> {
    for line in lines {
        push_number(alloc, text, line.stamp)?;
    }
    text.push(b",")
}

/// The stamps of each endorser that was asked anything, and behind a bar those of each client.
fn stamps_of(alloc: Global, record: &Record) -> Result<Text, NoMemory> {
    let mut text = Text::of(alloc, b"")?;
    for lines in record.cells.iter() {
        push_calls(alloc, &mut text, lines)?;
    }
    text.push(b" |")?;
    for lines in record.passes.iter() {
        push_acts(alloc, &mut text, lines)?;
    }
    Ok(text)
}

/// The stamps of what the endorsers 1, 2 and 3 did, and of what each client did, in the order in which it happened: two calls
/// to each endorser set up view 0; a draw, the calls and the check.
#[test]
fn records_have_all_that_happened(rt: HostRuntime) -> Result<(), Fail> {
    let alloc = rt.alloc();
    for (script, wanted) in [
        (FIRST_PATH, " 0 1 7 12, 2 3 8 13, 4 5 9 14, | 6 10 11 15,"),
        (EARLY, " 0 1 7 11, 2 3 8 12, 4 5 9, | 6 10 13 14,"),
        // The append isn't answered by a quorum, since only its client's endorser 1 was heard; endorser 3 took it all the same.
        (LOST, " 0 1 7 12, 2 3 8, 4 5 9 13, | 6 10 14, 11,"),
    ] {
        let record = record_of(alloc, script);
        assert!(rt; record.is_some(), "a record of {script}");
        if let Some(record) = record {
            assert_eq!(rt; record.roster.len(), 64);
            assert_eq!(rt; record.cells.len(), 64);
            assert_eq!(rt; record.genesis.members().len(), 3);
            let stamps = stamps_of(alloc, &record)?;
            assert!(rt; stamps.bytes() == wanted.as_bytes(), "stamps of {script}");
        }
    }
    Ok(())
}
