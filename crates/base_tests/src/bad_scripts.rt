use fault_script::{BadCause, ScriptFault, read};
use nim_base::{NoMemory, Text};
use std::alloc::Global;
use std::test::Fail;

/// Lines with a byte that no line has.
const CHARS: &[&str] = &[
    "restart\t",
    "restart\r",
    "new c L1 =\u{7f}",
    "new c L1 =\u{e9}",
];

/// Lines that begin as none does.
const WORDS: &[&str] = &[
    "",
    " ",
    "~",
    "foo",
    "New c L1 =a",
    "endx",
    "lose",
    "lose calls 1 1",
    "store",
    "store forge L1 1",
    "raw",
    "raw views 1 1",
    "begin",
    "begin o",
    "begin o step p 1",
    "begin o begin p latest c L1",
    "begin o restart",
    "reconfigure",
    "reconfigure 4,5,6",
    "begin o reconfigure 4,5,6",
    "raw finalize 1 4,5,6",
];

/// Lines with a word too few or too many.
const COUNTS: &[&str] = &[
    "new c L1",
    "new c L1 =a b",
    "new 1 1",
    "append c L1 1",
    "append c L1 1 =a b",
    "latest c",
    "latest c L1 0",
    "at c L1",
    "at c L1 0 0",
    "restart 1",
    "begin o new c L1",
    "begin o append c L1 1 =a b",
    "begin 1 latest c",
    "step o",
    "step o 1 1",
    "finish",
    "finish o p",
    "retry",
    "retry o p",
    "lose request 1",
    "lose request 1 1 1",
    "lose reply 1",
    "lose reply 1 1 1",
    "store fail",
    "store fail 1 1",
    "store hide L1",
    "store hide L1 1 1",
    "store stale L1 1",
    "store stale L1 1 1 1",
    "store fork L1",
    "store fork L1 1 1",
    "store honest 1",
    "raw append 1 L1 1 =a",
    "raw append 1 L1 1 =a 1 1",
    "raw latest 1 L1",
    "raw latest 1 L1 1 1",
    "raw show 1",
    "raw show 1 L1 1",
    "offer o",
    "offer o 1 1",
    "forge o 1",
    "forge o 1 1 1",
    "end end",
    "end ",
    "restart ",
];

/// Lines whose first bad word should be a name.
const NAMES: &[&str] = &[
    "new 1 L1 =a",
    "new c _L =a",
    "new c abcdefghijklmnopq =a",
    "new c L-1 =a",
    "new  L1 a",
    "append 1 L1 0 a",
    "append c 1 0 a",
    "latest 1 L1",
    "latest c 1",
    "at 9 L1 x",
    "at c 9 x",
    "begin 1 latest c L1",
    "begin o new 1 L1 =a",
    "begin o new c 1 =a",
    "begin o append 1 L1 1 =a",
    "begin o latest c 1",
    "begin o at c 1 0",
    "step 1 0",
    "finish 1",
    "retry 1",
    "store hide 1 x",
    "store stale 1 x x",
    "store fork 1 x",
    "raw append 1 1 0 a x",
    "raw latest 1 1 x",
    "raw show 1 1",
    "offer 1 0",
    "forge 1 x 0",
];

/// Lines whose first bad word should be a number.
const NUMBERS: &[&str] = &[
    "append c L1 0 =a",
    "append c L1 01 =a",
    "append c L1 x =a",
    "append c L1  =a",
    "append c L1 -1 =a",
    "append c L1 +1 =a",
    "append c L1 4294967296 =a",
    "append c L1 99999999999999999999 =a",
    "append c L1 0 a",
    "at c L1 4294967296",
    "at c L1 00",
    "begin o append c L1 0 =a",
    "begin o at c L1 4294967296",
    "step o 0",
    "step o 1001",
    "lose request 0 1",
    "lose request 65 1",
    "lose request 1 0",
    "lose request 1 1001",
    "lose reply 0 1",
    "lose reply 65 1",
    "lose reply 1 0",
    "lose reply 1 1001",
    "lose request x x",
    "store fail 0",
    "store fail 1001",
    "store hide L1 4294967296",
    "store stale L1 4294967296 0",
    "store stale L1 0 4294967296",
    "store fork L1 4294967296",
    "raw append 0 1 1 =a 1",
    "raw append 65 L1 1 =a 1",
    "raw append 1 L1 0 =a 1",
    "raw append 1 L1 4294967296 =a 1",
    "raw append 1 L1 1 =a 4294967296",
    "raw latest 65 L1 0",
    "raw latest 1 L1 4294967296",
    "raw show 0 L1",
    "raw show 65 L1",
    "forge o 4294967297 1",
    "forge o -1 0",
];

/// Lines whose first bad word should be ids.
const LISTS: &[&str] = &[
    "offer o 0",
    "offer o 65",
    "offer o 2,1",
    "offer o 1,1",
    "offer o 1,",
    "offer o ,1",
    "offer o 1,,2",
    "offer o 01",
    "offer o ",
    "offer o 1,2,3,4,5,6,7,8,9,10,11,12,13,14,15,16",
    "forge o 0 0",
    "forge o 4294967296 2,2",
];

/// Lines whose first bad word should be a payload.
const PAYLOADS: &[&str] = &[
    "new c L1 a",
    "new c L1 =A",
    "new c L1 ==",
    "new c L1 =a_b",
    "new c L1 ",
    "append c L1 1 a",
    "begin o new c L1 a",
    "begin o append c L1 1 a",
    "raw append 1 L1 1 a x",
];

/// A line that has a label, and one that makes it.
const LABELS: &[(&str, &str)] = &[
    ("new c L1 =\n", "new d L1 ="),
    ("append c L1 1 =\n", "new d L1 ="),
    ("latest c L1\n", "new d L1 ="),
    ("at c L1 0\n", "new d L1 ="),
    ("begin o new c L1 =\n", "new d L1 ="),
    ("begin o append c L1 1 =\n", "new d L1 ="),
    ("begin o latest c L1\n", "new d L1 ="),
    ("begin o at c L1 0\n", "new d L1 ="),
    ("store hide L1 0\n", "new d L1 ="),
    ("store stale L1 0 0\n", "new d L1 ="),
    ("store fork L1 0\n", "new d L1 ="),
    ("raw append 1 L1 1 = 0\n", "new d L1 ="),
    ("raw latest 1 L1 0\n", "new d L1 ="),
    ("raw show 1 L1\n", "new d L1 ="),
    ("new c L1 =\n", "begin p new d L1 ="),
    ("append c L1 1 =\n", "begin p new d L1 ="),
    ("begin o new c L1 =\n", "begin o new d L1 ="),
];

/// Lines about an operation that no line began.
const UNBEGUN: &[&str] = &[
    "step o 1",
    "finish o",
    "retry o",
    "offer o 1",
    "forge o 1 1",
];

/// A line that begins an operation, and one that wants another standing.
const BEGUN: &[(&str, &str)] = &[
    ("begin o latest c L1\n", "begin o at c L1 0"),
    ("begin o latest c L1\n", "retry o"),
    ("begin o latest c L1\n", "step p 1"),
    ("begin o new c L1 =\n", "offer o 1"),
    ("begin o at c L1 0\n", "offer o 1"),
    ("begin o at c L1 0\n", "forge o 0 1"),
    ("restart\n", "finish o"),
];

/// Two lines that begin and close one, and one that wants another standing.
const ENDED: &[(&str, &str)] = &[
    ("begin o latest c L1\nfinish o\n", "begin o latest c L1"),
    ("begin o latest c L1\nfinish o\n", "step o 1"),
    ("begin o latest c L1\nfinish o\n", "finish o"),
    ("begin o latest c L1\nfinish o\n", "offer o 1"),
    ("begin o latest c L1\nfinish o\n", "forge o 0 1"),
    ("begin o latest c L1\noffer o 1\n", "begin o latest c L1"),
    ("begin o latest c L1\noffer o 1\n", "step o 1"),
    ("begin o latest c L1\noffer o 1\n", "finish o"),
    ("begin o latest c L1\noffer o 1\n", "offer o 1"),
    ("begin o latest c L1\noffer o 1\n", "forge o 0 1"),
    ("begin o latest c L1\nforge o 0 1\n", "begin o latest c L1"),
    ("begin o latest c L1\nforge o 0 1\n", "step o 1"),
    ("begin o latest c L1\nforge o 0 1\n", "finish o"),
    ("begin o latest c L1\nforge o 0 1\n", "offer o 1"),
    ("begin o latest c L1\nforge o 0 1\n", "forge o 0 1"),
    ("begin o latest c L1\nrestart\n", "begin o latest c L1"),
    ("begin o latest c L1\nrestart\n", "step o 1"),
    ("begin o latest c L1\nrestart\n", "finish o"),
    ("begin o latest c L1\nrestart\n", "offer o 1"),
    ("begin o latest c L1\nrestart\n", "forge o 0 1"),
];

/// Whole texts, with the number of the bad line and its cause.
const TEXTS: &[(&str, u64, BadCause)] = &[
    ("", 1, BadCause::End),
    ("\n", 1, BadCause::Order),
    ("new c L1 =a\nend\n", 1, BadCause::Order),
    ("genesisx 1\nend\n", 1, BadCause::Order),
    (" genesis 1\nend\n", 1, BadCause::Order),
    ("end\n", 1, BadCause::Order),
    ("new c L1 =\t\nend\n", 1, BadCause::Char),
    ("genesis 1\r\nend\n", 1, BadCause::Char),
    ("genesis\nend\n", 1, BadCause::Count),
    ("genesis 1 2\nend\n", 1, BadCause::Count),
    ("genesis  1\nend\n", 1, BadCause::Count),
    ("genesis 0\nend\n", 1, BadCause::Ids),
    ("genesis 65\nend\n", 1, BadCause::Ids),
    ("genesis 1,3,2\nend\n", 1, BadCause::Ids),
    (
        "genesis 1,2,3,4,5,6,7,8,9,10,11,12,13,14,15,16\nend\n",
        1,
        BadCause::Ids,
    ),
    ("genesis 1,2,3", 2, BadCause::End),
    ("genesis 1,2,3\n", 2, BadCause::End),
    ("genesis 1,2,3\nrestart", 3, BadCause::End),
    ("genesis 1,2,3\nrestar", 2, BadCause::Word),
    ("genesis 1,2,3\ngenesis 1,2,3\nend\n", 2, BadCause::Order),
    ("genesis 1,2,3\nend\n\n", 3, BadCause::Order),
    ("genesis 1,2,3\nend\nend\n", 3, BadCause::Order),
    ("genesis 1,2,3\nend\nfoo", 3, BadCause::Order),
    ("genesis 1,2,3\nend\n\t", 3, BadCause::Char),
    ("genesis 1,2,3\nnew c L1 =a\nfoo\nend\n", 3, BadCause::Word),
    (
        "genesis 1,2,3\nnew c L1 =a\nappend c L1 1 =b\n",
        4,
        BadCause::End,
    ),
];

/// Whether a text is bad at this line, with this cause.
pub fn refuses(alloc: Global, text: &[u8], number: u64, cause: BadCause) -> bool {
    match read(alloc, text) {
        Ok(_) => false,
        Err(fault) => fault == ScriptFault::BadLine { number, cause },
    }
}

/// Whether a line behind `genesis 1,2,3` and these lines has the number and the cause.
fn is_refused(
    alloc: Global,
    before: &str,
    line: &str,
    number: u64,
    cause: BadCause,
) -> Result<bool, NoMemory> {
    let mut text = Text::of(alloc, b"genesis 1,2,3\n")?;
    text.push(before.as_bytes())?;
    text.push(line.as_bytes())?;
    text.push(b"\nend\n")?;
    Ok(refuses(alloc, text.bytes(), number, cause))
}

fn are_refused(alloc: Global, lines: &[&str], cause: BadCause) -> Result<bool, NoMemory> {
    for line in lines {
        if !is_refused(alloc, "", line, 2, cause)? {
            return Ok(false);
        }
    }
    Ok(true)
}

fn are_refused_behind(
    alloc: Global,
    table: &[(&str, &str)],
    number: u64,
    cause: BadCause,
) -> Result<bool, NoMemory> {
    for (before, line) in table {
        if !is_refused(alloc, before, line, number, cause)? {
            return Ok(false);
        }
    }
    Ok(true)
}

#[test]
fn bad_lines_have_their_first_cause(rt: HostRuntime) -> Result<(), Fail> {
    let alloc = rt.alloc();
    assert!(rt; are_refused(alloc, CHARS, BadCause::Char)?);
    assert!(rt; are_refused(alloc, WORDS, BadCause::Word)?);
    assert!(rt; are_refused(alloc, COUNTS, BadCause::Count)?);
    assert!(rt; are_refused(alloc, NAMES, BadCause::Name)?);
    assert!(rt; are_refused(alloc, NUMBERS, BadCause::Number)?);
    assert!(rt; are_refused(alloc, LISTS, BadCause::Ids)?);
    assert!(rt; are_refused(alloc, PAYLOADS, BadCause::Payload)?);
    Ok(())
}

#[test]
fn bad_lines_depend_on_those_before(rt: HostRuntime) -> Result<(), Fail> {
    let alloc = rt.alloc();
    assert!(rt; are_refused_behind(alloc, LABELS, 3, BadCause::Label)?);
    assert!(rt; are_refused(alloc, UNBEGUN, BadCause::Op)?);
    assert!(rt; are_refused_behind(alloc, BEGUN, 3, BadCause::Op)?);
    assert!(rt; are_refused_behind(alloc, ENDED, 4, BadCause::Op)?);
    Ok(())
}

#[test]
fn bad_texts_have_their_first_bad_line(rt: HostRuntime) {
    for (text, number, cause) in TEXTS {
        assert!(rt; refuses(rt.alloc(), text.as_bytes(), *number, *cause));
    }
}
