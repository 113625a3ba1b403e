use crate::bad_scripts::refuses;
use fault_script::{Act, BadCause, Line, Script, ScriptFault, read};
use nim_base::{NoMemory, Text};
use std::alloc::Global;
use std::test::Fail;

/// One script with each kind of line, and each word at a limit of its own.
const EACH: &str = "genesis 1,2,3,4,5,6,7,8,9,10,11,12,13,14,64\n\
    new c abcdefghijklmnop =\n\
    append A_9 L1 1 =az09\n\
    append c L1 4294967295 =b\n\
    latest c L9\n\
    at c L1 0\n\
    at c L1 4294967295\n\
    begin a new c L2 =a\n\
    begin b append c L2 1 =b\n\
    begin d latest c L2\n\
    begin e latest c L2\n\
    begin f at c L2 0\n\
    step a 1\n\
    step a 1000\n\
    finish a\n\
    retry a\n\
    retry a\n\
    offer d 1,64\n\
    retry d\n\
    forge e 4294967296 2\n\
    begin g latest c L2\n\
    forge g 0 1\n\
    restart\n\
    retry b\n\
    retry f\n\
    lose request 1 1000\n\
    lose reply 64 1\n\
    store fail 1000\n\
    store hide L1 4294967295\n\
    store stale L1 0 4294967295\n\
    store fork L1 0\n\
    store honest\n\
    raw append 64 L1 1 = 4294967295\n\
    raw latest 1 L1 0\n\
    raw show 1 L1\n\
    end\n";

/// `genesis 1,2,3`, so many times a line, and `end`.
fn with_lines(alloc: Global, line: &[u8], times: usize) -> Result<Text, NoMemory> {
    let mut text = Text::of(alloc, b"genesis 1,2,3\n")?;
    for _ in 0..times {
        text.push(line)?;
    }
    text.push(b"end\n")?;
    Ok(text)
}

/// `genesis 1,2,3` and so many `new` lines, each second one begun.
fn with_ledgers(alloc: Global, ledgers: u64) -> Result<Text, NoMemory> {
    let mut text = Text::of(alloc, b"genesis 1,2,3\n")?;
    for place in 0..ledgers {
        let digits = place.to_string(alloc)?;
        if place % 2 == 0 {
            text.push(b"begin o")?;
            text.push(digits.as_bytes())?;
            text.push(b" ")?;
        }
        text.push(b"new c L")?;
        text.push(digits.as_bytes())?;
        text.push(b" =\n")?;
    }
    text.push(b"end\n")?;
    Ok(text)
}

#[test]
fn scripts_have_limits(rt: HostRuntime) -> Result<(), Fail> {
    let alloc = rt.alloc();
    let most = with_ledgers(alloc, 256)?;
    assert!(rt; read(alloc, most.bytes()).is_ok());
    let more = with_ledgers(alloc, 257)?;
    assert!(rt; refuses(alloc, more.bytes(), 258, BadCause::Many));

    let most = with_lines(alloc, b"restart\n", 65534)?;
    assert!(rt; read(alloc, most.bytes()).is_ok());
    let more = with_lines(alloc, b"restart\n", 65535)?;
    assert!(rt; refuses(alloc, more.bytes(), 65537, BadCause::Long));
    let worse = with_lines(alloc, b"\t\n", 65535)?;
    assert!(rt; refuses(alloc, worse.bytes(), 65537, BadCause::Long));
    Ok(())
}

/// `genesis 1,2,3`, a `new` line with so many letters, and `end`.
fn with_payload(alloc: Global, letters: usize) -> Result<Text, NoMemory> {
    let mut text = Text::of(alloc, b"genesis 1,2,3\nnew c L1 =")?;
    for _ in 0..letters {
        text.push(b"a")?;
    }
    text.push(b"\nend\n")?;
    Ok(text)
}

#[test]
fn payloads_have_a_limit(rt: HostRuntime) -> Result<(), Fail> {
    let alloc = rt.alloc();
    let most = with_payload(alloc, 65536)?;
    assert!(rt; read(alloc, most.bytes()).is_ok());
    let more = with_payload(alloc, 65537)?;
    assert!(rt; refuses(alloc, more.bytes(), 2, BadCause::Payload));
    Ok(())
}

/// A text of so many bytes: 74,896 lines are too many, so each line is long.
fn with_bytes(alloc: Global, bytes: usize) -> Result<Text, NoMemory> {
    let mut text = Text::of(alloc, b"genesis 1,2,3\n")?;
    for _ in 0..16 {
        text.push(b"append c L1 1 =")?;
        for _ in 0..65500 {
            text.push(b"a")?;
        }
        text.push(b"\n")?;
    }
    text.push(b"append c L1 1 =")?;
    let used = text.bytes().len() + 4;
    for _ in used..bytes {
        text.push(b"a")?;
    }
    text.push(b"\nend")?;
    Ok(text)
}

#[test]
fn texts_have_a_limit(rt: HostRuntime) -> Result<(), Fail> {
    let alloc = rt.alloc();
    let mut most = with_bytes(alloc, 1048576)?;
    assert_eq!(rt; most.bytes().len(), 1048576);
    let script = read(alloc, most.bytes())?;
    assert_eq!(rt; script.lines().len(), 19);
    assert!(rt; script.write(alloc)?.bytes() == most.bytes());
    most.push(b"\n")?;
    assert!(rt; refuses(alloc, most.bytes(), 0, BadCause::Long));
    let worse = with_lines(alloc, b"\t\t\t\t\t\t\t\t\t\t\t\t\t\t\t\t\n", 65535)?;
    assert!(rt; refuses(alloc, worse.bytes(), 0, BadCause::Long));
    Ok(())
}

/// What a text that is a script is written as.
fn written(alloc: Global, text: &str) -> Result<Text, ScriptFault> {
    let script = read(alloc, text.as_bytes())?;
    Ok(script.write(alloc)?)
}

#[test]
fn scripts_are_written_as_they_were_read(rt: HostRuntime) -> Result<(), Fail> {
    let alloc = rt.alloc();
    for (text, whole) in [
        (EACH, EACH),
        ("genesis 64\nend\n", "genesis 64\nend\n"),
        ("genesis 64\nend", "genesis 64\nend\n"),
    ] {
        assert!(rt; written(alloc, text)?.bytes() == whole.as_bytes());
    }
    Ok(())
}

fn is_plain(alloc: Global, text: &str) -> Result<bool, ScriptFault> {
    Ok(read(alloc, text.as_bytes())?.is_plain())
}

#[test]
fn plain_scripts_have_plain_lines(rt: HostRuntime) -> Result<(), Fail> {
    let alloc = rt.alloc();
    for (text, plain) in [
        (EACH, false),
        ("genesis 1\nend", true),
        (
            "genesis 1\nnew c L =\nappend c L 1 =\nlatest c L\nat c L 0\nrestart\nend",
            true,
        ),
        ("genesis 1\nbegin o latest c L\nend", false),
        ("genesis 1\nstore honest\nend", false),
        ("genesis 1\nlose reply 1 1\nend", false),
        ("genesis 1\nraw show 1 L\nend", false),
    ] {
        assert_eq!(rt; is_plain(alloc, text)?, plain);
    }
    Ok(())
}

fn is_append(line: Option<&Line>) -> bool {
    match line {
        Some(
            Line::Plain {
                act: Act::Append {
                    client,
                    label,
                    height,
                    payload,
                },
            },
        ) => {
            client.bytes() == b"A_9".as_slice()
                && label.bytes() == b"L1".as_slice()
                && *height == 1
                && payload.bytes() == b"az09".as_slice()
        }
        _ => false,
    }
}

fn is_forge(line: Option<&Line>) -> bool {
    match line {
        Some(Line::Forge { op, count, ids }) => {
            op.bytes() == b"e".as_slice()
                && *count == 4294967296
                && ids.as_slice() == [2].as_slice()
        }
        _ => false,
    }
}

fn is_raw_append(line: Option<&Line>) -> bool {
    match line {
        Some(
            Line::RawAppend {
                id,
                label,
                height,
                payload,
                nonce,
            },
        ) => {
            *id == 64
                && label.bytes() == b"L1".as_slice()
                && *height == 1
                && payload.bytes().is_empty()
                && *nonce == 4294967295
        }
        _ => false,
    }
}

fn each(alloc: Global) -> Result<Script, ScriptFault> {
    read(alloc, EACH.as_bytes())
}

#[test]
fn lines_have_their_words(rt: HostRuntime) -> Result<(), Fail> {
    let script = each(rt.alloc())?;
    let lines = script.lines();
    assert_eq!(rt; lines.len(), 36);
    assert!(rt; is_append(lines.get(2)));
    assert!(rt; is_forge(lines.get(19)));
    assert!(rt; is_raw_append(lines.get(32)));
    assert!(rt; matches!(lines.last(), Some(Line::End)));
    Ok(())
}
