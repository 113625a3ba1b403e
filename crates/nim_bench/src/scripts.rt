use crate::round::{Round, Size, no_memory, show};
use fault_script::read;
use nim_base::Text;
use std::alloc::Global;
use std::collections::BTreeSet;
use std::io;
use std::rt::Clock as Timer;
use std::time::Instant;

/// Reads of a script of 1,000 lines, and of the longest one, each line with a label of its own, beside
/// the same text split into words, each copied, and a set of the labels.
pub fn measure<R: Timer + Print>(rt: &R, alloc: Global, size: Size) -> io::Result<()> {
    let (short, long) = match size {
        Size::Small => (3, 1),
        Size::Long => (1_000, 20),
    };
    measure_lines(rt, alloc, size, 1_000, short)?;
    measure_lines(rt, alloc, size, 65_536, long)
}

/// A script of so many lines, of 16 bytes each but for the first and the last one.
fn script(alloc: Global, lines: u64) -> io::Result<Text> {
    let mut text = Text::of(alloc, b"genesis 1,2,3\n").map_err(no_memory)?;
    for line in 2..lines {
        let digits = line.saturating_add(10_000).to_string(alloc)?;
        text.push(b"latest c L").map_err(no_memory)?;
        text.push(digits.as_bytes()).map_err(no_memory)?;
        text.push(b"\n").map_err(no_memory)?;
    }
    text.push(b"end\n").map_err(no_memory)?;
    Ok(text)
}

fn measure_lines<R: Timer + Print>(
    rt: &R,
    alloc: Global,
    size: Size,
    lines: u64,
    calls: u64,
) -> io::Result<()> {
    let text = script(alloc, lines)?;
    let work = timed_reads(rt, alloc, text.bytes(), calls)?;
    let floor = timed_least(rt, alloc, text.bytes(), calls)?;
    show(
        rt,
        size,
        ("lines", lines),
        ("scripts", &work),
        ("copies of words and a set of labels", &floor),
    )
}

fn timed_reads<R: Timer>(rt: &R, alloc: Global, text: &[u8], calls: u64) -> io::Result<Round> {
    let begin = Instant::now(rt)?;
    let sum = reads(alloc, text, calls);
    let time = begin.elapsed(rt)?;
    Ok(Round { calls, sum, time })
}

fn timed_least<R: Timer>(rt: &R, alloc: Global, text: &[u8], calls: u64) -> io::Result<Round> {
    let begin = Instant::now(rt)?;
    let sum = least(alloc, text, calls)?;
    let time = begin.elapsed(rt)?;
    Ok(Round { calls, sum, time })
}

/// How many lines were read.
fn reads(alloc: Global, text: &[u8], calls: u64) -> u64 {
    let mut lines = 0u64;
    for _ in 0..calls {
        if let Ok(script) = read(alloc, text) {
            lines = lines.wrapping_add(script.lines().len() as u64);
        }
    }
    lines
}

/// How many words were copied and how many labels were kept.
fn least(alloc: Global, text: &[u8], calls: u64) -> io::Result<u64> {
    let mut kept = 0u64;
    for _ in 0..calls {
        let mut words = Vec::new(alloc);
        let mut labels = BTreeSet::new(alloc);
        for line in text.split(|b| *b == b'\n') {
            copy_words(alloc, line, &mut words, &mut labels)?;
        }
        kept = kept.wrapping_add(words.len() as u64);
        kept = kept.wrapping_add(labels.len() as u64);
    }
    Ok(kept)
}

fn copy_words(
    alloc: Global,
    line: &[u8],
    words: &mut Vec<Vec<u8>>,
    labels: &mut BTreeSet<Vec<u8>>,
) -> io::Result<()> {
    for word in line.split(|b| *b == b' ') {
        words.push(Vec::from_slice(alloc, word)?)?;
    }
    if let Some(label) = words.last() {
        let _ = labels.insert(Vec::from_slice(alloc, label)?)?;
    }
    Ok(())
}
