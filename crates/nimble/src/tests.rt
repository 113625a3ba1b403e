use crate::lines::exhibit_line;
use crate::replay::run_replay;
use crate::run::run;
use crate::status::Status;
use least_collision::{Digested, least_collision_among};
use nim_base::{Digest, NoMemory, Text};
use nim_outside::{Fault, MemSink, MemSource, Sink};
use std::alloc::Global;
use std::cell::RefCell;
use std::fmt::Display;
use std::io;
use std::test::Fail;

const FIRST_PATH: &[u8] = b"genesis 1,2,3\nnew c L1 =a\nappend c L1 1 =b\nend\n";

/// Standard error that keeps what it is told.
#[derive(Drop)]
struct Told {
    alloc: Global,
    lines: RefCell<Vec<u8>>,
}

impl Eprint for Told {
    fn eprint<D: Display + Drop>(&self, value: D) -> io::Result<()> {
        let text = format!(in self.alloc; "{value}")?;
        match self.lines.try_borrow_mut() {
            Ok(mut lines) => lines.extend_from_slice(text.as_bytes())?,
            Err(_) => return Err(io::Error::from(io::ErrorKind::Other)),
        }
        Ok(())
    }

    fn eprintln<D: Display + Drop>(&self, value: D) -> io::Result<()> {
        self.eprint(value)?;
        self.eprint("\n")
    }
}

fn list(alloc: Global, numbers: &[u64]) -> Result<Vec<u64>, NoMemory> {
    Ok(Vec::from_slice(alloc, numbers)?)
}

/// Which words, and what is written, told and answered then.
#[test]
fn words_that_are_no_command_are_usage(rt: HostRuntime) -> Result<(), Fail> {
    let alloc = rt.alloc();
    let usage = b"usage: nimble replay\n".as_slice();
    let done = b"view 0 1,2,3\nok L1 0 =a\nok L1 1 =b\n".as_slice();
    for (words, status, written, told) in [
        ([].as_slice(), 1, b"".as_slice(), usage),
        (&[b"replay".as_slice()], 0, done, b""),
        (&[b"Replay"], 1, b"", usage),
        (&[b"replay".as_slice(), b"replay"], 1, b"", usage),
        (&[b"--".as_slice(), b"replay"], 1, b"", usage),
        (&[b"-h".as_slice()], 1, b"", usage),
    ] {
        let mut given = Vec::new(alloc);
        for word in words {
            given.push(Text::of(alloc, word)?)?;
        }
        let mut source = MemSource::new(Text::of(alloc, FIRST_PATH)?, Vec::new(alloc));
        let mut sink = MemSink::new(alloc, Vec::new(alloc));
        let error = Told {
            alloc,
            lines: RefCell::new(Vec::new(alloc)),
        };
        let answer = run(&error, alloc, &given, &mut source, &mut sink);
        assert_eq!(rt; answer, Status(status));
        assert_eq!(rt; sink.bytes(), written);
        assert_eq!(rt; error.lines.into_inner().as_slice(), told);
    }
    Ok(())
}

/// The input, the reads and puts that fail, and what is written and answered then.
#[test]
fn faults_end_a_run(rt: HostRuntime) -> Result<(), Fail> {
    let alloc = rt.alloc();
    let all = b"view 0 1,2,3\nok L1 0 =a\nok L1 1 =b\n".as_slice();
    for (name, input, reads, puts, status, written) in [
        ("no fault", FIRST_PATH, [].as_slice(), [].as_slice(), 0, all),
        ("first read", FIRST_PATH, &[0], &[], 4, b""),
        ("last read", FIRST_PATH, &[1], &[], 4, b""),
        ("first put", FIRST_PATH, &[], &[0], 5, b""),
        ("second put", FIRST_PATH, &[], &[1], 5, b"view 0 1,2,3\n"),
        ("no put of that number", FIRST_PATH, &[], &[3], 0, all),
        ("bad script", b"foo\n", &[], &[], 2, b"badline 1 order\n"),
        ("bad script, put", b"foo\n", &[], &[0], 5, b""),
    ] {
        let mut source = MemSource::new(Text::of(alloc, input)?, list(alloc, reads)?);
        let mut sink = MemSink::new(alloc, list(alloc, puts)?);
        let answer = run_replay(alloc, &mut source, &mut sink);
        assert_eq!(rt; answer, Status(status), "{name}");
        assert_eq!(rt; sink.bytes(), written, "{name}");
    }
    Ok(())
}

/// A sink whose put of one number writes its first bytes, as many as are let through, and fails.
#[derive(Drop)]
struct Cut {
    written: Vec<u8>,
    puts: u64,
    failing: u64,
    through: usize,
    faults: u64,
}

impl Sink for Cut {
    ghost use Rattle.std.specs.Prelude.{None};

    ghost written = { λ _. None };

    ghost fault_count = { λ sink. sink.faults };

    fn faults(&self) -> u64 {
        self.faults
    }

    fn put(&mut self, bytes: &[u8]) -> Result<(), Fault> {
        let fails = self.puts == self.failing;
        self.puts = self.puts.saturating_add(1);
        let through = if fails {
            self.through.min(bytes.len())
        } else {
            bytes.len()
        };
        if self.written.extend_from_slice(&bytes[..through]).is_err() || fails {
            self.faults = self.faults.saturating_add(1);
            return Err(Fault);
        }
        Ok(())
    }
}

/// The put that fails, the bytes of it that are let through, and all that is written then.
#[test]
fn each_put_fails_in_turn(rt: HostRuntime) -> Result<(), Fail> {
    let alloc = rt.alloc();
    for (failing, through, written) in [
        (0, 0, b"".as_slice()),
        (0, 6, b"view 0"),
        (1, 0, b"view 0 1,2,3\n"),
        (1, 5, b"view 0 1,2,3\nok L1"),
        (2, 0, b"view 0 1,2,3\nok L1 0 =a\n"),
        (2, 10, b"view 0 1,2,3\nok L1 0 =a\nok L1 1 =b"),
    ] {
        let mut source = MemSource::new(Text::of(alloc, FIRST_PATH)?, Vec::new(alloc));
        let mut sink = Cut {
            written: Vec::new(alloc),
            puts: 0,
            failing,
            through,
            faults: 0,
        };
        let answer = run_replay(alloc, &mut source, &mut sink);
        assert_eq!(rt; answer, Status(5), "put {failing} after {through}");
        assert_eq!(rt;
            sink.written.as_slice(),
            written,
            "put {failing} after {through}"
        );
    }
    Ok(())
}

/// No two texts with one digest are known, so the digests here are made up.
#[test]
fn the_least_collision_is_shown(rt: HostRuntime) -> Result<(), Fail> {
    let alloc = rt.alloc();
    let mut given = Vec::new(alloc);
    for (digest, text) in [
        (7, b"west".as_slice()),
        (9, b"north"),
        (9, b"east"),
        (7, b"south"),
        (9, b"eas"),
        (8, b"a"),
        (8, b"a"),
    ] {
        given.push(Digested::given(Digest([digest; 32]), text))?;
    }
    let Some(collision) = least_collision_among(alloc, &given)? else {
        assert!(rt; false, "no collision is found");
        return Ok(());
    };
    let line = exhibit_line(alloc, collision.one, collision.other)?;
    assert_eq!(rt;
        line.bytes(),
        b"exhibit collision 656173 65617374\n".as_slice()
    );
    Ok(())
}
