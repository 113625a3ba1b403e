use chain_block::{Entry, MetaBlock};
use nim_base::{Digest, NoMemory, Nonce, Text};
use port::{
    EndorserAnswer, EndorserRefusal, Key, Phase, ProofCause, Reason, Refusal, Row, Standing,
};
use reply_lines::{
    absent_line, bad_reply_line, conflict_line, done_line, gap_line, no_reply_line, ok_line,
    raw_line, refusal_line, reused_line, view_line,
};
use statement::{Receipt, Statement};
use std::alloc::Global;
use std::test::Fail;
use tail_map::TailMap;
use verifier::ReplyFault;
use view_ledger::ReceiptFault;

/// All lines that were printed.
#[derive(Drop)]
struct Printed {
    alloc: Global,
    text: Text,
}

impl Printed {
    fn new(alloc: Global) -> Result<Printed, NoMemory> {
        Ok(Printed {
            alloc,
            text: Text::of(alloc, b"")?,
        })
    }

    fn print(&mut self, line: Text) -> Result<(), NoMemory> {
        self.text.push(line.bytes())
    }

    fn refuse(&mut self, refusal: Refusal) -> Result<(), NoMemory> {
        let line = refusal_line(self.alloc, b"L1", &refusal)?;
        self.print(line)
    }

    fn answer(&mut self, answer: EndorserAnswer) -> Result<(), NoMemory> {
        let line = raw_line(self.alloc, &answer)?;
        self.print(line)
    }

    fn deny(&mut self, refusal: EndorserRefusal) -> Result<(), NoMemory> {
        self.answer(EndorserAnswer::Refused(refusal))
    }
}

const ZERO: Digest = Digest::ZERO;

fn no_text(alloc: Global) -> Result<Text, NoMemory> {
    Text::of(alloc, b"")
}

fn held(count: u64) -> Statement {
    Statement::Held {
        view: ZERO,
        handle: ZERO,
        tail: ZERO,
        count,
    }
}

fn latest(count: u64) -> Statement {
    Statement::Latest {
        view: ZERO,
        handle: ZERO,
        tail: ZERO,
        count,
        nonce: Nonce([0; 16]),
    }
}

const TAKEN: &str =
    "view 0 1\nview 12 1,20,64\nok L1 0 =\nok L1 4294967295 =az09\nabsent L9\nconflict L1 1 =b\ngap L1 2\nreused 3\nnoreply\ndone o\n";

#[test]
fn what_was_taken_is_printed(rt: HostRuntime) -> Result<(), Fail> {
    let alloc = rt.alloc();
    let mut printed = Printed::new(alloc)?;
    printed.print(view_line(alloc, 0, &[1])?)?;
    printed.print(view_line(alloc, 12, &[1, 20, 64])?)?;
    printed.print(ok_line(alloc, b"L1", 0, b"")?)?;
    printed.print(ok_line(alloc, b"L1", 4_294_967_295, b"az09")?)?;
    printed.print(absent_line(alloc, b"L9")?)?;
    printed.print(conflict_line(alloc, b"L1", 1, b"b")?)?;
    printed.print(gap_line(alloc, b"L1", 2)?)?;
    printed.print(reused_line(alloc, 3)?)?;
    printed.print(no_reply_line(alloc)?)?;
    printed.print(done_line(alloc, b"o")?)?;
    assert_eq!(rt; printed.text.bytes(), TAKEN.as_bytes());
    Ok(())
}

const FAULTS: &str =
    "badreply wrongkind\nbadreply unknownview\nbadreply wronghandle\nbadreply wrongheight\nbadreply wrongnonce\nbadreply wrongentry\nbadreply wrongtail\nbadreply badreceipt\n";

#[test]
fn faults_of_replies_are_printed(rt: HostRuntime) -> Result<(), Fail> {
    let alloc = rt.alloc();
    let mut printed = Printed::new(alloc)?;
    for fault in [
        ReplyFault::WrongKind,
        ReplyFault::UnknownView,
        ReplyFault::WrongHandle,
        ReplyFault::WrongHeight,
        ReplyFault::WrongNonce,
        ReplyFault::WrongEntry,
        ReplyFault::WrongTail,
        ReplyFault::BadReceipt {
            cause: ReceiptFault::NotMember { id: 4 },
        },
    ] {
        printed.print(bad_reply_line(alloc, fault)?)?;
    }
    assert_eq!(rt; printed.text.bytes(), FAULTS.as_bytes());
    Ok(())
}

const CAUSES: &str =
    "conflict L1 0 =b\ngap L1 2\nviewmoved 3\nstorefault\nbadrow L1 7\nbadview 1\nbadfinals 2\ncontended 2 1 5\nfull\ntoofar 65537\nreused 3\n";

fn standing(alloc: Global) -> Result<Standing, NoMemory> {
    let entry = Entry::Genesis {
        nonce: Nonce([0; 16]),
        payload: Text::of(alloc, b"b")?,
    };
    let metablock = MetaBlock {
        prev: ZERO,
        entry: entry.entry_digest(),
        height: 0,
    };
    Ok(Standing {
        row: Row { entry, metablock },
        chain: Vec::new(alloc),
        receipt: Receipt {
            statement: held(1),
            marks: Vec::new(alloc),
        },
    })
}

fn bad(key: Key) -> Refusal {
    Refusal::BadRow { key, bytes: None }
}

#[test]
fn causes_are_printed(rt: HostRuntime) -> Result<(), Fail> {
    let alloc = rt.alloc();
    let mut printed = Printed::new(alloc)?;
    let standing = standing(alloc)?;
    printed.refuse(Refusal::Conflict { standing })?;
    printed.refuse(Refusal::Gap {
        handle: ZERO,
        missing: 2,
    })?;
    printed.refuse(Refusal::ViewMoved {
        from: 3,
        id: 1,
        statement: held(1),
        sig: no_text(alloc)?,
    })?;
    printed.refuse(Refusal::StoreFault)?;
    printed.refuse(bad(Key::Row {
        handle: ZERO,
        height: 7,
    }))?;
    printed.refuse(bad(Key::View { number: 1 }))?;
    printed.refuse(bad(Key::Finals { number: 2 }))?;
    printed.refuse(Refusal::Contended {
        member: 2,
        first: 1,
        later: 5,
    })?;
    printed.refuse(Refusal::Full { member: 1 })?;
    printed.refuse(Refusal::TooFar { needed: 65_537 })?;
    printed.refuse(Refusal::Reused { id: 3 })?;
    assert_eq!(rt; printed.text.bytes(), CAUSES.as_bytes());
    assert!(rt; refusal_line(alloc, b"L1", &Refusal::NoMemory).is_err());
    Ok(())
}

const REASONS: &str = "noquorum 1\nnoquorum 3 3:lost 5:other 64:spent\n";

#[test]
fn reasons_are_printed_by_ids(rt: HostRuntime) -> Result<(), Fail> {
    let alloc = rt.alloc();
    let mut printed = Printed::new(alloc)?;
    printed.refuse(Refusal::NoQuorum {
        need: 1,
        reasons: Vec::new(alloc),
    })?;
    let mut reasons = Vec::new(alloc);
    reasons.push((3, Reason::Lost))?;
    reasons.push((
        5,
        Reason::Other {
            count: 2,
            tail: ZERO,
        },
    ))?;
    let refusal = EndorserRefusal::Spent;
    reasons.push((64, Reason::Refused { refusal }))?;
    printed.refuse(Refusal::NoQuorum { need: 3, reasons })?;
    assert_eq!(rt; printed.text.bytes(), REASONS.as_bytes());
    Ok(())
}

const ANSWERS: &str =
    "raw done\nraw signed 4294967296\nraw signed 2\nraw finaled\nraw shown uninitialized 0\nraw shown initialized 1\nraw shown active 2\nraw shown finalized 3\n";

#[test]
fn answers_are_printed(rt: HostRuntime) -> Result<(), Fail> {
    let alloc = rt.alloc();
    let mut printed = Printed::new(alloc)?;
    printed.answer(EndorserAnswer::Done)?;
    printed.answer(EndorserAnswer::Signed {
        statement: held(4_294_967_296),
        sig: no_text(alloc)?,
    })?;
    printed.answer(EndorserAnswer::Signed {
        statement: latest(2),
        sig: no_text(alloc)?,
    })?;
    printed.answer(EndorserAnswer::Finaled {
        statement: held(9),
        sig: no_text(alloc)?,
        map: TailMap::new(alloc),
    })?;
    for (phase, count) in [
        (Phase::Uninitialized, 0),
        (Phase::Initialized, 1),
        (Phase::Active, 2),
        (Phase::Finalized, 3),
    ] {
        printed.answer(EndorserAnswer::Shown {
            phase,
            number: 5,
            tail: ZERO,
            count,
        })?;
    }
    assert_eq!(rt; printed.text.bytes(), ANSWERS.as_bytes());
    Ok(())
}

const DENIALS: &str =
    "raw behind\nraw stands\nraw othertail\nraw notgenesis\nraw full\nraw tall\nraw notmember\nraw badview\nraw badproof\nraw wrongphase\nraw finalized\nraw othernext\nraw spent\nraw logfull\n";

#[test]
fn refusals_of_endorsers_are_printed(rt: HostRuntime) -> Result<(), Fail> {
    let alloc = rt.alloc();
    let mut printed = Printed::new(alloc)?;
    printed.deny(EndorserRefusal::Behind { count: 1 })?;
    printed.deny(EndorserRefusal::Stands {
        count: 1,
        tail: ZERO,
    })?;
    printed.deny(EndorserRefusal::OtherTail { tail: ZERO })?;
    printed.deny(EndorserRefusal::NotGenesis)?;
    printed.deny(EndorserRefusal::Full)?;
    printed.deny(EndorserRefusal::Tall)?;
    printed.deny(EndorserRefusal::NotMember)?;
    printed.deny(EndorserRefusal::BadView)?;
    printed.deny(EndorserRefusal::BadProof {
        cause: ProofCause::First,
    })?;
    printed.deny(EndorserRefusal::WrongPhase {
        phase: Phase::Active,
    })?;
    printed.deny(EndorserRefusal::Finalized {
        statement: held(1),
        sig: no_text(alloc)?,
    })?;
    printed.deny(EndorserRefusal::OtherNext { next: ZERO })?;
    printed.deny(EndorserRefusal::Spent)?;
    printed.deny(EndorserRefusal::LogFull)?;
    assert_eq!(rt; printed.text.bytes(), DENIALS.as_bytes());
    Ok(())
}
