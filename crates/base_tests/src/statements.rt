ghost use Rattle.std.specs.Prelude.{IfOk};
ghost use Rattle.statement.specs.Mark.{AreMarks};

use crate::hexadecimal::bytes;
use nim_base::{Digest, FormFault, NoMemory, Nonce, Text};
use statement::{Config, ConfigFault, Mark, Member, Receipt, Statement, ViewBlock};
use std::alloc::Global;
use std::test::Fail;

// The bytes and digests below were worked out with Python's struct and hashlib, by the forms that the
// crate's pages give.

const NUMBER: &str = "fffffffffffffffe";

const COUNT: &str = "0000000000000000";

/// Digests of 32 equal bytes.
const ONES: &str = "0101010101010101010101010101010101010101010101010101010101010101";

const TWOS: &str = "0202020202020202020202020202020202020202020202020202020202020202";

const THREES: &str = "0303030303030303030303030303030303030303030303030303030303030303";

const FOURS: &str = "0404040404040404040404040404040404040404040404040404040404040404";

const FIVES: &str = "0505050505050505050505050505050505050505050505050505050505050505";

/// The config of the members 1, 2 and 01020304 in hexadecimal, whose keys are the digests of ones, twos
/// and threes.
const CONFIG: &[&str] = &[
    "1203", "00000001", ONES, "00000002", TWOS, "01020304", THREES,
];

const CONFIG_DIGEST: &str = "c3d35e28e4ec2188e1d99710c3b0ba8c8340d24275b1778d5821bc04a5fa170b";

/// View block 0 over that config, and its digest.
const BLOCK: &[&str] = &["11", ZEROS, CONFIG_DIGEST, "0000000000000000"];

const BLOCK_DIGEST: &str = "6f33652f797e19ee49bfe390c7f8e1672ae5bf1256811b55d3b80d4aac52381d";

const ZEROS: &str = "0000000000000000000000000000000000000000000000000000000000000000";

const HELD: &[&str] = &["20", ONES, TWOS, THREES, "0102030405060708"];

const LATEST: &[&str] = &[
    "21",
    ONES,
    TWOS,
    THREES,
    "ffffffffffffffff",
    "07070707070707070707070707070707",
];

const FINAL: &[&str] = &["22", ONES, FOURS, FIVES];

fn members() -> [Member; 3] {
    [
        Member {
            id: 1,
            key: Digest([1; 32]),
        },
        Member {
            id: 2,
            key: Digest([2; 32]),
        },
        Member {
            id: 0x01020304,
            key: Digest([3; 32]),
        },
    ]
}

fn three(alloc: Global) -> Result<Config, NoMemory> {
    match Config::of(alloc, &members()) {
        Ok(config) => Ok(config),
        Err(_) => Err(NoMemory),
    }
}

fn held() -> Statement {
    Statement::Held {
        view: Digest([1; 32]),
        handle: Digest([2; 32]),
        tail: Digest([3; 32]),
        count: 0x0102030405060708,
    }
}

fn latest() -> Statement {
    Statement::Latest {
        view: Digest([1; 32]),
        handle: Digest([2; 32]),
        tail: Digest([3; 32]),
        count: u64::MAX,
        nonce: Nonce([7; 16]),
    }
}

fn last() -> Statement {
    Statement::Final {
        view: Digest([1; 32]),
        next: Digest([4; 32]),
        map: Digest([5; 32]),
    }
}

/// A receipt of the held statement by two members.
fn receipt(alloc: Global) -> Result<Receipt, NoMemory>
    ensures { IfOk result (λ receipt. AreMarks receipt.marks) }
{
    let mut marks = Vec::with_capacity(alloc, 2)?;
    marks.push(Mark {
        id: 1,
        sig: Text::of(alloc, &[0xff])?,
    })?;
    marks.push(Mark {
        id: 258,
        sig: Text::of(alloc, &[5; 32])?,
    })?;
    Ok(Receipt {
        statement: held(),
        marks,
    })
}

#[test]
fn configs_have_these_bytes(rt: HostRuntime) -> Result<(), Fail> {
    let alloc = rt.alloc();
    let config = three(alloc)?;
    let text = config.write(alloc)?;
    assert_eq!(rt; text.bytes().len(), 110);
    assert_eq!(rt; text.bytes(), bytes(alloc, CONFIG)?.bytes());
    assert_eq!(rt;
        hex::encode(alloc, config.digest().0)?.as_str(),
        CONFIG_DIGEST
    );
    assert_eq!(rt; config.members().len(), 3);
    assert_eq!(rt; config.quorum(), 2);
    assert_eq!(rt; config.weight(2), Some(1));
    assert_eq!(rt; config.weight(3), None);
    Ok(())
}

/// How many members make a config, and its quorum or what is wrong with them.
#[test]
fn configs_are_made_or_refused(rt: HostRuntime) -> Result<(), Fail> {
    let alloc = rt.alloc();
    let key = Digest::ZERO;
    for (ids, answer) in [
        (&[1u32][..], Ok(1)),
        (&[0, 7], Ok(2)),
        (&[1, 2, 3], Ok(2)),
        (&[1, 2, 3, 4], Ok(3)),
        (&[1, 2, 3, 4, 5, 6, 7, 8, 9, 10, 11, 12, 13, 14, 15], Ok(8)),
        (&[], Err(ConfigFault::Empty)),
        (
            &[2, 1, 3, 4, 5, 6, 7, 8, 9, 10, 11, 12, 13, 14, 15, 16],
            Err(ConfigFault::Many),
        ),
        (&[5, 9, 9, 2], Err(ConfigFault::Order { id: 9 })),
        (&[5, 4], Err(ConfigFault::Order { id: 4 })),
    ] {
        let mut members = Vec::with_capacity(alloc, ids.len())?;
        for id in ids {
            members.push(Member { id: *id, key })?;
        }
        let quorum = match Config::of(alloc, &members) {
            Ok(config) => Ok(config.quorum()),
            Err(fault) => Err(fault),
        };
        assert_eq!(rt; quorum, answer, "{ids:?}");
    }
    Ok(())
}

#[test]
fn view_blocks_have_these_bytes(rt: HostRuntime) -> Result<(), Fail> {
    let alloc = rt.alloc();
    let config = three(alloc)?;
    let block = ViewBlock {
        prev: Digest::ZERO,
        config: config.digest(),
        number: 0,
    };
    let text = block.write(alloc)?;
    assert_eq!(rt; text.bytes().len(), 73);
    assert_eq!(rt; text.bytes(), bytes(alloc, BLOCK)?.bytes());
    assert_eq!(rt; hex::encode(alloc, block.tail().0)?.as_str(), BLOCK_DIGEST);
    assert_eq!(rt; ViewBlock::read(text.bytes()), Ok(block));
    Ok(())
}

#[test]
fn statements_have_these_bytes(rt: HostRuntime) -> Result<(), Fail> {
    let alloc = rt.alloc();
    for (statement, parts, length) in [
        (held(), HELD, 105),
        (latest(), LATEST, 121),
        (last(), FINAL, 97),
    ] {
        let text = statement.write(alloc)?;
        assert_eq!(rt; text.bytes().len(), length);
        assert_eq!(rt; text.bytes(), bytes(alloc, parts)?.bytes());
        assert_eq!(rt; Statement::read(text.bytes()), Ok(statement));
    }
    Ok(())
}

#[test]
fn receipts_have_these_bytes(rt: HostRuntime) -> Result<(), Fail> {
    let alloc = rt.alloc();
    let mut text = bytes(alloc, &["23"])?;
    text.push(bytes(alloc, HELD)?.bytes())?;
    let marks = &["02", "00000001", "0001", "ff", "00000102", "0020", FIVES];
    text.push(bytes(alloc, marks)?.bytes())?;
    let written = receipt(alloc)?.write(alloc)?;
    assert_eq!(rt; written.bytes().len(), 152);
    assert_eq!(rt; written.bytes(), text.bytes());
    let read = Receipt::read(alloc, text.bytes())?;
    assert_eq!(rt; read.statement, held());
    assert_eq!(rt; read.marks.len(), 2);
    assert_eq!(rt; read.marks[1].id, 258);
    assert_eq!(rt; read.marks[1].sig.bytes(), [5; 32].as_slice());
    assert_eq!(rt; read.write(alloc)?.bytes(), text.bytes());
    Ok(())
}

/// What a reader says of bytes: none where they are read, or the fault that they show first.
fn fault<T: Drop>(read: Result<T, FormFault>) -> Option<FormFault> {
    match read {
        Ok(_) => None,
        Err(fault) => Some(fault),
    }
}

#[test]
fn configs_are_read_or_refused(rt: HostRuntime) -> Result<(), Fail> {
    let alloc = rt.alloc();
    for (parts, answer) in [
        (CONFIG, None),
        (&["1201", "00000000", ONES], None),
        (&[], Some(FormFault::Short)),
        (&["13"], Some(FormFault::Kind)),
        (&["12"], Some(FormFault::Short)),
        (&["1200"], Some(FormFault::Value)),
        (&["1210"], Some(FormFault::Value)),
        (&["1201", "000000"], Some(FormFault::Short)),
        (&["1201", "00000007", "0101"], Some(FormFault::Short)),
        (&["1202", "00000007", ONES], Some(FormFault::Short)),
        (
            &["1202", "00000007", ONES, "00000007"],
            Some(FormFault::Order),
        ),
        (
            &["1202", "00000007", ONES, "00000006", TWOS],
            Some(FormFault::Order),
        ),
        (
            &["1202", "00000007", ONES, "00000008"],
            Some(FormFault::Short),
        ),
        (&["1201", "00000007", ONES, "00"], Some(FormFault::Trailing)),
    ] {
        let text = bytes(alloc, parts)?;
        assert_eq!(rt;
            fault(Config::read(alloc, text.bytes())),
            answer,
            "{parts:?}"
        );
    }
    Ok(())
}

#[test]
fn view_blocks_are_read_or_refused(rt: HostRuntime) -> Result<(), Fail> {
    let alloc = rt.alloc();
    for (parts, answer) in [
        (&["11", ONES, TWOS, NUMBER][..], None),
        (&[], Some(FormFault::Short)),
        (&["10", ONES, TWOS, NUMBER], Some(FormFault::Kind)),
        (&["11"], Some(FormFault::Short)),
        (&["11", "0101"], Some(FormFault::Short)),
        (&["11", ONES, "0202"], Some(FormFault::Short)),
        (
            &["11", ONES, TWOS, "ffffffffffffff"],
            Some(FormFault::Short),
        ),
        (&["11", ONES, TWOS, NUMBER, "00"], Some(FormFault::Trailing)),
    ] {
        let text = bytes(alloc, parts)?;
        assert_eq!(rt; fault(ViewBlock::read(text.bytes())), answer, "{parts:?}");
    }
    Ok(())
}

#[test]
fn statements_are_read_or_refused(rt: HostRuntime) -> Result<(), Fail> {
    let alloc = rt.alloc();
    for (parts, answer) in [
        (&["20", ONES, TWOS, THREES, COUNT][..], None),
        (&[], Some(FormFault::Short)),
        (&["1f"], Some(FormFault::Kind)),
        (&["23"], Some(FormFault::Kind)),
        (&["20"], Some(FormFault::Short)),
        (&["20", ONES, "02"], Some(FormFault::Short)),
        (&["20", ONES, TWOS, "03"], Some(FormFault::Short)),
        (&["20", ONES, TWOS, THREES, "00"], Some(FormFault::Short)),
        (
            &["20", ONES, TWOS, THREES, COUNT, "00"],
            Some(FormFault::Trailing),
        ),
        (&["21", ONES, TWOS, THREES, COUNT], Some(FormFault::Short)),
        (
            &["21", ONES, TWOS, THREES, COUNT, COUNT, "00"],
            Some(FormFault::Short),
        ),
        (
            &["21", ONES, TWOS, THREES, COUNT, COUNT, COUNT, "00"],
            Some(FormFault::Trailing),
        ),
        (&["22", ONES, FOURS], Some(FormFault::Short)),
        (&["22", ONES, FOURS, FIVES, "00"], Some(FormFault::Trailing)),
    ] {
        let text = bytes(alloc, parts)?;
        assert_eq!(rt; fault(Statement::read(text.bytes())), answer, "{parts:?}");
    }
    Ok(())
}

/// What stands behind the final statement in a receipt.
#[test]
fn receipts_are_read_or_refused(rt: HostRuntime) -> Result<(), Fail> {
    let alloc = rt.alloc();
    for (parts, answer) in [
        (&["01", "ffffffff", "0001", "ff"][..], None),
        (&[], Some(FormFault::Short)),
        (&["00"], Some(FormFault::Value)),
        (&["10"], Some(FormFault::Value)),
        (&["01"], Some(FormFault::Short)),
        (&["01", "000000"], Some(FormFault::Short)),
        (&["01", "00000001", "00"], Some(FormFault::Short)),
        (&["01", "00000001", "0000"], Some(FormFault::Value)),
        (&["01", "00000001", "4001"], Some(FormFault::Value)),
        (&["01", "00000001", "4000", "ff"], Some(FormFault::Short)),
        (&["01", "00000001", "0003", "ffff"], Some(FormFault::Short)),
        (
            &["02", "00000002", "0001", "ff", "00000001"],
            Some(FormFault::Order),
        ),
        (
            &["02", "00000002", "0001", "ff", "00000002", "0000"],
            Some(FormFault::Order),
        ),
        (&["02", "00000002", "0001", "ff"], Some(FormFault::Short)),
        (
            &["01", "00000001", "0001", "ff", "00"],
            Some(FormFault::Trailing),
        ),
    ] {
        let mut text = bytes(alloc, &["23"])?;
        text.push(bytes(alloc, FINAL)?.bytes())?;
        text.push(bytes(alloc, parts)?.bytes())?;
        assert_eq!(rt;
            fault(Receipt::read(alloc, text.bytes())),
            answer,
            "{parts:?}"
        );
    }
    for (parts, answer) in [
        (&[][..], FormFault::Short),
        (&["22"], FormFault::Kind),
        (&["23"], FormFault::Short),
        (&["2324"], FormFault::Kind),
        (&["23", "22", ONES, FOURS, "05"], FormFault::Short),
    ] {
        let text = bytes(alloc, parts)?;
        assert_eq!(rt;
            fault(Receipt::read(alloc, text.bytes())),
            Some(answer),
            "{parts:?}"
        );
    }
    Ok(())
}
