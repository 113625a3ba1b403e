ghost use Rattle.std.specs.Prelude.{IfOk};
ghost use Rattle.port.specs.FinalsForm.{AreFinals};

use crate::hexadecimal::bytes;
use chain_block::{Entry, MetaBlock};
use nim_base::{Digest, NoMemory, Nonce, Text};
use port::{
    ActivationProof, Chain, FinalMap, FinalMark, LatestReply, Row, Standing, ViewRow, read_finals,
    read_view, write_finals, write_view,
};
use statement::{Config, Mark, Member, Receipt, Statement, ViewBlock};
use std::alloc::Global;
use std::test::Fail;
use tail_map::{TailMap, TailRow};

// The bytes and digests below were worked out with Python's struct and hashlib, by the forms that the
// crate's pages give.

pub(crate) const ZEROS: &str = "0000000000000000000000000000000000000000000000000000000000000000";

pub(crate) const ONES: &str = "0101010101010101010101010101010101010101010101010101010101010101";

const TWOS: &str = "0202020202020202020202020202020202020202020202020202020202020202";

pub(crate) const THREES: &str = "0303030303030303030303030303030303030303030303030303030303030303";

const FOURS: &str = "0404040404040404040404040404040404040404040404040404040404040404";

const FIVES: &str = "0505050505050505050505050505050505050505050505050505050505050505";

pub(crate) const SEVENS: &str = "07070707070707070707070707070707";

pub(crate) const EIGHTS: &str = "08080808080808080808080808080808";

pub(crate) const ZERO: &str = "0000000000000000";

const COUNT: &str = "0000000000000102";

/// The digests of the entries below.
pub(crate) const FIRST: &str = "4dad77cb60e7cafa6d50fd9e6327806a67fad645c6a7ab9e37dc3bdacaa0d44c";

const LATER: &str = "d8f7aea8cefe4d2fc82dd20296fbc17a212613519a6be4ec8db38b9832b3af02";

/// The row of the first entry with the payload `hi`.
pub(crate) const FIRST_ROW: &[&str] = &[
    "50", "00000017", "01", SEVENS, "00000002", "6869", "10", ZEROS, FIRST, ZERO,
];

/// The row of an entry at height 258 with no payload.
const LATER_ROW: &[&str] = &[
    "50", "0000003d", "02", THREES, COUNT, EIGHTS, "00000000", "10", FOURS, LATER, COUNT,
];

/// The digest of the config of the members 1 and 2, whose keys are the digests of ones and twos.
pub(crate) const CONFIG: &str = "4e8baf9874ffc2f6c6c1e687ac59be7feb0c96be385137f406276fef867074d7";

/// View 0 with that config.
const VIEW: &[&str] = &[
    "51", "11", ZEROS, CONFIG, ZERO, "1202", "00000001", ONES, "00000002", TWOS,
];

/// The finals of the members 1, with a map of one row, and 258, with none.
const FINALS: &[&str] = &[
    "3102",
    "00000001",
    "0001",
    "ff",
    "0000004d",
    "3000000001",
    THREES,
    FOURS,
    COUNT,
    "00000102",
    "0020",
    FIVES,
    "00000005",
    "3000000000",
];

/// The digest of 32 bytes in hexadecimal.
fn digest(alloc: Global, digits: &str) -> Result<Digest, NoMemory> {
    let text = bytes(alloc, &[digits])?;
    let mut digest = [0; 32];
    if text.bytes().len() == 32 {
        digest.copy_from_slice(text.bytes());
    }
    Ok(Digest(digest))
}

fn first_row(alloc: Global) -> Result<Row, NoMemory> {
    Ok(Row {
        entry: Entry::Genesis {
            nonce: Nonce([7; 16]),
            payload: Text::of(alloc, b"hi")?,
        },
        metablock: MetaBlock {
            prev: Digest::ZERO,
            entry: digest(alloc, FIRST)?,
            height: 0,
        },
    })
}

fn later_row(alloc: Global) -> Result<Row, NoMemory> {
    Ok(Row {
        entry: Entry::Later {
            handle: Digest([3; 32]),
            height: 258,
            nonce: Nonce([8; 16]),
            payload: Text::of(alloc, &[])?,
        },
        metablock: MetaBlock {
            prev: Digest([4; 32]),
            entry: digest(alloc, LATER)?,
            height: 258,
        },
    })
}

fn config(alloc: Global) -> Result<Config, NoMemory> {
    let members = [
        Member {
            id: 1,
            key: Digest([1; 32]),
        },
        Member {
            id: 2,
            key: Digest([2; 32]),
        },
    ];
    match Config::of(alloc, &members) {
        Ok(config) => Ok(config),
        Err(_) => Err(NoMemory),
    }
}

fn block(alloc: Global) -> Result<ViewBlock, NoMemory> {
    Ok(ViewBlock {
        prev: Digest::ZERO,
        config: digest(alloc, CONFIG)?,
        number: 0,
    })
}

fn finals(alloc: Global) -> Result<Vec<FinalMap>, NoMemory>
    ensures { IfOk result (λ finals. AreFinals finals.items) }
{
    let mut map = TailMap::new(alloc);
    let row = TailRow {
        handle: Digest([3; 32]),
        tail: Digest([4; 32]),
        count: 258,
    };
    if map.set(&row).is_err() {
        return Err(NoMemory);
    }
    let mut finals = Vec::with_capacity(alloc, 2)?;
    finals.push(FinalMap {
        id: 1,
        map,
        sig: Text::of(alloc, &[0xff])?,
    })?;
    finals.push(FinalMap {
        id: 258,
        map: TailMap::new(alloc),
        sig: Text::of(alloc, &[5; 32])?,
    })?;
    Ok(finals)
}

fn receipt(alloc: Global) -> Result<Receipt, NoMemory> {
    let mut marks = Vec::with_capacity(alloc, 1)?;
    marks.push(Mark {
        id: 9,
        sig: Text::of(alloc, &[6])?,
    })?;
    Ok(Receipt {
        statement: Statement::Held {
            view: Digest([1; 32]),
            handle: Digest([3; 32]),
            tail: Digest([4; 32]),
            count: 259,
        },
        marks,
    })
}

#[test]
fn rows_have_these_bytes(rt: HostRuntime) -> Result<(), Fail> {
    let alloc = rt.alloc();
    for (row, parts, length) in [
        (first_row(alloc)?, FIRST_ROW, 101),
        (later_row(alloc)?, LATER_ROW, 139),
    ] {
        let text = bytes(alloc, parts)?;
        let written = row.write(alloc)?;
        assert_eq!(rt; written.bytes().len(), length);
        assert_eq!(rt; written.bytes(), text.bytes());
        let read = Row::read(alloc, text.bytes())?;
        assert_eq!(rt; read.metablock, row.metablock);
        assert!(rt; read.has_entry(&row.entry));
        assert_eq!(rt; read.write(alloc)?.bytes(), text.bytes());
    }
    Ok(())
}

#[test]
fn rows_tell_what_their_entries_are(rt: HostRuntime) -> Result<(), Fail> {
    let alloc = rt.alloc();
    let (first, later) = (first_row(alloc)?, later_row(alloc)?);
    assert_eq!(rt; first.handle(), digest(alloc, FIRST)?);
    assert_eq!(rt; first.entry_digest(), digest(alloc, FIRST)?);
    assert_eq!(rt; first.height(), 0);
    assert_eq!(rt; first.nonce(), Nonce([7; 16]));
    assert_eq!(rt; later.handle(), Digest([3; 32]));
    assert_eq!(rt; later.entry_digest(), digest(alloc, LATER)?);
    assert_eq!(rt; later.height(), 258);
    assert_eq!(rt; later.nonce(), Nonce([8; 16]));
    assert!(rt; later.has_entry(&later.copy(alloc)?.entry));
    assert!(rt; !later.has_entry(&first.entry));
    Ok(())
}

#[test]
fn views_have_these_bytes(rt: HostRuntime) -> Result<(), Fail> {
    let alloc = rt.alloc();
    let text = bytes(alloc, VIEW)?;
    let written = write_view(alloc, &block(alloc)?, &config(alloc)?)?;
    assert_eq!(rt; written.bytes().len(), 148);
    assert_eq!(rt; written.bytes(), text.bytes());
    let (read_block, read_config) = read_view(alloc, text.bytes())?;
    assert_eq!(rt; read_block, block(alloc)?);
    assert_eq!(rt; read_config.members().len(), 2);
    assert_eq!(rt; read_config.digest(), digest(alloc, CONFIG)?);
    Ok(())
}

#[test]
fn finals_have_these_bytes(rt: HostRuntime) -> Result<(), Fail> {
    let alloc = rt.alloc();
    let text = bytes(alloc, FINALS)?;
    let written = write_finals(alloc, &finals(alloc)?)?;
    assert_eq!(rt; written.bytes().len(), 137);
    assert_eq!(rt; written.bytes(), text.bytes());
    let read = read_finals(alloc, text.bytes())?;
    assert_eq!(rt; read.len(), 2);
    assert_eq!(rt; read[0].id, 1);
    assert_eq!(rt; read[0].map.get(&Digest([3; 32])), (Digest([4; 32]), 258));
    assert_eq!(rt; read[1].id, 258);
    assert_eq!(rt; read[1].sig.bytes(), [5; 32].as_slice());
    assert_eq!(rt; read[1].map.rows().len(), 0);
    Ok(())
}

fn standing(alloc: Global) -> Result<Standing, NoMemory> {
    let mut chain = Vec::with_capacity(alloc, 1)?;
    chain.push(later_row(alloc)?.metablock)?;
    Ok(Standing {
        row: first_row(alloc)?,
        chain,
        receipt: receipt(alloc)?,
    })
}

fn view_row(alloc: Global) -> Result<ViewRow, NoMemory> {
    let mut finals = Vec::with_capacity(alloc, 1)?;
    finals.push(FinalMark {
        id: 5,
        map: Digest([2; 32]),
        sig: Text::of(alloc, &[3, 4])?,
    })?;
    Ok(ViewRow {
        block: block(alloc)?,
        config: config(alloc)?,
        finals,
    })
}

fn proof(alloc: Global) -> Result<ActivationProof, NoMemory> {
    let mut chains = Vec::with_capacity(alloc, 1)?;
    chains.push(Chain {
        handle: Digest([3; 32]),
        blocks: Vec::with_capacity(alloc, 0)?,
    })?;
    Ok(ActivationProof {
        old_block: block(alloc)?,
        old_config: config(alloc)?,
        finals: finals(alloc)?,
        chains,
    })
}

#[test]
fn replies_are_copied(rt: HostRuntime) -> Result<(), Fail> {
    let alloc = rt.alloc();
    let copy = standing(alloc)?.copy(alloc)?;
    assert_eq!(rt; copy.chain.len(), 1);
    assert_eq!(rt; copy.receipt.marks.len(), 1);
    let latest = LatestReply {
        row: Some(copy.row),
        receipt: copy.receipt,
    };
    let copy = latest.copy(alloc)?;
    assert!(rt; copy.row.is_some());
    Ok(())
}

#[test]
fn views_are_copied(rt: HostRuntime) -> Result<(), Fail> {
    let alloc = rt.alloc();
    let copy = view_row(alloc)?.copy(alloc)?;
    assert_eq!(rt; copy.block, block(alloc)?);
    let mark = copy.finals.get(0).expect(&rt, "no mark");
    assert_eq!(rt; mark.sig.bytes(), [3, 4].as_slice());
    Ok(())
}

#[test]
fn proofs_are_copied(rt: HostRuntime) -> Result<(), Fail> {
    let alloc = rt.alloc();
    let copy = proof(alloc)?.copy(alloc)?;
    assert_eq!(rt; copy.old_block, block(alloc)?);
    assert_eq!(rt; copy.finals.len(), 2);
    let chain = copy.chains.get(0).expect(&rt, "no chain");
    assert_eq!(rt; chain.handle, Digest([3; 32]));
    Ok(())
}
