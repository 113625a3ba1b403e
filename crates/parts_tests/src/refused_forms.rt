use crate::hexadecimal::bytes;
use crate::rows::{CONFIG, EIGHTS, FIRST, FIRST_ROW, ONES, SEVENS, THREES, ZERO, ZEROS};
use nim_base::FormFault;
use port::{Row, read_finals, read_view};
use std::test::Fail;

// Rows, views and finals that aren't written so, and the fault that shows first in each.

/// The first bytes of an entry with a nonce of sevens.
const HEAD: &str = "0107070707070707070707070707070707";

/// A final of member 1 with an empty map.
const ONE: &str = "000000010001ff000000053000000000";

type Case = (&'static [&'static str], Option<FormFault>);

const ROWS: &[Case] = &[
    (FIRST_ROW, None),
    (&[], Some(FormFault::Short)),
    (&["51"], Some(FormFault::Kind)),
    (&["50"], Some(FormFault::Short)),
    (&["50", "000000"], Some(FormFault::Short)),
    (&["50", "00000000"], Some(FormFault::Value)),
    (&["50", "ffffffff", "01"], Some(FormFault::Short)),
    (
        &["50", "00000017", HEAD, "00000002", "68"],
        Some(FormFault::Short),
    ),
    // The whole field is no entry's: one byte is missing, one is too many, the kind is another, or
    // the height is 0.
    (
        &["50", "00000016", HEAD, "00000002", "68"],
        Some(FormFault::Value),
    ),
    (
        &["50", "00000018", HEAD, "00000002", "6869", "00"],
        Some(FormFault::Value),
    ),
    (
        &["50", "00000017", "03", SEVENS, "00000002", "6869"],
        Some(FormFault::Value),
    ),
    (
        &["50", "0000003d", "02", THREES, ZERO, EIGHTS, "00000000"],
        Some(FormFault::Value),
    ),
    (
        &["50", "00000017", HEAD, "00000002", "6869"],
        Some(FormFault::Short),
    ),
    (
        &["50", "00000017", HEAD, "00000002", "6869", "11", ZEROS],
        Some(FormFault::Short),
    ),
    (
        &[
            "50", "00000017", HEAD, "00000002", "6869", "11", ZEROS, FIRST, ZERO,
        ],
        Some(FormFault::Value),
    ),
    (
        &[
            "50", "00000017", HEAD, "00000002", "6869", "11", ZEROS, FIRST, ZERO, "00",
        ],
        Some(FormFault::Value),
    ),
    (
        &[
            "50", "00000017", HEAD, "00000002", "6869", "10", ZEROS, FIRST, ZERO, "00",
        ],
        Some(FormFault::Trailing),
    ),
];

/// What stands behind the kind of a view.
const VIEWS: &[Case] = &[
    (&["11", ZEROS, CONFIG, ZERO, "1201", "00000007", ONES], None),
    (&[], Some(FormFault::Short)),
    (&["11", ZEROS, CONFIG], Some(FormFault::Short)),
    (&["10", ZEROS, CONFIG], Some(FormFault::Short)),
    (&["10", ZEROS, CONFIG, ZERO], Some(FormFault::Value)),
    (
        &["10", ZEROS, CONFIG, ZERO, "1201", "00000007", ONES, "00"],
        Some(FormFault::Value),
    ),
    (&["11", ZEROS, CONFIG, ZERO], Some(FormFault::Short)),
    (&["11", ZEROS, CONFIG, ZERO, "13"], Some(FormFault::Value)),
    (&["11", ZEROS, CONFIG, ZERO, "1200"], Some(FormFault::Value)),
    (&["11", ZEROS, CONFIG, ZERO, "1210"], Some(FormFault::Value)),
    (
        &["11", ZEROS, CONFIG, ZERO, "1201", "00000007", "01"],
        Some(FormFault::Short),
    ),
    (
        &[
            "11", ZEROS, CONFIG, ZERO, "1202", "00000007", ONES, "00000007",
        ],
        Some(FormFault::Value),
    ),
    (
        &["11", ZEROS, CONFIG, ZERO, "1201", "00000007", ONES, "00"],
        Some(FormFault::Trailing),
    ),
];

/// What stands behind the kind of finals.
const FINALS: &[Case] = &[
    (&["01", ONE], None),
    (&[], Some(FormFault::Short)),
    (&["00"], Some(FormFault::Value)),
    (&["10"], Some(FormFault::Value)),
    (&["01"], Some(FormFault::Short)),
    (&["01", "000000"], Some(FormFault::Short)),
    (&["01", "00000001", "00"], Some(FormFault::Short)),
    (&["01", "00000001", "0000"], Some(FormFault::Value)),
    (&["01", "00000001", "4001"], Some(FormFault::Value)),
    (&["01", "00000001", "4000", "ff"], Some(FormFault::Short)),
    (&["01", "00000001", "0001", "ff"], Some(FormFault::Short)),
    (
        &["01", "00000001", "0001", "ff", "000000"],
        Some(FormFault::Short),
    ),
    (
        &["01", "00000001", "0001", "ff", "00000000"],
        Some(FormFault::Value),
    ),
    (
        &["01", "00000001", "0001", "ff", "00000005", "31000000"],
        Some(FormFault::Short),
    ),
    (
        &["01", "00000001", "0001", "ff", "00000005", "3100000000"],
        Some(FormFault::Value),
    ),
    (
        &["01", "00000001", "0001", "ff", "00000004", "30000000"],
        Some(FormFault::Value),
    ),
    (
        &["01", "00000001", "0001", "ff", "00000006", "300000000000"],
        Some(FormFault::Value),
    ),
    // A map that doesn't read comes before what the next final shows.
    (
        &[
            "02",
            "00000001",
            "0001",
            "ff",
            "00000005",
            "3100000000",
            "00000001",
        ],
        Some(FormFault::Value),
    ),
    (&["02", ONE], Some(FormFault::Short)),
    (&["02", ONE, "00000001"], Some(FormFault::Order)),
    (&["02", ONE, "00000000", "0000"], Some(FormFault::Order)),
    (&["02", ONE, "00000002"], Some(FormFault::Short)),
    (&["02", ONE, "00000002", "0000"], Some(FormFault::Value)),
    (&["01", ONE, "00"], Some(FormFault::Trailing)),
];

/// What a reader says of bytes: none where they are read, or the fault that they show first.
fn fault<T: Drop>(read: Result<T, FormFault>) -> Option<FormFault> {
    match read {
        Ok(_) => None,
        Err(fault) => Some(fault),
    }
}

#[test]
fn rows_are_read_or_refused(rt: HostRuntime) -> Result<(), Fail> {
    let alloc = rt.alloc();
    for (parts, answer) in ROWS {
        let text = bytes(alloc, parts)?;
        assert_eq!(rt; fault(Row::read(alloc, text.bytes())), *answer, "{parts:?}");
    }
    Ok(())
}

#[test]
fn views_are_read_or_refused(rt: HostRuntime) -> Result<(), Fail> {
    let alloc = rt.alloc();
    for (parts, answer) in VIEWS {
        let mut text = bytes(alloc, &["51"])?;
        text.push(bytes(alloc, parts)?.bytes())?;
        assert_eq!(rt; fault(read_view(alloc, text.bytes())), *answer, "{parts:?}");
    }
    assert_eq!(rt; fault(read_view(alloc, &[])), Some(FormFault::Short));
    assert_eq!(rt; fault(read_view(alloc, &[0x50])), Some(FormFault::Kind));
    Ok(())
}

#[test]
fn finals_are_read_or_refused(rt: HostRuntime) -> Result<(), Fail> {
    let alloc = rt.alloc();
    for (parts, answer) in FINALS {
        let mut text = bytes(alloc, &["31"])?;
        text.push(bytes(alloc, parts)?.bytes())?;
        assert_eq!(rt;
            fault(read_finals(alloc, text.bytes())),
            *answer,
            "{parts:?}"
        );
    }
    assert_eq!(rt; fault(read_finals(alloc, &[])), Some(FormFault::Short));
    assert_eq!(rt; fault(read_finals(alloc, &[0x30])), Some(FormFault::Kind));
    Ok(())
}
