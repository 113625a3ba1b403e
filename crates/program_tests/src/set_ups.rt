use fault_script::read;
use std::test::Fail;
use world_run::{MacSeals, set_up_texts};

/// Nonces 0 and 2 make first entries, and two labels are made by no line.
const SCRIPT: &str = "genesis 1\n\
    new c L1 =a\n\
    latest c L9\n\
    begin o new d L2 =b\n\
    append c L2 1 =x\n\
    raw show 1 M\n\
    end\n";

/// What stands behind the texts of 64 keys, two each.
const ENTRY_0: [u8; 22] = [
    1, 0, 0, 0, 0, 0, 0, 0, 0, 0, 0, 0, 0, 0, 0, 0, 0, 0, 0, 0, 1, b'a',
];

const ENTRY_2: [u8; 22] = [
    1, 0, 0, 0, 0, 0, 0, 0, 0, 0, 0, 0, 0, 0, 0, 0, 2, 0, 0, 0, 1, b'b',
];

#[test]
fn scripts_rest_on_these_texts(rt: HostRuntime) -> Result<(), Fail> {
    let alloc = rt.alloc();
    let script = read(alloc, SCRIPT.as_bytes());
    assert!(rt; script.is_ok());
    if let Ok(script) = script {
        let texts = set_up_texts(alloc, &MacSeals, &script)?;
        assert_eq!(rt; texts.len(), 132);
        for (place, expected) in [
            (0, [0x41, 0, 0, 0, 1].as_slice()),
            (126, [0x41, 0, 0, 0, 64].as_slice()),
            (128, ENTRY_0.as_slice()),
            (129, ENTRY_2.as_slice()),
            (130, b"CL9".as_slice()),
            (131, b"CM".as_slice()),
        ] {
            let text = texts.get(place).expect(&rt, "a text");
            assert_eq!(rt; text.bytes(), expected);
        }
    }
    Ok(())
}
