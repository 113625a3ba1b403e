use nim_base::{Cursor, Digest, Nonce, Text, digest_of};
use std::test::Fail;

/// The example of FIPS 180-4 for one block.
#[test]
fn digest_of_abc(rt: HostRuntime) {
    let Digest(digest) = digest_of(b"abc");
    let wanted = [
        0xba, 0x78, 0x16, 0xbf, 0x8f, 0x01, 0xcf, 0xea, 0x41, 0x41, 0x40, 0xde, 0x5d, 0xae, 0x22,
        0x23, 0xb0, 0x03, 0x61, 0xa3, 0x96, 0x17, 0x7a, 0x9c, 0xb4, 0x10, 0xff, 0x61, 0xf2, 0x00,
        0x15, 0xad,
    ];
    assert!(rt; digest == wanted);
    assert!(rt; Digest::ZERO < Digest(wanted));
    assert!(rt; Nonce([0; 16]) < Nonce([1; 16]));
}

#[test]
fn texts_grow_and_fill(rt: HostRuntime) -> Result<(), Fail> {
    let mut text = Text::of(rt.alloc(), b"ab")?;
    text.push(b"cd")?;
    assert_eq!(rt; text.bytes(), b"abcd".as_slice());
    let mut text = Text::with_room(rt.alloc(), 3)?;
    text.fill(b"xy");
    text.fill(b"z");
    assert_eq!(rt; text.bytes(), b"xyz".as_slice());
    Ok(())
}

#[test]
fn cursors_read_from_the_front(rt: HostRuntime) {
    let mut cursor = Cursor::new(&[1, 0, 2, 0, 0, 0, 3, 0, 0, 0, 0, 0, 0, 0, 4, 8, 9]);
    assert_eq!(rt; cursor.u8(), Some(1));
    assert_eq!(rt; cursor.u16(), Some(2));
    assert_eq!(rt; cursor.u32(), Some(3));
    assert_eq!(rt; cursor.u64(), Some(4));
    assert_eq!(rt; cursor.take(3), None);
    assert_eq!(rt; cursor.left(), 2);
    assert_eq!(rt; cursor.take(2), Some([8, 9].as_slice()));
}
