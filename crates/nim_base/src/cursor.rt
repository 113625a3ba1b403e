ghost use Rattle.std.specs.Prelude.{◌≡◌, length};
ghost use Rattle.std.specs.Int.{from_be_bytes, w8, w16, w32, w64};
ghost use Rattle.nim_base.specs.Cursor.{Takes};

use std::marker::Model;

/// Bytes that are read from the front. Each read answers `None` exactly where too few bytes are
/// left, and then nothing moves. Numbers are big-endian.
#[derive(Debug, Drop)]
pub struct Cursor<'a> {
    bytes: &'a [u8],
}

impl<'a> Model for Cursor<'a> {
    ghost use Rattle.std.specs.Prelude.{List, ℕ};

    ghost Value = { List ℕ };

    ghost view = { λ cursor. cursor.bytes.now };
}

impl<'a> Cursor<'a> {
    /// A cursor before the first byte.
    pub fn new(bytes: &'a [u8]) -> Cursor<'a>
        ensures { result ≡ bytes.now }
    {
        Cursor { bytes }
    }

    /// How many bytes are left.
    pub fn left(&self) -> usize
        ensures { result ≡ length self.now }
    {
        self.bytes.len()
    }

    /// The next `n` bytes.
    pub fn take(&mut self, n: usize) -> Option<&'a [u8]>
        ensures { Takes n (λ bytes found. found.now ≡ bytes) self.old self.new result }
    {
        if self.bytes.len() < n {
            return None;
        }
        let (found, rest) = self.bytes.split_at(n);
        self.bytes = rest;
        Some(found)
    }

    /// The number in the next byte.
    pub fn u8(&mut self) -> Option<u8>
        ensures { Takes 1 (λ bytes n. n ≡ from_be_bytes w8 bytes) self.old self.new result }
    {
        let bytes = self.take(1)?;
        Some(bytes[0])
    }

    /// The number in the next two bytes.
    pub fn u16(&mut self) -> Option<u16>
        ensures { Takes 2 (λ bytes n. n ≡ from_be_bytes w16 bytes) self.old self.new result }
    {
        let bytes = self.take(2)?;
        Some(u16::from_be_bytes([bytes[0], bytes[1]]))
    }

    /// The number in the next four bytes.
    pub fn u32(&mut self) -> Option<u32>
        ensures { Takes 4 (λ bytes n. n ≡ from_be_bytes w32 bytes) self.old self.new result }
    {
        let bytes = self.take(4)?;
        Some(u32::from_be_bytes([bytes[0], bytes[1], bytes[2], bytes[3]]))
    }

    /// The number in the next eight bytes.
    pub fn u64(&mut self) -> Option<u64>
        ensures { Takes 8 (λ bytes n. n ≡ from_be_bytes w64 bytes) self.old self.new result }
    {
        let bytes = self.take(8)?;
        Some(u64::from_be_bytes([
            bytes[0], bytes[1], bytes[2], bytes[3], bytes[4], bytes[5], bytes[6], bytes[7],
        ]))
    }
}
