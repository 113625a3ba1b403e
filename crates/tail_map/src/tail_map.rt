ghost use Rattle.std.specs.Prelude.{◌≡◌, ◌≢◌, ℕ, ◌-◌, ◌<◌, ◌≤◌, ◌⊎◌, ◌↔◌, ◌^◌, max, List, [], ◌++◌, length, true, false, is_ok, if◌then◌else◌, Ok, Err, IsOk, IfOk, IfErr, OnOk, OnErr};
ghost use Rattle.std.specs.Cmp.Lexicographic.{slice_cmp};
ghost use Rattle.std.specs.Ordering.{nat_cmp};
ghost use Rattle.std.specs.List.Sorted.{IsBinarySearchResult, IsSearchInRange};
ghost use Rattle.sha2.specs.Sha256.{sha256};
ghost use Rattle.tail_map.specs.TailMap.{IsCount, IsRow, IsMap, get, set, has_handle};
ghost use Rattle.tail_map.specs.MapForm.{map_bytes, row_bytes};
ghost use Rattle.tail_map.specs.FormFault.{Shows, Gives};

use crate::map_fault::MapFault;
use crate::reading::read_rows;
use crate::tail_row::TailRow;
use nim_base::{Digest, FormFault, NoMemory, Text};
use sha2::{Digest as _, Sha256};
use std::alloc::Global;
use std::marker::Model;

pub(crate) const KIND: u8 = 0x30;

pub(crate) const MAX_ROWS: usize = 4096;

pub(crate) const MAX_COUNT: u64 = 1 << 32;

/// The tails and counts of at most 4,096 ledgers. Its rows stand in rising handles, so a search finds one,
/// and each count is from 1 to 2^32.
#[derive(Debug, Drop)]
pub struct TailMap {
    rows: Vec<TailRow>,
    room: usize,
}

impl Model for TailMap {
    ghost use Rattle.std.specs.Prelude.{◌+◌, ◌≤◌, vec_len, vec_capacity};
    ghost use Rattle.tail_map.specs.TailMap.{Content, IsMap};

    ghost Value = { Content };

    ghost view = { λ map. record { rows = map.rows.items; room = map.room } };

    ghost invariant = { λ map. IsMap map.rows.items × (vec_len map.rows + map.room ≤ vec_capacity map.rows) };
}

impl TailMap {
    /// A map without rows. It takes no memory.
    pub fn new(alloc: Global) -> TailMap
        ensures rows { result.rows ≡ [] }
        ensures room { result.room ≡ 0 }
    {
        TailMap {
            rows: Vec::new(alloc),
            room: 0,
        }
    }

    /// The tail and count of a ledger, zeros and 0 where it has no row. It takes no memory.
    pub fn get(&self, handle: &Digest) -> (Digest, u64)
        ensures row { result ≡ get self.now.rows handle.now }
        ensures present { (has_handle self.now.rows handle.now ≡ true) ↔ (0 < result.1) }
        ensures most { result.1 ≤ 2 ^ 32 }
    {
        match self.place(handle) {
            Ok(place) => {
                let row = &self.rows[place];
                (row.tail, row.count)
            }
            Err(_) => (Digest::ZERO, 0),
        }
    }

    /// The rows in rising handles. It takes no memory.
    pub fn rows(&self) -> &[TailRow]
        ensures rows { result.now ≡ self.now.rows }
        ensures map { IsMap self.now.rows }
    {
        self.rows.as_slice()
    }

    /// Sets the row of its handle, in place of the one that stands there. Only a handle without a row
    /// takes memory, and it takes none where there is room.
    pub fn set(&mut self, row: &TailRow) -> Result<(), MapFault>
        requires { IsCount row.now.count }

        // One row changes, and no other.
        ensures rows { OnOk result (self.new.rows ≡ set self.old.rows row.now) }
        ensures changed { OnOk result (get self.new.rows row.now.handle ≡ (row.now.tail, row.now.count)) }
        ensures others { OnOk result ((handle : List ℕ) → handle ≢ row.now.handle → get self.new.rows handle ≡ get self.old.rows handle) }
        ensures map { OnOk result (IsMap self.new.rows) }
        ensures room { OnOk result (self.new.room ≡ (if has_handle self.old.rows row.now.handle then self.old.room else self.old.room - 1)) }

        // A refusal changes nothing, and memory is asked for only where a row is to be added.
        ensures full { (result ≡ Err MapFault.Full) ↔ ((has_handle self.old.rows row.now.handle ≡ false) × (length self.old.rows ≡ 4096)) }
        ensures no_memory { result ≡ Err MapFault.NoMemory → (has_handle self.old.rows row.now.handle ≡ false) × (self.old.room ≡ 0) }
        ensures err { OnErr result (self.new ≡ self.old) }
    {
        // Both digests are opened, so that their lengths are known.
        let (handle, tail) = (&row.handle, &row.tail);
        let _ = &handle.0;
        let _ = &tail.0;
        match self.place(handle) {
            Ok(place) => {
                self.replace(place, row);
                Ok(())
            }
            Err(place) => self.add(place, row),
        }
    }

    /// Takes the memory that one more row needs, so that the next `set` finds it there.
    pub fn reserve(&mut self) -> Result<(), NoMemory>
        ensures ok { OnOk result (self.new.room ≡ max self.old.room 1) }
        ensures reserved { 0 < self.old.room → IsOk result }
        ensures rows { self.new.rows ≡ self.old.rows }
        ensures err { OnErr result (self.new ≡ self.old) }
    {
        if self.room == 0 {
            self.rows.reserve(1)?;
            self.room = 1;
        }
        Ok(())
    }

    /// A map of the same rows, with no room.
    pub fn copy(&self, alloc: Global) -> Result<TailMap, NoMemory>
        ensures rows { IfOk result (λ map. map.rows ≡ self.now.rows) }
        ensures room { IfOk result (λ map. map.room ≡ 0) }
    {
        Ok(TailMap {
            rows: Vec::from_slice(alloc, &self.rows)?,
            room: 0,
        })
    }

    /// The SHA-256 digest of the bytes that [`write`](TailMap::write) gives. It takes no memory.
    pub fn digest(&self) -> Digest
        ensures { result ≡ sha256 (map_bytes self.now.rows) }
    {
        let mut hasher = Sha256::new();
        hasher.update(&[KIND]);
        hasher.update(&(self.rows.len() as u32).to_be_bytes());
        for row in &self.rows {
            hasher.update(&row.handle.0);
            hasher.update(&row.tail.0);
            hasher.update(&row.count.to_be_bytes());
        }
        Digest(hasher.finalize())
    }

    /// The bytes of the map: the kind 30 in hexadecimal, the number of rows in 4 bytes, and for each row
    /// its handle in 32, its tail in 32 and its count in 8. Numbers are big-endian.
    pub fn write(&self, alloc: Global) -> Result<Text, NoMemory>
        ensures { IfOk result (λ text. text.bytes ≡ map_bytes self.now.rows) }
    {
        let mut text = Text::with_room(alloc, 5 + 72 * self.rows.len())?;
        text.push(&[KIND])?;
        text.push(&(self.rows.len() as u32).to_be_bytes())?;
        for row in &self.rows {
            text.push(&row.handle.0)?;
            text.push(&row.tail.0)?;
            text.push(&row.count.to_be_bytes())?;
        }
        Ok(text)
    }

    /// The map whose bytes these are, with no room. A refusal names the fault that shows first, from the
    /// front, where the fields have the lengths that [`write`](TailMap::write) says:
    ///
    /// - `Kind` shows at the first byte, where it isn't that of a map.
    /// - `Value` shows at the number of rows, where it is above 4,096, and at a count that is 0 or above 2^32.
    /// - `Order` shows at a handle that isn't above the one before, also where the bytes end in that row's
    ///   tail or count.
    /// - `Short` shows where the bytes end inside a field. What a whole field before shows comes first.
    /// - `Trailing` shows at a byte after the last row.
    pub fn read(alloc: Global, bytes: &[u8]) -> Result<TailMap, FormFault>
        // What is read is what a map writes, and that map is read from it, unless memory runs out.
        ensures found { IfOk result (λ map. IsMap map.rows × (bytes.now ≡ map_bytes map.rows)) }
        ensures only { (rows : List TailRow) → IsMap rows → bytes.now ≡ map_bytes rows → Gives result (Ok rows) }
        ensures room { IfOk result (λ map. map.room ≡ 0) }

        // A refusal is the fault that shows first, and that fault is the refusal, unless memory runs out.
        ensures fault { IfErr result (λ fault. (fault ≡ FormFault.NoMemory) ⊎ Shows bytes.now fault) }
        ensures first { (fault : FormFault) → Shows bytes.now fault → Gives result (Err fault) }
    {
        let rows = read_rows(alloc, bytes)?;
        Ok(TailMap { rows, room: 0 })
    }

    // Where the row of a handle stands, or where it would.
    fn place(&self, handle: &Digest) -> Result<usize, usize>
        ensures has { has_handle self.now.rows handle.now ≡ is_ok result }
        ensures range { IsSearchInRange result (length self.now.rows) }
        ensures place { IsBinarySearchResult (λ row. slice_cmp nat_cmp row.handle handle.now) self.now.rows result }
    {
        self.rows.binary_search_by_key(handle, |row| row.handle)
    }

    // Puts a row in place of the one of its handle.
    fn replace(&mut self, place: usize, row: &TailRow)
        requires row { IsRow row.now }
        requires range { place < length self.old.rows }
        requires place { IsBinarySearchResult (λ held. slice_cmp nat_cmp held.handle row.now.handle) self.old.rows (Ok place) }
        ensures rows { self.new.rows ≡ set self.old.rows row.now }
        ensures map { IsMap self.new.rows }
        ensures room { self.new.room ≡ self.old.room }
    {
        self.rows[place] = *row;
    }

    // Adds a row at the place of its handle, which has none.
    fn add(&mut self, place: usize, row: &TailRow) -> Result<(), MapFault>
        requires row { IsRow row.now }
        requires range { place ≤ length self.old.rows }
        requires place { IsBinarySearchResult (λ held. slice_cmp nat_cmp held.handle row.now.handle) self.old.rows (Err place) }
        ensures rows { OnOk result (self.new.rows ≡ set self.old.rows row.now) }
        ensures map { OnOk result (IsMap self.new.rows) }
        ensures room { OnOk result (self.new.room ≡ self.old.room - 1) }
        ensures full { (result ≡ Err MapFault.Full) ↔ (length self.old.rows ≡ 4096) }
        ensures no_memory { result ≡ Err MapFault.NoMemory → self.old.room ≡ 0 }
        ensures err { OnErr result (self.new ≡ self.old) }
    {
        if self.rows.len() >= MAX_ROWS {
            return Err(MapFault::Full);
        }
        if self.rows.insert(place, *row).is_err() {
            return Err(MapFault::NoMemory);
        }
        self.room = self.room.saturating_sub(1);
        Ok(())
    }
}
