use crate::round::{Round, Size, show};
use blob_store::MemStore;
use nim_base::{Text, digest_of};
use port::{Got, Key, Put, Store};
use std::alloc::{AllocError, Global};
use std::collections::BTreeMap;
use std::io;
use std::rt::Clock as Timer;
use std::time::Instant;

/// As many bytes as a row has whose payload has 16.
const BODY: [u8; 155] = [0x50; 155];

/// Puts into stores in memory and gets from them, with few rows in each and with many, beside std's map with
/// copies of as many bytes.
pub fn measure<R: Timer + Print>(rt: &R, alloc: Global, size: Size) -> io::Result<()> {
    for number in [1_000, 100_000] {
        let (rows, rounds) = match size {
            Size::Small => (number / 1_000, 1),
            Size::Long => (number, 200_000 / number),
        };
        let keys = keys(alloc, rows)?;
        let (puts, gets) = over_stores(rt, alloc, &keys, rounds)?;
        let (insertions, look_ups) = over_maps(rt, alloc, &keys, rounds)?;
        let of = ("rows", number);
        show(rt, size, of, ("puts", &puts), ("insertions", &insertions))?;
        show(rt, size, of, ("gets", &gets), ("look-ups", &look_ups))?;
    }
    Ok(())
}

/// The keys of so many ledgers' first rows.
fn keys(alloc: Global, rows: u64) -> io::Result<Vec<Key>> {
    let mut keys = Vec::new(alloc);
    for number in 0..rows {
        keys.push(Key::Row {
            handle: digest_of(&number.to_be_bytes()),
            height: 0,
        })?;
    }
    Ok(keys)
}

/// Fills so many stores, and reads them.
fn over_stores<R: Timer>(
    rt: &R,
    alloc: Global,
    keys: &[Key],
    rounds: u64,
) -> io::Result<(Round, Round)> {
    let mut stores = Vec::new(alloc);
    for _ in 0..rounds {
        stores.push(MemStore::new(alloc))?;
    }
    let calls = rounds.saturating_mul(keys.len() as u64);
    let mut sum = 0u64;
    let begin = Instant::now(rt)?;
    for store in stores.iter_mut() {
        sum = sum.wrapping_add(put_each(alloc, store, keys));
    }
    let time = begin.elapsed(rt)?;
    let puts = Round { calls, sum, time };
    let mut sum = 0u64;
    let begin = Instant::now(rt)?;
    for store in stores.iter_mut() {
        sum = sum.wrapping_add(get_each(alloc, store, keys));
    }
    let time = begin.elapsed(rt)?;
    Ok((puts, Round { calls, sum, time }))
}

/// How many puts were done.
fn put_each(alloc: Global, store: &mut MemStore, keys: &[Key]) -> u64 {
    let mut done = 0u64;
    for key in keys {
        if store.put_new(alloc, key, &BODY) == Put::Done {
            done = done.wrapping_add(1);
        }
    }
    done
}

/// How many bytes were given.
fn get_each(alloc: Global, store: &mut MemStore, keys: &[Key]) -> u64 {
    let mut bytes = 0u64;
    for key in keys {
        if let Got::Some(stored) = store.get(alloc, key) {
            bytes = bytes.wrapping_add(stored.body.bytes().len() as u64);
        }
    }
    bytes
}

/// The same over std's map, with a copy at each insertion and at each look-up.
fn over_maps<R: Timer>(
    rt: &R,
    alloc: Global,
    keys: &[Key],
    rounds: u64,
) -> io::Result<(Round, Round)> {
    let mut maps = Vec::new(alloc);
    for _ in 0..rounds {
        maps.push(BTreeMap::new(alloc))?;
    }
    let calls = rounds.saturating_mul(keys.len() as u64);
    let mut sum = 0u64;
    let begin = Instant::now(rt)?;
    for map in maps.iter_mut() {
        sum = sum.wrapping_add(insert_each(alloc, map, keys)?);
    }
    let time = begin.elapsed(rt)?;
    let insertions = Round { calls, sum, time };
    let mut sum = 0u64;
    let begin = Instant::now(rt)?;
    for map in maps.iter() {
        sum = sum.wrapping_add(look_up_each(alloc, map, keys)?);
    }
    let time = begin.elapsed(rt)?;
    Ok((insertions, Round { calls, sum, time }))
}

fn insert_each(
    alloc: Global,
    map: &mut BTreeMap<Key, Text>,
    keys: &[Key],
) -> Result<u64, AllocError> {
    let mut done = 0u64;
    for key in keys {
        let copy = Text::of(alloc, &BODY).map_err(|_| AllocError)?;
        if map.insert(*key, copy)?.is_none() {
            done = done.wrapping_add(1);
        }
    }
    Ok(done)
}

fn look_up_each(alloc: Global, map: &BTreeMap<Key, Text>, keys: &[Key]) -> Result<u64, AllocError> {
    let mut bytes = 0u64;
    for key in keys {
        if let Some(body) = map.get(key) {
            let copy = Text::of(alloc, body.bytes()).map_err(|_| AllocError)?;
            bytes = bytes.wrapping_add(copy.bytes().len() as u64);
        }
    }
    Ok(bytes)
}
