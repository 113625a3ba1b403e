ghost use Rattle.std.specs.Prelude.{◌≡◌, List, length, map, IsTrue, IfOk, IfErr};
ghost use Rattle.std.specs.List.{flat_map, AllByRecursion};
ghost use Rattle.tail_map.specs.TailMap.{IsMap};
ghost use Rattle.tail_map.specs.MapForm.{map_bytes};
ghost use Rattle.statement.specs.Ids.{is_above, IsRising};
ghost use Rattle.statement.specs.FormFault.{ShowsAmong};
ghost use Rattle.port.specs.Field.{sized, SizedBegins};
ghost use Rattle.port.specs.FinalsForm.{id_of, IsFinal, IsFinals, final_bytes, finals_bytes, FinalBegins, FinalsBegin, FinalsShow};
ghost use Rattle.port.specs.Finding.{Finds, Missed, AreItems};

use crate::final_map::FinalMap;
use crate::finals_form::KIND;
use crate::reading::{end, read_byte, read_kind, read_signature, read_sized, read_u32};
use nim_base::{Cursor, FormFault};
use std::alloc::Global;
use tail_map::TailMap;

const MAX_FINALS: u8 = 15;

/// The finals that have these bytes, all of them.
pub(crate) fn read_whole(alloc: Global, bytes: &[u8]) -> Result<Vec<FinalMap>, FormFault>
    ensures found { IfOk result (λ finals. IsFinals finals.items × (bytes.now ≡ finals_bytes finals.items)) }
    ensures fault { IfErr result (λ fault. Missed FinalsShow bytes.now fault) }
{
    let mut cursor = Cursor::new(bytes);
    let finals = read_finals(alloc, &mut cursor)?;
    end(&cursor)?;
    Ok(finals)
}

fn read_finals(alloc: Global, cursor: &mut Cursor) -> Result<Vec<FinalMap>, FormFault>
    ensures { Finds (λ finals. finals.items) IsFinals finals_bytes FinalsBegin cursor.old cursor.new result }
{
    read_kind(cursor, KIND)?;
    let number = read_byte(cursor)?;
    if number == 0 || number > MAX_FINALS {
        return Err(FormFault::Value);
    }
    read_each(alloc, cursor, number)
}

fn read_each(alloc: Global, cursor: &mut Cursor, number: u8) -> Result<Vec<FinalMap>, FormFault>
    ensures { Finds (λ finals. finals.items) (AreItems id_of IsFinal number) (flat_map final_bytes) (ShowsAmong IsFinal final_bytes id_of FinalBegins number) cursor.old cursor.new result }
{
    let mut finals = Vec::with_capacity(alloc, number as usize)?;
    let mut before = None;
    for _ in 0..number {
        let ended = read_final(alloc, cursor, before)?;
        before = Some(ended.id);
        finals.push(ended)?;
    }
    Ok(finals)
}

fn read_final(
    alloc: Global,
    cursor: &mut Cursor,
    before: Option<u32>,
) -> Result<FinalMap, FormFault>
    ensures { Finds (λ ended. ended) (λ ended. IsTrue (is_above before ended.id) × IsFinal ended) final_bytes (FinalBegins before) cursor.old cursor.new result }
{
    let id = read_u32(cursor)?;
    if !is_above(before, id) {
        return Err(FormFault::Order);
    }
    let sig = read_signature(alloc, cursor)?;
    let map = read_map(alloc, cursor)?;
    Ok(FinalMap { id, map, sig })
}

fn is_above(before: Option<u32>, id: u32) -> bool
    ensures { result ≡ is_above before id }
{
    match before {
        None => true,
        Some(before) => before < id,
    }
}

fn read_map(alloc: Global, cursor: &mut Cursor) -> Result<TailMap, FormFault>
    ensures { Finds (λ map. map.rows) IsMap (sized map_bytes) (SizedBegins IsMap map_bytes) cursor.old cursor.new result }
{
    let bytes = read_sized(cursor)?;
    match TailMap::read(alloc, bytes) {
        Ok(map) => Ok(map),
        Err(FormFault::NoMemory) => Err(FormFault::NoMemory),
        Err(_) => Err(FormFault::Value),
    }
}
