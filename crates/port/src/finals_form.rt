ghost use Rattle.std.specs.Prelude.{◌≡◌, ◌⊎◌, ◌≤◌, ◌++◌, List, length, map, Ok, Err, IfOk, IfErr, OnOk};
ghost use Rattle.nim_base.specs.declared.form_fault.FormFault.{FormFault};
ghost use Rattle.statement.specs.Mark.{IsSignature};
ghost use Rattle.statement.specs.Reading.{MayGive};
ghost use Rattle.port.specs.View.{FinalMap};
ghost use Rattle.port.specs.FinalsForm.{AreFinals, IsFinal, IsFinals, final_bytes, finals_bytes, FinalsShow};

use crate::final_map::FinalMap;
use crate::finals_reading::read_whole;
use nim_base::{FormFault, NoMemory, Text};
use std::alloc::Global;
use tail_map::one_form;

pub(crate) const KIND: u8 = 0x31;

/// The bytes of what ends a view: the kind 31 in hexadecimal, the number of finals in 1 byte, and for each
/// its id in 4, the length of its signature in 2, the signature, the length of its map in 4 and the map.
pub fn write_finals(alloc: Global, finals: &[FinalMap]) -> Result<Text, NoMemory>
    requires { AreFinals finals.now }
    ensures bytes { IfOk result (λ text. text.bytes ≡ finals_bytes finals.now) }
    // They are read again as these finals.
    ensures finals { OnOk result (IsFinals finals.now) }
{
    let mut text = Text::of(alloc, &[KIND, finals.len() as u8])?;
    for ended in finals {
        put_final(alloc, &mut text, ended)?;
    }
    Ok(text)
}

/// The finals whose bytes these are. A refusal names the fault that shows first, from the front, where the
/// fields have the lengths that [`write_finals`] says:
///
/// - `Kind` shows at the first byte, where it isn't that of finals.
/// - `Value` shows at the number of finals, where it is 0 or above 15, at the length of a signature, where
///   it is 0 or above [`MAX_SIGNATURE`](statement::MAX_SIGNATURE), and where the bytes of a map are no map's.
/// - `Order` shows at an id that isn't above the one before, also where the bytes end behind it.
/// - `Short` shows where the bytes end inside a field. What a whole field before shows comes first.
/// - `Trailing` shows at a byte after the last final.
pub fn read_finals(alloc: Global, bytes: &[u8]) -> Result<Vec<FinalMap>, FormFault>
    // What is read is what finals write, and these finals are read from it, unless memory runs out.
    ensures found { IfOk result (λ finals. IsFinals finals.items × (bytes.now ≡ finals_bytes finals.items)) }
    ensures only { (finals : List FinalMap) → IsFinals finals → bytes.now ≡ finals_bytes finals → MayGive (λ read. read.items) result (Ok finals) }

    // A refusal is the fault that shows first, and that fault is the refusal, unless memory runs out.
    ensures fault { IfErr result (λ fault. (fault ≡ FormFault.NoMemory) ⊎ FinalsShow bytes.now fault) }
    ensures first { (fault : FormFault) → FinalsShow bytes.now fault → MayGive (λ read. read.items) result (Err fault) }
{
    one_form();
    read_whole(alloc, bytes)
}

fn put_final(alloc: Global, text: &mut Text, ended: &FinalMap) -> Result<(), NoMemory>
    requires { IsSignature ended.now.sig }
    ensures bytes { OnOk result (text.new.bytes ≡ text.old.bytes ++ final_bytes ended.now) }
    ensures ended { OnOk result (IsFinal ended.now) }
{
    let FinalMap { id, map, sig } = ended;
    let sig = sig.bytes();
    // The rows are opened, so that what they are is known.
    let _ = map.rows();
    let map = map.write(alloc)?;
    text.push(&id.to_be_bytes())?;
    text.push(&(sig.len() as u16).to_be_bytes())?;
    text.push(sig)?;
    text.push(&(map.bytes().len() as u32).to_be_bytes())?;
    text.push(map.bytes())
}
