// How the words of a line are written, each behind a space.
ghost use Rattle.std.specs.Prelude.{◌≡◌, ◌++◌, ◌∷◌, OnOk};
ghost use Rattle.std.specs.Fmt.{decimal};
ghost use Rattle.std.specs.List.{flat_map};
ghost use Rattle.fault_script.specs.Spelling.{joined};

use nim_base::{NoMemory, Text};
use std::alloc::Global;

fn push_digits(alloc: Global, text: &mut Text, number: u64) -> Result<(), NoMemory>
    ensures { OnOk result (text.new.bytes ≡ text.old.bytes ++ decimal number) }
{
    let digits = number.to_string(alloc)?;
    text.push(digits.as_bytes())
}

/// A space and a word.
pub fn push_word(text: &mut Text, word: &[u8]) -> Result<(), NoMemory>
    ensures { OnOk result (text.new.bytes ≡ text.old.bytes ++ 32 ∷ word.now) }
{
    text.push(b" ")?;
    text.push(word)
}

/// A space and a decimal number without leading zeros.
pub fn push_number(alloc: Global, text: &mut Text, number: u64) -> Result<(), NoMemory>
    ensures { OnOk result (text.new.bytes ≡ text.old.bytes ++ 32 ∷ decimal number) }
{
    text.push(b" ")?;
    push_digits(alloc, text, number)
}

/// A space, `=` and a payload.
pub fn push_payload(text: &mut Text, payload: &[u8]) -> Result<(), NoMemory>
    ensures { OnOk result (text.new.bytes ≡ text.old.bytes ++ 32 ∷ 61 ∷ payload.now) }
{
    text.push(b" =")?;
    text.push(payload)
}

fn push_other_id(alloc: Global, text: &mut Text, id: u32) -> Result<(), NoMemory>
    ensures { OnOk result (text.new.bytes ≡ text.old.bytes ++ 44 ∷ decimal id) }
{
    text.push(b",")?;
    push_digits(alloc, text, u64::from(id))
}

fn push_other_ids(alloc: Global, text: &mut Text, ids: &[u32]) -> Result<(), NoMemory>
    ensures { OnOk result (text.new.bytes
        ≡ text.old.bytes ++ flat_map (λ other. 44 ∷ decimal other) ids.now) }
{
    for id in ids {
        push_other_id(alloc, text, *id)?;
    }
    Ok(())
}

/// A space and decimal numbers, joined by commas.
pub fn push_ids(alloc: Global, text: &mut Text, ids: &[u32]) -> Result<(), NoMemory>
    ensures { OnOk result (text.new.bytes ≡ text.old.bytes ++ 32 ∷ joined ids.now) }
{
    text.push(b" ")?;
    match ids {
        [] => {}
        [first, others @ ..] => {
            push_digits(alloc, text, u64::from(*first))?;
            push_other_ids(alloc, text, others)?;
        }
    }
    Ok(())
}
