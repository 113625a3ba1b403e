ghost use Rattle.std.specs.Prelude.{◌≡◌, IfOk, IfSome, IsErrOf, take};
ghost use Rattle.std.specs.Io.KnownBytes.{Consumes};
ghost use Rattle.nim_outside.specs.Causes.{Rose};
ghost use Rattle.nimble.specs.declared.input.TheConstants.{LIMIT};

use nim_base::{NoMemory, Text};
use nim_outside::{Fault, Source};
use std::alloc::Global;

/// Why the input wasn't read.
#[derive(Clone, Copy, Debug, PartialEq, Eq)]
pub enum InputFault {
    Source,
    NoMemory,
}

impl From<Fault> for InputFault {
    ghost use Rattle.std.specs.Prelude.{◌≡◌};
    ghost use Rattle.nimble.specs.declared.input.InputFault.TheVariants as fault;

    ghost from_gives = { λ _ e. e ≡ fault.Source };

    fn from(_: Fault) -> InputFault {
        InputFault::Source
    }
}

impl From<NoMemory> for InputFault {
    ghost use Rattle.std.specs.Prelude.{◌≡◌};
    ghost use Rattle.nimble.specs.declared.input.InputFault.TheVariants as fault;

    ghost from_gives = { λ _ e. e ≡ fault.NoMemory };

    fn from(_: NoMemory) -> InputFault {
        InputFault::NoMemory
    }
}

/// One byte more than a script may have: what is as long is no script, whatever follows.
pub const LIMIT: usize = 1048577;

/// How many bytes are asked for at once.
const PIECE: usize = 4096;

/// Reads a source to its end, or through `LIMIT` bytes.
pub fn read_input<S: Source>(alloc: Global, source: &mut S) -> Result<Text, InputFault>
    ensures text { IfOk result (λ text. IfSome (S.left source.old) (λ all. text.bytes ≡ take LIMIT all)) }
    ensures read { IfOk result (λ text. Consumes (S.left source.old) (S.left source.new) text.bytes) }
    ensures fault { IsErrOf result InputFault.Source
        → Rose (S.fault_count source.old) (S.fault_count source.new) }
{
    let mut text = Text::of(alloc, &[])?;
    let mut piece = [0; PIECE];
    // each turn but the last reads a byte or more
    for _ in 0..LIMIT {
        let want = (LIMIT - text.bytes().len()).min(PIECE);
        if want == 0 {
            return Ok(text);
        }
        let count = source.read(&mut piece[..want])?;
        if count == 0 {
            return Ok(text);
        }
        text.push(&piece[..count])?;
    }
    Ok(text)
}
