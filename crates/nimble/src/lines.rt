// The lines that stand in place of all reply lines.
ghost use Rattle.std.specs.Prelude.{◌≡◌, IfOk};
ghost use Rattle.nimble.specs.Lines.{bad_line, cause_word, exhibit_line};

use fault_script::{BadCause, push_number, push_word};
use nim_base::{NoMemory, Text};
use std::alloc::Global;

fn cause_word(cause: BadCause) -> &'static [u8]
    ensures { result.now ≡ cause_word cause }
{
    match cause {
        BadCause::Long => b"long",
        BadCause::Char => b"char",
        BadCause::Order => b"order",
        BadCause::Word => b"word",
        BadCause::Count => b"count",
        BadCause::Name => b"name",
        BadCause::Number => b"number",
        BadCause::Ids => b"ids",
        BadCause::Payload => b"payload",
        BadCause::Label => b"label",
        BadCause::Op => b"op",
        BadCause::Many => b"many",
        BadCause::End => b"end",
    }
}

/// `badline NUMBER CAUSE`: the first bad line and its first cause, whose name stands in small letters.
pub fn bad_line(alloc: Global, number: u64, cause: BadCause) -> Result<Text, NoMemory>
    ensures { IfOk result (λ line. line.bytes ≡ bad_line number cause) }
{
    let mut line = Text::of(alloc, b"badline")?;
    push_number(alloc, &mut line, number)?;
    push_word(&mut line, cause_word(cause))?;
    line.push(b"\n")?;
    Ok(line)
}

/// `exhibit collision ONE OTHER`, both texts in hexadecimal.
pub fn exhibit_line(alloc: Global, one: &[u8], other: &[u8]) -> Result<Text, NoMemory>
    ensures { IfOk result (λ line. line.bytes ≡ exhibit_line one.now other.now) }
{
    let mut line = Text::of(alloc, b"exhibit collision ")?;
    line.push(hex::encode(alloc, one)?.as_bytes())?;
    line.push(b" ")?;
    line.push(hex::encode(alloc, other)?.as_bytes())?;
    line.push(b"\n")?;
    Ok(line)
}
