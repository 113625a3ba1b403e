ghost use Rattle.std.specs.Prelude.{◌≡◌, ◌≤◌, [], IfOk, IfErr, length, map};
ghost use Rattle.fault_script.specs.Script.{Fails, Gives, lines, read_after, script_of};

use crate::bad_cause::BadCause;
use crate::line_fault::LineFault;
use crate::reader::Reader;
use crate::script::{MAX_BYTES, Script};
use crate::script_fault::ScriptFault;
use crate::words::{parts, word};
use nim_base::NoMemory;
use std::alloc::Global;

const MAX_LINES: usize = 65536;

/// The lines of a text.
fn lines(alloc: Global, text: &[u8]) -> Result<Vec<&[u8]>, NoMemory>
    ensures { IfOk result (λ found. map (λ line. line.now) found.items ≡ lines text.now) }
{
    let mut lines = parts(alloc, text, b'\n')?;
    if word(&lines, lines.len().saturating_sub(1)).is_empty() {
        let _ = lines.pop();
    }
    Ok(lines)
}

fn read_lines(alloc: Global, lines: &[&[u8]]) -> Result<Reader, ScriptFault>
    requires { length lines.now ≤ 65536 }
    ensures { Gives result (read_after [] (map (λ line. line.now) lines.now)) }
{
    let mut reader = Reader::new(alloc);
    for (place, line) in lines.iter().enumerate() {
        match reader.take(alloc, line) {
            Ok(longer) => reader = longer,
            Err(LineFault::Bad(cause)) => {
                return Err(ScriptFault::BadLine {
                    number: place as u64 + 1,
                    cause,
                });
            }
            Err(LineFault::NoMemory) => return Err(ScriptFault::NoMemory),
        }
    }
    if reader.has_ended() {
        Ok(reader)
    } else {
        Err(ScriptFault::BadLine {
            number: lines.len() as u64 + 1,
            cause: BadCause::End,
        })
    }
}

#[tactic(auto, unfolding(crate::specs::Script::script_of))]
fn read_text(alloc: Global, bytes: &[u8]) -> Result<Reader, ScriptFault>
    ensures { Gives result (script_of bytes.now) }
{
    if bytes.len() > MAX_BYTES {
        return Err(ScriptFault::BadLine {
            number: 0,
            cause: BadCause::Long,
        });
    }
    let lines = lines(alloc, bytes)?;
    if lines.len() > MAX_LINES {
        return Err(ScriptFault::BadLine {
            number: MAX_LINES as u64 + 1,
            cause: BadCause::Long,
        });
    }
    read_lines(alloc, &lines)
}

/// Reads a script. It looks at no byte of a text of more than 1,048,576.
///
/// A `BadLine` has the number of the first bad line, from 1, and the first cause that applies to it;
/// the number is 0 for a text that is too long, 65,537 for one of too many lines, and one more than
/// there are lines where `end` is missing.
pub fn read(alloc: Global, bytes: &[u8]) -> Result<Script, ScriptFault>
    ensures script { IfOk result (λ script. script_of bytes.now ≡ Ok script) }
    ensures fault { IfErr result (λ fault. Fails fault (script_of bytes.now)) }
{
    let reader = read_text(alloc, bytes)?;
    Ok(Script::of(reader.into_lines()))
}
