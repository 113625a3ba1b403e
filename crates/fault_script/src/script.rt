ghost use Rattle.std.specs.Prelude.{◌≡◌, ◌≤◌, ◌++◌, ◌∷◌, List, [], true, IfOk, count_by, length, take};
ghost use Rattle.fault_script.specs.Command.{Command};
ghost use Rattle.fault_script.specs.Limits.{is_new};
ghost use Rattle.fault_script.specs.Script.{is_plain, script_of};
ghost use Rattle.fault_script.specs.Seen.{commands_of};
ghost use Rattle.fault_script.specs.Spelling.{text_of};
ghost use Rattle.fault_script.specs.Line.{has_ended};
ghost use Rattle.fault_script.specs.Within.{AllFit, Fits};

use crate::line::Line;
use crate::writing::write_lines;
use nim_base::{NoMemory, Text};
use std::alloc::Global;
use std::marker::Model;

/// How many bytes a script may have.
pub(crate) const MAX_BYTES: usize = 1048576;

/// The lines of a text that is a script.
#[derive(Debug, Drop)]
pub struct Script {
    lines: Vec<Line>,
}

impl Model for Script {
    ghost use Rattle.std.specs.Prelude.{◌≡◌, List, Ok};
    ghost use Rattle.fault_script.specs.Command.{Command};
    ghost use Rattle.fault_script.specs.Script.{script_of};
    ghost use Rattle.fault_script.specs.Seen.{commands_of};
    ghost use Rattle.fault_script.specs.Spelling.{text_of};

    ghost Value = { List Command };

    ghost view = { λ script. commands_of script.lines.items };

    // it is written as a text that reads as it again
    ghost invariant = { λ script. script_of (text_of (commands_of script.lines.items)) ≡ Ok (commands_of script.lines.items) };
}

fn are_plain(lines: &[Line]) -> bool
    ensures { result ≡ is_plain (commands_of lines.now) }
{
    lines.iter().all(|line| line.is_plain())
}

fn front(text: &[u8], limit: usize) -> &[u8]
    ensures { result.now ≡ take limit text.now }
{
    if text.len() > limit {
        &text[..limit]
    } else {
        text
    }
}

fn write_within(alloc: Global, lines: &[Line]) -> Result<Text, NoMemory>
    ensures { IfOk result (λ text. text.bytes ≡ text_of (commands_of lines.now)) }
{
    let text = write_lines(alloc, lines)?;
    let kept = front(text.bytes(), MAX_BYTES);
    if kept.len() < text.bytes().len() {
        return Text::of(alloc, kept);
    }
    Ok(text)
}

impl Script {
    pub(crate) fn of(lines: Vec<Line>) -> Script
        requires { script_of (text_of (commands_of lines.items)) ≡ Ok (commands_of lines.items) }
        ensures { result ≡ commands_of lines.items }
    {
        Script { lines }
    }

    /// The lines, up to 65,536. Each keeps the limits of its words and fits after those before it:
    /// `genesis` is the first, `end` the last, and no label or operation is misused. Up to 256 are
    /// `new`, and none is a `reconfigure` or a `raw finalize`.
    pub fn lines(&self) -> &[Line]
        ensures lines { commands_of result.now ≡ self.now }
        ensures script { script_of (text_of self.now) ≡ Ok self.now }
        ensures fits { AllFit [] self.now }
        ensures each { (before : List Command) (command : Command) (after : List Command) → self.now ≡ before ++ command ∷ after → Fits before command }
        ensures ended { has_ended self.now ≡ true }
        ensures count { length self.now ≤ 65536 }
        ensures news { count_by is_new self.now ≤ 256 }
    {
        &self.lines
    }

    /// Whether there are only `genesis`, `new`, `append`, `latest`, `at`, `reconfigure`, `restart` and
    /// `end` lines.
    pub fn is_plain(&self) -> bool
        ensures { result ≡ is_plain self.now }
    {
        are_plain(&self.lines)
    }

    /// The script as text that reads as this script again. Each line has its line feed, but for the
    /// last one of a text that has 1,048,576 bytes without it.
    pub fn write(&self, alloc: Global) -> Result<Text, NoMemory>
        ensures written { IfOk result (λ text. text.bytes ≡ text_of self.now) }
        ensures again { IfOk result (λ text. script_of text.bytes ≡ Ok self.now) }
    {
        write_within(alloc, &self.lines)
    }
}
