ghost use Rattle.std.specs.Prelude.{◌≡◌, ◌==◌, ◌++◌, [], ◌∷◌, None, IfOk, length};
ghost use Rattle.fault_script.specs.Command.{Command};
ghost use Rattle.fault_script.specs.Line.{commands_after, fault_after, has_ended};
ghost use Rattle.fault_script.specs.Outcome.{Gives};
ghost use Rattle.fault_script.specs.Seen.{command_of, commands_of};

use crate::bad_cause::BadCause;
use crate::counts::Counts;
use crate::labels::Labels;
use crate::line::Line;
use crate::line_fault::LineFault;
use crate::line_reading::read_alone;
use crate::operations::Operations;
use nim_base::NoMemory;
use std::alloc::Global;
use std::marker::Model;

/// The lines so far, and what they have brought about.
#[derive(Drop)]
pub(crate) struct Reader {
    lines: Vec<Line>,
    labels: Labels,
    operations: Operations,
    counts: Counts,
    ended: bool,
}

impl Model for Reader {
    ghost use Rattle.std.specs.Prelude.{List};
    ghost use Rattle.fault_script.specs.Command.{Command};
    ghost use Rattle.fault_script.specs.Kept.{IsKept};
    ghost use Rattle.fault_script.specs.Seen.{commands_of};

    ghost Value = { List Command };

    ghost view = { λ reader. commands_of reader.lines.items };

    ghost invariant = { λ reader. IsKept reader.labels reader.operations reader.counts reader.ended (commands_of reader.lines.items) };
}

impl Reader {
    pub fn new(alloc: Global) -> Reader
        ensures { result ≡ [] }
    {
        Reader {
            lines: Vec::new(alloc),
            labels: Labels::new(alloc),
            operations: Operations::new(alloc),
            counts: Counts::new(),
            ended: false,
        }
    }

    pub fn has_ended(&self) -> bool
        ensures { result ≡ has_ended self.now }
    {
        self.ended
    }

    fn is_empty(&self) -> bool
        ensures { result ≡ (length self.now == 0) }
    {
        self.lines.is_empty()
    }

    /// What is wrong with a line after those so far.
    fn fault(&self, line: &Line) -> Option<BadCause>
        ensures { result ≡ fault_after self.now (command_of line.now) }
    {
        if self.labels.forbid(line) {
            return Some(BadCause::Label);
        }
        if self.operations.forbid(line) {
            return Some(BadCause::Op);
        }
        if self.counts.forbid(line) {
            return Some(BadCause::Many);
        }
        None
    }

    /// Adds a line with which nothing is wrong.
    fn with(self, alloc: Global, line: Line) -> Result<Reader, NoMemory>
        requires { fault_after self (command_of line) ≡ None }
        ensures { IfOk result (λ reader. reader ≡ self ++ command_of line ∷ []) }
    {
        let Reader {
            mut lines,
            mut labels,
            mut operations,
            counts,
            ended,
        } = self;
        labels.note(alloc, &line)?;
        operations.note(alloc, &line, lines.len())?;
        let counts = counts.with(&line);
        let ended = ended || line.is_end();
        lines.push(line)?;
        Ok(Reader {
            lines,
            labels,
            operations,
            counts,
            ended,
        })
    }

    /// Reads the next line.
    #[tactic(auto, unfolding(crate::specs::Line::command_after))]
    pub fn take(self, alloc: Global, text: &[u8]) -> Result<Reader, LineFault>
        ensures { Gives (λ reader. reader) result (commands_after self text.now) }
    {
        let line = read_alone(alloc, self.is_empty(), self.has_ended(), text)?;
        if let Some(cause) = self.fault(&line) {
            return Err(LineFault::Bad(cause));
        }
        Ok(self.with(alloc, line)?)
    }

    pub fn into_lines(self) -> Vec<Line>
        ensures { commands_of result.items ≡ self }
    {
        let Reader { lines, .. } = self;
        lines
    }
}
