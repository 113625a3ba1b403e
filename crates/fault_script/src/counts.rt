ghost use Rattle.std.specs.Prelude.{◌≡◌, ◌+◌, false, if◌then◌else◌};
ghost use Rattle.fault_script.specs.Limits.{is_new, is_raw_finalize, is_reconfigure, is_too_many};
ghost use Rattle.fault_script.specs.Seen.{command_of};

use crate::line::Line;

const MAX_NEWS: usize = 256;

const MAX_RECONFIGURES: usize = 24;

const MAX_FINALIZES: usize = 24;

/// How many lines of each kind there were of which there may be only so many.
#[derive(Clone, Copy)]
pub(crate) struct Counts {
    pub news: usize,
    pub reconfigures: usize,
    pub finalizes: usize,
}

impl Counts {
    pub fn new() -> Counts
        ensures { result ≡ record { news = 0; reconfigures = 0; finalizes = 0 } }
    {
        Counts {
            news: 0,
            reconfigures: 0,
            finalizes: 0,
        }
    }

    /// Whether a line is one too many of its kind.
    pub fn forbid(&self, line: &Line) -> bool
        ensures { result ≡ is_too_many self.now (command_of line.now) }
    {
        (line.is_new() && self.news >= MAX_NEWS)
            || (line.is_reconfigure() && self.reconfigures >= MAX_RECONFIGURES)
            || (line.is_raw_finalize() && self.finalizes >= MAX_FINALIZES)
    }

    /// The counts with one line more.
    pub fn with(&self, line: &Line) -> Counts
        requires { is_too_many self.now (command_of line.now) ≡ false }
        ensures news { result.news ≡ self.now.news + (if is_new (command_of line.now) then 1 else 0) }
        ensures reconfigures { result.reconfigures ≡ self.now.reconfigures + (if is_reconfigure (command_of line.now) then 1 else 0) }
        ensures finalizes { result.finalizes ≡ self.now.finalizes + (if is_raw_finalize (command_of line.now) then 1 else 0) }
    {
        let mut counts = *self;
        if line.is_new() {
            counts.news += 1;
        }
        if line.is_reconfigure() {
            counts.reconfigures += 1;
        }
        if line.is_raw_finalize() {
            counts.finalizes += 1;
        }
        counts
    }
}
