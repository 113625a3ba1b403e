ghost use Rattle.std.specs.Prelude.{◌≡◌, ◌↔◌, None, true};
ghost use Rattle.std.specs.Option.{option_map};

use crate::found::Found;
use crate::wanted::Wanted;
use chain_block::Entry;
use nim_base::{Digest, Text};
use op_parts::Refresh;
use port::{Refusal, Row, Standing};
use settle::Settle;

/// What an operation does next.
#[derive(Debug, Drop)]
pub enum Stage {
    /// It refreshes the chain of views.
    Refresh { wanted: Wanted, refresh: Refresh },
    /// It gets the row below the entry.
    GetBelow { entry: Entry },
    /// It puts the row, which has these bytes.
    Put { row: Row, body: Text },
    /// It gets what stands in the row's place, which was taken.
    GetTaken { row: Row },
    /// It gets the row of the ledger at the height.
    GetAt { handle: Digest, height: u64 },
    /// It brings the row to a receipt.
    Settle { found: Found, settle: Settle },
    /// It has ended with this answer.
    Ended { answer: Result<Standing, Refusal> },
}

impl Stage {
    ghost use Rattle.op_entry.specs.State.{answer_at, answer_of, is_live_at, stage_of};

    /// The answer at the end.
    pub fn into_answer(self) -> Option<Result<Standing, Refusal>>
        ensures answer { option_map answer_of result ≡ answer_at (stage_of self) }
        ensures live { (result ≡ None) ↔ (is_live_at (stage_of self) ≡ true) }
    {
        match self {
            Stage::Ended { answer } => Some(answer),
            _ => None,
        }
    }
}
