use crate::endorser_refusal::EndorserRefusal;
use crate::phase::Phase;
use nim_base::{Digest, Text};
use statement::Statement;
use tail_map::TailMap;

/// What an endorser answers.
#[derive(Debug, Drop)]
pub enum EndorserAnswer {
    /// It did as it was asked, or had done so before.
    Done,
    /// It signed this statement.
    Signed {
        statement: Statement,
        sig: Text,
    },
    /// It ended its view with this map, and signed so.
    Finaled {
        statement: Statement,
        sig: Text,
        map: TailMap,
    },
    /// Its phase, the number of its view (0 while it has none), and a ledger's tail and count.
    Shown {
        phase: Phase,
        number: u64,
        tail: Digest,
        count: u64,
    },
    /// It didn't, and nothing changed.
    Refused(EndorserRefusal),
}
