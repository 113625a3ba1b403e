use nim_base::{Digest, Text};
use port::{EndorserRefusal, Phase};
use statement::Statement;

/// What an endorser answered, as a line keeps it. Of a Finaled it keeps no map, which the calls before
/// give again.
#[derive(Debug, Drop)]
pub enum CellAnswer {
    /// It did as it was asked, or had done so before.
    Done,
    /// It signed this statement.
    Signed {
        statement: Statement,
        sig: Text,
    },
    /// It ended its view, and signed so.
    Finaled {
        statement: Statement,
        sig: Text,
    },
    /// Its phase, the number of its view, and a ledger's tail and count.
    Shown {
        phase: Phase,
        number: u64,
        tail: Digest,
        count: u64,
    },
    /// It didn't, and nothing changed.
    Refused(EndorserRefusal),
}
