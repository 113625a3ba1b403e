use crate::top::Top;
use nim_base::Text;
use op_parts::{Round, Walk};
use port::Reason;
use statement::Receipt;

/// What a settling does next.
#[derive(Debug, Drop)]
pub enum Stage {
    /// It appends the row at the top to the members, one after the other.
    Round {
        round: Round,
        top: Top,
    },
    /// It gets the rows above the row that is settled. The members had these reasons in its round.
    Walk {
        walk: Walk,
        reasons: Vec<(u32, Reason)>,
    },
    /// It attaches the receipt, which has these bytes, to the row at the top.
    Attach {
        receipt: Receipt,
        bytes: Text,
        top: Top,
    },
    /// It has ended.
    Ended,
}
