ghost use Rattle.std.specs.Prelude.{◌≡◌, IfOk};

use crate::row::Row;
use nim_base::NoMemory;
use statement::Receipt;
use std::alloc::Global;
use std::marker::Model;

/// The newest row of a ledger, or none where it has no entry, and a receipt over a nonce.
#[derive(Debug, Drop)]
pub struct LatestReply {
    pub row: Option<Row>,
    pub receipt: Receipt,
}

impl Model for LatestReply {
    ghost use Rattle.port.specs.Reply.{LatestReply};

    ghost Value = { LatestReply };

    ghost view = { λ reply. record { row = reply.row; receipt = reply.receipt } };
}

impl LatestReply {
    /// The same reply in memory of its own.
    pub fn copy(&self, alloc: Global) -> Result<LatestReply, NoMemory>
        ensures { IfOk result (λ copy. copy ≡ self.now) }
    {
        let row = match &self.row {
            None => None,
            Some(row) => Some(row.copy(alloc)?),
        };
        Ok(LatestReply {
            row,
            receipt: self.receipt.copy(alloc)?,
        })
    }
}
