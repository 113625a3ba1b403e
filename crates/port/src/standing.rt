ghost use Rattle.std.specs.Prelude.{◌≡◌, IfOk};

use crate::row::Row;
use chain_block::MetaBlock;
use nim_base::NoMemory;
use statement::Receipt;
use std::alloc::Global;
use std::marker::Model;

/// A row of a ledger, and a receipt for the last block of the chain that leads on from it, or for the
/// row itself where the chain is empty.
#[derive(Debug, Drop)]
pub struct Standing {
    pub row: Row,
    pub chain: Vec<MetaBlock>,
    pub receipt: Receipt,
}

impl Model for Standing {
    ghost use Rattle.port.specs.Reply.{Standing};

    ghost Value = { Standing };

    ghost view = { λ standing. record { row = standing.row; chain = standing.chain.items; receipt = standing.receipt } };
}

impl Standing {
    /// The same in memory of its own.
    pub fn copy(&self, alloc: Global) -> Result<Standing, NoMemory>
        ensures { IfOk result (λ copy. copy ≡ self.now) }
    {
        Ok(Standing {
            row: self.row.copy(alloc)?,
            chain: Vec::from_slice(alloc, &self.chain)?,
            receipt: self.receipt.copy(alloc)?,
        })
    }
}
