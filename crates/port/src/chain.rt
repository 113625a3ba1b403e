ghost use Rattle.std.specs.Prelude.{◌≡◌, IfOk};

use chain_block::MetaBlock;
use nim_base::{Digest, NoMemory};
use std::alloc::Global;
use std::marker::Model;

/// Metablocks of one ledger that lead from one tail to another.
#[derive(Debug, Drop)]
pub struct Chain {
    pub handle: Digest,
    pub blocks: Vec<MetaBlock>,
}

impl Model for Chain {
    ghost use Rattle.port.specs.View.{Chain};

    ghost Value = { Chain };

    ghost view = { λ chain. record { handle = chain.handle; blocks = chain.blocks.items } };
}

impl Chain {
    /// The same chain in memory of its own.
    pub fn copy(&self, alloc: Global) -> Result<Chain, NoMemory>
        ensures { IfOk result (λ copy. copy ≡ self.now) }
    {
        Ok(Chain {
            handle: self.handle,
            blocks: Vec::from_slice(alloc, &self.blocks)?,
        })
    }
}
