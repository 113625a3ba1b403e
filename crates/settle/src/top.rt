ghost use Rattle.std.specs.Prelude.{◌≡◌, ◌-◌};

use chain_block::MetaBlock;
use nim_base::Digest;
use std::marker::Model;

/// The row for which a receipt is wanted: the row that is settled, or the newest above it.
#[derive(Debug, Drop)]
pub struct Top {
    /// The row's tail.
    pub tail: Digest,
    /// The height above the row, which is the ledger's count after it.
    pub height: u64,
    /// The metablocks from above the row that is settled up to this one.
    pub blocks: Vec<MetaBlock>,
}

impl Model for Top {
    ghost use Rattle.std.specs.Prelude.{◌≡◌, ◌≤◌, ◌^◌, []};
    ghost use Rattle.op_parts.specs.Walk.{Place};

    ghost Value = { Place };

    ghost view = { λ top. record { tail = top.tail; height = top.height; blocks = top.blocks.items } };

    ghost invariant = { λ top. (1 ≤ top.height) × (top.blocks.items ≡ [] → top.height ≤ 2 ^ 32) };
}

impl Top {
    /// The row's own height.
    pub fn row_height(&self) -> u64
        ensures { result ≡ self.now.height - 1 }
    {
        self.height - 1
    }
}
