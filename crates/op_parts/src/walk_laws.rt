// What the calls of a walk show.
ghost use Rattle.std.specs.Prelude.{◌≡◌, ◌+◌, ℕ, List, [], length};
ghost use Rattle.chain_block.specs.Links.{Links};
ghost use Rattle.statement.specs.declared.member.Member.{Member};
ghost use Rattle.port.specs.Trace.{Event};
ghost use Rattle.view_ledger.specs.Receipts.{Accepts};
ghost use Rattle.op_parts.specs.Walk.{Place};
ghost use Rattle.op_parts.specs.WalkSound.{Walked};

/// The metablocks of a walk lead from the tail where it began to the tail where it is, one at each height.
pub fn walks_link()
    ensures heights { (accepts : Accepts) (configs : List (List Member)) (handle : List ℕ) (from to : Place) (events : List Event)
        → from.blocks ≡ [] → Walked accepts configs handle from events to → to.height ≡ from.height + length to.blocks }
    ensures links { (accepts : Accepts) (configs : List (List Member)) (handle : List ℕ) (from to : Place) (events : List Event)
        → from.blocks ≡ [] → Walked accepts configs handle from events to → Links to.blocks from.tail from.height to.tail }
{}
