// What the calls of a refresh show.
ghost use Rattle.std.specs.Prelude.{List};
ghost use Rattle.port.specs.Trace.{Event};
ghost use Rattle.view_ledger.specs.Receipts.{Accepts};
ghost use Rattle.view_ledger.specs.Views.{ViewChain};
ghost use Rattle.op_parts.specs.Refresh.{HasGrown};
ghost use Rattle.op_parts.specs.RefreshSound.{Sound};
ghost use Rattle.op_parts.specs.RefreshState.{RefreshState};

/// Whatever a refresh has come to, the chain grew by the oldest of its calls.
pub fn refreshes_grow()
    ensures { (accepts : Accepts) (from chain : ViewChain) (refresh : RefreshState) (past : List Event) → Sound accepts from refresh chain past
        → HasGrown accepts from chain past }
{}
