// Laws of the calls of a latest read.
ghost use Rattle.std.specs.Prelude.{◌≡◌, ◌⊎◌, ◌++◌, ◌∷◌, ℕ, List, Err};
ghost use Rattle.port.specs.Call.{Call, Append, Latest};
ghost use Rattle.port.specs.Cause.{Cause, IsShown};
ghost use Rattle.port.specs.Heard.{Heard};
ghost use Rattle.port.specs.Store.{StoreCall, StoreAnswer};
ghost use Rattle.port.specs.Trace.{Event, AtStore, AtLink, Had};
ghost use Rattle.view_ledger.specs.Receipts.{Accepts};
ghost use Rattle.view_ledger.specs.Views.{ViewChain};
ghost use Rattle.op_latest.specs.LatestAsked.{LatestAsk, asking_of};
ghost use Rattle.op_latest.specs.LatestOwn.{GaveRow, IsOwnCall, IsOwnGet};
ghost use Rattle.op_latest.specs.LatestSays.{IsIdIn, LatestSays};
ghost use Rattle.op_latest.specs.LatestSound.{LatestSound};
ghost use Rattle.op_latest.specs.LatestState.{State};

/// A latest read makes no call but gets of views, of what ended them and of rows of the ledger, reads of the ledger with
/// the nonce, and appends of good rows of the ledger that the store gave before; it calls members of the newest view alone.
/// A member that was asked before is asked again only after it told the target's count.
pub fn latest_calls_are_own()
    ensures store { (accepts : Accepts) (ask : LatestAsk) (from : ViewChain) (state : State) (past : List Event) → LatestSound accepts ask from state past
        → (call : StoreCall) (answer : StoreAnswer) → Had past (AtStore call answer) → IsOwnGet ask.handle call }
    ensures link { (accepts : Accepts) (ask : LatestAsk) (from : ViewChain) (state : State) (past : List Event) → LatestSound accepts ask from state past
        → (id : ℕ) (call : Call) (heard : Heard) → Had past (AtLink id call heard)
        → IsIdIn (asking_of ask state.chain) id
        × ((call ≡ Latest ask.handle ask.nonce)
        ⊎ ((prev entry : List ℕ) × (height : ℕ) × (call ≡ Append ask.handle prev entry height) × GaveRow past ask.handle prev entry height)) }
    // What each call rests on in those before it.
    ensures each { (accepts : Accepts) (ask : LatestAsk) (from : ViewChain) (state : State) (past : List Event) → LatestSound accepts ask from state past
        → (newer : List Event) (event : Event) (older : List Event) → past ≡ newer ++ event ∷ older → IsOwnCall accepts (asking_of ask state.chain) older event }
{}

/// What the answer of a latest read says of a refusal shows its cause in these calls.
pub fn latest_refusals_are_shown()
    ensures { (accepts : Accepts) (ask : LatestAsk) (chain : ViewChain) (past : List Event) (cause : Cause) → LatestSays accepts ask chain past (Err cause) → IsShown past cause }
{}
