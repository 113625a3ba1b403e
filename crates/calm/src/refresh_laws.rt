// What a refresh answers where all views stand.
ghost use Rattle.std.specs.Prelude.{◌≡◌, ◌∷◌, ℕ, List, length, Result};
ghost use Rattle.nim_base.specs.declared.no_memory.NoMemory.{NoMemory};
ghost use Rattle.statement.specs.declared.member.Member.{Member};
ghost use Rattle.statement.specs.declared.view_block.ViewBlock.{ViewBlock};
ghost use Rattle.port.specs.Cause.{Cause};
ghost use Rattle.port.specs.Contents.{Contents};
ghost use Rattle.port.specs.Link.{Bank};
ghost use Rattle.port.specs.Trace.{Event, AreHonest, AreFaithful};
ghost use Rattle.view_ledger.specs.Receipts.{Accepts};
ghost use Rattle.view_ledger.specs.Views.{ViewChain};
ghost use Rattle.op_parts.specs.declared.refresh_turn.RefreshProgress.{RefreshProgress};
ghost use Rattle.op_parts.specs.Refresh.{Grew};
ghost use Rattle.op_parts.specs.RefreshSays.{GaveNoView, IsRefusedAtView, IsRefusedAtFinals};
ghost use Rattle.op_parts.specs.RefreshSound.{IsHalfway, Sound, Goes};
ghost use Rattle.op_parts.specs.RefreshState.{RefreshState};
ghost use Rattle.calm.specs.StandingViews.{IsFront};
ghost use Rattle.calm.specs.Members.{Signs};
ghost use Rattle.calm.specs.Refreshing.{ReadyRefresh, FindsAll};

use port::{finals_have_own_bytes, views_have_own_bytes};

/// A refresh over an honest store in which all views stand is never refused, and where it ends its chain has all of them.
pub fn refreshes_find_all_views()
    // Whatever calls it has made, the chain has the first of the views, and nothing has changed in the store.
    ensures front { (refresh : ReadyRefresh) (chain : ViewChain) (state : RefreshState) (past : List Event) (later : Contents)
        → Sound refresh.accepts refresh.from state chain past → AreHonest refresh.contents past later → IsFront refresh.roster refresh.configs chain }
    ensures same { (refresh : ReadyRefresh) (chain : ViewChain) (state : RefreshState) (past : List Event) (later : Contents)
        → Sound refresh.accepts refresh.from state chain past → AreHonest refresh.contents past later → later ≡ refresh.contents }
    // What the next call is answered.
    ensures all { (refresh : ReadyRefresh) (chain longer : ViewChain) (state new : RefreshState) (past : List Event) (event : Event) (later : Contents) (result : Result RefreshProgress NoMemory)
        → Sound refresh.accepts refresh.from state chain past → AreHonest refresh.contents (event ∷ past) later
        → Goes refresh.accepts state chain event new longer result → FindsAll refresh.roster refresh.configs longer result }
{
    views_have_own_bytes();
    finals_have_own_bytes();
}

/// A whole refresh over an honest store in which all views stand ends with a chain of all of them, and has changed nothing.
pub fn whole_refreshes_find_all_views()
    ensures all { (refresh : ReadyRefresh) (chain : ViewChain) (past : List Event) (event : Event) (later : Contents)
        → Grew refresh.accepts refresh.from past chain → GaveNoView (length chain.configs) event → AreHonest refresh.contents (event ∷ past) later
        → chain ≡ record { roster = refresh.roster; configs = refresh.configs } }
    ensures same { (refresh : ReadyRefresh) (chain : ViewChain) (past : List Event) (event : Event) (later : Contents)
        → Grew refresh.accepts refresh.from past chain → GaveNoView (length chain.configs) event → AreHonest refresh.contents (event ∷ past) later
        → later ≡ refresh.contents }
    ensures unasked { (accepts : Accepts) (signs : Signs) (bank after : Bank) (from chain : ViewChain) (past : List Event) (event : Event)
        → Grew accepts from past chain → GaveNoView (length chain.configs) event → AreFaithful signs bank (event ∷ past) after → after ≡ bank }
    // No call refuses it.
    ensures view_stays { (refresh : ReadyRefresh) (chain : ViewChain) (past : List Event) (event : Event) (later : Contents) (cause : Cause)
        → Grew refresh.accepts refresh.from past chain → AreHonest refresh.contents (event ∷ past) later → IsRefusedAtView (length chain.configs) event cause → ⊥ }
    ensures finals_stay { (refresh : ReadyRefresh) (chain : ViewChain) (body : List ℕ) (block : ViewBlock) (config : List Member) (past : List Event) (event : Event) (later : Contents) (cause : Cause)
        → IsHalfway refresh.accepts refresh.from body block config chain past → AreHonest refresh.contents (event ∷ past) later
        → IsRefusedAtFinals refresh.accepts chain body block config event cause → ⊥ }
    // However far it has come, it has asked no endorser.
    ensures never_asked { (accepts : Accepts) (signs : Signs) (bank after : Bank) (from chain : ViewChain) (state : RefreshState) (past : List Event)
        → Sound accepts from state chain past → AreFaithful signs bank past after → after ≡ bank }
{
    views_have_own_bytes();
    finals_have_own_bytes();
}
