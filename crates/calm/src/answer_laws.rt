// What one member answers that is active.
ghost use Rattle.std.specs.Prelude.{◌≡◌, ℕ, List};
ghost use Rattle.chain_block.specs.declared.meta_block.MetaBlock.{MetaBlock};
ghost use Rattle.tail_map.specs.TailMap.{get, set};
ghost use Rattle.port.specs.Answer.{Refused, Full};
ghost use Rattle.port.specs.Call.{Latest};
ghost use Rattle.port.specs.Heard.{Heard, Answered};
ghost use Rattle.port.specs.Link.{Bank};
ghost use Rattle.catch_up.specs.OwnCalls.{append_of};
ghost use Rattle.calm.specs.Answering.{ActiveMember, WasAsked, HasGone, DidSign, held_with, read_of};
ghost use Rattle.calm.specs.Appending.{IsNext, HasRoom, IsFull, row_of};

/// What an active member answers that has a stamp and a signature left, where its link loses nothing.
pub fn active_members_answer()
    // It signs a row on its ledger's tail and count, which it then holds, where there is room for it.
    ensures append_signs { (active : ActiveMember) (handle : List ℕ) (block : MetaBlock) (heard : Heard) (after : Bank)
        → WasAsked active (append_of handle block) heard after → IsNext active.rows handle block → HasRoom active.rows handle
        → DidSign active.signs active.member (held_with active.view handle block) heard }
    ensures append_holds { (active : ActiveMember) (handle : List ℕ) (block : MetaBlock) (heard : Heard) (after : Bank)
        → WasAsked active (append_of handle block) heard after → IsNext active.rows handle block → HasRoom active.rows handle
        → HasGone active (set active.rows (row_of handle block)) after }
    // Where there is none it says so.
    ensures append_refused { (active : ActiveMember) (handle : List ℕ) (block : MetaBlock) (heard : Heard) (after : Bank)
        → WasAsked active (append_of handle block) heard after → IsNext active.rows handle block → IsFull active.rows handle
        → heard ≡ Answered (Refused Full) }
    ensures append_full { (active : ActiveMember) (handle : List ℕ) (block : MetaBlock) (heard : Heard) (after : Bank)
        → WasAsked active (append_of handle block) heard after → IsNext active.rows handle block → IsFull active.rows handle
        → HasGone active active.rows after }
    // It signs the tail and count of any ledger.
    ensures latest_signs { (active : ActiveMember) (handle nonce : List ℕ) (heard : Heard) (after : Bank) → WasAsked active (Latest handle nonce) heard after
        → DidSign active.signs active.member (read_of active.view handle nonce (get active.rows handle)) heard }
    ensures latest_same { (active : ActiveMember) (handle nonce : List ℕ) (heard : Heard) (after : Bank) → WasAsked active (Latest handle nonce) heard after
        → HasGone active active.rows after }
{}
