// Laws of ledgers as lists of entries.
ghost use Rattle.std.specs.Prelude.{◌≡◌, ◌≢◌, ℕ, ◌<◌, ◌++◌, ◌∷◌, [], List, length, replicate};
ghost use Rattle.chain_block.specs.declared.entry.Entry.{Entry};
ghost use Rattle.op_parts.specs.Walk.{block_tail};
ghost use Rattle.calm.specs.Ledgers.{Ledgers, tail_of, row_above, with_entry};

/// What a ledger's entries say of its rows and its tail.
pub fn ledgers_are_lists()
    // There is an entry at each height below their number.
    ensures at { (entries : List Entry) (height : ℕ) → height < length entries
        → (below : List Entry) × (entry : Entry) × (above : List Entry) × (entries ≡ below ++ entry ∷ above) × (length below ≡ height) }
    // The newest row gives the tail.
    ensures tail { (below : List Entry) (entry : Entry) → tail_of (below ++ entry ∷ []) ≡ block_tail (row_above below entry).metablock }
    ensures none { tail_of [] ≡ replicate 32 0 }
    // With one entry more, one ledger changes.
    ensures own { (ledgers : Ledgers) (handle : List ℕ) (entry : Entry) → with_entry ledgers handle entry handle ≡ ledgers handle ++ entry ∷ [] }
    ensures others { (ledgers : Ledgers) (handle other : List ℕ) (entry : Entry) → other ≢ handle → with_entry ledgers handle entry other ≡ ledgers other }
{}
