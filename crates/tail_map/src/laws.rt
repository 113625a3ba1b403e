ghost use Rattle.std.specs.Prelude.{◌≡◌, ◌≢◌, ℕ, List};
ghost use Rattle.tail_map.specs.declared.tail_row.TailRow.{TailRow};
ghost use Rattle.tail_map.specs.TailMap.{IsMap, get, set};
ghost use Rattle.tail_map.specs.MapForm.{map_bytes};

/// Two maps with the same bytes have the same rows.
pub fn one_form()
    ensures { (a b : List TailRow) → IsMap a → IsMap b → map_bytes a ≡ map_bytes b → a ≡ b }
{}

/// Where a row is set, its ledger has the row's tail and count, and each other ledger has what it had.
pub fn one_row_changes()
    ensures own { (rows : List TailRow) (row : TailRow) → get (set rows row) row.handle ≡ (row.tail, row.count) }
    ensures others { (rows : List TailRow) (row : TailRow) (handle : List ℕ) → handle ≢ row.handle → get (set rows row) handle ≡ get rows handle }
{}
