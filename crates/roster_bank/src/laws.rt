ghost use Rattle.std.specs.Prelude.{◌≡◌, ◌+◌, ◌++◌, ◌∷◌, ℕ, List, [], map, reverse, take, slice_get, Some, option_and_then, option_to_list};
ghost use Rattle.std.specs.List.{AllByRecursion};
ghost use Rattle.endorser_cell.specs.BankLine.{BankLine, served_by};
ghost use Rattle.roster_bank.specs.Places.{IsOfMember, place_in, place_served, places_served};

/// A list of places grows by that of each new line, where an endorser served it.
pub fn places_grow()
    ensures pushed { (ids : List ℕ) (log : List BankLine) (line : BankLine)
        → places_served ids (log ++ line ∷ []) ≡ places_served ids log ++ option_to_list (place_served ids line) }
    // The same for the lines of a longer list, in turn.
    ensures taken { (ids : List ℕ) (log : List BankLine) (n : ℕ)
        → places_served ids (take (n + 1) log) ≡ places_served ids (take n log) ++ option_to_list (option_and_then (place_served ids) (slice_get log n)) }
{}

/// Where members alone served, the places are those of the calls that a link with this list tells as served, which has the newest first.
pub fn places_are_of_served_calls()
    ensures places { (ids : List ℕ) (log : List BankLine) → AllByRecursion (IsOfMember ids) log
        → map (λ one. place_in ids one.id) (served_by [] log) ≡ map (λ place. Some place) (reverse (places_served ids log)) }
{}
