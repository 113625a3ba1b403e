ghost use Rattle.std.specs.Prelude.{◌≡◌, ℕ, ◌+◌, ◌<◌, ◌++◌, List, [], ◌∷◌, length, slice_set};
ghost use Rattle.std.specs.List.{AllByRecursion};
ghost use Rattle.endorser_core.specs.Line.{Line as CellLine};
ghost use Rattle.client_pass.specs.Act.{Line as ClientLine};
ghost use Rattle.run_record.specs.declared.actor.Actor.{Actor};
ghost use Rattle.run_record.specs.declared.actor.Actor.TheVariants.{Endorser, Client};
ghost use Rattle.run_record.specs.Events.{count_endorser, count_client, AreCounted, AreEvents, length_at, one_at};

/// How the lists of a run go on with the order of its events: whoever acts has one event more, in the order
/// and in its own list.
pub fn orders_grow()
    ensures endorser_counts { (order : List Actor) (acting place : ℕ) → count_endorser place (order ++ Endorser acting ∷ []) ≡ count_endorser place order + one_at acting place }
    ensures endorser_leaves { (order : List Actor) (acting place : ℕ) → count_client place (order ++ Endorser acting ∷ []) ≡ count_client place order }
    ensures client_counts { (order : List Actor) (acting place : ℕ) → count_client place (order ++ Client acting ∷ []) ≡ count_client place order + one_at acting place }
    ensures client_leaves { (order : List Actor) (acting place : ℕ) → count_endorser place (order ++ Client acting ∷ []) ≡ count_endorser place order }
    ensures none { (calls acts : ℕ → ℕ) → ((place : ℕ) → calls place ≡ 0) → ((place : ℕ) → acts place ≡ 0) → AreCounted [] calls acts }
    ensures endorser { (order : List Actor) (calls acts more : ℕ → ℕ) (acting : ℕ)
        → AreCounted order calls acts → ((place : ℕ) → more place ≡ calls place + one_at acting place) → AreCounted (order ++ Endorser acting ∷ []) more acts }
    ensures client { (order : List Actor) (calls acts more : ℕ → ℕ) (acting : ℕ)
        → AreCounted order calls acts → ((place : ℕ) → more place ≡ acts place + one_at acting place) → AreCounted (order ++ Client acting ∷ []) calls more }
    ensures cell_grows { (order : List Actor) (cells : List (List CellLine)) (passes : List (List ClientLine)) (acting : ℕ) (lines : List CellLine)
        → AreEvents order cells passes → acting < length cells → length lines ≡ length_at cells acting + 1 → AreEvents (order ++ Endorser acting ∷ []) (slice_set cells acting lines) passes }
    ensures pass_grows { (order : List Actor) (cells : List (List CellLine)) (passes : List (List ClientLine)) (acting : ℕ) (lines : List ClientLine)
        → AreEvents order cells passes → acting < length passes → length lines ≡ length_at passes acting + 1 → AreEvents (order ++ Client acting ∷ []) cells (slice_set passes acting lines) }
    ensures empty { (cells : List (List CellLine)) (passes : List (List ClientLine)) → AllByRecursion (λ (lines : List CellLine). lines ≡ []) cells → AllByRecursion (λ (lines : List ClientLine). lines ≡ []) passes → AreEvents [] cells passes }
    ensures new_cell { (order : List Actor) (cells : List (List CellLine)) (passes : List (List ClientLine)) → AreEvents order cells passes → AreEvents order (cells ++ [] ∷ []) passes }
    ensures new_pass { (order : List Actor) (cells : List (List CellLine)) (passes : List (List ClientLine)) → AreEvents order cells passes → AreEvents order cells (passes ++ [] ∷ []) }
{}
