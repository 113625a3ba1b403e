// What an honest store answers in which all views stand.
ghost use Rattle.std.specs.Prelude.{◌≡◌, ℕ, ◌≤◌, ◌++◌, ◌∷◌, List, length, Ok};
ghost use Rattle.statement.specs.declared.member.Member.{Member};
ghost use Rattle.port.specs.declared.key.Key.TheVariants as keys;
ghost use Rattle.port.specs.declared.store_answers.Put.{Put};
ghost use Rattle.port.specs.declared.store_answers.Got.{Got};
ghost use Rattle.port.specs.Contents.{Contents};
ghost use Rattle.port.specs.Store.{PutNew, Get, WasPut, WasGot, IsHonest};
ghost use Rattle.port.specs.View.{ViewRow};
ghost use Rattle.view_ledger.specs.Extension.{Follows, extend_outcome, extended};
ghost use Rattle.view_ledger.specs.Receipts.{Accepts};
ghost use Rattle.view_ledger.specs.Views.{ViewChain};
ghost use Rattle.calm.specs.StandingViews.{StandViews};
ghost use Rattle.calm.specs.Storing.{GivesView, GivesFinals, TakesBody};

/// What an honest store answers in which all views stand: it gives each of them and what ended the one below, and takes the
/// next one.
pub fn standing_views_are_given()
    ensures view { (accepts : Accepts) (roster : List Member) (contents after : Contents) (configs below above : List (List Member)) (config : List Member) (got : Got)
        → StandViews accepts roster contents configs → configs ≡ below ++ config ∷ above
        → IsHonest contents (Get (keys.View (length below))) (WasGot got) after → GivesView below config got }
    ensures finals { (accepts : Accepts) (roster : List Member) (contents after : Contents) (configs below above : List (List Member)) (config : List Member) (got : Got)
        → StandViews accepts roster contents configs → configs ≡ below ++ config ∷ above → 1 ≤ length below
        → IsHonest contents (Get (keys.Finals (length below))) (WasGot got) after → GivesFinals accepts roster below config got }
    ensures next_view { (accepts : Accepts) (roster : List Member) (contents after : Contents) (configs : List (List Member)) (number : ℕ) (body : List ℕ) (answer : Put)
        → StandViews accepts roster contents configs → length configs ≤ number
        → IsHonest contents (PutNew (keys.View number) body) (WasPut answer) after → TakesBody contents (keys.View number) body answer after }
    ensures next_finals { (accepts : Accepts) (roster : List Member) (contents after : Contents) (configs : List (List Member)) (number : ℕ) (body : List ℕ) (answer : Put)
        → StandViews accepts roster contents configs → length configs ≤ number
        → IsHonest contents (PutNew (keys.Finals number) body) (WasPut answer) after → TakesBody contents (keys.Finals number) body answer after }
{}

/// A chain is extended by each view that follows it.
pub fn views_that_follow_extend()
    ensures { (accepts : Accepts) (chain : ViewChain) (next : ViewRow) → Follows accepts chain next
        → extend_outcome accepts chain next ≡ Ok (extended chain next.config) }
{}
