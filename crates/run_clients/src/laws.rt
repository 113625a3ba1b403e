ghost use Rattle.std.specs.Prelude.{◌≡◌, ◌≢◌, ◌<◌, ℕ, List, length, Some};
ghost use Rattle.client_pass.specs.ClientPass.{ClientPass};
ghost use Rattle.run_clients.specs.Clients.{Client, pass_at, place_of, with_pass};

use seal::Checker;

/// What a client does to its pass changes no other client's, no name's place and not their number.
pub fn passes_are_apart<C: Checker>()
    ensures set { (clients : List (Client C)) (place : ℕ) (pass : ClientPass C) → place < length clients → pass_at (with_pass clients place pass) place ≡ Some pass }
    ensures others { (clients : List (Client C)) (place other : ℕ) (pass : ClientPass C) → other ≢ place → pass_at (with_pass clients place pass) other ≡ pass_at clients other }
    ensures places { (clients : List (Client C)) (place : ℕ) (pass : ClientPass C) (name : List ℕ) → place_of (with_pass clients place pass) name ≡ place_of clients name }
    ensures count { (clients : List (Client C)) (place : ℕ) (pass : ClientPass C) → length (with_pass clients place pass) ≡ length clients }
{}
