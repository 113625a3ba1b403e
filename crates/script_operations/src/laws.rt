ghost use Rattle.std.specs.Prelude.{ℕ, List, [], ◌∷◌, ◌++◌, ◌<◌, length};
ghost use Rattle.client_pass.specs.ClientPass.{ClientPass};
ghost use Rattle.client_acts.specs.ClientActs.{ClientActs, StaysOn};
ghost use Rattle.script_operations.specs.Task.{AllHave, HasDraw, IsAmong, Newest, Task};

use client_pass::draws_stay;
use seal::Checker;

/// The draws of operations stay, whatever clients do.
pub fn operations_keep_draws<C: Checker>()
    ensures stays { (old new : ClientActs C) (tasks : List Task) → StaysOn old new → AllHave old.clients tasks → AllHave new.clients tasks }
    // With a client more, and with a task more.
    ensures client { (clients : List (ClientPass C)) (more : ClientPass C) (tasks : List Task) → AllHave clients tasks → AllHave (clients ++ more ∷ []) tasks }
    ensures task { (clients : List (ClientPass C)) (tasks : List Task) (more : Task) → AllHave clients tasks → HasDraw clients more → AllHave clients (tasks ++ more ∷ []) }
    // Whoever reads is one of the clients.
    ensures reads { (clients : List (ClientPass C)) (tasks : List Task) (client draw : ℕ) (handle nonce : List ℕ) → AllHave clients tasks
        → IsAmong (Newest client draw handle nonce) tasks → client < length clients }
{
    draws_stay();
}
