ghost use Rattle.std.specs.Prelude.{◌≡◌, ℕ, slice_get, Some};
ghost use Rattle.client_pass.specs.ClientPass.{ClientPass};
ghost use Rattle.client_acts.specs.ClientActs.{Acts, ClientActs, StaysOn};

use seal::Checker;

/// What stays of the clients of a run, whatever is done.
pub fn clients_stay_on<C: Checker>()
    ensures same { (acts : ClientActs C) → StaysOn acts acts }
    ensures acts { (old new : ClientActs C) (place : ℕ) (from to : ClientPass C) → Acts old new place from to → StaysOn old new }
    ensures again { (old middle new : ClientActs C) → StaysOn old middle → StaysOn middle new → StaysOn old new }
    // A client that does nothing acts too.
    ensures idle { (acts : ClientActs C) (place : ℕ) (from : ClientPass C) → slice_get acts.clients place ≡ Some from → Acts acts acts place from from }
{}
