ghost use Rattle.std.specs.Prelude.{◌≡◌};
ghost use Rattle.std.specs.Borrow.{Lends, sem};
ghost use Rattle.client_pass.specs.contracts.client_pass.ClientPass.{the_row as pass_row};

use client_pass::ClientPass;
use seal::Checker;
use stamp_clock::ClockName;
use std::marker::Model;

/// A client's name and what it did.
#[derive(Drop)]
pub(crate) struct Client<C: Checker, K: ClockName> {
    pub name: Vec<u8>,
    pub pass: ClientPass<C, K>,
}

impl<C: Checker, K: ClockName> Model for Client<C, K> {
    ghost use Rattle.run_clients.specs.Clients.{Client};

    ghost Value = { Client C };

    ghost view = { λ own. record { name = own.name.items; pass = own.pass } };
}

impl<C: Checker, K: ClockName> Client<C, K> {
    ghost use Rattle.run_clients.specs.contracts.client.Client.{the_row};

    pub fn pass_mut(&mut self) -> &mut ClientPass<C, K>
        ensures value { result.now ≡ self.old.pass }
        ensures* writes_back { sem 𝓛 (Lends (the_row C.row K.row C.Checker K.ClockName) (pass_row C.row K.row C.Checker K.ClockName) self.entry result (λ pass. record self.old { pass = pass })) }
    {
        &mut self.pass
    }
}
