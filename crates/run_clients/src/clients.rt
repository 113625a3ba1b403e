ghost use Rattle.std.specs.Prelude.{◌≡◌, ◌↔◌, ◌<◌, ◌++◌, ◌∷◌, [], ℕ, List, length, map, vec_items, Some, None, if◌then◌else◌, IfOk, IfSome, OnOk, OnErr};
ghost use Rattle.std.specs.Borrow.{Lends, sem};
ghost use Rattle.std.specs.List.{AllByRecursion};
ghost use Rattle.std.specs.Str.{bytes_eq};
ghost use Rattle.client_pass.specs.contracts.client_pass.ClientPass.{the_row as pass_row};
ghost use Rattle.run_clients.specs.Clients.{AreApart, HasClientLines, IsNamed, client, pass_at, place_of, with_pass};

use crate::client::Client;
use crate::places::Places;
use client_pass::{ClientLine, ClientPass};
use nim_base::NoMemory;
use seal::Checker;
use stamp_clock::ClockName;
use std::alloc::Global;
use std::marker::Model;

/// Clients by name, no two of one name, in the order in which they were added. A client's place in that order is its number,
/// from 0, and never changes. A name is found in the time of a look-up in a map.
#[derive(Drop)]
pub struct Clients<C: Checker, K: ClockName> {
    places: Places,
    clients: Vec<Client<C, K>>,
}

impl<C: Checker, K: ClockName> Model for Clients<C, K> {
    ghost use Rattle.std.specs.Prelude.{List};
    ghost use Rattle.run_clients.specs.Clients.{Client, AreApart};
    ghost use Rattle.run_clients.specs.Places.{ArePlaced};

    ghost Value = { List (Client C) };

    ghost view = { λ own. own.clients.items };

    ghost invariant = { λ own. ArePlaced own.places own.clients.items × AreApart own.clients.items };
}

impl<C: Checker, K: ClockName> Clients<C, K> {
    ghost use Rattle.run_clients.specs.contracts.clients.Clients.{the_row};

    /// No clients. It takes no memory.
    pub fn new(alloc: Global) -> Clients<C, K>
        ensures { result ≡ [] }
    {
        Clients {
            places: Places::new(alloc),
            clients: Vec::new(alloc),
        }
    }

    /// How many clients there are.
    pub fn count(&self) -> usize
        ensures count { result ≡ length self.now }
        ensures apart { AreApart self.now }
    {
        self.clients.len()
    }

    /// The place of the client of this name, `None` where no client has it.
    pub fn place(&self, name: &[u8]) -> Option<usize>
        ensures place { result ≡ place_of self.now name.now }
        ensures at { (place : ℕ) → (result ≡ Some place) ↔ IsNamed self.now place name.now }
        ensures within { IfSome result (λ place. place < length self.now) }
    {
        self.places.find(name)
    }

    /// Adds a client of a name that none has, at the next place. Where memory is wanted, its pass is dropped.
    pub fn add(
        &mut self,
        alloc: Global,
        name: &[u8],
        pass: ClientPass<C, K>,
    ) -> Result<(), NoMemory>
        requires new { place_of self.old name.now ≡ None }
        ensures added { OnOk result (self.new ≡ self.old ++ client name.now pass ∷ []) }
        ensures no_memory { OnErr result (self.new ≡ self.old) }

        // Its name has the next place then, and the other names have theirs.
        ensures places { OnOk result ((other : List ℕ) → place_of self.new other ≡ (if bytes_eq other name.now then Some (length self.old) else place_of self.old other)) }
    {
        let place = self.clients.len();
        let copy = Vec::from_slice(alloc, name)?;
        self.clients.reserve(1)?;
        self.places.set(alloc, name, place)?;
        self.clients.push_reserved(Client { name: copy, pass });
        Ok(())
    }

    /// The pass of the client at this place.
    pub fn pass(&self, place: usize) -> &ClientPass<C, K>
        requires { place < length self.now }
        ensures { Some result.now ≡ pass_at self.now place }
    {
        &self.clients[place].pass
    }

    /// The pass of the client at this place, for what the client does.
    pub fn pass_mut(&mut self, place: usize) -> &mut ClientPass<C, K>
        requires { place < length self.old }
        ensures value { Some result.now ≡ pass_at self.old place }
        ensures* writes_back { sem 𝓛 (Lends (the_row C.row K.row C.Checker K.ClockName) (pass_row C.row K.row C.Checker K.ClockName) self.entry result (λ pass. with_pass self.old place pass)) }
    {
        let client = &mut self.clients[place];
        client.pass_mut()
    }

    /// The lines of each client, in the order of their places.
    pub fn into_lines(self, alloc: Global) -> Result<Vec<Vec<ClientLine>>, NoMemory>
        ensures lines { IfOk result (λ lists. map vec_items lists.items ≡ map (λ client. client.pass.lines) self) }
        ensures kept { OnOk result (AllByRecursion (λ client. HasClientLines (C.accepts client.pass.checker) client.pass) self) }
    {
        let Clients { places: _, clients } = self;
        let mut lists = Vec::new(alloc);
        for client in clients {
            lists.push(lines_of(client))?;
        }
        Ok(lists)
    }
}

fn lines_of<C: Checker, K: ClockName>(client: Client<C, K>) -> Vec<ClientLine>
    ensures lines { result.items ≡ client.pass.lines }
    ensures kept { HasClientLines (C.accepts client.pass.checker) client.pass }
{
    let Client { name: _, pass } = client;
    let (lines, _) = pass.take();
    lines
}
