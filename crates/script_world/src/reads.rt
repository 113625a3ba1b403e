// The reads that clients make, done at once.
ghost use Rattle.std.specs.Prelude.{◌<◌, ◌^◌, length, IfOk};
ghost use Rattle.script_world.specs.Carried.{KeepsNames};
ghost use Rattle.script_world.specs.Lines.{ReadHeight, ReadNewest};
ghost use Rattle.script_world.specs.Running.{world_of};

use crate::asking::{ask_for_newest, ask_for_row};
use crate::entries::after;
use crate::labels::handle_for;
use crate::nonces::nonce;
use crate::world::World;
use nim_base::{NoMemory, Text};
use roster_bank::RunName;
use script_operations::operations_keep_draws;
use seal::{Checker, Scheme, Signer};

impl<'w, G: Scheme, K: RunName> World<'w, G, K> {
    ghost use Rattle.endorser_cell.specs.CellBank.{bank_view};

    /// `latest`: the client draws a nonce and reads the newest row.
    pub fn latest(&mut self, client: usize, label: &[u8]) -> Result<Text, NoMemory>
        requires { client < length self.old.clients }
        ensures line { IfOk result (λ line. ReadNewest G.Checker.accepts (bank_view G.Signer.key_of G.Signer.left_of G.Checker.accepts) (world_of self.old) (world_of self.new) client label.now line.bytes) }
        ensures keeps { KeepsNames self.old self.new }
    {
        operations_keep_draws::<G::Checker>();
        let next = after(self.draws)?;
        let handle = handle_for(&self.labels, label);
        let line = ask_for_newest(
            self.alloc,
            &mut self.acts,
            &mut self.coordinator,
            client,
            label,
            &handle,
            &nonce(self.draws),
        )?;
        self.draws = next;
        Ok(line)
    }

    /// `at`: the client reads the row at a height below 2^32. It draws nothing.
    pub fn at(&mut self, client: usize, label: &[u8], height: u64) -> Result<Text, NoMemory>
        requires client { client < length self.old.clients }
        requires below { height < 2 ^ 32 }
        ensures line { IfOk result (λ line. ReadHeight G.Checker.accepts (bank_view G.Signer.key_of G.Signer.left_of G.Checker.accepts) (world_of self.old) (world_of self.new) client label.now height line.bytes) }
        ensures keeps { KeepsNames self.old self.new }
    {
        operations_keep_draws::<G::Checker>();
        let handle = handle_for(&self.labels, label);
        let line = ask_for_row(
            self.alloc,
            &mut self.acts,
            &mut self.coordinator,
            client,
            label,
            &handle,
            height,
        )?;
        Ok(line)
    }
}
