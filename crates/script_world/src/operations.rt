// Operations that a script carries on.
ghost use Rattle.std.specs.Prelude.{◌≡◌, IfOk, MatchOption};
ghost use Rattle.script_operations.specs.Operations.{NoneIsNamed, NoneIsOpen};
ghost use Rattle.script_world.specs.Carried.{Finished, KeepsNames, Retried, Stepped};
ghost use Rattle.script_world.specs.Going.{GoesOn};
ghost use Rattle.script_world.specs.Running.{world_of};

use crate::world::World;
use nim_base::{NoMemory, Text};
use roster_bank::RunName;
use script_operations::operations_keep_draws;
use seal::{Checker, Scheme, Signer};

impl<'w, G: Scheme, K: RunName> World<'w, G, K> {
    /// `step OP N`: up to so many calls of the open operation of this name, and fewer where it comes to its answer.
    pub fn step(&mut self, op: &[u8], n: u64)
        ensures rest { self.new ≡ record self.old { state = self.new.state; operations = self.new.operations } }
        ensures stepped { Stepped G.Signer.key_of G.Signer.left_of G.Checker.accepts K.accepts self.old self.new op.now n }
        ensures goes { GoesOn (world_of self.old) (world_of self.new) }
    {
        self.operations.step(op, n, &mut self.coordinator);
    }

    /// `finish OP`: the open operation of this name goes on to its answer, which its client takes, and closes. `None` says that there is no
    /// such operation.
    pub fn finish(&mut self, op: &[u8]) -> Result<Option<Text>, NoMemory>
        ensures finished { IfOk result (λ line. MatchOption line (NoneIsOpen self.old.operations op.now × (self.new ≡ self.old)) (λ line.
            Finished G.Signer.key_of G.Signer.left_of G.Checker.accepts K.accepts self.old self.new op.now line.bytes)) }
        ensures goes { GoesOn (world_of self.old) (world_of self.new) }
        ensures names { self.new.names ≡ self.old.names }
        ensures ledgers { self.new.ledgers ≡ self.old.ledgers }
        ensures draws { self.new.draws ≡ self.old.draws }
    {
        operations_keep_draws::<G::Checker>();
        self.operations
            .finish(op, &mut self.acts, &mut self.coordinator)
    }

    /// `retry OP`: what the operation of this name was begun for is asked anew, with the nonce and the entry that it had. `None` says that there
    /// is no such operation.
    pub fn retry(&mut self, op: &[u8]) -> Result<Option<Text>, NoMemory>
        ensures retried { IfOk result (λ line. MatchOption line (NoneIsNamed self.old.operations op.now × (self.new ≡ self.old)) (λ line.
            Retried G.Signer.key_of G.Signer.left_of G.Checker.accepts K.accepts self.old self.new op.now line.bytes)) }
        ensures goes { GoesOn (world_of self.old) (world_of self.new) }
        ensures keeps { KeepsNames self.old self.new }
        ensures ledgers { self.new.ledgers ≡ self.old.ledgers }
        ensures draws { self.new.draws ≡ self.old.draws }
    {
        operations_keep_draws::<G::Checker>();
        self.operations
            .retry(op, &mut self.acts, &mut self.coordinator)
    }
}
