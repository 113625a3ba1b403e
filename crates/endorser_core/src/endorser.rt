ghost use Rattle.std.specs.Prelude.{◌≡◌, ◌+◌, ◌≤◌, max, IfOk, OnErr};
ghost use Rattle.port.specs.Call.{call_of};
ghost use Rattle.port.specs.Answer.{answer_of};
ghost use Rattle.port.specs.Table.{Uninitialized};
ghost use Rattle.endorser_core.specs.Shown.{phase_of, number_of, row_of, kept_size, sig_size};
ghost use Rattle.endorser_core.specs.Endorser.{Steps};

use crate::membership::{Membership, Stage};
use nim_base::{Digest, NoMemory};
use port::{EndorserAnswer, EndorserCall, Phase};
use seal::{Scheme, Signer};
use std::alloc::Global;
use std::marker::Model;

/// A member of at most one view, with a signer of its own.
pub struct Endorser<G: Scheme> {
    pub(crate) id: u32,
    pub(crate) signer: G::Signer,
    pub(crate) checker: G::Checker,
    pub(crate) membership: Option<Membership>,
}

impl<G: Scheme> Model for Endorser<G> {
    ghost use Rattle.endorser_core.specs.Endorser.{Endorser};
    ghost use Rattle.endorser_core.specs.Held.{state_of};
    ghost use Rattle.endorser_core.specs.Shown.{kept_size};
    ghost use Rattle.std.specs.Prelude.{◌≤◌};

    ghost Value = { Endorser G.Signer G.Checker };

    ghost view = { λ endorser. record { id = endorser.id; signer = endorser.signer; checker = endorser.checker; state = state_of endorser.membership } };

    ghost invariant = { λ endorser. kept_size (state_of endorser.membership) ≤ 16384 };
}

impl<G: Scheme> Drop for Endorser<G> {
    fn drop(self) {
        let Endorser {
            id: _,
            signer: _,
            checker: _,
            membership: _,
        } = self;
    }
}

impl<G: Scheme> Endorser<G> {
    /// An endorser without a view.
    pub fn new(id: u32, signer: G::Signer, checker: G::Checker) -> Endorser<G>
        ensures { result ≡ record { id = id; signer = signer; checker = checker; state = Uninitialized } }
    {
        Endorser {
            id,
            signer,
            checker,
            membership: None,
        }
    }

    /// The id under which configs know it.
    pub fn id(&self) -> u32
        ensures { result ≡ self.now.id }
    {
        self.id
    }

    /// How far it has come.
    pub fn phase(&self) -> Phase
        ensures { result ≡ phase_of self.now.state }
    {
        match &self.membership {
            None => Phase::Uninitialized,
            Some(held) => held.phase(),
        }
    }

    /// The number of its view, 0 while it has none.
    pub fn number(&self) -> u64
        ensures { result ≡ number_of self.now.state }
    {
        match &self.membership {
            None => 0,
            Some(held) => held.block.number,
        }
    }

    /// The tail and the count of a ledger, zeros and 0 where it has no row.
    pub fn row(&self, handle: &Digest) -> (Digest, u64)
        ensures { result ≡ row_of self.now.state handle.now }
    {
        match &self.membership {
            None => (Digest::ZERO, 0),
            Some(held) => held.map.get(handle),
        }
    }

    /// At least the length of the signature in the next answer, and at most 16,384: the greater of the
    /// signer's size and the length of the signature with which the view was ended.
    pub fn most_sig(&self) -> usize
        ensures size { result ≡ max (G.Signer.size_of self.now.signer) (kept_size self.now.state) }
        ensures most { result ≤ 16384 }
    {
        let size = self.signer.size();
        match &self.membership {
            None => size,
            Some(held) => size.max(held.kept_size()),
        }
    }
}
