ghost use Rattle.std.specs.Prelude.{◌≡◌};
ghost use Rattle.sha2.specs.Sha256.{sha256};
ghost use Rattle.statement.specs.ViewBlock.{view_block_bytes};

use nim_base::{Digest, Text};
use port::Phase;
use statement::{Config, Statement, ViewBlock};
use tail_map::TailMap;

// How far a member of a view has come.
#[derive(Debug, Drop)]
pub(crate) enum Stage {
    Initialized,
    Active,
    Finalized(Ending),
}

// How a view ended: what was signed, and the tail of the next view.
#[derive(Debug, Drop)]
pub(crate) struct Ending {
    pub(crate) statement: Statement,
    pub(crate) sig: Text,
    pub(crate) next: Digest,
}

// What an endorser holds of its view: its block with the tail, the config, the digest of the map that it
// began with, and the map.
#[derive(Debug, Drop)]
pub(crate) struct Membership {
    pub(crate) block: ViewBlock,
    pub(crate) tail: Digest,
    pub(crate) config: Config,
    pub(crate) first: Digest,
    pub(crate) map: TailMap,
    pub(crate) stage: Stage,
    ghost own: { tail ≡ sha256 (view_block_bytes block) },
}

impl Membership {
    ghost use Rattle.std.specs.Prelude.{◌≡◌};
    ghost use Rattle.endorser_core.specs.Held.{view_of, state_at};
    ghost use Rattle.endorser_core.specs.Shown.{phase_of, kept_size};

    pub(crate) fn phase(&self) -> Phase
        ensures { result ≡ phase_of (state_at self.now.stage (view_of self.now)) }
    {
        match &self.stage {
            Stage::Initialized => Phase::Initialized,
            Stage::Active => Phase::Active,
            Stage::Finalized(_) => Phase::Finalized,
        }
    }

    // The length of the signature that ended the view, 0 where there is none.
    pub(crate) fn kept_size(&self) -> usize
        ensures { result ≡ kept_size (state_at self.now.stage (view_of self.now)) }
    {
        match &self.stage {
            Stage::Initialized | Stage::Active => 0,
            Stage::Finalized(ending) => ending.sig.bytes().len(),
        }
    }
}
