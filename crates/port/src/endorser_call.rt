ghost use Rattle.std.specs.Prelude.{◌≡◌, IfOk};
ghost use Rattle.port.specs.Call.{call_of};

use crate::activation_proof::ActivationProof;
use nim_base::{Digest, NoMemory, Nonce};
use statement::{Config, ViewBlock};
use std::alloc::Global;
use tail_map::TailMap;

/// What an endorser is asked.
#[derive(Debug, Drop)]
pub enum EndorserCall {
    /// To be a member of this view, with this map to begin with.
    Initialize {
        block: ViewBlock,
        config: Config,
        map: TailMap,
    },
    /// To begin in the view with this tail, since the view below has ended.
    Activate {
        view: Digest,
        proof: Option<ActivationProof>,
    },
    /// To add the entry with this digest at this height, above the tail `prev`.
    Append {
        handle: Digest,
        prev: Digest,
        entry: Digest,
        height: u64,
    },
    /// To sign the ledger's tail and count with this nonce.
    Latest {
        handle: Digest,
        nonce: Nonce,
    },
    /// To end the own view, which the view of this number and config follows.
    Finalize {
        config: Digest,
        number: u64,
    },
    /// To show its phase and the ledger's tail and count.
    Show {
        handle: Digest,
    },
}

impl EndorserCall {
    /// The same call in memory of its own.
    pub fn copy(&self, alloc: Global) -> Result<EndorserCall, NoMemory>
        ensures { IfOk result (λ copy. call_of copy ≡ call_of self.now) }
    {
        Ok(match self {
            EndorserCall::Initialize { block, config, map } => EndorserCall::Initialize {
                block: *block,
                config: config.copy(alloc)?,
                map: map.copy(alloc)?,
            },
            EndorserCall::Activate { view, proof } => EndorserCall::Activate {
                view: *view,
                proof: copy_proof(alloc, proof)?,
            },
            EndorserCall::Append {
                handle,
                prev,
                entry,
                height,
            } => EndorserCall::Append {
                handle: *handle,
                prev: *prev,
                entry: *entry,
                height: *height,
            },
            EndorserCall::Latest { handle, nonce } => EndorserCall::Latest {
                handle: *handle,
                nonce: *nonce,
            },
            EndorserCall::Finalize { config, number } => EndorserCall::Finalize {
                config: *config,
                number: *number,
            },
            EndorserCall::Show { handle } => EndorserCall::Show { handle: *handle },
        })
    }
}

fn copy_proof(
    alloc: Global,
    proof: &Option<ActivationProof>,
) -> Result<Option<ActivationProof>, NoMemory>
    ensures { IfOk result (λ copy. copy ≡ proof.now) }
{
    match proof {
        None => Ok(None),
        Some(proof) => Ok(Some(proof.copy(alloc)?)),
    }
}
