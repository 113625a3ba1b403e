ghost use Rattle.std.specs.Prelude.{◌≡◌, IfOk};

use crate::chain::Chain;
use crate::final_map::FinalMap;
use nim_base::NoMemory;
use statement::{Config, ViewBlock};
use std::alloc::Global;
use std::marker::Model;

/// What shows an endorser that the view below has ended, and what it left.
#[derive(Debug, Drop)]
pub struct ActivationProof {
    pub old_block: ViewBlock,
    pub old_config: Config,
    pub finals: Vec<FinalMap>,
    pub chains: Vec<Chain>,
}

impl Model for ActivationProof {
    ghost use Rattle.port.specs.View.{ActivationProof};

    ghost Value = { ActivationProof };

    ghost view = { λ proof. record { old_block = proof.old_block; old_config = proof.old_config; finals = proof.finals.items; chains = proof.chains.items } };
}

impl ActivationProof {
    /// The same proof in memory of its own.
    pub fn copy(&self, alloc: Global) -> Result<ActivationProof, NoMemory>
        ensures { IfOk result (λ copy. copy ≡ self.now) }
    {
        Ok(ActivationProof {
            old_block: self.old_block,
            old_config: self.old_config.copy(alloc)?,
            finals: copy_finals(alloc, self.finals.as_slice())?,
            chains: copy_chains(alloc, self.chains.as_slice())?,
        })
    }
}

fn copy_finals(alloc: Global, finals: &[FinalMap]) -> Result<Vec<FinalMap>, NoMemory>
    ensures { IfOk result (λ copies. copies.items ≡ finals.now) }
{
    let mut copies = Vec::with_capacity(alloc, finals.len())?;
    for ended in finals {
        copies.push(ended.copy(alloc)?)?;
    }
    Ok(copies)
}

fn copy_chains(alloc: Global, chains: &[Chain]) -> Result<Vec<Chain>, NoMemory>
    ensures { IfOk result (λ copies. copies.items ≡ chains.now) }
{
    let mut copies = Vec::with_capacity(alloc, chains.len())?;
    for chain in chains {
        copies.push(chain.copy(alloc)?)?;
    }
    Ok(copies)
}
