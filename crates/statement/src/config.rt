ghost use Rattle.std.specs.Prelude.{◌≡◌, ◌≤◌, ◌<◌, ◌↔◌, ℕ, [], length, ◌⊎◌, List, Ok, Err, IfOk, IfErr, IfNone};
ghost use Rattle.std.specs.List.{AllByRecursion};
ghost use Rattle.statement.specs.declared.member.Member.{Member};
ghost use Rattle.sha2.specs.Sha256.{sha256};
ghost use Rattle.statement.specs.Ids.{first_fall};
ghost use Rattle.statement.specs.Config.{ids, IsMember, IsConfig, key_of, weight_of, quorum};
ghost use Rattle.statement.specs.ConfigForm.{config_bytes, ConfigShows};
ghost use Rattle.statement.specs.FormFault.{Gives};

use crate::config_fault::ConfigFault;
use crate::config_reading::read_whole;
use crate::ids::is_above;
use crate::member::Member;
use nim_base::{Digest, FormFault, NoMemory, Text};
use sha2::{Digest as _, Sha256};
use std::alloc::Global;
use std::marker::Model;

/// The most members that a config has.
pub const MAX_MEMBERS: usize = 15;

pub(crate) const KIND: u8 = 0x12;

/// The members of a view, from 1 to [`MAX_MEMBERS`] of them, in strictly rising ids.
#[derive(Debug, Drop)]
pub struct Config {
    members: Vec<Member>,
}

impl Model for Config {
    ghost use Rattle.std.specs.Prelude.{List};
    ghost use Rattle.statement.specs.declared.member.Member.{Member};
    ghost use Rattle.statement.specs.Config.{IsConfig};

    ghost Value = { List Member };

    ghost view = { λ config. config.members.items };

    ghost invariant = { λ config. IsConfig config.members.items };
}

impl Config {
    /// The config of these members. What is wrong with them is told before memory is taken.
    pub fn of(alloc: Global, members: &[Member]) -> Result<Config, ConfigFault>
        ensures members { IfOk result (λ config. config ≡ members.now) }
        ensures config { IfOk result (λ config. IsConfig config) }

        // Each refusal comes exactly where its cause is there and none before it is.
        ensures empty { (result ≡ Err ConfigFault.Empty) ↔ (members.now ≡ []) }
        ensures many { (result ≡ Err ConfigFault.Many) ↔ (15 < length members.now) }
        ensures order { (id : ℕ) → (result ≡ Err (ConfigFault.Order id))
            ↔ ((1 ≤ length members.now) × (length members.now ≤ 15) × (first_fall None (ids members.now) ≡ Some id)) }
        ensures no_memory { result ≡ Err ConfigFault.NoMemory → IsConfig members.now }
    {
        if members.is_empty() {
            return Err(ConfigFault::Empty);
        }
        if members.len() > MAX_MEMBERS {
            return Err(ConfigFault::Many);
        }
        if let Some(id) = first_fall(members) {
            return Err(ConfigFault::Order { id });
        }
        Ok(Config {
            members: Vec::from_slice(alloc, members)?,
        })
    }

    /// The same config in memory of its own.
    pub fn copy(&self, alloc: Global) -> Result<Config, NoMemory>
        ensures { IfOk result (λ copy. copy ≡ self.now) }
    {
        Ok(Config {
            members: Vec::from_slice(alloc, &self.members)?,
        })
    }

    /// The members, in rising ids.
    pub fn members(&self) -> &[Member]
        ensures members { result.now ≡ self.now }
        ensures config { IsConfig self.now }
    {
        self.members.as_slice()
    }

    /// The digest that names a member's key, or `None` where no member has this id.
    pub fn key(&self, id: u32) -> Option<Digest>
        ensures { result ≡ key_of self.now id }
    {
        for member in &self.members {
            if member.id == id {
                return Some(member.key);
            }
        }
        None
    }

    /// What a member weighs, which is 1, or `None` where no member has this id.
    pub fn weight(&self, id: u32) -> Option<usize>
        ensures { result ≡ weight_of self.now id }
    {
        for member in &self.members {
            if member.id == id {
                return Some(1);
            }
        }
        None
    }

    /// The weight of members that makes them a quorum: more than half of what all members weigh.
    pub fn quorum(&self) -> usize
        ensures { result ≡ quorum self.now }
    {
        self.members.len() / 2 + 1
    }

    /// The SHA-256 digest of the bytes that [`write`](Config::write) gives.
    pub fn digest(&self) -> Digest
        ensures { result ≡ sha256 (config_bytes self.now) }
    {
        let mut hasher = Sha256::new();
        hasher.update(&[KIND, self.members.len() as u8]);
        for member in &self.members {
            hasher.update(&member.id.to_be_bytes());
            hasher.update(&member.key.0);
        }
        Digest(hasher.finalize())
    }

    /// The bytes of the config: the kind 12 in hexadecimal, the number of members in 1 byte, and for
    /// each member its id in 4 and its key in 32.
    pub fn write(&self, alloc: Global) -> Result<Text, NoMemory>
        ensures { IfOk result (λ text. text.bytes ≡ config_bytes self.now) }
    {
        let mut text = Text::with_room(alloc, 2 + 36 * self.members.len())?;
        text.push(&[KIND, self.members.len() as u8])?;
        for member in &self.members {
            text.push(&member.id.to_be_bytes())?;
            text.push(&member.key.0)?;
        }
        Ok(text)
    }

    /// The config whose bytes these are. A refusal names the fault that shows first, from the front, where
    /// the fields have the lengths that [`write`](Config::write) says:
    ///
    /// - `Kind` shows at the first byte, where it isn't that of a config.
    /// - `Value` shows at the number of members, where it is 0 or above [`MAX_MEMBERS`].
    /// - `Order` shows at an id that isn't above the one before, also where the bytes end in that
    ///   member's key.
    /// - `Short` shows where the bytes end inside a field. What a whole field before shows comes first.
    /// - `Trailing` shows at a byte after the last member.
    pub fn read(alloc: Global, bytes: &[u8]) -> Result<Config, FormFault>
        // What is read is what a config writes, and that config is read from it, unless memory runs out.
        ensures found { IfOk result (λ config. IsConfig config × (bytes.now ≡ config_bytes config)) }
        ensures only { (members : List Member) → IsConfig members → bytes.now ≡ config_bytes members → Gives result (Ok members) }

        // A refusal is the fault that shows first, and that fault is the refusal, unless memory runs out.
        ensures fault { IfErr result (λ fault. (fault ≡ FormFault.NoMemory) ⊎ ConfigShows bytes.now fault) }
        ensures first { (fault : FormFault) → ConfigShows bytes.now fault → Gives result (Err fault) }
    {
        let members = read_whole(alloc, bytes)?;
        Ok(Config { members })
    }
}

// The first id that isn't above the one before it.
fn first_fall(members: &[Member]) -> Option<u32>
    ensures fall { result ≡ first_fall None (ids members.now) }
    ensures each { IfNone result (AllByRecursion IsMember members.now) }
{
    let mut before = None;
    for member in members {
        let Member { id, key } = member;
        // The key is opened, so that its length is known.
        let _ = &key.0;
        if !is_above(before, *id) {
            return Some(*id);
        }
        before = Some(*id);
    }
    None
}
