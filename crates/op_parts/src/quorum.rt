// What makes marks enough in the newest view of a chain.
ghost use Rattle.std.specs.Prelude.{◌≡◌, ◌↔◌, ◌≤◌, IsTrue, length, map};
ghost use Rattle.statement.specs.Config.{quorum, weight_together, IsConfig};
ghost use Rattle.statement.specs.Mark.{id_of};
ghost use Rattle.view_ledger.specs.Views.{newest_config};

use statement::Mark;
use view_ledger::{ViewChain, weight_of_marks};

/// How many members a chain's newest view has. They are a config.
pub fn members(chain: &ViewChain) -> usize
    ensures count { result ≡ length (newest_config chain.now.configs) }
    ensures config { IsConfig (newest_config chain.now.configs) }
{
    match chain.config(chain.number()) {
        Some(config) => config.members().len(),
        None => 0,
    }
}

/// What the members of a chain's newest view have to weigh together to be a quorum.
pub fn needed(chain: &ViewChain) -> u64
    ensures { result ≡ quorum (newest_config chain.now.configs) }
{
    match chain.config(chain.number()) {
        Some(config) => config.quorum() as u64,
        None => 0,
    }
}

/// Whether the members of a chain's newest view with these marks are a quorum.
pub fn are_quorum(chain: &ViewChain, marks: &[Mark]) -> bool
    ensures { let members = newest_config chain.now.configs in IsTrue result ↔ (quorum members ≤ weight_together members (map id_of marks.now)) }
{
    match chain.config(chain.number()) {
        Some(config) => weight_of_marks(config, marks) >= config.quorum(),
        None => false,
    }
}
