ghost use Rattle.std.specs.Prelude.{◌≡◌};
ghost use Rattle.std.specs.Option.{option_map};
ghost use Rattle.fault_script.specs.Seen.{request_of};
ghost use Rattle.fault_script.specs.Labels.{label_of_request};
ghost use Rattle.fault_script.specs.Limits.{is_new_request, is_reconfigure_request};
ghost use Rattle.fault_script.specs.Operations.{role_of};

use crate::standing::Role;
use nim_base::Text;

/// What a line asks of the service. Clients, labels and names of operations are names: a letter, and
/// then up to 15 letters, digits or `_`. A payload stands without its `=`: up to 65,536 letters from a
/// to z and digits.
#[derive(Debug, Drop)]
pub enum Act {
    /// `new CLIENT LABEL =PAYLOAD`: the client makes a ledger with a first payload.
    New {
        client: Text,
        label: Text,
        payload: Text,
    },
    /// `append CLIENT LABEL HEIGHT =PAYLOAD`, with a height from 1 to 4,294,967,295.
    Append {
        client: Text,
        label: Text,
        height: u64,
        payload: Text,
    },
    /// `latest CLIENT LABEL`: the client reads the ledger's newest row.
    Latest {
        client: Text,
        label: Text,
    },
    /// `at CLIENT LABEL HEIGHT`: the client reads at a height up to 4,294,967,295.
    At {
        client: Text,
        label: Text,
        height: u64,
    },
    /// `reconfigure IDS`: the coordinator moves to these endorsers, 1 to 15 ids from 1 to 64, strictly
    /// rising. No line has it yet.
    Reconfigure {
        ids: Vec<u32>,
    },
}

impl Act {
    /// The label of its ledger; a `reconfigure` has none.
    pub fn label(&self) -> Option<&[u8]>
        ensures { option_map (λ label. label.now) result ≡ label_of_request (request_of self.now) }
    {
        match self {
            Act::New { label, .. } => Some(label.bytes()),
            Act::Append { label, .. } => Some(label.bytes()),
            Act::Latest { label, .. } => Some(label.bytes()),
            Act::At { label, .. } => Some(label.bytes()),
            Act::Reconfigure { .. } => None,
        }
    }

    pub(crate) fn role(&self) -> Role
        ensures { result ≡ role_of (request_of self.now) }
    {
        match self {
            Act::New { .. } => Role::Client,
            Act::Append { .. } => Role::Client,
            Act::Latest { .. } => Role::Latest,
            Act::At { .. } => Role::Client,
            Act::Reconfigure { .. } => Role::Coordinator,
        }
    }

    pub(crate) fn is_new(&self) -> bool
        ensures { result ≡ is_new_request (request_of self.now) }
    {
        match self {
            Act::New { .. } => true,
            Act::Append { .. } => false,
            Act::Latest { .. } => false,
            Act::At { .. } => false,
            Act::Reconfigure { .. } => false,
        }
    }

    pub(crate) fn is_reconfigure(&self) -> bool
        ensures { result ≡ is_reconfigure_request (request_of self.now) }
    {
        match self {
            Act::New { .. } => false,
            Act::Append { .. } => false,
            Act::Latest { .. } => false,
            Act::At { .. } => false,
            Act::Reconfigure { .. } => true,
        }
    }
}
