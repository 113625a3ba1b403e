ghost use Rattle.std.specs.Prelude.{◌≡◌};
ghost use Rattle.fault_script.specs.Operations.{is_closed_of_client, is_latest, is_of_client, is_open, is_open_latest, is_unbegun};

/// Who asks for what an operation does: a client that reads the latest, a client otherwise, or the
/// coordinator.
#[derive(Clone, Copy, Debug, PartialEq, Eq)]
pub(crate) enum Role {
    Latest,
    Client,
    Coordinator,
}

/// What stands of an operation.
#[derive(Clone, Copy, Debug, PartialEq, Eq)]
pub(crate) enum Standing {
    Unbegun,
    Open(Role),
    Closed(Role),
}

impl Role {
    pub fn is_latest(self) -> bool
        ensures { result ≡ is_latest self }
    {
        matches!(self, Role::Latest)
    }

    pub fn is_of_client(self) -> bool
        ensures { result ≡ is_of_client self }
    {
        matches!(self, Role::Latest | Role::Client)
    }
}

impl Standing {
    pub fn is_unbegun(self) -> bool
        ensures { result ≡ is_unbegun self }
    {
        matches!(self, Standing::Unbegun)
    }

    pub fn is_open(self) -> bool
        ensures { result ≡ is_open self }
    {
        matches!(self, Standing::Open(_))
    }

    pub fn is_open_latest(self) -> bool
        ensures { result ≡ is_open_latest self }
    {
        match self {
            Standing::Open(role) => role.is_latest(),
            _ => false,
        }
    }

    pub fn is_closed_of_client(self) -> bool
        ensures { result ≡ is_closed_of_client self }
    {
        match self {
            Standing::Closed(role) => role.is_of_client(),
            _ => false,
        }
    }
}
