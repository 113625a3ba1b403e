ghost use Rattle.std.specs.Prelude.{◌≡◌};
ghost use Rattle.std.specs.Option.{option_map};
ghost use Rattle.fault_script.specs.Seen.{command_of};
ghost use Rattle.fault_script.specs.Labels.{label_of};
ghost use Rattle.fault_script.specs.Limits.{is_new, is_raw_finalize, is_reconfigure};
ghost use Rattle.fault_script.specs.Line.{is_end};
ghost use Rattle.fault_script.specs.Script.{is_plain_command};

use crate::act::Act;
use nim_base::Text;

/// A line of a script. Operations, clients and labels are names, and ids are numbers from 1 to 64.
/// Lists of ids have 1 to 15, strictly rising. Heights and numbers of nonces are at most
/// 4,294,967,295, and `n` is 1 to 1,000.
#[derive(Debug, Drop)]
pub enum Line {
    /// `genesis IDS`, the first line: the service begins with these endorsers.
    Genesis {
        ids: Vec<u32>,
    },
    /// An act, done at once.
    Plain {
        act: Act,
    },
    /// `restart`: the coordinator forgets all but its first view, and each open operation closes.
    Restart,
    /// `begin OP ACT`: opens an operation that does the act step by step.
    Begin {
        op: Text,
        act: Act,
    },
    /// `step OP N`: up to so many steps.
    Step {
        op: Text,
        n: u64,
    },
    /// `finish OP`: steps to the answer, and closes the operation.
    Finish {
        op: Text,
    },
    /// `retry OP`: does a client's closed operation anew.
    Retry {
        op: Text,
    },
    /// `lose request ID N`: that endorser's next calls are lost before its step.
    LoseRequest {
        id: u32,
        n: u64,
    },
    /// `lose reply ID N`: they are lost after its step.
    LoseReply {
        id: u32,
        n: u64,
    },
    /// `store fail N`: the next calls of the store fail.
    StoreFail {
        n: u64,
    },
    /// `store hide LABEL HEIGHT`: the store doesn't show that row.
    StoreHide {
        label: Text,
        height: u64,
    },
    /// `store stale LABEL HEIGHT FROM`: in that row's place it shows the one at `from`.
    StoreStale {
        label: Text,
        height: u64,
        from: u64,
    },
    /// `store fork LABEL HEIGHT`: a put of that row replaces what stands.
    StoreFork {
        label: Text,
        height: u64,
    },
    /// `store honest`: the store's lies end.
    StoreHonest,
    /// `raw append ID LABEL HEIGHT =PAYLOAD NONCE`: an append goes to that endorser directly. The
    /// height is at least 1.
    RawAppend {
        id: u32,
        label: Text,
        height: u64,
        payload: Text,
        nonce: u64,
    },
    /// `raw latest ID LABEL NONCE`: so does a request of the latest.
    RawLatest {
        id: u32,
        label: Text,
        nonce: u64,
    },
    /// `raw show ID LABEL`: so does a request to show its state.
    RawShow {
        id: u32,
        label: Text,
    },
    /// `raw finalize ID IDS`: so does a request to end its view. No line has it yet.
    RawFinalize {
        id: u32,
        ids: Vec<u32>,
    },
    /// `offer OP IDS`: an open read of the latest gets a reply made of lines that these endorsers
    /// signed, and closes.
    Offer {
        op: Text,
        ids: Vec<u32>,
    },
    /// `forge OP COUNT IDS`: the same with signatures that are made up. The count is at most
    /// 4,294,967,296.
    Forge {
        op: Text,
        count: u64,
        ids: Vec<u32>,
    },
    /// `end`, the last line.
    End,
}

impl Line {
    /// The label that it has, if it has one: that of its act, of a lie or of a call to an endorser.
    pub fn label(&self) -> Option<&[u8]>
        ensures { option_map (λ label. label.now) result ≡ label_of (command_of self.now) }
    {
        match self {
            Line::Plain { act } => act.label(),
            Line::Begin { act, .. } => act.label(),
            Line::StoreHide { label, .. } => Some(label.bytes()),
            Line::StoreStale { label, .. } => Some(label.bytes()),
            Line::StoreFork { label, .. } => Some(label.bytes()),
            Line::RawAppend { label, .. } => Some(label.bytes()),
            Line::RawLatest { label, .. } => Some(label.bytes()),
            Line::RawShow { label, .. } => Some(label.bytes()),
            _ => None,
        }
    }

    pub(crate) fn is_new(&self) -> bool
        ensures { result ≡ is_new (command_of self.now) }
    {
        match self {
            Line::Plain { act } => act.is_new(),
            Line::Begin { act, .. } => act.is_new(),
            _ => false,
        }
    }

    pub(crate) fn is_reconfigure(&self) -> bool
        ensures { result ≡ is_reconfigure (command_of self.now) }
    {
        match self {
            Line::Plain { act } => act.is_reconfigure(),
            Line::Begin { act, .. } => act.is_reconfigure(),
            _ => false,
        }
    }

    pub(crate) fn is_raw_finalize(&self) -> bool
        ensures { result ≡ is_raw_finalize (command_of self.now) }
    {
        matches!(self, Line::RawFinalize { .. })
    }

    pub(crate) fn is_end(&self) -> bool
        ensures { result ≡ is_end (command_of self.now) }
    {
        matches!(self, Line::End)
    }

    pub(crate) fn is_plain(&self) -> bool
        ensures { result ≡ is_plain_command (command_of self.now) }
    {
        matches!(
            self,
            Line::Genesis { .. } | Line::Plain { .. } | Line::Restart | Line::End
        )
    }
}
