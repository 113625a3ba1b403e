ghost use Rattle.std.specs.Prelude.{◌≡◌, ◌++◌, [], ◌∷◌, List, OnOk, OnErr, IfOk};
ghost use Rattle.port.specs.Store.{PutNew, Get, Attach, WasPut, WasGot, WasAttached};
ghost use Rattle.blob_store.specs.Line.{Line, got_of};

use crate::pool::Pool;
use nim_base::{NoMemory, Text};
use port::{Attached, Got, Key, Put, Stored};
use std::alloc::Global;
use std::marker::Model;
use std::sync::Arc;

/// What was asked and answered, with bytes that are shared.
#[derive(Drop)]
pub(crate) enum LoggedCall {
    Put {
        key: Key,
        body: Arc<Text>,
        put: Put,
    },
    Get {
        key: Key,
        got: LoggedGot,
    },
    Attach {
        key: Key,
        bytes: Arc<Text>,
        attached: Attached,
    },
}

#[derive(Drop)]
pub(crate) enum LoggedGot {
    Some {
        body: Arc<Text>,
        attached: Option<Arc<Text>>,
    },
    None,
    Failed,
    NoMemory,
}

#[derive(Drop)]
pub(crate) struct LoggedLine {
    pub number: u64,
    pub call: LoggedCall,
}

/// The list of a store's calls. Contracts see it as that list, the oldest first.
#[derive(Drop)]
pub(crate) struct CallLog {
    pool: Pool,
    lines: Vec<LoggedLine>,
}

impl Model for CallLog {
    ghost use Rattle.std.specs.Prelude.{List, map};
    ghost use Rattle.blob_store.specs.Line.{Line, line_of};

    ghost Value = { List Line };

    ghost view = { λ log. map line_of log.lines.items };
}

impl CallLog {
    pub fn new(alloc: Global) -> CallLog
        ensures { result ≡ [] }
    {
        CallLog {
            pool: Pool::new(alloc),
            lines: Vec::new(alloc),
        }
    }

    pub fn add_put(
        &mut self,
        alloc: Global,
        number: u64,
        key: &Key,
        body: &[u8],
        put: Put,
    ) -> Result<(), NoMemory>
        ensures ok { OnOk result (self.new ≡ self.old ++ record { number = number; call = PutNew key.now body.now; answer = WasPut put } ∷ []) }
        ensures err { OnErr result (self.new ≡ self.old) }
    {
        let body = self.pool.share(alloc, key, body)?;
        let call = LoggedCall::Put {
            key: *key,
            body,
            put,
        };
        self.lines.push(LoggedLine { number, call })?;
        Ok(())
    }

    pub fn add_get(
        &mut self,
        alloc: Global,
        number: u64,
        key: &Key,
        got: &Got,
    ) -> Result<(), NoMemory>
        ensures ok { OnOk result (self.new ≡ self.old ++ record { number = number; call = Get key.now; answer = WasGot got.now } ∷ []) }
        ensures err { OnErr result (self.new ≡ self.old) }
    {
        let got = share_got(alloc, &mut self.pool, key, got)?;
        let call = LoggedCall::Get { key: *key, got };
        self.lines.push(LoggedLine { number, call })?;
        Ok(())
    }

    pub fn add_attach(
        &mut self,
        alloc: Global,
        number: u64,
        key: &Key,
        bytes: &[u8],
        attached: Attached,
    ) -> Result<(), NoMemory>
        ensures ok { OnOk result (self.new ≡ self.old ++ record { number = number; call = Attach key.now bytes.now; answer = WasAttached attached } ∷ []) }
        ensures err { OnErr result (self.new ≡ self.old) }
    {
        let bytes = self.pool.share(alloc, key, bytes)?;
        let call = LoggedCall::Attach {
            key: *key,
            bytes,
            attached,
        };
        self.lines.push(LoggedLine { number, call })?;
        Ok(())
    }

    /// Takes the last call back.
    pub fn forget(&mut self)
        ensures { (line : Line) (before : List Line) → self.old ≡ before ++ line ∷ [] → self.new ≡ before }
    {
        let _ = self.lines.pop();
    }
}

fn share_got(alloc: Global, pool: &mut Pool, key: &Key, got: &Got) -> Result<LoggedGot, NoMemory>
    ensures { IfOk result (λ logged. got_of logged ≡ got.now) }
{
    match got {
        Got::None => Ok(LoggedGot::None),
        Got::Failed => Ok(LoggedGot::Failed),
        Got::NoMemory => Ok(LoggedGot::NoMemory),
        Got::Some(stored) => share_stored(alloc, pool, key, stored),
    }
}

fn share_stored(
    alloc: Global,
    pool: &mut Pool,
    key: &Key,
    stored: &Stored,
) -> Result<LoggedGot, NoMemory>
    ensures { IfOk result (λ logged. got_of logged ≡ Got.Some stored.now) }
{
    let body = pool.share(alloc, key, stored.body.bytes())?;
    let attached = match &stored.attached {
        None => None,
        Some(bytes) => Some(pool.share(alloc, key, bytes.bytes())?),
    };
    Ok(LoggedGot::Some { body, attached })
}
