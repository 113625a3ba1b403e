ghost use Rattle.std.specs.Prelude.{◌≡◌, ◌↔◌, Ok, Err, IfOk};
ghost use Rattle.nim_base.specs.declared.form_fault.FormFault.{FormFault};
ghost use Rattle.statement.specs.declared.statement.Statement.{Statement};
ghost use Rattle.statement.specs.Statement.{IsStatement, view_of, statement_bytes, StatementShows};
ghost use Rattle.statement.specs.Reading.{GivesJust, Reads, whole, statement_at, held_at, latest_at, final_at};

use crate::reading::{end, read_byte, read_digest, read_nonce, read_u64};
use crate::statement_bytes::StatementBytes;
use nim_base::{Cursor, Digest, FormFault, NoMemory, Nonce, Text};
use std::alloc::Global;

const HELD: u8 = 0x20;

const LATEST: u8 = 0x21;

const FINAL: u8 = 0x22;

/// What a member signs. Each statement begins with the tail of the view in which it is made.
#[derive(Clone, Copy, Debug, PartialEq, Eq)]
pub enum Statement {
    /// The member holds this tail and this count of a ledger. Its bytes, 105 of them, are the kind 20 in
    /// hexadecimal, `view` (32), `handle` (32), `tail` (32) and `count` (8).
    Held {
        view: Digest,
        handle: Digest,
        tail: Digest,
        count: u64,
    },
    /// The same, told to the one who drew this nonce. Its bytes, 121 of them, are the kind 21 in
    /// hexadecimal, `view` (32), `handle` (32), `tail` (32), `count` (8) and `nonce` (16).
    Latest {
        view: Digest,
        handle: Digest,
        tail: Digest,
        count: u64,
        nonce: Nonce,
    },
    /// The member has ended the view with a map of this digest, and names the tail of the next view. Its
    /// bytes, 97 of them, are the kind 22 in hexadecimal, `view` (32), `next` (32) and `map` (32).
    Final {
        view: Digest,
        next: Digest,
        map: Digest,
    },
}

impl Statement {
    /// The tail of the view in which the statement is made.
    pub fn view(&self) -> Digest
        ensures { result ≡ view_of self.now }
    {
        match self {
            Statement::Held { view, .. }
            | Statement::Latest { view, .. }
            | Statement::Final { view, .. } => *view,
        }
    }

    /// The bytes of the statement, as its variants say. These are what is signed. They take no memory.
    pub fn bytes(&self) -> StatementBytes
        ensures { result ≡ statement_bytes self.now }
    {
        match self {
            Statement::Held {
                view,
                handle,
                tail,
                count,
            } => {
                let mut bytes = StatementBytes::of_kind(HELD);
                bytes.put(&view.0);
                bytes.put(&handle.0);
                bytes.put(&tail.0);
                bytes.put(&count.to_be_bytes());
                bytes
            }
            Statement::Latest {
                view,
                handle,
                tail,
                count,
                nonce,
            } => {
                let mut bytes = StatementBytes::of_kind(LATEST);
                bytes.put(&view.0);
                bytes.put(&handle.0);
                bytes.put(&tail.0);
                bytes.put(&count.to_be_bytes());
                bytes.put(&nonce.0);
                bytes
            }
            Statement::Final { view, next, map } => {
                let mut bytes = StatementBytes::of_kind(FINAL);
                bytes.put(&view.0);
                bytes.put(&next.0);
                bytes.put(&map.0);
                bytes
            }
        }
    }

    /// The bytes of the statement in memory of their own.
    pub fn write(&self, alloc: Global) -> Result<Text, NoMemory>
        ensures { IfOk result (λ text. text.bytes ≡ statement_bytes self.now) }
    {
        let bytes = self.bytes();
        Text::of(alloc, bytes.as_slice())
    }

    /// The statement whose bytes these are. It takes no memory, and `NoMemory` is never its answer. `Kind`
    /// comes where the first byte is that of no statement; `Short` where there is no byte, or fewer than
    /// a statement of this kind has; `Trailing` where more bytes follow a whole statement. A count may be
    /// any number.
    pub fn read(bytes: &[u8]) -> Result<Statement, FormFault>
        // What is read is what a statement writes, and that statement is read from it.
        ensures found { IfOk result (λ statement. IsStatement statement × (bytes.now ≡ statement_bytes statement)) }
        ensures only { (statement : Statement) → IsStatement statement → bytes.now ≡ statement_bytes statement → result ≡ Ok statement }

        // A refusal is just the fault that shows first.
        ensures fault { (fault : FormFault) → (result ≡ Err fault) ↔ StatementShows bytes.now fault }
    {
        read_whole(bytes)
    }
}

fn read_whole(bytes: &[u8]) -> Result<Statement, FormFault>
    ensures { GivesJust result (whole (statement_at bytes.now)) }
{
    let mut cursor = Cursor::new(bytes);
    let statement = read_statement(&mut cursor)?;
    end(&cursor)?;
    Ok(statement)
}

/// The statement that the bytes begin with.
#[tactic(auto, unfolding(crate::specs::Reading::statement_at))]
pub(crate) fn read_statement(cursor: &mut Cursor) -> Result<Statement, FormFault>
    ensures { Reads result cursor.new (statement_at cursor.old) }
{
    match read_byte(cursor)? {
        HELD => read_held(cursor),
        LATEST => read_latest(cursor),
        FINAL => read_final(cursor),
        _ => Err(FormFault::Kind),
    }
}

#[tactic(auto, unfolding(crate::specs::Reading::held_at))]
fn read_held(cursor: &mut Cursor) -> Result<Statement, FormFault>
    ensures { Reads result cursor.new (held_at cursor.old) }
{
    let view = read_digest(cursor)?;
    let handle = read_digest(cursor)?;
    let tail = read_digest(cursor)?;
    let count = read_u64(cursor)?;
    Ok(Statement::Held {
        view,
        handle,
        tail,
        count,
    })
}

#[tactic(auto, unfolding(crate::specs::Reading::latest_at))]
fn read_latest(cursor: &mut Cursor) -> Result<Statement, FormFault>
    ensures { Reads result cursor.new (latest_at cursor.old) }
{
    let view = read_digest(cursor)?;
    let handle = read_digest(cursor)?;
    let tail = read_digest(cursor)?;
    let count = read_u64(cursor)?;
    let nonce = read_nonce(cursor)?;
    Ok(Statement::Latest {
        view,
        handle,
        tail,
        count,
        nonce,
    })
}

#[tactic(auto, unfolding(crate::specs::Reading::final_at))]
fn read_final(cursor: &mut Cursor) -> Result<Statement, FormFault>
    ensures { Reads result cursor.new (final_at cursor.old) }
{
    let view = read_digest(cursor)?;
    let next = read_digest(cursor)?;
    let map = read_digest(cursor)?;
    Ok(Statement::Final { view, next, map })
}
