ghost use Rattle.std.specs.Prelude.{◌≡◌, ◌⊎◌, ◌≤◌, ◌++◌, length, None, Ok, Err, IfOk, IfErr, OnOk, MatchResult};
ghost use Rattle.nim_base.specs.declared.form_fault.FormFault.{FormFault};
ghost use Rattle.statement.specs.FormFault.{Gives};
ghost use Rattle.statement.specs.Mark.{id_of, AreMarks, mark_bytes};
ghost use Rattle.statement.specs.Receipt.{Receipt, IsReceipt, receipt_bytes, ReceiptShows};
ghost use Rattle.statement.specs.Reading.{MayGive, MayRead, whole, each_at, mark_at, receipt_at};

use crate::ids::is_above;
use crate::mark::Mark;
use crate::reading::{end, read_byte, read_bytes, read_u16, read_u32};
use crate::statement::{Statement, read_statement};
use nim_base::{Cursor, FormFault, NoMemory, Text};
use std::alloc::Global;
use std::marker::Model;

/// The most bytes that a signature has.
pub const MAX_SIGNATURE: usize = 16_384;

/// The most marks that a receipt has.
pub const MAX_MARKS: usize = 15;

const KIND: u8 = 0x23;

/// A statement, and who signed it.
#[derive(Debug, Drop)]
pub struct Receipt {
    pub statement: Statement,
    pub marks: Vec<Mark>,
}

impl Model for Receipt {
    ghost use Rattle.statement.specs.Receipt.{Receipt};

    ghost Value = { Receipt };

    ghost view = { λ receipt. record { statement = receipt.statement; marks = receipt.marks.items } };
}

impl Receipt {
    /// The bytes of the receipt: the kind 23 in hexadecimal, the bytes of the statement, the number of
    /// marks in 1 byte, and for each mark its id in 4, the length of its signature in 2 and the signature.
    pub fn write(&self, alloc: Global) -> Result<Text, NoMemory>
        requires { AreMarks self.now.marks }
        ensures { IfOk result (λ text. text.bytes ≡ receipt_bytes self.now) }
    {
        let statement = self.statement.write(alloc)?;
        let marks = &self.marks;
        let mut text = Text::of(alloc, &[KIND])?;
        text.push(statement.bytes())?;
        text.push(&[marks.len() as u8])?;
        for mark in marks {
            put_mark(&mut text, mark)?;
        }
        Ok(text)
    }

    /// The same receipt in memory of its own.
    pub fn copy(&self, alloc: Global) -> Result<Receipt, NoMemory>
        ensures { IfOk result (λ copy. copy ≡ self.now) }
    {
        Ok(Receipt {
            statement: self.statement,
            marks: copy_marks(alloc, self.marks.as_slice())?,
        })
    }

    /// The receipt whose bytes these are. A refusal names the fault that shows first, from the front, where
    /// the fields have the lengths that [`write`](Receipt::write) says:
    ///
    /// - `Kind` shows at the first byte, where it isn't that of a receipt, and at the first byte of the
    ///   statement, where it is that of no statement.
    /// - `Value` shows at the number of marks, where it is 0 or above [`MAX_MARKS`], and at the length of
    ///   a signature, where it is 0 or above [`MAX_SIGNATURE`].
    /// - `Order` shows at an id that isn't above the one before, also where the bytes end behind it.
    /// - `Short` shows where the bytes end inside a field. What a whole field before shows comes first.
    /// - `Trailing` shows at a byte after the last mark.
    pub fn read(alloc: Global, bytes: &[u8]) -> Result<Receipt, FormFault>
        // What is read is what a receipt writes, and that receipt is read from it, unless memory runs out.
        ensures found { IfOk result (λ receipt. IsReceipt receipt × (bytes.now ≡ receipt_bytes receipt)) }
        ensures only { (receipt : Receipt) → IsReceipt receipt → bytes.now ≡ receipt_bytes receipt → Gives result (Ok receipt) }

        // A refusal is the fault that shows first, and that fault is the refusal, unless memory runs out.
        ensures fault { IfErr result (λ fault. (fault ≡ FormFault.NoMemory) ⊎ ReceiptShows bytes.now fault) }
        ensures first { (fault : FormFault) → ReceiptShows bytes.now fault → Gives result (Err fault) }
    {
        read_whole(alloc, bytes)
    }
}

fn put_mark(text: &mut Text, mark: &Mark) -> Result<(), NoMemory>
    requires { length mark.now.sig ≤ 16384 }
    ensures { OnOk result (text.new.bytes ≡ text.old.bytes ++ mark_bytes mark.now) }
{
    let sig = mark.sig.bytes();
    text.push(&mark.id.to_be_bytes())?;
    text.push(&(sig.len() as u16).to_be_bytes())?;
    text.push(sig)
}

fn copy_marks(alloc: Global, marks: &[Mark]) -> Result<Vec<Mark>, NoMemory>
    ensures { IfOk result (λ copies. copies.items ≡ marks.now) }
{
    let mut copies = Vec::with_capacity(alloc, marks.len())?;
    for mark in marks {
        copies.push(mark.copy(alloc)?)?;
    }
    Ok(copies)
}

fn read_whole(alloc: Global, bytes: &[u8]) -> Result<Receipt, FormFault>
    ensures { MayGive (λ receipt. receipt) result (whole (receipt_at bytes.now)) }
{
    let mut cursor = Cursor::new(bytes);
    let receipt = read_receipt(alloc, &mut cursor)?;
    end(&cursor)?;
    Ok(receipt)
}

#[tactic(auto, unfolding(crate::specs::Reading::receipt_at, crate::specs::Reading::list_at))]
fn read_receipt(alloc: Global, cursor: &mut Cursor) -> Result<Receipt, FormFault>
    ensures { MayRead (λ receipt. receipt) result cursor.new (receipt_at cursor.old) }
{
    if read_byte(cursor)? != KIND {
        return Err(FormFault::Kind);
    }
    let statement = read_statement(cursor)?;
    let number = read_byte(cursor)?;
    if number == 0 || number as usize > MAX_MARKS {
        return Err(FormFault::Value);
    }
    let marks = read_marks(alloc, cursor, number)?;
    Ok(Receipt { statement, marks })
}

#[tactic(auto, unfolding(crate::specs::Reading::each_at))]
fn read_marks(alloc: Global, cursor: &mut Cursor, number: u8) -> Result<Vec<Mark>, FormFault>
    ensures { MayRead (λ marks. marks.items) result cursor.new (each_at mark_at id_of number None cursor.old) }
{
    let mut marks = Vec::with_capacity(alloc, number as usize)?;
    let mut before = None;
    for _ in 0..number {
        let mark = read_mark(alloc, cursor, before)?;
        before = Some(mark.id);
        marks.push(mark)?;
    }
    Ok(marks)
}

#[tactic(auto, unfolding(crate::specs::Reading::mark_at, crate::specs::Reading::signature_at))]
fn read_mark(alloc: Global, cursor: &mut Cursor, before: Option<u32>) -> Result<Mark, FormFault>
    ensures { MayRead (λ mark. mark) result cursor.new (mark_at before cursor.old) }
{
    let id = read_u32(cursor)?;
    if !is_above(before, id) {
        return Err(FormFault::Order);
    }
    let size = read_u16(cursor)? as usize;
    if size == 0 || size > MAX_SIGNATURE {
        return Err(FormFault::Value);
    }
    let sig = Text::of(alloc, read_bytes(cursor, size)?)?;
    Ok(Mark { id, sig })
}
