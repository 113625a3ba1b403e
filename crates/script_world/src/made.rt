// Replies that a script gives a client, which the service didn't give.
ghost use Rattle.std.specs.Prelude.{◌≡◌, ◌++◌, map, option_to_list, IfOk, IfSome, IfNone, MatchOption, None, OnOk};
ghost use Rattle.script_operations.specs.Giving.{NoneReads};
ghost use Rattle.script_world.specs.Carried.{Forged, GivenReply, Offered};
ghost use Rattle.statement.specs.Statement.{statement_bytes};
ghost use Rattle.script_world.specs.Going.{GoesOn};
ghost use Rattle.script_world.specs.Running.{world_of};
ghost use Rattle.script_world.specs.Signed.{AreMarksBy, IsForged, IsOffered, all_signed, count_told, receipt_of};

use crate::held::{newest_row, tail_or_zeros};
use crate::member_signer::MemberSigner;
use crate::signed::{Signed, all_signed, marks_of};
use crate::world::World;
use blob_store::LyingStore;
use coordinator::Coordinator;
use nim_base::{Digest, NoMemory, Nonce, Text};
use port::LatestReply;
use reply_lines::no_reply_line;
use roster_bank::{RosterBank, RunName};
use script_operations::operations_keep_draws;
use seal::{Checker, Scheme, SignFault, Signer};
use statement::{Mark, Receipt, Statement};
use std::alloc::Global;

/// How many rows a statement tells.
fn count_told(statement: &Statement) -> u64
    ensures { result ≡ count_told statement.now }
{
    match statement {
        Statement::Held { count, .. } | Statement::Latest { count, .. } => *count,
        Statement::Final { .. } => 0,
    }
}

/// A receipt for the first one's statement, with the signatures of all. `None` where there are none.
fn receipt_of(alloc: Global, all: Vec<Signed>) -> Result<Option<Receipt>, NoMemory>
    ensures { IfOk result (λ receipt. receipt ≡ receipt_of all.items) }
{
    let Some(first) = all.first() else {
        return Ok(None);
    };
    let statement = first.statement;
    Ok(Some(Receipt {
        statement,
        marks: marks_of(alloc, all)?,
    }))
}

/// The reply that the signatures of these endorsers make. `None` where none of them signed for this read.
fn offered<G: Scheme, K: RunName>(
    alloc: Global,
    coordinator: &Coordinator<LyingStore, RosterBank<'_, G, K>, G::Checker>,
    handle: &Digest,
    nonce: &Nonce,
    ids: &[u32],
) -> Result<Option<LatestReply>, NoMemory>
    ensures reply { IfOk result (λ reply. IfSome reply (IsOffered coordinator.now.store handle.now (all_signed handle.now nonce.now coordinator.now.link.cells ids.now))) }
    ensures none { IfOk result (λ reply. IfNone reply (receipt_of (all_signed handle.now nonce.now coordinator.now.link.cells ids.now) ≡ None)) }
{
    let all = all_signed(alloc, coordinator.link(), handle, nonce, ids)?;
    let Some(receipt) = receipt_of(alloc, all)? else {
        return Ok(None);
    };
    let count = count_told(&receipt.statement);
    let row = newest_row(alloc, coordinator.store(), handle, count)?;
    Ok(Some(LatestReply { row, receipt }))
}

/// The reply that says in this view that the ledger has so many rows, signed by these.
fn forged<S: Signer>(
    alloc: Global,
    store: &LyingStore,
    view: Digest,
    handle: Digest,
    nonce: Nonce,
    count: u64,
    signers: Vec<MemberSigner<S>>,
) -> Result<LatestReply, NoMemory>
    ensures forged { IfOk result (λ reply. IsForged store.now view handle nonce count reply) }
    ensures marks { IfOk result (λ reply. AreMarksBy S.left_of S.signs (statement_bytes reply.receipt.statement) (map (λ member. (member.id, member.signer)) signers.items) reply.receipt.marks) }
{
    let row = newest_row(alloc, store, &handle, count)?;
    let statement = Statement::Latest {
        view,
        handle,
        tail: tail_or_zeros(&row),
        count,
        nonce,
    };
    let marks = marks_by(alloc, signers, &statement)?;
    let receipt = Receipt { statement, marks };
    Ok(LatestReply { row, receipt })
}

/// The marks of these signers on the statement. One that has no signature left makes none.
fn marks_by<S: Signer>(
    alloc: Global,
    signers: Vec<MemberSigner<S>>,
    statement: &Statement,
) -> Result<Vec<Mark>, NoMemory>
    ensures { IfOk result (λ marks. AreMarksBy S.left_of S.signs (statement_bytes statement.now) (map (λ member. (member.id, member.signer)) signers.items) marks.items) }
{
    let bytes = statement.bytes();
    let mut marks = Vec::with_capacity(alloc, signers.len())?;
    for member in signers {
        let mark = mark_by(alloc, member, bytes.as_slice())?;
        push_mark(&mut marks, mark)?;
    }
    Ok(marks)
}

fn push_mark(marks: &mut Vec<Mark>, mark: Option<Mark>) -> Result<(), NoMemory>
    ensures { OnOk result (marks.new.items ≡ marks.old.items ++ option_to_list mark) }
{
    match mark {
        Some(mark) => {
            marks.push(mark)?;
            Ok(())
        }
        None => Ok(()),
    }
}

fn mark_by<S: Signer>(
    alloc: Global,
    member: MemberSigner<S>,
    bytes: &[u8],
) -> Result<Option<Mark>, NoMemory>
    ensures { IfOk result (λ mark. MatchOption mark (S.left_of member.signer ≡ 0) (λ mark. (mark.id ≡ member.id) × ((after : S) × S.signs member.signer bytes.now mark.sig after))) }
{
    let MemberSigner { id, signer } = member;
    let mut signer = signer;
    match signer.sign(alloc, bytes) {
        Ok(sig) => Ok(Some(Mark { id, sig })),
        Err(SignFault::Spent) => Ok(None),
        Err(SignFault::NoMemory) => Err(NoMemory),
    }
}

impl<'w, G: Scheme, K: RunName> World<'w, G, K> {
    /// `offer OP IDS`: the client of the open read of a newest row of this name gets a reply made of what these endorsers signed for it
    /// newest, whether its link heard that or not. The statement is that of the first id that signed; the row is the one that really
    /// stands as the newest one by that statement. Where none of them signed, the line is `noreply`. In both cases the operation closes.
    /// `None` says that there is no such read.
    pub fn offer(&mut self, op: &[u8], ids: &[u32]) -> Result<Option<Text>, NoMemory>
        ensures offered { IfOk result (λ line. MatchOption line (NoneReads self.old.operations op.now × (self.new ≡ self.old)) (λ line.
            Offered G.Signer.key_of G.Signer.left_of G.Checker.accepts K.accepts self.old self.new op.now ids.now line.bytes)) }
        ensures goes { GoesOn (world_of self.old) (world_of self.new) }
        ensures names { self.new.names ≡ self.old.names }
        ensures ledgers { self.new.ledgers ≡ self.old.ledgers }
        ensures draws { self.new.draws ≡ self.old.draws }
    {
        let Some(reading) = self.operations.reading(op) else {
            return Ok(None);
        };
        let made = offered(
            self.alloc,
            &self.coordinator,
            &reading.handle,
            &reading.nonce,
            ids,
        )?;
        match made {
            Some(reply) => self.give(op, reply),
            None => {
                self.operations.close(op);
                Ok(Some(no_reply_line(self.alloc)?))
            }
        }
    }

    /// `forge OP COUNT IDS`: the same with a reply that says in the newest view which the client knows that the ledger has so many rows, the
    /// newest of them the one that really stands, signed by these.
    pub fn forge(
        &mut self,
        op: &[u8],
        count: u64,
        signers: Vec<MemberSigner<G::Signer>>,
    ) -> Result<Option<Text>, NoMemory>
        ensures forged { IfOk result (λ line. MatchOption line (NoneReads self.old.operations op.now × (self.new ≡ self.old)) (λ line.
            Forged G.Signer.key_of G.Signer.left_of G.Checker.accepts K.accepts self.old self.new op.now G.Signer.signs count (map (λ member. (member.id, member.signer)) signers.items) line.bytes)) }
        ensures goes { GoesOn (world_of self.old) (world_of self.new) }
        ensures names { self.new.names ≡ self.old.names }
        ensures ledgers { self.new.ledgers ≡ self.old.ledgers }
        ensures draws { self.new.draws ≡ self.old.draws }
    {
        operations_keep_draws::<G::Checker>();
        let Some(reading) = self.operations.reading(op) else {
            return Ok(None);
        };
        let view = self.acts.newest_view(reading.client);
        let reply = forged(
            self.alloc,
            self.coordinator.store(),
            view,
            reading.handle,
            reading.nonce,
            count,
            signers,
        )?;
        self.give(op, reply)
    }

    fn give(&mut self, op: &[u8], reply: LatestReply) -> Result<Option<Text>, NoMemory>
        ensures given { IfOk result (λ line. MatchOption line (NoneReads self.old.operations op.now × (self.new ≡ self.old)) (λ line.
            GivenReply G.Signer.key_of G.Signer.left_of G.Checker.accepts K.accepts self.old self.new op.now reply line.bytes)) }
        ensures goes { GoesOn (world_of self.old) (world_of self.new) }
        ensures names { self.new.names ≡ self.old.names }
        ensures ledgers { self.new.ledgers ≡ self.old.ledgers }
        ensures draws { self.new.draws ≡ self.old.draws }
    {
        operations_keep_draws::<G::Checker>();
        self.operations
            .give(op, reply, &mut self.acts, &mut self.coordinator)
    }
}
