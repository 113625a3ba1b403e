ghost use Rattle.std.specs.Prelude.{◌≡◌, ◌<◌, IfOk, OnErr};
ghost use Rattle.tail_map.specs.TailMap.{get};
ghost use Rattle.statement.specs.declared.member.Member.{Member};
ghost use Rattle.port.specs.Call.{Append, Latest};
ghost use Rattle.port.specs.Answer.{answer_of};
ghost use Rattle.port.specs.Table.{appends, cell, held, reads};
ghost use Rattle.endorser_core.specs.Endorser.{Goes};
ghost use Rattle.endorser_core.specs.Held.{state_at, view_of};
ghost use Rattle.endorser_core.specs.Lacks.{MayLack};
ghost use Rattle.endorser_core.specs.Move.{Fits, cell_of};

use crate::membership::Membership;
use crate::moves::Move;
use chain_block::tail_of;
use nim_base::{Digest, NoMemory, Nonce};
use port::{EndorserAnswer, EndorserRefusal};
use seal::Signer;
use statement::Statement;
use std::alloc::Global;
use tail_map::TailRow;

/// The greatest count of a ledger.
const MAX_COUNT: u64 = 1 << 32;

/// The most ledgers of an endorser.
const MAX_LEDGERS: usize = 4_096;

impl Membership {
    // The answer to an Append.
    pub(crate) fn append<S: Signer>(
        &mut self,
        alloc: Global,
        signer: &mut S,
        handle: &Digest,
        prev: &Digest,
        entry: &Digest,
        height: u64,
    ) -> Result<EndorserAnswer, NoMemory>
        ensures done { IfOk result (λ answer. (me : Member) → let state = state_at self.old.stage (view_of self.old) in
            Goes S.key_of S.left_of S.size_of S.signs state (cell me state (Append handle.now prev.now entry.now height)) signer.old signer.new (state_at self.new.stage (view_of self.new)) (answer_of answer)) }
        ensures stage { self.new.stage ≡ self.old.stage }
        ensures same_signer { OnErr result (signer.new ≡ signer.old) }
        ensures same_view { OnErr result (view_of self.new ≡ view_of self.old) }
        ensures lacks { OnErr result ((me : Member) → MayLack (S.left_of signer.old) (cell me (state_at self.old.stage (view_of self.old)) (Append handle.now prev.now entry.now height))) }
    {
        if let Some(denial) = self.inactive(alloc)? {
            return Ok(EndorserAnswer::Refused(denial));
        }
        let step = self.append_move(handle, prev, entry, height);
        self.carry_out(alloc, signer, step)
    }

    // The answer to a Latest.
    pub(crate) fn latest<S: Signer>(
        &mut self,
        alloc: Global,
        signer: &mut S,
        handle: &Digest,
        nonce: &Nonce,
    ) -> Result<EndorserAnswer, NoMemory>
        ensures done { IfOk result (λ answer. (me : Member) → let state = state_at self.old.stage (view_of self.old) in
            Goes S.key_of S.left_of S.size_of S.signs state (cell me state (Latest handle.now nonce.now)) signer.old signer.new (state_at self.new.stage (view_of self.new)) (answer_of answer)) }
        ensures stage { self.new.stage ≡ self.old.stage }
        ensures same_signer { OnErr result (signer.new ≡ signer.old) }
        ensures same_view { OnErr result (view_of self.new ≡ view_of self.old) }
        ensures lacks { OnErr result ((me : Member) → MayLack (S.left_of signer.old) (cell me (state_at self.old.stage (view_of self.old)) (Latest handle.now nonce.now))) }
    {
        if let Some(denial) = self.inactive(alloc)? {
            return Ok(EndorserAnswer::Refused(denial));
        }
        let step = self.latest_move(handle, nonce);
        self.carry_out(alloc, signer, step)
    }

    // What an active member does at an Append.
    fn append_move(&self, handle: &Digest, prev: &Digest, entry: &Digest, height: u64) -> Move
        ensures cell { let row = get self.now.map.rows handle.now in
            cell_of (view_of self.now) result ≡ appends (view_of self.now) handle.now prev.now entry.now height row.0 row.1 }
        ensures fits { Fits self.now.map.rows result }
    {
        let (tail, count) = self.map.get(handle);
        if count < height {
            return Move::Refuses(EndorserRefusal::Behind { count });
        }
        if height < count {
            return self.append_again_move(handle, prev, entry, height, &tail, count);
        }
        if tail != *prev {
            return Move::Refuses(EndorserRefusal::OtherTail { tail });
        }
        if height == 0 && entry != handle {
            return Move::Refuses(EndorserRefusal::NotGenesis);
        }
        if height == MAX_COUNT {
            return Move::Refuses(EndorserRefusal::Tall);
        }
        if count == 0 && self.map.rows().len() == MAX_LEDGERS {
            return Move::Refuses(EndorserRefusal::Full);
        }
        let tail = tail_of(prev, entry, height);
        let count = height + 1;
        Move::Signs {
            statement: self.held(handle, &tail, count),
            row: Some(TailRow {
                handle: *handle,
                tail,
                count,
            }),
        }
    }

    // The same Append as the one that led to the ledger's tail is signed again; any other one comes too late.
    fn append_again_move(
        &self,
        handle: &Digest,
        prev: &Digest,
        entry: &Digest,
        height: u64,
        tail: &Digest,
        count: u64,
    ) -> Move
        requires { height < count }
        ensures cell { cell_of (view_of self.now) result ≡ appends (view_of self.now) handle.now prev.now entry.now height tail.now count }
        ensures fits { Fits self.now.map.rows result }
    {
        if count == height + 1 && *tail == tail_of(prev, entry, height) {
            return Move::Signs {
                statement: self.held(handle, tail, count),
                row: None,
            };
        }
        Move::Refuses(EndorserRefusal::Stands { count, tail: *tail })
    }

    // What an active member does at a Latest.
    fn latest_move(&self, handle: &Digest, nonce: &Nonce) -> Move
        ensures cell { let row = get self.now.map.rows handle.now in
            cell_of (view_of self.now) result ≡ reads (view_of self.now) handle.now nonce.now row.0 row.1 }
        ensures fits { Fits self.now.map.rows result }
    {
        let (tail, count) = self.map.get(handle);
        Move::Signs {
            statement: Statement::Latest {
                view: self.tail,
                handle: *handle,
                tail,
                count,
                nonce: *nonce,
            },
            row: None,
        }
    }

    fn held(&self, handle: &Digest, tail: &Digest, count: u64) -> Statement
        ensures { result ≡ held (view_of self.now) handle.now tail.now count }
    {
        Statement::Held {
            view: self.tail,
            handle: *handle,
            tail: *tail,
            count,
        }
    }
}
