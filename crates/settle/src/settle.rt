ghost use Rattle.std.specs.Prelude.{◌≡◌, ◌↔◌, ◌+◌, ◌-◌, ◌*◌, ◌^◌, ◌<◌, ℕ, true, false, List, [], ◌∷◌, length, Result, Ok, IsErr};
ghost use Rattle.statement.specs.declared.member.Member.{Member};
ghost use Rattle.port.specs.declared.key.Key.TheVariants.{Row as RowKey};
ghost use Rattle.port.specs.declared.store_answers.Got.{Got};
ghost use Rattle.port.specs.declared.store_answers.Attached.{Attached};
ghost use Rattle.port.specs.Store.{StoreStep, Get, Attach, WasGot, WasAttached};
ghost use Rattle.port.specs.Trace.{Event, Ran};
ghost use Rattle.view_ledger.specs.Views.{newest_tail, newest_config};
ghost use Rattle.view_ledger.specs.Receipts.{Accepts};
ghost use Rattle.op_parts.specs.RoundRefusal.{causes};
ghost use Rattle.op_parts.specs.RoundSound.{Leads as RoundLeads};
ghost use Rattle.op_parts.specs.RoundState.{State as Asked, is_live as is_asking, calls_each, calls_left as round_calls};
ghost use Rattle.op_parts.specs.Walk.{Walk as Walking, Says as WalkSays, steps_left};

use crate::progress::SettleProgress;
use crate::stage::Stage;
use crate::top::Top;
use crate::turn::Turn;
use chain_block::MetaBlock;
use nim_base::{Digest, NoMemory, Text};
use op_parts::{
    Round, RoundProgress, Walk, WalkProgress, members, members_are_shown, round_calls_are_own,
    walks_link,
};
use port::{Key, Link, Reason, Store};
use seal::Checker;
use statement::Receipt;
use std::alloc::Global;
use std::marker::Model;
use std::mem::replace;
use view_ledger::ViewChain;

/// A row that has no accepted receipt is brought to one, its own or that of a row above it, under a chain's newest view.
#[derive(Debug, Drop)]
pub struct Settle {
    handle: Digest,
    stage: Stage,
}

impl Model for Settle {
    ghost use Rattle.settle.specs.State.{State, stage_of, IsReady};

    ghost Value = { State };

    ghost view = { λ settle. record { handle = settle.handle; stage = stage_of settle.stage } };

    ghost invariant = { λ settle. IsReady (stage_of settle.stage) };
}

impl Settle {
    ghost use Rattle.settle.specs.State.{AtEnd, AtRound, AtWalk, IsReady, stage_of, is_live, calls_above, calls_from, calls_left};
    ghost use Rattle.settle.specs.Turn.{TakesAttached, TakesRound, TakesWalk};
    ghost use Rattle.settle.specs.Sound.{Sound};
    ghost use Rattle.settle.specs.Leads.{Leads};

    /// The settling of the row of this ledger with this metablock, which has no accepted receipt. Nothing is asked yet, and no
    /// memory is taken.
    pub fn new(alloc: Global, handle: &Digest, block: &MetaBlock) -> Settle
        requires { block.now.height < 2 ^ 32 }
        ensures sound { (accepts : Accepts) (configs : List (List Member))
            → Sound accepts (record { handle = handle.now; block = block.now; configs = configs }) result [] }
        ensures live { (members : ℕ) → 0 < members → is_live members result ≡ true }
        ensures calls { (members : ℕ) → 0 < members → calls_left members result ≡ calls_from members [] (members * calls_each block.now.height) }
    {
        let top = Top {
            tail: block.tail(),
            height: block.height + 1,
            blocks: Vec::new(alloc),
        };
        Settle {
            handle: *handle,
            stage: Stage::Round {
                round: Round::new(alloc, handle, block),
                top,
            },
        }
    }

    /// Makes the next call, of the store or the link, and says how the settling then stands. The chain, the store, the link and
    /// the checker are those of the earlier steps. After the end no call is made, and nothing is left to be said but `NoMemory`.
    ///
    /// Where all members were asked and no quorum stands, a view that has ended is told before a map that is full, this before
    /// a member that has come further, and this before the members that are too few. An answer of the store to an attach is
    /// passed over, but for want of memory.
    pub fn step<S: Store, L: Link, C: Checker>(
        &mut self,
        alloc: Global,
        chain: &ViewChain,
        store: &mut S,
        link: &mut L,
        checker: &C,
    ) -> Result<SettleProgress, NoMemory>
        // While it is live it makes one call, of which the answer says how it went.
        ensures call { is_live (length (newest_config chain.now.configs)) self.old ≡ true
            → (event : Event) × Ran S.view L.view store.old link.old (event ∷ []) store.new link.new
            × Leads (C.accepts checker.now) chain.now.configs self.old event self.new result }
        ensures ended { is_live (length (newest_config chain.now.configs)) self.old ≡ false
            → (store.new ≡ store.old) × (link.new ≡ link.old) × (self.new ≡ self.old) × IsErr result }

        // So a loop ends that goes on while there is more to do.
        ensures live { (result ≡ Ok SettleProgress.More) ↔ (is_live (length (newest_config chain.now.configs)) self.new ≡ true) }
        ensures falls { let members = length (newest_config chain.now.configs) in is_live members self.old ≡ true
            → calls_left members self.new < calls_left members self.old }
    {
        members_are_shown();
        round_calls_are_own();
        walks_link();
        prove!(members(chain) > 0);
        match replace(&mut self.stage, Stage::Ended) {
            Stage::Round { round, top } => {
                self.ask(alloc, chain, store, link, checker, round, top)
            }
            Stage::Walk { walk, reasons } => {
                self.go_up(alloc, chain, store, checker, walk, reasons)
            }
            Stage::Attach {
                receipt,
                bytes,
                top,
            } => self.attach(alloc, store, receipt, bytes, top),
            Stage::Ended => Err(NoMemory),
        }
    }

    // One step of the round over the row at the top.
    fn ask<S: Store, L: Link, C: Checker>(
        &mut self,
        alloc: Global,
        chain: &ViewChain,
        store: &mut S,
        link: &mut L,
        checker: &C,
        round: Round,
        top: Top,
    ) -> Result<SettleProgress, NoMemory>
        ensures call { let members = newest_config chain.now.configs in is_asking (length members) round ≡ true
            → (event : Event) × (after : Asked) × (progress : Result RoundProgress NoMemory)
            × Ran S.view L.view store.old link.old (event ∷ []) store.new link.new
            × RoundLeads (C.accepts checker.now) (newest_tail chain.now.configs) members round event after progress
            × (progress ≡ Ok RoundProgress.Asked → after.asked ≡ length members)
            × TakesRound chain.now.configs self.old.handle after top progress self.new.stage result }
        ensures ended { is_asking (length (newest_config chain.now.configs)) round ≡ false
            → (store.new ≡ store.old) × (link.new ≡ link.old) × (self.new.stage ≡ AtRound round top) × IsErr result }
        ensures same { self.new.handle ≡ self.old.handle }
        ensures live { (result ≡ Ok SettleProgress.More) ↔ (is_live (length (newest_config chain.now.configs)) self.new ≡ true) }
        ensures falls { let members = length (newest_config chain.now.configs) in is_asking members round ≡ true
            → calls_left members self.new < calls_from members top.blocks (round_calls members round) }
    {
        let mut round = round;
        let progress = round.step(alloc, chain, store, link, checker);
        let turn = Turn::of_round(alloc, chain, &self.handle, round, top, progress);
        self.take(turn)
    }

    // One step of the walk up the rows.
    fn go_up<S: Store, C: Checker>(
        &mut self,
        alloc: Global,
        chain: &ViewChain,
        store: &mut S,
        checker: &C,
        walk: Walk,
        reasons: Vec<(u32, Reason)>,
    ) -> Result<SettleProgress, NoMemory>
        requires ready { IsReady (AtWalk walk (causes reasons.items)) }
        requires members { 0 < length (newest_config chain.now.configs) }
        ensures call { let call = Get (RowKey walk.handle walk.place.height) in (got : Got) × (after : Walking) × (progress : Result WalkProgress NoMemory)
            × StoreStep S.view store.old store.new call (WasGot got)
            × WalkSays (C.accepts checker.now) chain.now.configs walk.handle walk.place got after.place progress × (after.handle ≡ walk.handle)
            × TakesWalk chain.now.configs self.old.handle after (causes reasons.items) progress self.new.stage result }
        ensures same { self.new.handle ≡ self.old.handle }
        ensures live { (result ≡ Ok SettleProgress.More) ↔ (is_live (length (newest_config chain.now.configs)) self.new ≡ true) }
        ensures falls { let members = length (newest_config chain.now.configs) in calls_left members self.new < steps_left walk + calls_above members }
    {
        let mut walk = walk;
        let progress = walk.step(alloc, chain, store, checker);
        let turn = Turn::of_walk(alloc, chain, &self.handle, walk, reasons, progress);
        self.take(turn)
    }

    // The receipt is attached to the row at the top.
    fn attach<S: Store>(
        &mut self,
        alloc: Global,
        store: &mut S,
        receipt: Receipt,
        bytes: Text,
        top: Top,
    ) -> Result<SettleProgress, NoMemory>
        ensures call { let call = Attach (RowKey self.old.handle (top.height - 1)) bytes.bytes in (attached : Attached)
            × StoreStep S.view store.old store.new call (WasAttached attached) × TakesAttached receipt top attached self.new.stage result }
        ensures same { self.new.handle ≡ self.old.handle }
        ensures ended { self.new.stage ≡ AtEnd }
        ensures answer { result ≡ Ok SettleProgress.More → ⊥ }
    {
        let key = Key::Row {
            handle: self.handle,
            height: top.row_height(),
        };
        let attached = store.attach(alloc, &key, bytes.bytes());
        self.take(Turn::of_attached(attached, receipt, top))
    }

    fn take(&mut self, turn: Turn) -> Result<SettleProgress, NoMemory>
        requires { IsReady (stage_of turn.stage) }
        ensures taken { self.new ≡ record { handle = self.old.handle; stage = stage_of turn.stage } }
        ensures answer { result ≡ turn.answer }
    {
        self.stage = turn.stage;
        turn.answer
    }
}
