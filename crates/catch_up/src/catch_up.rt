ghost use Rattle.std.specs.Prelude.{◌≡◌, ◌↔◌, ◌-◌, ◌*◌, ◌<◌, true, false, [], ◌∷◌, Ok, IfOk, IsErr};
ghost use Rattle.port.specs.declared.key.Key.TheVariants.{Row as RowKey};
ghost use Rattle.port.specs.declared.store_answers.Got.{Got};
ghost use Rattle.port.specs.Heard.{Heard, heard_of};
ghost use Rattle.port.specs.Call.{Call};
ghost use Rattle.port.specs.Store.{StoreStep, Get, WasGot};
ghost use Rattle.port.specs.Link.{LinkStep};
ghost use Rattle.catch_up.specs.OwnCalls.{append_of};
ghost use Rattle.port.specs.Trace.{Event, AtStore, AtLink, Ran};

use crate::progress::Progress;
use crate::stage::Stage;
use crate::turn::Turn;
use chain_block::MetaBlock;
use nim_base::{Digest, NoMemory};
use port::{EndorserCall, Got, Key, Link, LinkAnswer, Store};
use std::alloc::Global;
use std::marker::Model;

/// One member of a view is brought forward in one ledger, from the count that it told to the wanted one.
///
/// For each height the row is got from the store and sent to the member as an append. Where the member signs, it has
/// come one height further; where it says that more stands, it has come to that count. A row is judged by itself:
/// whether it links to the one below is left to the member. Of a signed answer only the count is looked at.
#[derive(Debug, Drop)]
pub struct CatchUp {
    member: u32,
    handle: Digest,
    to: u64,
    stage: Stage,
}

impl Model for CatchUp {
    ghost use Rattle.catch_up.specs.State.{State, IsBelow};

    ghost Value = { State };

    ghost view = { λ catch_up. record { target = record { member = catch_up.member; handle = catch_up.handle; count = catch_up.to }; stage = catch_up.stage } };

    ghost invariant = { λ catch_up. IsBelow catch_up.to catch_up.stage };
}

impl CatchUp {
    ghost use Rattle.catch_up.specs.State.{is_live, calls_left, IsBelow};
    ghost use Rattle.catch_up.specs.Sound.{Sound, Leads, Takes};
    ghost use Rattle.catch_up.specs.Turn.{IsTaken};

    /// The catch-up of a member that told the count `from` of the ledger, to the count `to`. Nothing is asked yet, and
    /// no memory is taken.
    pub fn new(member: u32, handle: &Digest, from: u64, to: u64) -> CatchUp
        requires { from < to }
        ensures sound { Sound (record { member = member; handle = handle.now; count = to }) from result [] }
        ensures live { is_live result ≡ true }
        ensures calls { calls_left result ≡ 2 * (to - from) }
    {
        CatchUp {
            member,
            handle: *handle,
            to,
            stage: Stage::Get { height: from },
        }
    }

    /// Makes the next call, of the store or the link, and says how the catch-up then stands. After the end no call is
    /// made, and nothing is left to be said but `NoMemory`.
    ///
    /// - A row that the store hasn't is `Gap`, bytes that aren't the row of this ledger at this height are `BadRow`, and a
    ///   get that failed is `StoreFault`.
    /// - The reason of a member is `Lost`, its refusal, or `Other` with zeros, where its answer is none to the append: a
    ///   signed one has the count one above the height that was sent, and one that is behind a count below it.
    pub fn step<S: Store, L: Link>(
        &mut self,
        alloc: Global,
        store: &mut S,
        link: &mut L,
    ) -> Result<Progress, NoMemory>
        // While it is live it makes one call, of which the answer says how it went.
        ensures call { is_live self.old ≡ true → (event : Event) × Ran S.view L.view store.old link.old (event ∷ []) store.new link.new × Leads self.old event self.new result }
        ensures ended { is_live self.old ≡ false → (store.new ≡ store.old) × (link.new ≡ link.old) × (self.new ≡ self.old) × IsErr result }

        // So a loop ends that goes on while there is more to do.
        ensures live { (result ≡ Ok Progress.More) ↔ (is_live self.new ≡ true) }
        ensures falls { is_live self.old ≡ true → calls_left self.new < calls_left self.old }
    {
        match self.stage {
            Stage::Get { height } => self.get(alloc, store, height),
            Stage::Append { block } => self.append(alloc, link, &block),
            Stage::Ended => Err(NoMemory),
        }
    }

    fn get<S: Store>(
        &mut self,
        alloc: Global,
        store: &mut S,
        height: u64,
    ) -> Result<Progress, NoMemory>
        requires { self.old.stage ≡ Stage.Get height }
        ensures call { let call = Get (RowKey self.old.target.handle height) in (got : Got) × StoreStep S.view store.old store.new call (WasGot got) × Takes self.old.target height (AtStore call (WasGot got)) self.new.stage result }
        ensures same { self.new.target ≡ self.old.target }
        ensures falls { calls_left self.new < calls_left self.old }
    {
        let key = Key::Row {
            handle: self.handle,
            height,
        };
        let got = store.get(alloc, &key);
        self.take_row(alloc, height, got)
    }

    fn append<L: Link>(
        &mut self,
        alloc: Global,
        link: &mut L,
        block: &MetaBlock,
    ) -> Result<Progress, NoMemory>
        requires { self.old.stage ≡ Stage.Append block.now }
        ensures call { let call = append_of self.old.target.handle block.now in (heard : Heard) × LinkStep L.view link.old link.new self.old.target.member call heard × Takes self.old.target block.now.height (AtLink self.old.target.member call heard) self.new.stage result }
        ensures same { self.new.target ≡ self.old.target }
        ensures falls { calls_left self.new < calls_left self.old }
    {
        let heard = send(alloc, link, self.member, &self.handle, block);
        self.take_heard(block.height, heard)
    }

    // What the store gave for the row at the height.
    fn take_row(&mut self, alloc: Global, height: u64, got: Got) -> Result<Progress, NoMemory>
        requires { height < self.old.target.count }
        ensures takes { Takes self.old.target height (AtStore (Get (RowKey self.old.target.handle height)) (WasGot got)) self.new.stage result }
        ensures same { self.new.target ≡ self.old.target }
    {
        let turn = Turn::of_row(alloc, &self.handle, height, got);
        self.take(turn)
    }

    // What was heard of the append at the height.
    fn take_heard(&mut self, height: u64, heard: LinkAnswer) -> Result<Progress, NoMemory>
        requires { height < self.old.target.count }
        ensures takes { (call : Call) → Takes self.old.target height (AtLink self.old.target.member call (heard_of heard)) self.new.stage result }
        ensures same { self.new.target ≡ self.old.target }
        ensures falls { calls_left self.new < 2 * (self.old.target.count - height) - 1 }
    {
        let turn = Turn::of_heard(self.to, height, heard);
        self.take(turn)
    }

    fn take(&mut self, turn: Result<Turn, NoMemory>) -> Result<Progress, NoMemory>
        requires { IfOk turn (λ t. IsBelow self.old.target.count t.stage) }
        ensures same { self.new.target ≡ self.old.target }
        ensures taken { IsTaken turn self.new.stage result }
    {
        self.stage = Stage::Ended;
        let turn = turn?;
        self.stage = turn.stage;
        Ok(turn.progress)
    }
}

fn send<L: Link>(
    alloc: Global,
    link: &mut L,
    member: u32,
    handle: &Digest,
    block: &MetaBlock,
) -> LinkAnswer
    ensures { LinkStep L.view link.old link.new member (append_of handle.now block.now) (heard_of result) }
{
    let call = EndorserCall::Append {
        handle: *handle,
        prev: block.prev,
        entry: block.entry,
        height: block.height,
    };
    link.call(alloc, member, &call)
}
