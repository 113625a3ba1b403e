// The arms of a latest read's step: each makes one call and takes its answer.
ghost use Rattle.std.specs.Prelude.{◌≡◌, ◌<◌, ◌≤◌, ◌+◌, ℕ, true, false, [], ◌∷◌, length, slice_get, Some, None, Result, Ok, Err, IfOk, MatchResult};
ghost use Rattle.nim_base.specs.declared.no_memory.NoMemory.{NoMemory as MemoryWanted};
ghost use Rattle.statement.specs.declared.member.Member.{Member};
ghost use Rattle.statement.specs.Config.{IsConfig};
ghost use Rattle.port.specs.Reply.{LatestReply as LatestReplyContent};
ghost use Rattle.port.specs.Cause.{Cause};
ghost use Rattle.port.specs.declared.store_answers.Got.{Got};
ghost use Rattle.port.specs.declared.key.Key.TheVariants as keys;
ghost use Rattle.port.specs.Call.{Latest};
ghost use Rattle.port.specs.Heard.{Heard, heard_of};
ghost use Rattle.port.specs.Link.{LinkStep};
ghost use Rattle.port.specs.Store.{StoreStep, Get, WasGot};
ghost use Rattle.port.specs.Trace.{Event, AtStore, Ran};
ghost use Rattle.catch_up.specs.State.{State as CatchingUpState, is_live as is_catching_up};
ghost use Rattle.catch_up.specs.Sound.{Leads as CatchUpLeads};
ghost use Rattle.view_ledger.specs.Views.{newest_config};
ghost use Rattle.op_parts.specs.declared.refresh_turn.RefreshProgress.{RefreshProgress};
ghost use Rattle.op_parts.specs.RefreshState.{RefreshState, is_live as is_refreshing};
ghost use Rattle.op_parts.specs.RefreshSound.{Goes as RefreshGoes, Leads as RefreshLeads, key_of};

use crate::latest_claim::LatestClaim;
use crate::latest_head::LatestHead;
use crate::latest_op::LatestOp;
use crate::latest_row::answer_of;
use crate::latest_second::SecondAsking;
use crate::latest_stage::LatestStage;
use crate::latest_steps::{after_first, ask_next, end_turn, member_at};
use crate::latest_vote::{LatestVote, MemberVote};
use catch_up::{CatchUp, Progress};
use nim_base::{Digest, NoMemory};
use op_parts::{Refresh, RefreshProgress};
use port::{EndorserCall, Key, LatestReply, Link, LinkAnswer, Refusal, Store};
use seal::Checker;
use statement::{Member, Receipt};
use std::alloc::Global;

impl LatestOp {
    ghost use Rattle.op_latest.specs.LatestState.{Ended, Refreshing, Asking, CatchingUp, AskingAgain, IsInTurn, IsReady, calls_after, calls_at, calls_left, is_live, members_of, outcome_of, stage_of};
    ghost use Rattle.op_latest.specs.LatestRow.{TakesRow};
    ghost use Rattle.op_latest.specs.LatestSteps.{AsksNext, Goes, Settles, TakesAgain, TakesFirst, TakesProgress, TakesRefresh, at, claim_of, with_vote};
    ghost use Rattle.op_latest.specs.LatestVote.{vote_of};
    ghost use Rattle.port.specs.Cause.{NoMemory as WantsMemory};

    // What is asked of the members of the newest view.
    fn claim(&self) -> LatestClaim
        ensures { result ≡ claim_of self.now }
    {
        let view = match self.chain.tail(self.chain.number()) {
            Some(view) => view,
            None => Digest::default(),
        };
        LatestClaim {
            view,
            handle: self.handle,
            nonce: self.nonce,
        }
    }

    // Goes on so; where memory was wanted it has ended so.
    fn take(&mut self, stage: Result<LatestStage, NoMemory>) -> bool
        requires ready { IfOk stage (λ s. IsReady self.old.chain (stage_of s)) }
        requires ended { self.old.stage ≡ Ended (Err WantsMemory) }
        ensures taken { MatchResult stage (λ s. self.new ≡ at (stage_of s) self.old) (λ e. self.new ≡ self.old) }
        ensures live { result ≡ is_live self.new }
    {
        if let Ok(stage) = stage {
            self.stage = stage;
        }
        self.is_live()
    }

    pub(crate) fn end(&mut self, answer: Result<LatestReply, Refusal>) -> bool
        requires ended { self.old.stage ≡ Ended (Err WantsMemory) }
        ensures ends { self.new ≡ at (Ended (outcome_of answer)) self.old }
        ensures live { result ≡ is_live self.new }
    {
        self.take(Ok(LatestStage::Ended { answer }))
    }

    // Asks a member for the ledger's tail and count.
    fn send<L: Link>(&self, alloc: Global, link: &mut L, id: u32) -> LinkAnswer
        ensures { LinkStep L.view link.old link.new id (Latest self.now.handle self.now.nonce) (heard_of result) }
    {
        let call = EndorserCall::Latest {
            handle: self.handle,
            nonce: self.nonce,
        };
        link.call(alloc, id, &call)
    }

    pub(crate) fn refresh<S: Store, C: Checker>(
        &mut self,
        alloc: Global,
        store: &mut S,
        checker: &C,
        refresh: Refresh,
    ) -> bool
        requires ended { self.old.stage ≡ Ended (Err WantsMemory) }
        requires live { is_refreshing refresh ≡ true }
        ensures call { (got : Got) × (new : RefreshState) × (progress : Result RefreshProgress MemoryWanted)
            × StoreStep S.view store.old store.new (Get (key_of refresh self.old.chain)) (WasGot got)
            × RefreshGoes (C.accepts checker.now) refresh self.old.chain (AtStore (Get (key_of refresh self.old.chain)) (WasGot got)) new self.new.chain progress
            × RefreshLeads (C.accepts checker.now) refresh self.old.chain (AtStore (Get (key_of refresh self.old.chain)) (WasGot got)) new self.new.chain
            × TakesRefresh new progress (record self.old { chain = self.new.chain }) self.new
            × (progress ≡ Ok RefreshProgress.Fresh → IsConfig (newest_config self.new.chain.configs)) }
        ensures live { result ≡ is_live self.new }
        ensures falls { calls_left self.new < calls_at self.old.chain (Refreshing refresh) }
    {
        let mut refresh = refresh;
        let progress = refresh.step(alloc, &mut self.chain, store, checker);
        self.take_refresh(alloc, refresh, progress)
    }

    // How the refresh stands.
    fn take_refresh(
        &mut self,
        alloc: Global,
        refresh: Refresh,
        progress: Result<RefreshProgress, NoMemory>,
    ) -> bool
        requires ended { self.old.stage ≡ Ended (Err WantsMemory) }
        requires live { progress ≡ Ok RefreshProgress.More → is_refreshing refresh ≡ true }
        ensures takes { TakesRefresh refresh progress self.old self.new }
        ensures config { progress ≡ Ok RefreshProgress.Fresh → IsConfig (newest_config self.new.chain.configs) }
        ensures same { self.new.chain ≡ self.old.chain }
        ensures live { result ≡ is_live self.new }
        ensures calls { calls_left self.new ≤ calls_at self.old.chain (Refreshing refresh) }
    {
        match progress {
            Ok(RefreshProgress::More) => self.take(Ok(LatestStage::Refresh { refresh })),
            Ok(RefreshProgress::Fresh) => {
                let claim = self.claim();
                let stage = ask_next(alloc, &self.chain, &claim, Vec::new(alloc));
                self.take(stage)
            }
            Ok(RefreshProgress::Refused { refusal }) => self.end(Err(refusal)),
            Err(NoMemory) => self.take(Err(NoMemory)),
        }
    }

    pub(crate) fn ask_first<L: Link, C: Checker>(
        &mut self,
        alloc: Global,
        link: &mut L,
        checker: &C,
        votes: Vec<MemberVote>,
    ) -> bool
        requires ended { self.old.stage ≡ Ended (Err WantsMemory) }
        requires turn { length votes.items < members_of self.old.chain }
        ensures config { IsConfig (newest_config self.old.chain.configs) }
        ensures call { (member : Member) × (heard : Heard) × (slice_get (newest_config self.old.chain.configs) (length votes.items) ≡ Some member)
            × LinkStep L.view link.old link.new member.id (Latest self.old.handle self.old.nonce) heard
            × TakesFirst (C.accepts checker.now) member heard votes.items self.old self.new }
        ensures live { result ≡ is_live self.new }
        ensures falls { calls_left self.new < calls_at self.old.chain (Asking votes.items) }
    {
        let Some(member) = member_at(&self.chain, votes.len()) else {
            return false;
        };
        let heard = self.send(alloc, link, member.id);
        let vote = self.claim().judge(checker, &member, heard);
        self.take_first(alloc, member.id, votes, vote)
    }

    // What the first read made of the member with this id.
    fn take_first(
        &mut self,
        alloc: Global,
        id: u32,
        votes: Vec<MemberVote>,
        vote: Result<LatestVote, NoMemory>,
    ) -> bool
        requires ended { self.old.stage ≡ Ended (Err WantsMemory) }
        requires turn { length votes.items < members_of self.old.chain }
        ensures takes { MatchResult vote (λ v. Goes (AsksNext (claim_of self.old) self.old.chain (with_vote id (vote_of v) votes.items)) self.old self.new) (λ e. self.new ≡ self.old) }
        ensures live { result ≡ is_live self.new }
        ensures falls { calls_left self.new < calls_at self.old.chain (Asking votes.items) }
    {
        let Ok(vote) = vote else {
            return false;
        };
        let claim = self.claim();
        let stage = after_first(alloc, &self.chain, &claim, votes, id, vote);
        self.take(stage)
    }

    pub(crate) fn ask_again<L: Link, C: Checker>(
        &mut self,
        alloc: Global,
        link: &mut L,
        checker: &C,
        second: SecondAsking,
    ) -> bool
        requires ended { self.old.stage ≡ Ended (Err WantsMemory) }
        requires turn { IsInTurn self.old.chain second }
        ensures config { IsConfig (newest_config self.old.chain.configs) }
        ensures call { (member : Member) × (heard : Heard) × (slice_get (newest_config self.old.chain.configs) second.place ≡ Some member)
            × LinkStep L.view link.old link.new member.id (Latest self.old.handle self.old.nonce) heard
            × TakesAgain (C.accepts checker.now) member heard second self.old self.new }
        ensures live { result ≡ is_live self.new }
        ensures falls { calls_left self.new < calls_at self.old.chain (AskingAgain second) }
    {
        let Some(member) = member_at(&self.chain, second.place) else {
            return false;
        };
        let heard = self.send(alloc, link, member.id);
        let vote = self.claim().judge(checker, &member, heard);
        self.take_again(alloc, member.id, second, vote)
    }

    // What the second read made of the member with this id.
    fn take_again(
        &mut self,
        alloc: Global,
        id: u32,
        second: SecondAsking,
        vote: Result<LatestVote, NoMemory>,
    ) -> bool
        requires ended { self.old.stage ≡ Ended (Err WantsMemory) }
        requires turn { IsInTurn self.old.chain second }
        ensures takes { MatchResult vote (λ v. Goes (Settles (claim_of self.old) self.old.chain second id (vote_of v)) self.old self.new) (λ e. self.new ≡ self.old) }
        ensures live { result ≡ is_live self.new }
        ensures falls { calls_left self.new ≤ calls_after self.old.chain second.place }
    {
        let Ok(vote) = vote else {
            return false;
        };
        let claim = self.claim();
        let stage = end_turn(alloc, &self.chain, &claim, second, id, vote);
        self.take(stage)
    }

    pub(crate) fn catch_up<S: Store, L: Link>(
        &mut self,
        alloc: Global,
        store: &mut S,
        link: &mut L,
        second: SecondAsking,
        catch_up: CatchUp,
    ) -> bool
        requires ended { self.old.stage ≡ Ended (Err WantsMemory) }
        requires turn { IsInTurn self.old.chain second }
        requires live { is_catching_up catch_up ≡ true }
        ensures config { IsConfig (newest_config self.old.chain.configs) }
        ensures call { (member : Member) × (event : Event) × (new : CatchingUpState) × (progress : Result Progress MemoryWanted)
            × (slice_get (newest_config self.old.chain.configs) second.place ≡ Some member)
            × Ran S.view L.view store.old link.old (event ∷ []) store.new link.new × CatchUpLeads catch_up event new progress
            × TakesProgress member second new progress self.old self.new }
        ensures live { result ≡ is_live self.new }
        ensures falls { calls_left self.new < calls_at self.old.chain (CatchingUp second catch_up) }
    {
        let Some(member) = member_at(&self.chain, second.place) else {
            return false;
        };
        let mut catch_up = catch_up;
        let progress = catch_up.step(alloc, store, link);
        self.take_progress(alloc, &member, second, catch_up, progress)
    }

    // How the catch-up of the member stands.
    fn take_progress(
        &mut self,
        alloc: Global,
        member: &Member,
        second: SecondAsking,
        catch_up: CatchUp,
        progress: Result<Progress, NoMemory>,
    ) -> bool
        requires ended { self.old.stage ≡ Ended (Err WantsMemory) }
        requires turn { IsInTurn self.old.chain second }
        requires live { progress ≡ Ok Progress.More → is_catching_up catch_up ≡ true }
        ensures takes { TakesProgress member.now second catch_up progress self.old self.new }
        ensures live { result ≡ is_live self.new }
        ensures calls { calls_left self.new ≤ calls_at self.old.chain (CatchingUp second catch_up) }
    {
        let Ok(progress) = progress else {
            return false;
        };
        match progress {
            Progress::More => self.take(Ok(LatestStage::CatchUp { second, catch_up })),
            Progress::Reached => self.take(Ok(LatestStage::Again { second })),
            Progress::Ahead { count, tail } => {
                self.take_again(
                    alloc,
                    member.id,
                    second,
                    Ok(LatestVote::Ahead { count, tail }),
                )
            }
            Progress::Member { reason } => {
                self.take_again(alloc, member.id, second, Ok(LatestVote::Reason { reason }))
            }
            Progress::Row { refusal } => self.end(Err(refusal)),
        }
    }

    pub(crate) fn get_row<S: Store>(
        &mut self,
        alloc: Global,
        store: &mut S,
        head: LatestHead,
        receipt: Receipt,
    ) -> bool
        requires ended { self.old.stage ≡ Ended (Err WantsMemory) }
        requires some { 0 < head.count }
        ensures call { (height : ℕ) × (got : Got) × (answer : Result LatestReplyContent Cause) × (head.count ≡ height + 1)
            × StoreStep S.view store.old store.new (Get (keys.Row self.old.handle height)) (WasGot got)
            × TakesRow self.old.handle head receipt got answer × (self.new ≡ at (Ended answer) self.old) }
        ensures live { result ≡ is_live self.new }
    {
        let key = Key::Row {
            handle: self.handle,
            height: head.count - 1,
        };
        let got = store.get(alloc, &key);
        let answer = answer_of(alloc, &self.handle, &head, receipt, got);
        self.end(answer)
    }
}
