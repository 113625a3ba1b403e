ghost use Rattle.std.specs.Prelude.{◌≡◌, ◌↔◌, ◌+◌, ◌*◌, ◌<◌, ℕ, Bool, true, false, List, [], ◌∷◌, length, map, Result, Ok, IsErr, OnOk, OnErr};
ghost use Rattle.statement.specs.declared.member.Member.{Member};
ghost use Rattle.port.specs.Cause.{member_cause_of};
ghost use Rattle.port.specs.Heard.{Heard, heard_of};
ghost use Rattle.port.specs.Link.{LinkStep};
ghost use Rattle.port.specs.Trace.{Event, Ran};
ghost use Rattle.catch_up.specs.State.{State as CatchingUp, is_live as is_catching_up, calls_left as catch_up_calls};
ghost use Rattle.catch_up.specs.OwnCalls.{append_of};
ghost use Rattle.catch_up.specs.Sound.{Leads as CatchUpLeads};
ghost use Rattle.view_ledger.specs.Views.{newest_tail, newest_config};
ghost use Rattle.view_ledger.specs.Receipts.{Accepts};
ghost use Rattle.op_parts.specs.RoundAsking.{claim_of};
ghost use Rattle.op_parts.specs.RoundOutcome.{outcome_of};

use crate::round_progress::RoundProgress;
use crate::round_stage::Stage;
use crate::round_turn::Turn;
use crate::round_verdict::{Claim, Verdict};
use catch_up::{CatchUp, Progress, counts_are_told_on};
use chain_block::MetaBlock;
use nim_base::{Digest, NoMemory};
use port::{EndorserCall, EndorserRefusal, Link, LinkAnswer, Reason, Store};
use seal::Checker;
use statement::Mark;
use std::alloc::Global;
use std::marker::Model;
use std::mem::replace;
use view_ledger::ViewChain;

/// One row is appended to all members of a chain's newest view, one member after the other, in rising ids.
///
/// A member that has a count below the row's height is caught up and asked once more. Then it has a mark, which is its
/// signature over the statement that it holds the ledger at the row's tail in this view, or a reason.
#[derive(Debug, Drop)]
pub struct Round {
    handle: Digest,
    block: MetaBlock,
    // The row's tail.
    tail: Digest,
    asked: usize,
    marks: Vec<Mark>,
    reasons: Vec<(u32, Reason)>,
    stage: Stage,
}

impl Model for Round {
    ghost use Rattle.std.specs.Prelude.{◌≡◌, map};
    ghost use Rattle.chain_block.specs.Tail.{tail_after};
    ghost use Rattle.port.specs.Cause.{member_cause_of};
    ghost use Rattle.op_parts.specs.RoundState.{State, IsReady};

    ghost Value = { State };

    ghost view = { λ round. record { handle = round.handle; block = round.block; asked = round.asked; marks = round.marks.items; reasons = map (λ r. (r.0, member_cause_of r.1)) round.reasons.items; stage = round.stage } };

    ghost invariant = { λ round. (round.tail ≡ tail_after round.block.prev round.block.entry round.block.height) × IsReady round.stage };
}

impl Round {
    ghost use Rattle.op_parts.specs.declared.round_stage.Stage.TheVariants.{Ended};
    ghost use Rattle.op_parts.specs.RoundState.{is_live, calls_each, calls_from, calls_left};
    ghost use Rattle.op_parts.specs.RoundSound.{Sound, Leads};
    ghost use Rattle.op_parts.specs.RoundSteps.{Moves, recorded, passed, next_answer, IsLower, Finishes, Begins, TakesVerdict, TakesFirst, TakesAgain, TakesProgress};

    /// The round of the row of this ledger with this metablock. Nothing is asked yet, and no memory is taken.
    pub fn new(alloc: Global, handle: &Digest, block: &MetaBlock) -> Round
        ensures sound { (accepts : Accepts) (view : List ℕ) (members : List Member)
            → Sound accepts (record { handle = handle.now; block = block.now; view = view; members = members }) result [] }
        ensures live { (members : ℕ) → 0 < members → is_live members result ≡ true }
        ensures calls { (members : ℕ) → 0 < members → calls_left members result ≡ members * calls_each block.now.height }
    {
        Round {
            handle: *handle,
            block: *block,
            tail: block.tail(),
            asked: 0,
            marks: Vec::new(alloc),
            reasons: Vec::new(alloc),
            stage: Stage::First,
        }
    }

    /// The marks and the reasons of the members that were asked, each in rising ids.
    ///
    /// A reason is `Lost`, the refusal to the last append or to that of a row below, the member's `Stands` where its count
    /// is above the height that it was to be brought to, or `Other` with zeros where its answer was none to an append of
    /// the row: a statement that isn't the claim, a signature that isn't accepted, a count that isn't below the height.
    pub fn into_parts(self) -> (Vec<Mark>, Vec<(u32, Reason)>)
        ensures marks { result.0.items ≡ self.marks }
        ensures reasons { map (λ r. (r.0, member_cause_of r.1)) result.1.items ≡ self.reasons }
    {
        (self.marks, self.reasons)
    }

    /// Makes the next call, of the store or the link, and says how the round then stands. The chain, the store, the link and
    /// the checker are those of the earlier steps. After the end no call is made, and nothing is left to be said but
    /// `NoMemory`.
    ///
    /// `Row` comes where the store hasn't a row that a member lacks (`Gap`), gave other bytes for it (`BadRow`) or failed
    /// (`StoreFault`).
    pub fn step<S: Store, L: Link, C: Checker>(
        &mut self,
        alloc: Global,
        chain: &ViewChain,
        store: &mut S,
        link: &mut L,
        checker: &C,
    ) -> Result<RoundProgress, NoMemory>
        // While it is live it makes one call.
        ensures call { let members = newest_config chain.now.configs in is_live (length members) self.old ≡ true
            → (event : Event) × Ran S.view L.view store.old link.old (event ∷ []) store.new link.new
            × Leads (C.accepts checker.now) (newest_tail chain.now.configs) members self.old event self.new result }
        ensures ended { is_live (length (newest_config chain.now.configs)) self.old ≡ false
            → (store.new ≡ store.old) × (link.new ≡ link.old) × (self.new ≡ self.old) × IsErr result }

        // At the end all members were asked, unless a row was refused or memory was wanted.
        ensures asked { result ≡ Ok RoundProgress.Asked → self.new.asked ≡ length (newest_config chain.now.configs) }

        // So a loop ends that goes on while there is more to do.
        ensures live { (result ≡ Ok RoundProgress.More) ↔ (is_live (length (newest_config chain.now.configs)) self.new ≡ true) }
        ensures falls { let members = length (newest_config chain.now.configs) in is_live members self.old ≡ true
            → calls_left members self.new < calls_left members self.old }
    {
        counts_are_told_on();
        let Some(turn) = Turn::at(chain, self.asked) else {
            return Err(NoMemory);
        };
        match replace(&mut self.stage, Stage::Ended) {
            Stage::First => self.ask_first(alloc, &turn, link, checker),
            Stage::CatchUp { catch_up } => self.catch_up(alloc, &turn, catch_up, store, link),
            Stage::Again => self.ask_again(alloc, &turn, link, checker),
            Stage::Ended => Err(NoMemory),
        }
    }

    fn ask_first<L: Link, C: Checker>(
        &mut self,
        alloc: Global,
        turn: &Turn,
        link: &mut L,
        checker: &C,
    ) -> Result<RoundProgress, NoMemory>
        requires ended { self.old.stage ≡ Ended }
        requires turn { self.old.asked < turn.now.members }
        ensures call { (heard : Heard) × LinkStep L.view link.old link.new turn.now.member.id (append_of self.old.handle self.old.block) heard
            × TakesFirst (C.accepts checker.now) turn.now heard self.old self.new result }
        ensures moves { Moves turn.now.members (calls_from turn.now.members self.old (calls_each self.old.block.height)) self.new result }
    {
        let heard = self.send(alloc, link, turn.member.id);
        let verdict = self.claim(turn).judge(checker, &turn.member, heard)?;
        self.take_first(turn, verdict)
    }

    fn ask_again<L: Link, C: Checker>(
        &mut self,
        alloc: Global,
        turn: &Turn,
        link: &mut L,
        checker: &C,
    ) -> Result<RoundProgress, NoMemory>
        requires ended { self.old.stage ≡ Ended }
        requires turn { self.old.asked < turn.now.members }
        ensures call { (heard : Heard) × LinkStep L.view link.old link.new turn.now.member.id (append_of self.old.handle self.old.block) heard
            × TakesAgain (C.accepts checker.now) turn.now heard self.old self.new result }
        ensures moves { Moves turn.now.members (calls_from turn.now.members self.old 1) self.new result }
    {
        let heard = self.send(alloc, link, turn.member.id);
        let verdict = self.claim(turn).judge(checker, &turn.member, heard)?;
        self.finish(turn, verdict)
    }

    fn catch_up<S: Store, L: Link>(
        &mut self,
        alloc: Global,
        turn: &Turn,
        catch_up: CatchUp,
        store: &mut S,
        link: &mut L,
    ) -> Result<RoundProgress, NoMemory>
        requires ended { self.old.stage ≡ Ended }
        requires turn { self.old.asked < turn.now.members }
        requires live { is_catching_up catch_up ≡ true }
        ensures call { (event : Event) × (new : CatchingUp) × (progress : Result Progress NoMemory)
            × Ran S.view L.view store.old link.old (event ∷ []) store.new link.new × CatchUpLeads catch_up event new progress
            × TakesProgress turn.now new progress self.old self.new result }
        ensures moves { Moves turn.now.members (calls_from turn.now.members self.old (catch_up_calls catch_up + 1)) self.new result }
    {
        let mut catch_up = catch_up;
        let progress = catch_up.step(alloc, store, link);
        self.take_progress(turn, catch_up, progress)
    }

    // What a member is to sign.
    fn claim(&self, turn: &Turn) -> Claim
        ensures { result ≡ claim_of turn.now.view self.now.handle self.now.block }
    {
        Claim {
            view: turn.view,
            handle: self.handle,
            tail: self.tail,
            height: self.block.height,
        }
    }

    fn send<L: Link>(&self, alloc: Global, link: &mut L, id: u32) -> LinkAnswer
        ensures { LinkStep L.view link.old link.new id (append_of self.now.handle self.now.block) (heard_of result) }
    {
        let call = EndorserCall::Append {
            handle: self.handle,
            prev: self.block.prev,
            entry: self.block.entry,
            height: self.block.height,
        };
        link.call(alloc, id, &call)
    }

    // What the first append of the row made of the member.
    fn take_first(&mut self, turn: &Turn, verdict: Verdict) -> Result<RoundProgress, NoMemory>
        requires ended { self.old.stage ≡ Ended }
        requires turn { self.old.asked < turn.now.members }
        requires lower { IsLower self.old.block.height (outcome_of verdict) }
        ensures takes { TakesVerdict turn.now (outcome_of verdict) self.old self.new result }
        ensures moves { Moves turn.now.members (calls_from turn.now.members self.old (calls_each self.old.block.height)) self.new result }
    {
        match verdict {
            Verdict::Reason {
                reason: Reason::Refused {
                    refusal: EndorserRefusal::Behind { count },
                },
            } => {
                self.begin(turn.member.id, count);
                Ok(RoundProgress::More)
            }
            verdict => self.finish(turn, verdict),
        }
    }

    // Begins the catch-up of a member that told this count.
    fn begin(&mut self, member: u32, count: u64)
        requires { count < self.old.block.height }
        ensures { Begins member count self.old self.new }
    {
        self.stage = Stage::CatchUp {
            catch_up: CatchUp::new(member, &self.handle, count, self.block.height),
        };
    }

    // How the member's catch-up stands.
    fn take_progress(
        &mut self,
        turn: &Turn,
        catch_up: CatchUp,
        progress: Result<Progress, NoMemory>,
    ) -> Result<RoundProgress, NoMemory>
        requires ended { self.old.stage ≡ Ended }
        requires turn { self.old.asked < turn.now.members }
        requires live { progress ≡ Ok Progress.More → is_catching_up catch_up ≡ true }
        ensures takes { TakesProgress turn.now catch_up progress self.old self.new result }
        ensures moves { Moves turn.now.members (calls_from turn.now.members self.old (catch_up_calls catch_up + 2)) self.new result }
    {
        match progress? {
            Progress::More => {
                self.stage = Stage::CatchUp { catch_up };
                Ok(RoundProgress::More)
            }
            Progress::Reached => {
                self.stage = Stage::Again;
                Ok(RoundProgress::More)
            }
            Progress::Ahead { count, tail } => {
                let refusal = EndorserRefusal::Stands { count, tail };
                self.finish(
                    turn,
                    Verdict::Reason {
                        reason: Reason::Refused { refusal },
                    },
                )
            }
            Progress::Member { reason } => self.finish(turn, Verdict::Reason { reason }),
            Progress::Row { refusal } => Ok(RoundProgress::Row { refusal }),
        }
    }

    // Ends the turn of a member, and begins the next one's where there is one.
    fn finish(&mut self, turn: &Turn, verdict: Verdict) -> Result<RoundProgress, NoMemory>
        requires ended { self.old.stage ≡ Ended }
        requires turn { self.old.asked < turn.now.members }
        ensures finishes { Finishes turn.now (outcome_of verdict) self.old self.new result }
        ensures moves { Moves turn.now.members (calls_from turn.now.members self.old 1) self.new result }
    {
        self.add(turn.member.id, verdict)?;
        Ok(self.pass(turn.members))
    }

    fn add(&mut self, id: u32, verdict: Verdict) -> Result<(), NoMemory>
        ensures ok { OnOk result (self.new ≡ recorded id (outcome_of verdict) self.old) }
        ensures err { OnErr result (self.new ≡ self.old) }
    {
        match verdict {
            Verdict::Mark { sig } => self.marks.push(Mark { id, sig })?,
            Verdict::Reason { reason } => self.reasons.push((id, reason))?,
        }
        Ok(())
    }

    fn pass(&mut self, members: usize) -> RoundProgress
        requires ended { self.old.stage ≡ Ended }
        requires turn { self.old.asked < members }
        ensures passed { self.new ≡ passed members self.old }
        ensures answer { result ≡ next_answer (self.old.asked + 1) members }
        ensures moves { Moves members (calls_from members self.old 1) self.new (Ok result) }
    {
        self.asked += 1;
        if self.asked == members {
            return RoundProgress::Asked;
        }
        self.stage = Stage::First;
        RoundProgress::More
    }
}
