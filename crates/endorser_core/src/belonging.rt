ghost use Rattle.std.specs.Prelude.{◌≡◌, ℕ, IfOk, OnErr, MatchOption, MatchResult};
ghost use Rattle.statement.specs.declared.member.Member.{Member};
ghost use Rattle.port.specs.Call.{Initialize, Finalize};
ghost use Rattle.port.specs.Answer.{Done, HasEnded, answer_of, denial_of};
ghost use Rattle.port.specs.Table.{Answers, Uninitialized, Initialized, Active, Finalized, activates, cell, ends_again, initializes, refuses, is_same};
ghost use Rattle.endorser_core.specs.Held.{ending_of, state_at, view_of};
ghost use Rattle.endorser_core.specs.Inactive.{IsInactive};
ghost use Rattle.endorser_core.specs.Lacks.{HasEndedAt, MayLack};

use crate::membership::{Ending, Membership, Stage};
use nim_base::{Digest, NoMemory, Text};
use port::{ActivationProof, EndorserAnswer, EndorserRefusal, Phase, ProofCause};
use statement::{Config, Member, ViewBlock};
use std::alloc::Global;
use tail_map::TailMap;

impl Membership {
    // What an endorser without a view holds after an Initialize, or why it holds nothing.
    pub(crate) fn begin(
        alloc: Global,
        me: &Member,
        block: &ViewBlock,
        config: &Config,
        map: &TailMap,
    ) -> Result<Result<Membership, EndorserRefusal>, NoMemory>
        ensures begun { IfOk result (λ begun. MatchResult begun
            (λ held. initializes me.now block.now config.now map.now.rows ≡ Answers (Initialized (view_of held)) Done × (held.stage ≡ Stage.Initialized))
            (λ denial. initializes me.now block.now config.now map.now.rows ≡ refuses Uninitialized (denial_of denial))) }
        ensures lacks { OnErr result (MayLack 0 (initializes me.now block.now config.now map.now.rows)) }
    {
        // Until views follow each other, only view 0 begins.
        if block.number != 0 || config.digest() != block.config {
            return Ok(Err(EndorserRefusal::BadView));
        }
        if !config.members().contains(me) {
            return Ok(Err(EndorserRefusal::NotMember));
        }
        Ok(Ok(Membership {
            block: *block,
            tail: block.tail(),
            config: config.copy(alloc)?,
            first: map.digest(),
            map: map.copy(alloc)?,
            stage: Stage::Initialized,
        }))
    }

    // Whether this is the Initialize with which the view began.
    pub(crate) fn is_same(&self, block: &ViewBlock, config: &Config, map: &TailMap) -> bool
        ensures { result ≡ is_same (view_of self.now) block.now config.now map.now.rows }
    {
        *block == self.block
            && config.members() == self.config.members()
            && map.digest() == self.first
    }

    // Whether an initialized member becomes active, or why it doesn't.
    pub(crate) fn activation(
        &self,
        view: &Digest,
        proof: &Option<ActivationProof>,
    ) -> Result<(), EndorserRefusal>
        ensures { MatchResult result
            (λ _. activates (view_of self.now) view.now proof.now ≡ Answers (Active (view_of self.now)) Done)
            (λ denial. activates (view_of self.now) view.now proof.now ≡ refuses (Initialized (view_of self.now)) (denial_of denial)) }
    {
        if *view != self.tail {
            return Err(EndorserRefusal::BadView);
        }
        // Until views follow each other, only view 0 begins: with no proof, on no view, with an empty map.
        let is_first = self.block.number == 0
            && proof.is_none()
            && self.block.prev == Digest::ZERO
            && self.map.rows().is_empty();
        if !is_first {
            return Err(EndorserRefusal::BadProof {
                cause: ProofCause::First,
            });
        }
        Ok(())
    }
}

impl Membership {
    // What the Initialize of a member answers, which changes nothing.
    pub(crate) fn begin_again(
        &self,
        alloc: Global,
        block: &ViewBlock,
        config: &Config,
        map: &TailMap,
    ) -> Result<EndorserAnswer, NoMemory>
        ensures answer { IfOk result (λ answer. (me : Member) → let state = state_at self.now.stage (view_of self.now) in
            cell me state (Initialize block.now config.now map.now.rows) ≡ Answers state (answer_of answer)) }
        ensures lacks { OnErr result (HasEndedAt self.now.stage) }
    {
        if let Stage::Finalized(ending) = &self.stage {
            return Ok(EndorserAnswer::Refused(ending.refusal(alloc)?));
        }
        if self.is_same(block, config, map) {
            return Ok(EndorserAnswer::Done);
        }
        Ok(EndorserAnswer::Refused(EndorserRefusal::WrongPhase {
            phase: self.phase(),
        }))
    }

    // Why a member takes no Append and no Latest, or none where it is active.
    pub(crate) fn inactive(&self, alloc: Global) -> Result<Option<EndorserRefusal>, NoMemory>
        ensures answer { IfOk result (λ found. MatchOption found (self.now.stage ≡ Stage.Active)
            (λ denial. IsInactive (state_at self.now.stage (view_of self.now)) (denial_of denial))) }
        ensures lacks { OnErr result (HasEndedAt self.now.stage) }
    {
        match &self.stage {
            Stage::Initialized => Ok(Some(EndorserRefusal::WrongPhase {
                phase: Phase::Initialized,
            })),
            Stage::Active => Ok(None),
            Stage::Finalized(ending) => Ok(Some(ending.refusal(alloc)?)),
        }
    }

    // What the Finalize of a member answers, which changes nothing until views follow each other.
    pub(crate) fn finalize(
        &self,
        alloc: Global,
        config: &Digest,
        number: u64,
    ) -> Result<EndorserAnswer, NoMemory>
        ensures answer { IfOk result (λ answer. (me : Member) → let state = state_at self.now.stage (view_of self.now) in
            cell me state (Finalize config.now number) ≡ Answers state (answer_of answer)) }
        ensures lacks { OnErr result ((me : Member) (left : ℕ) → MayLack left (cell me (state_at self.now.stage (view_of self.now)) (Finalize config.now number))) }
    {
        match &self.stage {
            Stage::Initialized => Ok(EndorserAnswer::Refused(EndorserRefusal::WrongPhase {
                phase: Phase::Initialized,
            })),
            Stage::Active => Ok(EndorserAnswer::Refused(EndorserRefusal::BadView)),
            Stage::Finalized(ending) => self.finalize_again(alloc, ending, config, number),
        }
    }

    // The same Finalize as the one that ended the view has the same answer.
    fn finalize_again(
        &self,
        alloc: Global,
        ending: &Ending,
        config: &Digest,
        number: u64,
    ) -> Result<EndorserAnswer, NoMemory>
        ensures answer { IfOk result (λ answer. ends_again (view_of self.now) (ending_of ending.now) config.now number
            ≡ Answers (Finalized (view_of self.now) (ending_of ending.now)) (answer_of answer)) }
        ensures lacks { OnErr result ((left : ℕ) → MayLack left (ends_again (view_of self.now) (ending_of ending.now) config.now number)) }
    {
        let next = ViewBlock {
            prev: self.tail,
            config: *config,
            number,
        };
        if next.tail() != ending.next {
            return Ok(EndorserAnswer::Refused(EndorserRefusal::OtherNext { next: ending.next }));
        }
        Ok(EndorserAnswer::Finaled {
            statement: ending.statement,
            sig: Text::of(alloc, ending.sig.bytes())?,
            map: self.map.copy(alloc)?,
        })
    }
}

impl Ending {
    // What a member that has ended its view refuses with.
    pub(crate) fn refusal(&self, alloc: Global) -> Result<EndorserRefusal, NoMemory>
        ensures { IfOk result (λ denial. denial_of denial ≡ HasEnded self.now.statement self.now.sig.bytes) }
    {
        Ok(EndorserRefusal::Finalized {
            statement: self.statement,
            sig: Text::of(alloc, self.sig.bytes())?,
        })
    }
}
