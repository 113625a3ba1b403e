ghost use Rattle.std.specs.Prelude.{◌≡◌, ◌≢◌, ◌+◌, ◌≤◌, ℕ, max, IfOk, OnErr};
ghost use Rattle.port.specs.Call.{call_of, Initialize, Activate, Append, Latest, Finalize, Show};
ghost use Rattle.port.specs.Answer.{LogFull, Refused, WrongPhase, answer_of};
ghost use Rattle.port.specs.Table.{cell};
ghost use Rattle.endorser_core.specs.Endorser.{Steps, me};
ghost use Rattle.endorser_core.specs.Lacks.{MayLack};
ghost use Rattle.endorser_core.specs.Line.{IsLawfulAt, line, state_after};
ghost use Rattle.endorser_core.specs.Shown.{kept_size, sig_size};

use crate::endorser::Endorser;
use crate::membership::{Membership, Stage};
use nim_base::{Digest, NoMemory, Nonce};
use port::{ActivationProof, EndorserAnswer, EndorserCall, EndorserRefusal, Phase};
use seal::{Scheme, Signer};
use statement::{Config, Member, ViewBlock};
use std::alloc::Global;
use tail_map::{TailMap, one_row_changes};

impl<G: Scheme> Endorser<G> {
    /// Answers a call, by the table. A refusal changes nothing and takes no memory, but for the copy of the
    /// signature in `Finalized`. At want of memory nothing has changed, and no signature was used up.
    pub fn step(&mut self, alloc: Global, call: &EndorserCall) -> Result<EndorserAnswer, NoMemory>
        ensures table { IfOk result (λ answer. Steps G.Signer.key_of G.Signer.left_of G.Signer.size_of G.Signer.signs self.old self.new (call_of call.now) (answer_of answer)) }
        ensures no_memory { OnErr result (self.new ≡ self.old) }
        ensures lacks { OnErr result (MayLack (G.Signer.left_of self.old.signer) (cell (me G.Signer.key_of self.old) self.old.state (call_of call.now))) }

        // What stays after every answer, and how long the signature in one is.
        ensures same_id { self.new.id ≡ self.old.id }
        ensures same_checker { self.new.checker ≡ self.old.checker }
        ensures same_key { G.Signer.key_of self.new.signer ≡ G.Signer.key_of self.old.signer }
        ensures same_size { G.Signer.size_of self.new.signer ≡ G.Signer.size_of self.old.signer }
        ensures one { G.Signer.left_of self.old.signer ≤ G.Signer.left_of self.new.signer + 1 }
        ensures no_more { G.Signer.left_of self.new.signer ≤ G.Signer.left_of self.old.signer }
        ensures size { IfOk result (λ answer. sig_size (answer_of answer) ≤ max (G.Signer.size_of self.old.signer) (kept_size self.old.state)) }

        // It never says that stamps ran out, which only the holder of a pass can say.
        ensures never_full { IfOk result (λ answer. answer_of answer ≢ Refused LogFull) }

        // A checker that fits the signer still does, and then the line of this step is lawful after those before.
        ensures fits { G.fits self.old.signer self.old.checker → G.fits self.new.signer self.new.checker }
        ensures lawful { IfOk result (λ answer. G.fits self.old.signer self.old.checker → (stamp : ℕ)
            → IsLawfulAt (G.Checker.accepts self.old.checker) (me G.Signer.key_of self.old) self.old.state (line stamp (call_of call.now) (answer_of answer))) }
        ensures replayed { IfOk result (λ answer. (stamp : ℕ)
            → state_after (me G.Signer.key_of self.old) self.old.state (line stamp (call_of call.now) (answer_of answer)) ≡ self.new.state) }
    {
        one_row_changes();
        self.respond(alloc, call)
    }

    fn respond(&mut self, alloc: Global, call: &EndorserCall) -> Result<EndorserAnswer, NoMemory>
        ensures table { IfOk result (λ answer. Steps G.Signer.key_of G.Signer.left_of G.Signer.size_of G.Signer.signs self.old self.new (call_of call.now) (answer_of answer)) }
        ensures no_memory { OnErr result (self.new ≡ self.old) }
        ensures lacks { OnErr result (MayLack (G.Signer.left_of self.old.signer) (cell (me G.Signer.key_of self.old) self.old.state (call_of call.now))) }
    {
        match call {
            EndorserCall::Initialize { block, config, map } => {
                self.initialize(alloc, block, config, map)
            }
            EndorserCall::Activate { view, proof } => self.activate(alloc, view, proof),
            EndorserCall::Append {
                handle,
                prev,
                entry,
                height,
            } => self.append(alloc, handle, prev, entry, *height),
            EndorserCall::Latest { handle, nonce } => self.latest(alloc, handle, nonce),
            EndorserCall::Finalize { config, number } => self.finalize(alloc, config, *number),
            EndorserCall::Show { handle } => Ok(self.show(handle)),
        }
    }

    fn initialize(
        &mut self,
        alloc: Global,
        block: &ViewBlock,
        config: &Config,
        map: &TailMap,
    ) -> Result<EndorserAnswer, NoMemory>
        ensures table { IfOk result (λ answer. Steps G.Signer.key_of G.Signer.left_of G.Signer.size_of G.Signer.signs self.old self.new (Initialize block.now config.now map.now.rows) (answer_of answer)) }
        ensures no_memory { OnErr result (self.new ≡ self.old) }
        ensures lacks { OnErr result (MayLack (G.Signer.left_of self.old.signer) (cell (me G.Signer.key_of self.old) self.old.state (Initialize block.now config.now map.now.rows))) }
    {
        if let Some(held) = &self.membership {
            return held.begin_again(alloc, block, config, map);
        }
        let me = Member {
            id: self.id,
            key: self.signer.key(),
        };
        match Membership::begin(alloc, &me, block, config, map)? {
            Ok(held) => {
                self.membership = Some(held);
                Ok(EndorserAnswer::Done)
            }
            Err(denial) => Ok(EndorserAnswer::Refused(denial)),
        }
    }

    fn activate(
        &mut self,
        alloc: Global,
        view: &Digest,
        proof: &Option<ActivationProof>,
    ) -> Result<EndorserAnswer, NoMemory>
        ensures table { IfOk result (λ answer. Steps G.Signer.key_of G.Signer.left_of G.Signer.size_of G.Signer.signs self.old self.new (Activate view.now proof.now) (answer_of answer)) }
        ensures no_memory { OnErr result (self.new ≡ self.old) }
        ensures lacks { OnErr result (MayLack (G.Signer.left_of self.old.signer) (cell (me G.Signer.key_of self.old) self.old.state (Activate view.now proof.now))) }
    {
        let Some(held) = &mut self.membership else {
            return Ok(wrong_phase(Phase::Uninitialized));
        };
        match &held.stage {
            Stage::Initialized => match held.activation(view, proof) {
                Ok(()) => {
                    held.stage = Stage::Active;
                    Ok(EndorserAnswer::Done)
                }
                Err(denial) => Ok(EndorserAnswer::Refused(denial)),
            },
            Stage::Active if *view == held.tail => Ok(EndorserAnswer::Done),
            Stage::Active => Ok(EndorserAnswer::Refused(EndorserRefusal::BadView)),
            Stage::Finalized(ending) => Ok(EndorserAnswer::Refused(ending.refusal(alloc)?)),
        }
    }

    fn append(
        &mut self,
        alloc: Global,
        handle: &Digest,
        prev: &Digest,
        entry: &Digest,
        height: u64,
    ) -> Result<EndorserAnswer, NoMemory>
        ensures table { IfOk result (λ answer. Steps G.Signer.key_of G.Signer.left_of G.Signer.size_of G.Signer.signs self.old self.new (Append handle.now prev.now entry.now height) (answer_of answer)) }
        ensures no_memory { OnErr result (self.new ≡ self.old) }
        ensures lacks { OnErr result (MayLack (G.Signer.left_of self.old.signer) (cell (me G.Signer.key_of self.old) self.old.state (Append handle.now prev.now entry.now height))) }
    {
        match &mut self.membership {
            None => Ok(wrong_phase(Phase::Uninitialized)),
            Some(held) => held.append(alloc, &mut self.signer, handle, prev, entry, height),
        }
    }

    fn latest(
        &mut self,
        alloc: Global,
        handle: &Digest,
        nonce: &Nonce,
    ) -> Result<EndorserAnswer, NoMemory>
        ensures table { IfOk result (λ answer. Steps G.Signer.key_of G.Signer.left_of G.Signer.size_of G.Signer.signs self.old self.new (Latest handle.now nonce.now) (answer_of answer)) }
        ensures no_memory { OnErr result (self.new ≡ self.old) }
        ensures lacks { OnErr result (MayLack (G.Signer.left_of self.old.signer) (cell (me G.Signer.key_of self.old) self.old.state (Latest handle.now nonce.now))) }
    {
        match &mut self.membership {
            None => Ok(wrong_phase(Phase::Uninitialized)),
            Some(held) => held.latest(alloc, &mut self.signer, handle, nonce),
        }
    }

    fn finalize(
        &mut self,
        alloc: Global,
        config: &Digest,
        number: u64,
    ) -> Result<EndorserAnswer, NoMemory>
        ensures table { IfOk result (λ answer. Steps G.Signer.key_of G.Signer.left_of G.Signer.size_of G.Signer.signs self.old self.new (Finalize config.now number) (answer_of answer)) }
        ensures no_memory { OnErr result (self.new ≡ self.old) }
        ensures lacks { OnErr result (MayLack (G.Signer.left_of self.old.signer) (cell (me G.Signer.key_of self.old) self.old.state (Finalize config.now number))) }
    {
        let Some(held) = &self.membership else {
            return Ok(wrong_phase(Phase::Uninitialized));
        };
        held.finalize(alloc, config, number)
    }

    fn show(&mut self, handle: &Digest) -> EndorserAnswer
        ensures { Steps G.Signer.key_of G.Signer.left_of G.Signer.size_of G.Signer.signs self.old self.new (Show handle.now) (answer_of result) }
    {
        let (tail, count) = self.row(handle);
        EndorserAnswer::Shown {
            phase: self.phase(),
            number: self.number(),
            tail,
            count,
        }
    }
}

fn wrong_phase(phase: Phase) -> EndorserAnswer
    ensures { answer_of result ≡ Refused (WrongPhase phase) }
{
    EndorserAnswer::Refused(EndorserRefusal::WrongPhase { phase })
}
