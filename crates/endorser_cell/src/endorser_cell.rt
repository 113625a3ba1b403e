ghost use Rattle.std.specs.Prelude.{◌≡◌, ◌+◌, ◌<◌, ◌≤◌, ◌↔◌, [], max, Ok, IfOk, OnErr};
ghost use Rattle.std.specs.List.Sorted.{IsStrictlyIncreasing};
ghost use Rattle.port.specs.Call.{call_of};
ghost use Rattle.port.specs.Answer.{answer_of};
ghost use Rattle.port.specs.Table.{Uninitialized};
ghost use Rattle.port.specs.declared.endorser_answer.EndorserAnswer.TheVariants.{Refused};
ghost use Rattle.port.specs.declared.endorser_refusal.EndorserRefusal.TheVariants.{LogFull};
ghost use Rattle.stamp_clock.specs.Stamps.{stamps};
ghost use Rattle.endorser_core.specs.Endorser.{Steps};
ghost use Rattle.endorser_core.specs.Shown.{kept_size, sig_size};

use crate::line_answer::line_answer;
use crate::losses::Losses;
use endorser_core::{CellLine, Endorser, lines_go_on};
use nim_base::{NoMemory, Text};
use port::{EndorserAnswer, EndorserCall, EndorserRefusal};
use seal::{Checker, Scheme, Signer};
use stamp_clock::{Clock, ClockName, Pass};
use std::alloc::Global;
use std::marker::Model;

/// An endorser, the lines of its calls from the first on, and the pass that draws the stamps of these lines.
///
/// Whatever is done with a cell, its lines are a lawful call list of its endorser, they lead to the state in
/// which it is, and their stamps are those that the pass drew, in order. So a cell can't take its endorser and
/// its lines back to an earlier state: the pass has drawn what it has drawn.
pub struct EndorserCell<G: Scheme, K: ClockName> {
    endorser: Endorser<G>,
    lines: Vec<CellLine>,
    pass: Pass<K>,
    losses: Losses,
}

impl<G: Scheme, K: ClockName> Model for EndorserCell<G, K> {
    ghost use Rattle.std.specs.Prelude.{◌≡◌};
    ghost use Rattle.std.specs.List.Sorted.{IsStrictlyIncreasing};
    ghost use Rattle.endorser_cell.specs.EndorserCell.{EndorserCell, IsLawfulOf, LeadsTo, stamps_of};

    ghost Value = { EndorserCell G.Signer G.Checker };

    ghost view = { λ cell. record { endorser = cell.endorser; lines = cell.lines.items; left = cell.pass.left; losses = cell.losses } };

    ghost invariant = { λ cell. IsLawfulOf G.Signer.key_of G.Checker.accepts cell.endorser cell.lines.items
        × LeadsTo G.Signer.key_of cell.lines.items cell.endorser
        × (stamps_of cell.lines.items ≡ cell.pass.drawn)
        × IsStrictlyIncreasing cell.pass.drawn
        × G.fits cell.endorser.signer cell.endorser.checker };
}

impl<G: Scheme, K: ClockName> Drop for EndorserCell<G, K> {
    fn drop(self) {
        let EndorserCell {
            endorser: _,
            lines: _,
            pass: _,
            losses: _,
        } = self;
    }
}

impl<G: Scheme, K: ClockName> EndorserCell<G, K> {
    ghost use Rattle.endorser_cell.specs.Losses.{IsNone};
    ghost use Rattle.endorser_cell.specs.EndorserCell.{AddsLine, EndorserCell, IsLawfulOf, LeadsTo, stamps_of};

    /// The cell of an endorser that has no view yet. It takes no memory.
    pub fn new(alloc: Global, endorser: Endorser<G>, pass: Pass<K>) -> EndorserCell<G, K>
        requires uninitialized { endorser.state ≡ Uninitialized }
        requires fits { G.fits endorser.signer endorser.checker }
        requires undrawn { pass.drawn ≡ [] }
        ensures endorser { result.endorser ≡ endorser }
        ensures lines { result.lines ≡ [] }
        ensures left { result.left ≡ pass.left }
        ensures lossless { IsNone result.losses }
    {
        EndorserCell {
            endorser,
            lines: Vec::new(alloc),
            pass,
            losses: Losses::none(),
        }
    }

    /// One call of the endorser, which is one stamp and one line, also where the endorser refuses.
    ///
    /// All memory is taken before the stamp is drawn, so at want of memory there is neither a stamp nor a
    /// line. `LogFull` says that the pass has no stamp left: then the endorser isn't asked.
    pub fn call(
        &mut self,
        alloc: Global,
        clock: &Clock<K>,
        call: &EndorserCall,
    ) -> Result<EndorserAnswer, NoMemory>
        // With a stamp left, the endorser goes by the table, and one line and one stamp more stand there.
        ensures table { IfOk result (λ answer. 0 < self.old.left
            → Steps G.Signer.key_of G.Signer.left_of G.Signer.size_of G.Signer.signs self.old.endorser self.new.endorser (call_of call.now) (answer_of answer)) }
        ensures noted { IfOk result (λ answer. 0 < self.old.left
            → AddsLine self.old.lines self.new.lines (call_of call.now) (answer_of answer)) }
        ensures left { IfOk result (λ _. 0 < self.old.left → self.new.left + 1 ≡ self.old.left) }

        // Without a stamp, and at want of memory, nothing changes.
        ensures log_full { (result ≡ Ok (Refused LogFull)) ↔ (self.old.left ≡ 0) }
        ensures full { self.old.left ≡ 0 → self.new ≡ self.old }
        ensures no_memory { OnErr result (self.new ≡ self.old) }

        // What stays after every answer.
        ensures same_id { self.new.endorser.id ≡ self.old.endorser.id }
        ensures same_checker { self.new.endorser.checker ≡ self.old.endorser.checker }
        ensures same_key { G.Signer.key_of self.new.endorser.signer ≡ G.Signer.key_of self.old.endorser.signer }
        ensures same_size { G.Signer.size_of self.new.endorser.signer ≡ G.Signer.size_of self.old.endorser.signer }
        ensures one { G.Signer.left_of self.old.endorser.signer ≤ G.Signer.left_of self.new.endorser.signer + 1 }
        ensures no_more { G.Signer.left_of self.new.endorser.signer ≤ G.Signer.left_of self.old.endorser.signer }
        ensures same_losses { self.new.losses ≡ self.old.losses }

        // The checker fits the signer, and a signature in the answer has a length that is known before.
        ensures fits { G.fits self.old.endorser.signer self.old.endorser.checker }
        ensures size { IfOk result (λ answer. sig_size (answer_of answer) ≤ max (G.Signer.size_of self.old.endorser.signer) (kept_size self.old.endorser.state)) }
    {
        if self.pass.left() == 0 {
            return Ok(EndorserAnswer::Refused(EndorserRefusal::LogFull));
        }
        self.lines.reserve(1)?;
        let asked = call.copy(alloc)?;
        let room = Text::with_room(alloc, self.endorser.most_sig())?;
        let answer = self.endorser.step(alloc, call)?;
        let stamp = clock.stamp(&mut self.pass);
        lines_go_on();
        self.lines.push_reserved(CellLine {
            stamp,
            call: asked,
            answer: line_answer(&answer, room),
        });
        Ok(answer)
    }

    /// The lines of all calls, from the first on.
    pub fn lines(&self) -> &[CellLine]
        ensures lines { result.now ≡ self.now.lines }
        ensures lawful { IsLawfulOf G.Signer.key_of G.Checker.accepts self.now.endorser self.now.lines }
        ensures replayed { LeadsTo G.Signer.key_of self.now.lines self.now.endorser }
        ensures rising { IsStrictlyIncreasing (stamps_of self.now.lines) }
    {
        self.lines.as_slice()
    }

    /// The endorser, as its calls have left it.
    pub fn endorser(&self) -> &Endorser<G>
        ensures endorser { result.now ≡ self.now.endorser }
        ensures replayed { LeadsTo G.Signer.key_of self.now.lines self.now.endorser }
        ensures fits { G.fits self.now.endorser.signer self.now.endorser.checker }
    {
        &self.endorser
    }

    pub(crate) fn losses(&self) -> Losses
        ensures { result ≡ self.now.losses }
    {
        self.losses
    }

    pub(crate) fn set_losses(&mut self, losses: Losses)
        ensures { self.new ≡ record self.old { losses = losses } }
    {
        self.losses = losses;
    }

    /// The lines of all calls, and the pass that drew their stamps.
    pub fn take(self) -> (Vec<CellLine>, Pass<K>)
        ensures lines { result.0.items ≡ self.lines }
        ensures stamps { result.1 ≡ stamps (stamps_of self.lines) self.left }
        ensures lawful { IsLawfulOf G.Signer.key_of G.Checker.accepts self.endorser self.lines }
        ensures replayed { LeadsTo G.Signer.key_of self.lines self.endorser }
        ensures rising { IsStrictlyIncreasing (stamps_of self.lines) }
        ensures fits { G.fits self.endorser.signer self.endorser.checker }
    {
        let EndorserCell {
            endorser: _,
            lines,
            pass,
            losses: _,
        } = self;
        (lines, pass)
    }
}
