ghost use Rattle.std.specs.Prelude.{◌≡◌, ◌≢◌, ℕ, [], None, IfSome};
ghost use Rattle.std.specs.List.{list_all};
ghost use Rattle.std.specs.Option.{option_copied};
ghost use Rattle.port.specs.Call.{call_of};
ghost use Rattle.port.specs.Answer.{answer_of};
ghost use Rattle.port.specs.Heard.{heard_of};
ghost use Rattle.port.specs.Count.{next};
ghost use Rattle.port.specs.Link.{LinkStep};
ghost use Rattle.endorser_cell.specs.Asking.{Asks, IsRaw, LosesMore};

use crate::asking::{ask_id, ask_raw, lose_more};
use crate::bank_line::BankLine;
use crate::endorser_cell::EndorserCell;
use crate::losses::Loss;
use crate::places::{are_fresh, place_of};
use nim_base::NoMemory;
use port::{EndorserAnswer, EndorserCall, Link, LinkAnswer};
use seal::{Scheme, Signer};
use stamp_clock::{Clock, ClockName};
use std::alloc::Global;
use std::marker::Model;

/// A link to endorsers in memory, which loses calls as it was asked to, a request before a reply.
///
/// It keeps the list of all calls that its endorsers were asked, those that passed no link among them, and what is
/// known of its calls is that list. Where no cell had a line when the bank was made, the lines of each cell are the
/// calls in the list that it served, in their order.
pub struct CellBank<'a, G: Scheme, K: ClockName> {
    clock: &'a Clock<K>,
    cells: Vec<EndorserCell<G, K>>,
    log: Vec<BankLine>,
    calls: u64,
    fresh: bool,
}

impl<'a, G: Scheme, K: ClockName> Model for CellBank<'a, G, K> {
    ghost use Rattle.endorser_cell.specs.CellBank.{AreServed, CellBank};

    ghost Value = { CellBank G.Signer G.Checker };

    ghost view = { λ bank. record { cells = bank.cells.items; log = bank.log.items; calls = bank.calls; fresh = bank.fresh } };

    ghost invariant = { λ bank. AreServed (record { cells = bank.cells.items; log = bank.log.items; calls = bank.calls; fresh = bank.fresh }) };
}

impl<'a, G: Scheme, K: ClockName> Drop for CellBank<'a, G, K> {
    fn drop(self) {
        let CellBank {
            clock: _,
            cells: _,
            log: _,
            calls: _,
            fresh: _,
        } = self;
    }
}

impl<'a, G: Scheme, K: ClockName> CellBank<'a, G, K> {
    ghost use Rattle.endorser_cell.specs.Cells.{IsPlaceOf, cell_of};
    ghost use Rattle.endorser_cell.specs.CellBank.{AreServed, IsRawFaithful, IsServedRaw, KeepsCalls, due_of, has_no_line, more_due};

    /// A bank of these cells, whose stamps are of the clock. It takes no memory. Where an id stands twice, the
    /// first cell is meant.
    pub fn new(
        alloc: Global,
        clock: &'a Clock<K>,
        cells: Vec<EndorserCell<G, K>>,
    ) -> CellBank<'a, G, K>
        ensures { result ≡ record { cells = cells.items; log = []; calls = 0; fresh = list_all has_no_line cells.items } }
    {
        let fresh = are_fresh(&cells);
        CellBank {
            clock,
            cells,
            log: Vec::new(alloc),
            calls: 0,
            fresh,
        }
    }

    /// Lets this many more calls of the id lose their request or their reply, after those that are still to, as far
    /// as all losses of the id fit 64 bits. An id without an endorser has none.
    pub fn lose(&mut self, id: u32, which: Loss, n: u64)
        ensures cells { LosesMore self.old.cells self.new.cells id which n }
        ensures log { self.new.log ≡ self.old.log }

        // what that is to a caller over the link
        ensures keeps { KeepsCalls self.old self.new }
        ensures due { due_of self.new.cells id ≡ more_due self.old.cells id n }
        ensures others { (other : ℕ) → other ≢ id → due_of self.new.cells other ≡ due_of self.old.cells other }
    {
        lose_more(&mut self.cells, id, which, n);
    }

    /// The cell of this id.
    pub fn cell(&self, id: u32) -> Option<&EndorserCell<G, K>>
        ensures cell { option_copied result ≡ cell_of self.now.cells id }
        ensures served { AreServed self.now }
    {
        let place = place_of(&self.cells, id)?;
        Some(&self.cells[place])
    }

    /// Where the cell of this id stands.
    pub fn place_of(&self, id: u32) -> Option<usize>
        ensures found { IfSome result (IsPlaceOf self.now.cells id) }
        ensures none { result ≡ None → cell_of self.now.cells id ≡ None }
    {
        place_of(&self.cells, id)
    }

    /// The calls that the endorsers were asked, from the first on.
    pub fn log(&self) -> &[BankLine]
        ensures log { result.now ≡ self.now.log }
        ensures served { AreServed self.now }
    {
        self.log.as_slice()
    }

    /// One call of the endorser of this id that passes no link: no loss is used up, and neither a count of faults nor
    /// the number of calls over the link moves. `None` says that no endorser has the id.
    pub fn raw(
        &mut self,
        alloc: Global,
        id: u32,
        call: &EndorserCall,
    ) -> Option<Result<EndorserAnswer, NoMemory>>
        ensures raw { IsRaw G.Signer.key_of G.Signer.left_of G.Signer.size_of G.Signer.signs G.fits self.old.cells self.new.cells self.old.log self.new.log id (call_of call.now) result }

        // what that is to a caller over the link
        ensures keeps { KeepsCalls self.old self.new }
        ensures due { (other : ℕ) → due_of self.new.cells other ≡ due_of self.old.cells other }
        ensures served { IsServedRaw self.old.log self.new.log id (call_of call.now) result }
        ensures faithful { IsRawFaithful G.Signer.key_of G.Signer.left_of G.Checker.accepts self.old self.new id (call_of call.now) result }
    {
        ask_raw(alloc, self.clock, &mut self.cells, &mut self.log, id, call)
    }

    /// The cells, as their calls have left them.
    pub fn into_cells(self) -> Vec<EndorserCell<G, K>>
        ensures cells { result.items ≡ self.entry.cells }
        ensures served { AreServed self.entry }
    {
        let CellBank {
            clock: _,
            cells,
            log: _,
            calls: _,
            fresh: _,
        } = self;
        cells
    }
}

impl<'a, G: Scheme, K: ClockName> Link for CellBank<'a, G, K> {
    ghost use Rattle.endorser_cell.specs.CellBank.{bank_view};

    ghost view = { bank_view G.Signer.key_of G.Signer.left_of G.Checker.accepts };

    fn call(&mut self, alloc: Global, id: u32, call: &EndorserCall) -> LinkAnswer
        ensures step { LinkStep (bank_view G.Signer.key_of G.Signer.left_of G.Checker.accepts) self.old self.new id (call_of call.now) (heard_of result) }

        // what this link promises besides
        ensures asks { Asks G.Signer.key_of G.Signer.left_of G.Signer.size_of G.Signer.signs G.fits self.old.cells self.new.cells self.old.log self.new.log self.old.calls id (call_of call.now) (heard_of result) }
        ensures calls { self.new.calls ≡ next self.old.calls }
        ensures fresh { self.new.fresh ≡ self.old.fresh }
    {
        let number = self.calls;
        self.calls = number.saturating_add(1);
        let (cells, log) = (&mut self.cells, &mut self.log);
        ask_id(alloc, self.clock, cells, log, number, id, call)
    }

    fn faults(&self, id: u32) -> u64 {
        match self.cell(id) {
            Some(cell) => cell.losses().lost,
            None => 0,
        }
    }

    fn has(&self, id: u32) -> bool {
        self.cell(id).is_some()
    }
}
