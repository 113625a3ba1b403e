ghost use Rattle.std.specs.Prelude.{◌≡◌, ◌≢◌, ℕ, [], true, map, length, slice_get, slice_index_or, vec_items, option_and_then, IfOk};
ghost use Rattle.std.specs.List.{list_all};
ghost use Rattle.std.specs.Option.{option_copied};
ghost use Rattle.statement.specs.Ids.{IsRising};
ghost use Rattle.statement.specs.Config.{ids};
ghost use Rattle.stamp_clock.specs.Stamps.{times};
ghost use Rattle.port.specs.Call.{call_of};
ghost use Rattle.port.specs.Heard.{heard_of};
ghost use Rattle.port.specs.Count.{next};
ghost use Rattle.port.specs.Link.{LinkStep};
ghost use Rattle.endorser_cell.specs.Asking.{Asks, IsRaw, LosesMore};
ghost use Rattle.client_pass.specs.Record.{AreLawful};

use crate::lists::lists_of;
use crate::run_name::RunName;
use crate::served::{served_with, was_served};
use endorser_cell::{BankLine, CellBank, EndorserCell, Loss};
use endorser_core::CellLine;
use nim_base::NoMemory;
use port::{EndorserAnswer, EndorserCall, Link, LinkAnswer};
use seal::{Scheme, Signer};
use stamp_clock::Clock;
use std::alloc::Global;
use std::marker::Model;

/// A [`CellBank`] of the endorsers of the run that `K` names, one for each member of its roster, in that order.
///
/// Whatever calls come, also those of code that knows no more of it than that it is a link, its endorsers stay these members, under their
/// keys, with checkers that accept what the run does. And the lines of each are all calls that it served since the bank was made.
pub struct RosterBank<'a, G: Scheme, K: RunName> {
    bank: CellBank<'a, G, K>,
    served: usize,
}

impl<'a, G: Scheme, K: RunName> Model for RosterBank<'a, G, K> {
    ghost use Rattle.std.specs.Prelude.{◌≡◌, [], length};
    ghost use Rattle.endorser_cell.specs.BankLine.{served_by};
    ghost use Rattle.endorser_cell.specs.CellBank.{CellBank};
    ghost use Rattle.roster_bank.specs.Roster.{IsRoster};

    ghost Value = { CellBank G.Signer G.Checker };

    ghost view = { λ own. own.bank };

    ghost invariant = { λ own. IsRoster G.Signer.key_of G.Checker.accepts K.members K.accepts own.bank × (own.served ≡ length (served_by [] own.bank.log)) };
}

impl<'a, G: Scheme, K: RunName> Drop for RosterBank<'a, G, K> {
    fn drop(self) {
        let RosterBank { bank: _, served: _ } = self;
    }
}

impl<'a, G: Scheme, K: RunName> RosterBank<'a, G, K> {
    ghost use Rattle.endorser_cell.specs.BankLine.{served_by};
    ghost use Rattle.endorser_cell.specs.Cells.{cell_of};
    ghost use Rattle.endorser_cell.specs.CellBank.{AreServed, IsRawFaithful, IsServedRaw, KeepsCalls, bank_view, due_of, has_no_line, more_due};
    ghost use Rattle.roster_bank.specs.Counting.{served_count};
    ghost use Rattle.roster_bank.specs.Roster.{AllAccept, IsRoster, lists_of, members_of};
    ghost use Rattle.roster_bank.specs.Places.{place_in, place_served, places_served};

    /// The bank of these cells, whose stamps are of the clock. It takes no memory.
    pub fn new(
        alloc: Global,
        clock: &'a Clock<K>,
        cells: Vec<EndorserCell<G, K>>,
    ) -> RosterBank<'a, G, K>
        requires unused { list_all has_no_line cells.items ≡ true }
        requires members { members_of G.Signer.key_of cells.items ≡ K.members }
        requires rising { IsRising (ids K.members) }
        requires accepted { AllAccept G.Checker.accepts K.accepts cells.items }
        ensures { result ≡ record { cells = cells.items; log = []; calls = 0; fresh = true } }
    {
        RosterBank {
            bank: CellBank::new(alloc, clock, cells),
            served: 0,
        }
    }

    /// Lets this many more calls of the id lose their request or their reply, as [`CellBank::lose`].
    pub fn lose(&mut self, id: u32, which: Loss, n: u64)
        ensures cells { LosesMore self.old.cells self.new.cells id which n }
        ensures log { self.new.log ≡ self.old.log }

        // what that is to a caller over the link
        ensures keeps { KeepsCalls self.old self.new }
        ensures due { due_of self.new.cells id ≡ more_due self.old.cells id n }
        ensures others { (other : ℕ) → other ≢ id → due_of self.new.cells other ≡ due_of self.old.cells other }
    {
        self.bank.lose(id, which, n);
    }

    /// The cell of this id.
    pub fn cell(&self, id: u32) -> Option<&EndorserCell<G, K>>
        ensures cell { option_copied result ≡ cell_of self.now.cells id }
        ensures served { AreServed self.now }
    {
        self.bank.cell(id)
    }

    /// The calls that the endorsers were asked, from the first on.
    pub fn log(&self) -> &[BankLine]
        ensures log { result.now ≡ self.now.log }
        ensures served { AreServed self.now }
        ensures roster { IsRoster G.Signer.key_of G.Checker.accepts K.members K.accepts self.now }
    {
        self.bank.log()
    }

    /// One call of the endorser of this id that passes no link, as [`CellBank::raw`].
    pub fn raw(
        &mut self,
        alloc: Global,
        id: u32,
        call: &EndorserCall,
    ) -> Option<Result<EndorserAnswer, NoMemory>>
        ensures raw { IsRaw G.Signer.key_of G.Signer.left_of G.Signer.size_of G.Signer.signs G.fits self.old.cells self.new.cells self.old.log self.new.log id (call_of call.now) result }

        // what that is to a caller over the link
        ensures keeps { KeepsCalls self.old self.new }
        ensures due { (other : ℕ) → due_of self.new.cells other ≡ due_of self.old.cells other }
        ensures served { IsServedRaw self.old.log self.new.log id (call_of call.now) result }
        ensures faithful { IsRawFaithful G.Signer.key_of G.Signer.left_of G.Checker.accepts self.old self.new id (call_of call.now) result }
    {
        let before = self.bank.log().len();
        let answer = self.bank.raw(alloc, id, call);
        self.served = served_with(self.bank.log(), before, self.served);
        answer
    }

    /// How many calls the endorsers served so far, over the link or not.
    pub fn served(&self) -> usize
        ensures count { result ≡ length (served_by [] self.now.log) }

        // what that is to a caller over the link
        ensures told { result ≡ served_count (bank_view G.Signer.key_of G.Signer.left_of G.Checker.accepts self.now) }
    {
        self.served
    }

    /// The place in the roster of the endorser of this id, from 0 on.
    pub fn place_of(&self, id: u32) -> Option<usize>
        ensures place { result ≡ place_in (ids K.members) id }
    {
        self.bank.place_of(id)
    }

    /// The place in the roster of the endorser that served this line of the log, counted from 0. `None` where none did, because the
    /// request was lost, no endorser has the id or it had no stamp left, and where there is no such line.
    pub fn place_served(&self, line: usize) -> Option<usize>
        ensures place { result ≡ option_and_then (place_served (ids K.members)) (slice_get self.now.log line) }
    {
        let line = self.bank.log().get(line)?;
        if was_served(&line.answer) {
            self.place_of(line.id)
        } else {
            None
        }
    }

    /// The call list of each endorser, in the order of the roster.
    pub fn into_lists(self, alloc: Global) -> Result<Vec<Vec<CellLine>>, NoMemory>
        ensures lists { IfOk result (λ lists. map vec_items lists.items ≡ lists_of self.entry.cells) }
        ensures lawful { IfOk result (λ lists. AreLawful K.accepts K.members (map vec_items lists.items)) }
        // Each has as many lines as the log has lines that the endorser served.
        ensures counted { IfOk result (λ lists. (place : ℕ) → length (slice_index_or (map vec_items lists.items) place []) ≡ times place (places_served (ids K.members) self.entry.log)) }
        ensures served { AreServed self.entry }
        ensures roster { IsRoster G.Signer.key_of G.Checker.accepts K.members K.accepts self.entry }
    {
        let RosterBank { bank, served: _ } = self;
        lists_of(alloc, bank.into_cells())
    }
}

impl<'a, G: Scheme, K: RunName> Link for RosterBank<'a, G, K> {
    ghost use Rattle.endorser_cell.specs.CellBank.{bank_view};

    ghost view = { bank_view G.Signer.key_of G.Signer.left_of G.Checker.accepts };

    fn call(&mut self, alloc: Global, id: u32, call: &EndorserCall) -> LinkAnswer
        ensures step { LinkStep (bank_view G.Signer.key_of G.Signer.left_of G.Checker.accepts) self.old self.new id (call_of call.now) (heard_of result) }

        // what this link promises besides
        ensures asks { Asks G.Signer.key_of G.Signer.left_of G.Signer.size_of G.Signer.signs G.fits self.old.cells self.new.cells self.old.log self.new.log self.old.calls id (call_of call.now) (heard_of result) }
        ensures calls { self.new.calls ≡ next self.old.calls }
        ensures fresh { self.new.fresh ≡ self.old.fresh }
    {
        let before = self.bank.log().len();
        let answer = self.bank.call(alloc, id, call);
        self.served = served_with(self.bank.log(), before, self.served);
        answer
    }

    fn faults(&self, id: u32) -> u64 {
        self.bank.faults(id)
    }

    fn has(&self, id: u32) -> bool {
        self.bank.has(id)
    }
}
