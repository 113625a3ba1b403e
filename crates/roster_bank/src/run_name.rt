use stamp_clock::ClockName;
use std::marker::Brand;

/// Names a run: its clock, its roster, and which signatures its checkers accept. It has no calls, so that a type with this parameter
/// says which run it is of.
pub trait RunName: ClockName {
    ghost use Rattle.std.specs.Prelude.{List};
    ghost use Rattle.statement.specs.declared.member.Member.{Member};
    ghost use Rattle.view_ledger.specs.Receipts.{Accepts};

    // The endorsers, by their ids.
    ghost members: { List Member };

    // By key, bytes and signature.
    ghost accepts: { Accepts };
}

impl RunName for Brand {
    ghost use Rattle.std.specs.Prelude.{[]};
    ghost use Rattle.roster_bank.specs.Roster.{accepts_none};

    ghost members = { [] };

    ghost accepts = { accepts_none };
}
