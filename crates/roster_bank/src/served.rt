ghost use Rattle.std.specs.Prelude.{◌≡◌, ◌≤◌, ◌+◌, slice_get};
ghost use Rattle.std.specs.Option.{option_map};
ghost use Rattle.endorser_core.specs.LineAnswer.{kept_of};
ghost use Rattle.roster_bank.specs.Counting.{count_in};
ghost use Rattle.roster_bank.specs.Places.{was_served};

use endorser_cell::BankLine;
use endorser_core::CellAnswer;
use port::EndorserRefusal;

/// Whether an endorser served a call of which this was kept.
pub(crate) fn was_served(answer: &Option<CellAnswer>) -> bool
    ensures { result ≡ was_served (option_map kept_of answer.now) }
{
    match answer {
        Some(CellAnswer::Refused(EndorserRefusal::LogFull)) | None => false,
        Some(_) => true,
    }
}

/// How many calls were served, where so many were served before the line of this number, and at most that one came.
pub(crate) fn served_with(log: &[BankLine], line: usize, served: usize) -> usize
    requires { served ≤ line }
    ensures { result ≡ served + count_in (slice_get log.now line) }
{
    let Some(line) = log.get(line) else {
        return served;
    };
    if was_served(&line.answer) {
        served + 1
    } else {
        served
    }
}
