// Whether marks are within the limits of a receipt.
ghost use Rattle.std.specs.Prelude.{◌≡◌, ◌↔◌, map, IsTrue};
ghost use Rattle.std.specs.List.{AllByRecursion};
ghost use Rattle.statement.specs.Ids.{is_above, IsRising};
ghost use Rattle.statement.specs.Mark.{id_of, AreMarks, IsSignature};

use statement::{MAX_MARKS, MAX_SIGNATURE, Mark};

/// Whether a receipt can be written of these marks. It can of those of a round, but their type doesn't say so.
pub fn are_marks(marks: &[Mark]) -> bool
    ensures { IsTrue result ↔ AreMarks marks.now }
{
    !marks.is_empty() && marks.len() <= MAX_MARKS && are_rising(marks) && are_signatures(marks)
}

fn are_rising(marks: &[Mark]) -> bool
    ensures { IsTrue result ↔ IsRising (map id_of marks.now) }
{
    let mut before = None;
    for mark in marks {
        if !is_above(before, mark.id) {
            return false;
        }
        before = Some(mark.id);
    }
    true
}

fn is_above(before: Option<u32>, id: u32) -> bool
    ensures { result ≡ is_above before id }
{
    match before {
        None => true,
        Some(before) => before < id,
    }
}

fn are_signatures(marks: &[Mark]) -> bool
    ensures { IsTrue result ↔ AllByRecursion (λ mark. IsSignature mark.sig) marks.now }
{
    for mark in marks {
        let size = mark.sig.bytes().len();
        if size == 0 || size > MAX_SIGNATURE {
            return false;
        }
    }
    true
}
