// What members left when their view ended, as a store keeps it.
ghost use Rattle.std.specs.Prelude.{◌≡◌, List, None, Ok, IfOk, IfSome};
ghost use Rattle.port.specs.View.{FinalMap};
ghost use Rattle.op_parts.specs.Refresh.{ReadsAsFinals, marks_of};

use nim_base::{FormFault, NoMemory};
use port::{FinalMap, FinalMark, read_finals};
use std::alloc::Global;

/// The marks of the finals whose bytes these are, with the digests of their maps; none where they are no finals'.
pub fn read_marks(alloc: Global, bytes: &[u8]) -> Result<Option<Vec<FinalMark>>, NoMemory>
    ensures good { IfOk result (λ found. IfSome found (λ marks. (maps : List FinalMap) × ReadsAsFinals bytes.now maps × (marks.items ≡ marks_of maps))) }
    ensures bad { result ≡ Ok None → (finals : List FinalMap) → ReadsAsFinals bytes.now finals → ⊥ }
{
    match read_finals(alloc, bytes) {
        Ok(finals) => Ok(Some(marks_of(alloc, finals)?)),
        Err(FormFault::NoMemory) => Err(NoMemory),
        Err(_) => Ok(None),
    }
}

fn marks_of(alloc: Global, finals: Vec<FinalMap>) -> Result<Vec<FinalMark>, NoMemory>
    ensures { IfOk result (λ marks. marks.items ≡ marks_of finals.items) }
{
    let mut marks = Vec::with_capacity(alloc, finals.len())?;
    for FinalMap { id, map, sig } in finals {
        marks.push(FinalMark {
            id,
            map: map.digest(),
            sig,
        })?;
    }
    Ok(marks)
}
