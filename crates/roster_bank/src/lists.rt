ghost use Rattle.std.specs.Prelude.{◌≡◌, map, vec_items, IfOk};
ghost use Rattle.std.specs.List.{AllByRecursion};
ghost use Rattle.endorser_cell.specs.EndorserCell.{IsLawfulOf};
ghost use Rattle.roster_bank.specs.Roster.{lists_of};

use endorser_cell::EndorserCell;
use endorser_core::CellLine;
use nim_base::NoMemory;
use seal::Scheme;
use stamp_clock::ClockName;
use std::alloc::Global;

/// The lines of each cell, in the order of the cells.
pub(crate) fn lists_of<G: Scheme, K: ClockName>(
    alloc: Global,
    cells: Vec<EndorserCell<G, K>>,
) -> Result<Vec<Vec<CellLine>>, NoMemory>
    ensures lists { IfOk result (λ lists. map vec_items lists.items ≡ lists_of cells.items) }
    ensures lawful { IfOk result (λ _. AllByRecursion (λ cell. IsLawfulOf G.Signer.key_of G.Checker.accepts cell.endorser cell.lines) cells.items) }
{
    let mut lists = Vec::with_capacity(alloc, cells.len())?;
    for cell in cells {
        let (lines, _) = cell.take();
        lists.push(lines)?;
    }
    Ok(lists)
}
