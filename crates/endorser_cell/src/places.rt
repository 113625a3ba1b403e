// Finding an endorser among the cells of a bank.
ghost use Rattle.std.specs.Prelude.{◌≡◌, None, IfSome};
ghost use Rattle.std.specs.List.{list_all};
ghost use Rattle.endorser_cell.specs.Cells.{IsPlaceOf, cell_of};
ghost use Rattle.endorser_cell.specs.CellBank.{has_no_line};

use crate::endorser_cell::EndorserCell;
use seal::Scheme;
use stamp_clock::ClockName;

/// Where the cell of this id stands.
pub(crate) fn place_of<G: Scheme, K: ClockName>(
    cells: &[EndorserCell<G, K>],
    id: u32,
) -> Option<usize>
    ensures found { IfSome result (IsPlaceOf cells.now id) }
    ensures none { result ≡ None → cell_of cells.now id ≡ None }
{
    for place in 0..cells.len() {
        if cells[place].endorser().id() == id {
            return Some(place);
        }
    }
    None
}

/// Whether no cell has a line yet.
pub(crate) fn are_fresh<G: Scheme, K: ClockName>(cells: &[EndorserCell<G, K>]) -> bool
    ensures { result ≡ list_all has_no_line cells.now }
{
    cells.iter().all(|cell| cell.lines().is_empty())
}
