//! How large and how deep terms are that are held in scopes, by their rows.
ghost use Rattle.std.specs.Prelude.{◌≡◌, ◌≤◌};
ghost use Rattle.pure_norm.specs.Measures.{measure_at, bound_measure};
ghost use Rattle.pure_norm.specs.Cells.{total, greatest, cell_size, cell_depth};

use crate::cells::Cell;
use crate::measure::{Measure, node};

/// The measure of what is meant by the term with this row, which stands below so many binders and nodes, where those of what stands for these binders are listed.
pub fn measure_in(cells: &[Cell], binders: u32, above: u32, places: &[Measure]) -> Measure
    requires few { total (cell_size binders above places.now) cells.now ≤ 200000 }
    requires shallow { greatest (cell_depth binders above places.now) cells.now ≤ 10000 }
    ensures size { result.size ≡ total (cell_size binders above places.now) cells.now }
    ensures depth { result.depth ≡ greatest (cell_depth binders above places.now) cells.now }
{
    let mut size: u32 = 0;
    let mut depth: u32 = 0;
    for cell in cells {
        let own = measure_of_cell(cell, binders, above, places);
        size += own.size;
        depth = depth.max(own.depth);
    }
    Measure { size, depth }
}

/// What one node adds.
fn measure_of_cell(cell: &Cell, binders: u32, above: u32, places: &[Measure]) -> Measure
    requires { cell_depth binders above places.now cell.now ≤ 10000 }
    ensures size { result.size ≡ cell_size binders above places.now cell.now }
    ensures depth { result.depth ≡ cell_depth binders above places.now cell.now }
{
    match cell {
        Cell::Variable {
            place,
            binders: below,
            above: path,
        } => {
            let own = measure_of_bound(*place, below.saturating_sub(binders), places);
            Measure {
                size: own.size,
                depth: path.saturating_sub(above) + own.depth,
            }
        }
        Cell::Application { .. } => Measure { size: 1, depth: 0 },
        Cell::Other { size, reach } => Measure {
            size: *size,
            depth: reach.saturating_sub(above),
        },
    }
}

/// The measure of what is meant by a bound variable: a node where its binder is one of so many in the term.
fn measure_of_bound(place: u32, under: u32, places: &[Measure]) -> Measure
    ensures { result ≡ bound_measure under places.now place }
{
    if place < under {
        node()
    } else {
        place_measure(places, place - under)
    }
}

/// The measure of what stands for a bound variable.
fn place_measure(places: &[Measure], place: u32) -> Measure
    ensures { result ≡ measure_at places.now place }
{
    places.get(place as usize).copied().unwrap_or(node())
}
