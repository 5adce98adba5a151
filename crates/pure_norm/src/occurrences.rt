//! How often and how deep the variable of an abstraction occurs in its body.
ghost use Rattle.std.specs.Prelude.{◌≡◌, ◌+◌, ◌≤◌};
ghost use Rattle.pure_definitions.specs.Terms.Term.{term_size, term_depth};
ghost use Rattle.pure_norm.specs.Cells.{total, greatest, cell_count, cell_deepest};
ghost use Rattle.pure_norm.specs.Occurrences.{occurrence_count, deepest_occurrence};
ghost use Rattle.pure_norm.specs.Pieces.{IsPiece};

use crate::cells::Cell;
use crate::pieces::Piece;

/// How often a bound variable occurs, and how many nodes are above the deepest of its occurrences.
#[derive(Clone, Copy)]
pub struct Occurrences {
    pub count: u32,
    pub deepest: u32,
}

/// The occurrences of an abstraction's variable in its body, which comes to stand below so many nodes.
pub fn find_occurrences(body: &Piece<'_>, deep: u32) -> Occurrences
    requires piece { IsPiece body.now }
    requires few { term_size body.now.term.now ≤ 200000 }
    requires deep { deep + term_depth body.now.term.now ≤ 10000 }
    ensures few { result.count ≤ term_size body.now.term.now }
    ensures count { result.count ≡ occurrence_count 0 body.now.term.now }
    ensures deepest { result.deepest ≡ deepest_occurrence 0 deep body.now.term.now }
{
    occurrences_in(body.cells, body.binders, body.above, deep)
}

/// The same by the row of a body that stands below so many binders and nodes.
fn occurrences_in(cells: &[Cell], binders: u32, above: u32, deep: u32) -> Occurrences
    requires few { total (cell_count binders) cells.now ≤ 200000 }
    requires low { greatest (cell_deepest binders above deep) cells.now ≤ 20000 }
    ensures count { result.count ≡ total (cell_count binders) cells.now }
    ensures deepest { result.deepest ≡ greatest (cell_deepest binders above deep) cells.now }
{
    let mut count: u32 = 0;
    let mut deepest: u32 = 0;
    for cell in cells {
        let own = occurrence_at(cell, binders, above, deep);
        count += own.count;
        deepest = deepest.max(own.deepest);
    }
    Occurrences { count, deepest }
}

/// The same at one node.
fn occurrence_at(cell: &Cell, binders: u32, above: u32, deep: u32) -> Occurrences
    requires { cell_deepest binders above deep cell.now ≤ 20000 }
    ensures count { result.count ≡ cell_count binders cell.now }
    ensures deepest { result.deepest ≡ cell_deepest binders above deep cell.now }
{
    let mut found = Occurrences {
        count: 0,
        deepest: 0,
    };
    if let Cell::Variable {
        place,
        binders: below,
        above: path,
    } = cell
    {
        if *place == below.saturating_sub(binders) {
            found.count = 1;
            found.deepest = path.saturating_sub(above) + deep;
        }
    }
    found
}
