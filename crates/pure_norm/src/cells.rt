//! A term's nodes in a row, where one look finds what a step has to know of a body or of an argument.
ghost use Rattle.std.specs.Prelude.{◌≡◌, ◌+◌, ◌++◌, ◌≤◌, IfOk};
ghost use Rattle.pure_definitions.specs.Types.Typ.{typ_size, typ_depth};
ghost use Rattle.pure_definitions.specs.Terms.Term.{term_size, term_depth};
ghost use Rattle.pure_norm.specs.declared.cells.Cell.TheVariants as variant;
ghost use Rattle.pure_norm.specs.Cells.{cells_of};

use crate::measure::measure_of_typ;
use pure_term::{Term, TermNode, Typ};
use std::alloc::AllocError;

/// A node of a term.
#[derive(Clone, Copy)]
pub enum Cell {
    /// A bound variable below so many binders and so many nodes.
    Variable {
        place: u32,
        binders: u32,
        above: u32,
    },
    /// An application whose function has so many nodes.
    Application {
        front: usize,
    },
    /// Any other node: how many nodes it has with its type, and how many are on the longest path through it.
    Other {
        size: u32,
        reach: u32,
    },
}

/// Puts the nodes of the term, which stands below so many binders and nodes, behind the others. Each stands behind those that are below it.
pub fn push_cells(
    t: &Term,
    binders: u32,
    above: u32,
    cells: &mut Vec<Cell>,
) -> Result<(), AllocError>
    requires few { term_size t.now ≤ 200000 }
    requires low { binders + term_depth t.now ≤ 10000 }
    requires shallow { above + term_depth t.now ≤ 10000 }
    ensures { IfOk result (λ _. cells.new.items ≡ cells.old.items ++ cells_of binders above t.now) }
{
    match &t.node {
        TermNode::Const { typ, .. } => cells.push(other(typ, above))?,
        TermNode::Free { typ, .. } => cells.push(other(typ, above))?,
        TermNode::Var { typ, .. } => cells.push(other(typ, above))?,
        TermNode::Bound { place } => cells.push(Cell::Variable {
            place: *place,
            binders,
            above,
        })?,
        TermNode::Abs { typ, body, .. } => {
            push_cells(body, binders + 1, above + 1, cells)?;
            cells.push(other(typ, above))?;
        }
        TermNode::App { fun, arg, .. } => {
            let start = cells.as_slice().len();
            push_cells(fun, binders, above + 1, cells)?;
            let front = cells.as_slice().len().saturating_sub(start);
            push_cells(arg, binders, above + 1, cells)?;
            cells.push(Cell::Application { front })?;
        }
    }
    Ok(())
}

/// A constant, a variable or an abstraction with this type, below so many nodes.
fn other(typ: &Typ, above: u32) -> Cell
    requires few { typ_size typ.now ≤ 200000 }
    requires shallow { above + typ_depth typ.now ≤ 10000 }
    ensures { result ≡ variant.Other (1 + typ_size typ.now) (above + (1 + typ_depth typ.now)) }
{
    let measure = measure_of_typ(typ);
    Cell::Other {
        size: 1 + measure.size,
        reach: above + (1 + measure.depth),
    }
}
