//! Parts of a term, each with its row of nodes.
ghost use Rattle.std.specs.Prelude.{◌≡◌, ◌++◌, ◌∷◌, [], List, length};
ghost use Rattle.pure_definitions.specs.Terms.Term as tree;
ghost use Rattle.pure_norm.specs.declared.cells.Cell as row;
ghost use Rattle.pure_norm.specs.declared.cells.Cell.TheVariants as variant;
ghost use Rattle.pure_norm.specs.Cells.{front_in};
ghost use Rattle.pure_norm.specs.Pieces.{IsPiece, IsForm};

use crate::cells::Cell;
use pure_term::{Term, TermNode, Typ};

/// A part of a term, which stands below so many binders and so many nodes, with its nodes in a row.
#[derive(Clone, Copy)]
pub struct Piece<'t> {
    pub term: &'t Term,
    pub cells: &'t [Cell],
    pub binders: u32,
    pub above: u32,
}

/// What stands at the root of a part, and the parts below it.
#[derive(Drop)]
pub enum Form<'t> {
    Leaf,
    Bound { place: u32 },
    Abs { typ: &'t Typ, body: Piece<'t> },
    App { fun: Piece<'t>, arg: Piece<'t> },
}

/// The rows of an application's function and of its argument.
#[derive(Drop)]
struct Sides<'t> {
    fun: &'t [Cell],
    arg: &'t [Cell],
}

/// What stands at the root of the part.
pub fn form_of<'t>(t: &Piece<'t>) -> Form<'t>
    requires { IsPiece t.now }
    ensures { IsForm t.now result }
{
    let term = t.term;
    match &term.node {
        TermNode::Bound { place } => Form::Bound { place: *place },
        TermNode::Abs { typ, body, .. } => abstraction(t, typ, body),
        TermNode::App { fun, arg, .. } => application(t, fun, arg),
        _ => Form::Leaf,
    }
}

/// A part that is an abstraction.
fn abstraction<'t>(t: &Piece<'t>, typ: &'t Typ, body: &'t Term) -> Form<'t>
    requires piece { IsPiece t.now }
    requires is { t.now.term.now ≡ tree.Abs typ.now body.now }
    ensures { IsForm t.now result }
{
    let cells = all_but_last(t.cells);
    let body = Piece {
        term: body,
        cells,
        binders: t.binders + 1,
        above: t.above + 1,
    };
    Form::Abs { typ, body }
}

/// A part that is an application.
fn application<'t>(t: &Piece<'t>, fun: &'t Term, arg: &'t Term) -> Form<'t>
    requires piece { IsPiece t.now }
    requires is { t.now.term.now ≡ tree.App fun.now arg.now }
    ensures { IsForm t.now result }
{
    let sides = sides_of(t.cells);
    let binders = t.binders;
    let above = t.above + 1;
    let fun = Piece {
        term: fun,
        cells: sides.fun,
        binders,
        above,
    };
    let arg = Piece {
        term: arg,
        cells: sides.arg,
        binders,
        above,
    };
    Form::App { fun, arg }
}

/// The row without its last node.
fn all_but_last<'t>(cells: &'t [Cell]) -> &'t [Cell]
    ensures { (body : List row.Cell) (last : row.Cell) → cells.now ≡ body ++ last ∷ [] → result.now ≡ body }
{
    let Some((_, rest)) = cells.split_last() else {
        return cells;
    };
    rest
}

/// The row of an application, taken apart.
fn sides_of<'t>(cells: &'t [Cell]) -> Sides<'t>
    ensures { (fun arg : List row.Cell) → cells.now ≡ fun ++ (arg ++ variant.Application (length fun) ∷ []) → (result.fun.now ≡ fun) × (result.arg.now ≡ arg) }
{
    let Some((last, rest)) = cells.split_last() else {
        return Sides {
            fun: cells,
            arg: cells,
        };
    };
    let front = front_of(last).min(rest.len());
    let (fun, arg) = rest.split_at(front);
    Sides { fun, arg }
}

/// How many nodes the function of an application has.
fn front_of(last: &Cell) -> usize
    ensures { result ≡ front_in last.now }
{
    match last {
        Cell::Application { front } => *front,
        _ => 0,
    }
}
