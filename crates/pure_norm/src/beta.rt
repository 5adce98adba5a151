//! The call, and its limit of steps.
ghost use Rattle.std.specs.Prelude.{IsTrue, Some};
ghost use Rattle.pure_definitions.specs.Terms.Bounds.{IsClosed};
ghost use Rattle.pure_definitions.specs.Terms.Limits.{Leaves};
ghost use Rattle.pure_definitions.specs.Terms.Term.{term_size, term_depth, max_size, max_depth};
ghost use Rattle.pure_definitions.specs.Reduction.Beta.{IsAbs, IsBetaNormal};
ghost use Rattle.pure_norm.specs.NormAnswer.{IsNormAnswer};
ghost use Rattle.pure_norm.specs.Pieces.{IsPiece};

use crate::cells::push_cells;
use crate::contract::Walk;
use crate::fault::NormFault;
use crate::pieces::Piece;
use crate::scope::empty_scope;
use crate::walk::normal_form;
use pure_term::{MAX_DEPTH, MAX_SIZE, Term, TermNode, term_leaves};
use std::alloc::Global;

/// The greatest number of steps.
pub const MAX_STEPS: u32 = 10_000;

/// The beta-normal form, by leftmost-outermost steps. The answer is decided at the first term of the sequence that is too large,
/// `Big`; or is normal; or stands after 10,000 steps and isn't, `Steps`.
pub fn beta_norm(alloc: Global, t: &Term) -> Result<Term, NormFault>
    requires { IsClosed t.now }
    ensures { IsNormAnswer t.now result }
{
    let Some(room) = term_leaves(t, MAX_SIZE, MAX_DEPTH) else {
        return Err(NormFault::Big);
    };
    if is_normal(t) {
        let same = t.copy(alloc)?;
        return Ok(same);
    }
    let mut cells = Vec::new(alloc);
    push_cells(t, 0, 0, &mut cells)?;
    let whole = Piece {
        term: &*t,
        cells: cells.as_slice(),
        binders: 0,
        above: 0,
    };
    reduced(alloc, &whole, room)
}

/// The same of a term that leaves this room, by its row.
fn reduced(alloc: Global, whole: &Piece<'_>, room: u32) -> Result<Term, NormFault>
    requires piece { IsPiece whole.now }
    requires closed { IsClosed whole.now.term.now }
    requires within { Leaves max_size max_depth (term_size whole.now.term.now) (term_depth whole.now.term.now) (Some room) }
    ensures { IsNormAnswer whole.now.term.now result }
{
    let mut walk = Walk {
        steps: MAX_STEPS,
        room,
    };
    let scope = empty_scope(alloc)?;
    let u = normal_form(alloc, whole, &scope, 0, &mut walk)?;
    Ok(u.copy(alloc)?)
}

/// Whether there is no redex. A term that has none needs no row.
pub fn is_normal(t: &Term) -> bool
    ensures { IsTrue result → IsBetaNormal t.now }
{
    match &t.node {
        TermNode::Abs { body, .. } => is_normal(body),
        TermNode::App { fun, arg, .. } => !is_abs(fun) && is_normal(fun) && is_normal(arg),
        _ => true,
    }
}

/// Whether the term is an abstraction.
pub fn is_abs(t: &Term) -> bool
    ensures { IsAbs t.now → IsTrue result }
{
    match &t.node {
        TermNode::Abs { .. } => true,
        _ => false,
    }
}
