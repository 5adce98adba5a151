//! Terms that are held unchanged, each in a scope that says what stands for its loose bound variables.
ghost use Rattle.std.specs.Prelude.{◌≡◌, ◌++◌, IfOk};
ghost use Rattle.std.specs.Bool.{OnTrue};
ghost use Rattle.pure_definitions.specs.Terms.Term as tree;
ghost use Rattle.pure_definitions.specs.Terms.Bounds.{lift_term};
ghost use Rattle.pure_norm.specs.Env as env;
ghost use Rattle.pure_norm.specs.Env.{meant, Stay};
ghost use Rattle.pure_norm.specs.Measures.{measures, measure_of};
ghost use Rattle.pure_norm.specs.Pieces.{IsPiece};

use crate::measure::{Measure, node};
use crate::pieces::Piece;
use std::alloc::{AllocError, Global};
use std::marker::Model;
use std::rc::Rc;

/// What stands for the loose bound variables of a term.
#[cycle(scope)]
#[derive(Drop)]
pub struct Scope<'t> {
    pub node: ScopeNode<'t>,
}

/// Nothing; a binder whose variable stands for a term that is held in a scope of its own; a binder that stays; or a scope that is raised.
#[cycle(scope)]
#[derive(Drop)]
pub enum ScopeNode<'t> {
    Empty,
    Bind {
        piece: Piece<'t>,
        inner: Rc<Scope<'t>>,
        measure: Measure,
        rest: Rc<Scope<'t>>,
    },
    Under {
        rest: Rc<Scope<'t>>,
    },
    Raise {
        by: u32,
        rest: Rc<Scope<'t>>,
    },
}

impl<'t> Model for Scope<'t> {
    ghost use Rattle.pure_norm.specs.Env as env;
    ghost use Rattle.pure_norm.specs.EnvCodes.{coded_env};

    ghost Value = { env.Env };

    ghost coded = { coded_env };

    ghost use Rattle.pure_norm.specs.ScopeView.{view_scope, IsMeasured};

    ghost view = { λ s. view_scope s.node };

    ghost invariant = { λ s. IsMeasured s.node };

    ghost size = { env.env_height };

    ghost use Rattle.pure_norm.specs.ScopeFalls.{height_le-env_height};

    ghost size_decreases = { λ s h. height_le-env_height s.node };
}

/// A term in a scope.
#[derive(Drop)]
pub struct Closure<'t> {
    pub piece: Piece<'t>,
    pub scope: Rc<Scope<'t>>,
}

/// The scope in which nothing stands for a variable.
pub fn empty_scope<'t>(alloc: Global) -> Result<Rc<Scope<'t>>, AllocError>
    ensures { IfOk result (λ s. s.value ≡ env.Empty) }
{
    let node = ScopeNode::Empty;
    Ok(Rc::new(alloc, Scope { node })?)
}

/// The scope below one binder more that stays.
pub fn scope_under<'t>(alloc: Global, scope: &Rc<Scope<'t>>) -> Result<Rc<Scope<'t>>, AllocError>
    ensures { IfOk result (λ s. s.value ≡ env.Under scope.now.value) }
{
    let rest = scope.clone()?;
    let node = ScopeNode::Under { rest };
    Ok(Rc::new(alloc, Scope { node })?)
}

/// The scope raised by so many binders that stay.
pub fn raised_scope<'t>(
    alloc: Global,
    by: u32,
    scope: &Rc<Scope<'t>>,
) -> Result<Rc<Scope<'t>>, AllocError>
    ensures { IfOk result (λ s. (t : tree.Term) → meant s.value t ≡ lift_term by 0 (meant scope.now.value t)) }
{
    if by == 0 {
        let same = scope.clone()?;
        return Ok(same);
    }
    let rest = scope.clone()?;
    let node = ScopeNode::Raise { by, rest };
    Ok(Rc::new(alloc, Scope { node })?)
}

/// The scope below one binder more, whose variable stands for the term.
pub fn scope_with<'t>(
    alloc: Global,
    closure: &Closure<'t>,
    measure: Measure,
    scope: &Rc<Scope<'t>>,
) -> Result<Rc<Scope<'t>>, AllocError>
    requires measured { measure ≡ measure_of (meant closure.now.scope.value closure.now.piece.term.now) }
    requires piece { IsPiece closure.now.piece }
    ensures { IfOk result (λ s. s.value ≡ env.Bind closure.now.piece.term.now closure.now.scope.value scope.now.value) }
{
    let piece = closure.piece;
    let inner = closure.scope.clone()?;
    let rest = scope.clone()?;
    let node = ScopeNode::Bind {
        piece,
        inner,
        measure,
        rest,
    };
    Ok(Rc::new(alloc, Scope { node })?)
}

/// Whether the binders of so many bound variables, the innermost ones, stay.
pub fn stay(scope: &Scope<'_>, count: u64) -> bool
    ensures { OnTrue result (Stay count scope.now) }
{
    if count == 0 {
        return true;
    }
    match &scope.node {
        ScopeNode::Empty => true,
        ScopeNode::Bind { .. } => false,
        ScopeNode::Under { rest } => stay(rest, count - 1),
        ScopeNode::Raise { .. } => false,
    }
}

/// Lists the measures of what stands for the variables, the innermost first.
pub fn push_measures(scope: &Scope<'_>, list: &mut Vec<Measure>) -> Result<(), AllocError>
    ensures { IfOk result (λ _. list.new.items ≡ list.old.items ++ measures scope.now) }
{
    match &scope.node {
        ScopeNode::Empty => {}
        ScopeNode::Bind { measure, rest, .. } => {
            list.push(*measure)?;
            push_measures(rest, list)?;
        }
        ScopeNode::Under { rest } => {
            list.push(node())?;
            push_measures(rest, list)?;
        }
        ScopeNode::Raise { rest, .. } => push_measures(rest, list)?,
    }
    Ok(())
}
