//! The walk through a term, which takes steps on the way. Terms are held unchanged in scopes: a step binds its argument there.
ghost use Rattle.std.specs.Prelude.{◌≡◌, ◌+◌, ◌*◌, ◌<◌, ◌≤◌, IfOk, IfErr};
ghost use Rattle.std.specs.Bool.{OnTrue};
ghost use Rattle.pure_definitions.specs.Terms.Term as tree;
ghost use Rattle.pure_definitions.specs.Reduction.Beta.{IsBetaNormal};
ghost use Rattle.pure_norm.specs.Env.{meant};
ghost use Rattle.pure_norm.specs.Walk.{Normal, Abstraction, CanWalk, Walked, Fails};
ghost use Rattle.pure_norm.specs.Pieces.{IsPiece, IsLeaf};
ghost use Rattle.pure_norm.specs.Turn.{head_term, IsHead, IsTurn, IsOver, IsFoundTurn};

use crate::beta::{is_abs, is_normal};
use crate::contract::{Function, Walk, contract};
use crate::fault::NormFault;
use crate::held::{Found, find};
use crate::pieces::{Form, Piece, form_of};
use crate::scope::{Closure, Scope, scope_under, stay};
use pure_term::{Term, TermNode, Typ, copied, loose_above_of};
use std::alloc::{AllocError, Global};
use std::rc::Rc;
use std::sync::Arc;

/// What a walk to an abstraction finds: one, or else a normal form.
#[derive(Drop)]
pub enum Head<'t> {
    Function(Function<'t>),
    Reduced(Arc<Term>),
}

/// A turn of the walk: it is over, or goes on at a term in a scope.
#[derive(Drop)]
pub enum Turn<'t> {
    Over(Head<'t>),
    Next(Closure<'t>),
}

/// The normal form of what is meant by the term in its scope, which stands below a path of `deep` nodes.
#[cycle(walk)]
pub fn normal_form<'t>(
    alloc: Global,
    t: &Piece<'t>,
    scope: &Rc<Scope<'t>>,
    deep: u32,
    walk: &mut Walk,
) -> Result<Arc<Term>, NormFault>
    requires piece { IsPiece t.now }
    requires can { CanWalk deep walk.old (meant scope.now.value t.now.term.now) }
    ensures walked { IfOk result (λ u. Walked Normal deep walk.old walk.new (meant scope.now.value t.now.term.now) u.value) }
    ensures over { IfOk result (λ u. IsBetaNormal u.value) }
    ensures fault { IfErr result (λ fault. Fails Normal deep walk.old (meant scope.now.value t.now.term.now) fault) }
{
    let found = head_of(alloc, t, scope, deep, walk)?;
    match found {
        Head::Reduced(u) => Ok(u),
        Head::Function(function) => {
            let inner = scope_under(alloc, &function.scope)?;
            let body = normal_form(alloc, &function.body, &inner, deep + 1, walk)?;
            Ok(abstracted(alloc, function.typ, body)?)
        }
    }
}

/// Takes steps in what is meant until it is an abstraction, or else normal.
#[cycle(walk)]
fn head_of<'t>(
    alloc: Global,
    t: &Piece<'t>,
    scope: &Rc<Scope<'t>>,
    deep: u32,
    walk: &mut Walk,
) -> Result<Head<'t>, NormFault>
    requires piece { IsPiece t.now }
    requires can { CanWalk deep walk.old (meant scope.now.value t.now.term.now) }
    ensures walked { IfOk result (λ head. Walked Abstraction deep walk.old walk.new (meant scope.now.value t.now.term.now) (head_term head)) }
    ensures over { IfOk result (λ head. IsHead head) }
    ensures fault { IfErr result (λ fault. Fails Abstraction deep walk.old (meant scope.now.value t.now.term.now) fault) }
{
    let mut piece = *t;
    let mut place = scope.clone()?;
    'contractions: loop {
        let turn = turn_at(alloc, &piece, &place, deep, walk)?;
        match turn {
            Turn::Over(found) => return Ok(found),
            Turn::Next(next) => {
                piece = next.piece;
                place = next.scope;
            }
        }
    }
}

/// Goes down through the term once, function first. Where that makes a redex of the whole, it goes on at what that is contracted to.
#[cycle(walk)]
fn turn_at<'t>(
    alloc: Global,
    t: &Piece<'t>,
    scope: &Rc<Scope<'t>>,
    deep: u32,
    walk: &mut Walk,
) -> Result<Turn<'t>, NormFault>
    requires piece { IsPiece t.now }
    requires can { CanWalk deep walk.old (meant scope.now.value t.now.term.now) }
    ensures turned { IfOk result (λ turn. IsTurn deep walk.old walk.new t.now.term.now (meant scope.now.value t.now.term.now) turn) }
    ensures fault { IfErr result (λ fault. Fails Abstraction deep walk.old (meant scope.now.value t.now.term.now) fault) }
{
    match form_of(t) {
        Form::Abs { typ, body } => {
            let head = lambda(typ, &body, scope)?;
            Ok(Turn::Over(head))
        }
        Form::Bound { place } => {
            let turn = at_bound(alloc, place, scope)?;
            Ok(turn)
        }
        Form::App { fun, arg } => {
            let next = apply(alloc, &fun, &arg, scope, deep, walk)?;
            Ok(next)
        }
        Form::Leaf => {
            let head = leaf(alloc, t.term)?;
            Ok(Turn::Over(head))
        }
    }
}

/// The turn at an application.
#[cycle(walk)]
fn apply<'t>(
    alloc: Global,
    fun: &Piece<'t>,
    arg: &Piece<'t>,
    scope: &Rc<Scope<'t>>,
    deep: u32,
    walk: &mut Walk,
) -> Result<Turn<'t>, NormFault>
    requires fun { IsPiece fun.now }
    requires arg { IsPiece arg.now }
    requires can { CanWalk deep walk.old (tree.App (meant scope.now.value fun.now.term.now) (meant scope.now.value arg.now.term.now)) }
    ensures turned { IfOk result (λ turn. IsTurn deep walk.old walk.new (tree.App fun.now.term.now arg.now.term.now) (tree.App (meant scope.now.value fun.now.term.now) (meant scope.now.value arg.now.term.now)) turn) }
    ensures fault { IfErr result (λ fault. Fails Abstraction deep walk.old (tree.App (meant scope.now.value fun.now.term.now) (meant scope.now.value arg.now.term.now)) fault) }
{
    let found = head_of(alloc, fun, scope, deep + 1, walk)?;
    match found {
        Head::Function(function) => {
            let next = contract(alloc, &function, arg, scope, deep, walk)?;
            Ok(Turn::Next(next))
        }
        Head::Reduced(front) => {
            let back = normal_form(alloc, arg, scope, deep + 1, walk)?;
            let whole = applied(alloc, front, back)?;
            Ok(Turn::Over(Head::Reduced(whole)))
        }
    }
}

/// What is found at an abstraction: itself.
fn lambda<'t>(typ: &'t Typ, body: &Piece<'t>, scope: &Rc<Scope<'t>>) -> Result<Head<'t>, AllocError>
    requires { IsPiece body.now }
    ensures found { IfOk result (λ head. head_term head ≡ meant scope.now.value (tree.Abs typ.now body.now.term.now)) }
    ensures over { IfOk result (λ head. IsHead head) }
{
    let scope = scope.clone()?;
    let body = *body;
    Ok(Head::Function(Function { typ, body, scope }))
}

/// What is found at a constant or a variable: itself.
fn leaf<'t>(alloc: Global, t: &Term) -> Result<Head<'t>, AllocError>
    requires { IsLeaf t.now }
    ensures found { IfOk result (λ head. head_term head ≡ t.now) }
    ensures over { IfOk result (λ head. IsHead head) }
{
    Ok(Head::Reduced(copied(alloc, t)?))
}

/// The turn at a bound variable: it is over where the variable stays, or stands for a term that is over itself, which is handed
/// back; and else goes on at the term that it stands for.
fn at_bound<'t>(alloc: Global, place: u32, scope: &Rc<Scope<'t>>) -> Result<Turn<'t>, AllocError>
    ensures { IfOk result (λ turn. IsFoundTurn (meant scope.now.value (tree.Bound place)) turn) }
{
    let found = find(alloc, scope, place, 0)?;
    match found {
        Found::Place(place) => {
            let variable = bound(alloc, place)?;
            Ok(Turn::Over(Head::Reduced(variable)))
        }
        Found::Kept(held) => {
            if is_over(&held.closure) {
                let same = copied(alloc, held.closure.piece.term)?;
                return Ok(Turn::Over(Head::Reduced(same)));
            }
            Ok(Turn::Next(held.closure))
        }
    }
}

/// Whether what is held means itself, and is no abstraction and normal. The walk through it would make it anew.
fn is_over(held: &Closure<'_>) -> bool
    ensures { OnTrue result (IsOver held.now) }
{
    let term = held.piece.term;
    if is_abs(term) {
        return false;
    }
    if !stay(&held.scope, loose_above_of(term)) {
        return false;
    }
    is_normal(term)
}

/// A bound variable.
fn bound(alloc: Global, place: u32) -> Result<Arc<Term>, AllocError>
    ensures { IfOk result (λ t. t.value ≡ tree.Bound place) }
{
    let node = TermNode::Bound { place };
    Ok(Arc::new(alloc, Term { node })?)
}

/// The application of the function to the argument.
pub fn applied(alloc: Global, fun: Arc<Term>, arg: Arc<Term>) -> Result<Arc<Term>, AllocError>
    ensures { IfOk result (λ t. t.value ≡ tree.App fun.value arg.value) }
{
    Ok(Arc::new(alloc, Term::app(fun, arg))?)
}

/// The abstraction of the body over a variable of this type.
pub fn abstracted(alloc: Global, typ: &Typ, body: Arc<Term>) -> Result<Arc<Term>, AllocError>
    ensures { IfOk result (λ t. t.value ≡ tree.Abs typ.now body.value) }
{
    let typ = typ.copy(alloc)?;
    Ok(Arc::new(alloc, Term::abs(typ, body))?)
}
