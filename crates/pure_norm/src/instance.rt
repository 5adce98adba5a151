//! Long forms of instances, for which only those parts are walked through in which a variable is replaced.
ghost use Rattle.std.specs.Prelude.{◌≡◌, ◌≤◌, [], true, false, Some, IfOk, IfSome};
ghost use Rattle.std.specs.Bool.{OnTrue};
ghost use Rattle.pure_text.specs.Lists.{Each};
ghost use Rattle.pure_definitions.specs.Terms.Term.{term_size, term_depth, max_size, max_depth};
ghost use Rattle.pure_definitions.specs.Terms.Bounds.{IsClosed};
ghost use Rattle.pure_definitions.specs.Terms.Limits.{Leaves};
ghost use Rattle.pure_definitions.specs.Terms.Subst.{term_image, inst_term};
ghost use Rattle.pure_definitions.specs.Reduction.Beta.{IsBetaNormal};
ghost use Rattle.pure_term.specs.Scope.{scope_typs};
ghost use Rattle.pure_norm.specs.Walk.{Normal, CanWalk, Walked};
ghost use Rattle.pure_norm.specs.Pieces.{IsPiece};
ghost use Rattle.pure_norm.specs.Instances.{IsOwn, HasFixedFront, IsFound, IsFoundFront, IsInstanceLong};

use crate::beta::{MAX_STEPS, is_normal};
use crate::cells::push_cells;
use crate::contract::Walk;
use crate::fault::NormFault;
use crate::pieces::Piece;
use crate::scope::empty_scope;
use crate::walk::{abstracted, applied, normal_form};
use pure_eta::long_under;
use pure_term::{
    MAX_DEPTH, MAX_SIZE, Scope, Term, TermBind, TermMap, TermNode, copied, index_above_of,
    replaced, term_leaves,
};
use pure_typ::{node_leaves, typ_leaves};
use std::alloc::Global;
use std::sync::Arc;

/// The index of the variable that the entry replaces.
fn index_of(bind: &TermBind) -> u64
    ensures { result ≡ bind.now.index }
{
    u64::from(bind.index)
}

/// The least index of a variable that an entry replaces. A part whose schematic variables all have lower ones stays as it is.
pub fn least_index(map: &TermMap) -> u64
    ensures { Each (λ b. result ≤ b.index) map.now }
{
    let binds = map.binds();
    let mut least = u64::MAX;
    for bind in binds {
        least = least.min(index_of(bind));
    }
    least
}

/// What is left of room when the instance is put in.
fn instance_leaves(t: &Term, map: &TermMap, least: u64, left: u32, room: u32) -> Option<u32>
    requires { Each (λ b. least ≤ b.index) map.now }
    ensures { Leaves left room (term_size (inst_term (term_image map.now) t.now)) (term_depth (inst_term (term_image map.now) t.now)) result }
{
    if index_above_of(t) <= least {
        return term_leaves(t, left, room);
    }
    match &t.node {
        TermNode::Const { .. } => term_leaves(t, left, room),
        TermNode::Free { .. } => term_leaves(t, left, room),
        TermNode::Var { name, index, typ } => match map.find(*name, *index, typ) {
            Some(image) => term_leaves(image, left, room),
            None => term_leaves(t, left, room),
        },
        TermNode::Bound { .. } => node_leaves(left, room, 1, 1),
        TermNode::Abs { typ, body, .. } => {
            if left == 0 || room == 0 {
                return None;
            }
            let Some(rest) = typ_leaves(typ, left - 1, room - 1) else {
                return None;
            };
            instance_leaves(body, map, least, rest, room - 1)
        }
        TermNode::App { fun, arg, .. } => {
            if left == 0 || room == 0 {
                return None;
            }
            let Some(rest) = instance_leaves(fun, map, least, left - 1, room - 1) else {
                return None;
            };
            instance_leaves(arg, map, least, rest, room - 1)
        }
    }
}

/// Whether the function at the term's front stays under the entries and is no abstraction.
fn has_fixed_front(t: &Term, map: &TermMap) -> bool
    ensures { OnTrue result (HasFixedFront map.now t.now) }
{
    match &t.node {
        TermNode::Const { .. } => true,
        TermNode::Free { .. } => true,
        TermNode::Var { name, index, typ } => match map.find(*name, *index, typ) {
            Some(_) => false,
            None => true,
        },
        TermNode::Bound { .. } => true,
        TermNode::Abs { .. } => false,
        TermNode::App { fun, .. } => has_fixed_front(fun, map),
    }
}

/// The normal form of a part below a path of `deep` nodes, by the walk.
fn reduced_part(
    alloc: Global,
    part: &Piece<'_>,
    deep: u32,
    walk: &mut Walk,
) -> Result<Arc<Term>, NormFault>
    requires piece { IsPiece part.now }
    requires can { CanWalk deep walk.old part.now.term.now }
    ensures walked { IfOk result (λ u. Walked Normal deep walk.old walk.new part.now.term.now u.value) }
    ensures over { IfOk result (λ u. IsBetaNormal u.value) }
{
    let scope = empty_scope(alloc)?;
    let u = normal_form(alloc, part, &scope, deep, walk)?;
    Ok(u)
}

/// The same of a term, of which no row is made where it is normal.
fn reduced_term(
    alloc: Global,
    t: &Arc<Term>,
    deep: u32,
    walk: &mut Walk,
) -> Result<Arc<Term>, NormFault>
    requires can { CanWalk deep walk.old t.now.value }
    ensures walked { IfOk result (λ u. Walked Normal deep walk.old walk.new t.now.value u.value) }
    ensures over { IfOk result (λ u. IsBetaNormal u.value) }
{
    if is_normal(t) {
        let same = Arc::try_clone(t)?;
        return Ok(same);
    }
    let mut cells = Vec::new(alloc);
    push_cells(t, 0, 0, &mut cells)?;
    let part = Piece {
        term: t,
        cells: cells.as_slice(),
        binders: 0,
        above: 0,
    };
    reduced_part(alloc, &part, deep, walk)
}

/// The long form in the scope of what the instance of a part is reduced to, by a walk through the whole instance.
fn long_of_any(
    alloc: Global,
    t: &Arc<Term>,
    map: &TermMap,
    scope: &Scope,
    deep: u32,
    walk: &mut Walk,
) -> Result<Arc<Term>, NormFault>
    requires can { CanWalk deep walk.old (inst_term (term_image map.now) t.now.value) }
    ensures { IfOk result (λ l. IsFound map.now (scope_typs scope.now) deep walk.old walk.new t.now.value l.value) }
{
    let made = replaced(alloc, t, map)?;
    let normal = reduced_term(alloc, &made, deep, walk)?;
    let long = long_under(alloc, &normal, scope)?;
    Ok(long)
}

/// The same of a part that is its own long form: where no variable is replaced it is handed back.
#[cycle(instance)]
fn long_of(
    alloc: Global,
    t: &Arc<Term>,
    map: &TermMap,
    least: u64,
    scope: &Scope,
    deep: u32,
    walk: &mut Walk,
) -> Result<Arc<Term>, NormFault>
    requires least { Each (λ b. least ≤ b.index) map.now }
    requires own { IsOwn false (scope_typs scope.now) t.now.value }
    requires can { CanWalk deep walk.old (inst_term (term_image map.now) t.now.value) }
    ensures { IfOk result (λ l. IsFound map.now (scope_typs scope.now) deep walk.old walk.new t.now.value l.value) }
{
    let whole: &Term = t;
    if index_above_of(whole) <= least {
        let same = Arc::try_clone(t)?;
        return Ok(same);
    }
    match &whole.node {
        TermNode::Abs { typ, body, .. } => {
            let under = Scope::Under(typ, &*scope);
            let body = long_of(alloc, body, map, least, &under, deep + 1, walk)?;
            let done = abstracted(alloc, typ, body)?;
            Ok(done)
        }
        TermNode::App { .. } => {
            if !has_fixed_front(whole, map) {
                return long_of_any(alloc, t, map, scope, deep, walk);
            }
            let front = front_of(alloc, t, map, least, scope, deep, walk)?;
            Ok(front)
        }
        _ => long_of_any(alloc, t, map, scope, deep, walk),
    }
}

/// The same of a function with a fixed front that is applied.
#[cycle(instance)]
fn front_of(
    alloc: Global,
    t: &Arc<Term>,
    map: &TermMap,
    least: u64,
    scope: &Scope,
    deep: u32,
    walk: &mut Walk,
) -> Result<Arc<Term>, NormFault>
    requires least { Each (λ b. least ≤ b.index) map.now }
    requires own { IsOwn true (scope_typs scope.now) t.now.value }
    requires fixed { HasFixedFront map.now t.now.value }
    requires can { CanWalk deep walk.old (inst_term (term_image map.now) t.now.value) }
    ensures { IfOk result (λ l. IsFoundFront map.now (scope_typs scope.now) deep walk.old walk.new t.now.value l.value) }
{
    let whole: &Term = t;
    if index_above_of(whole) <= least {
        let same = Arc::try_clone(t)?;
        return Ok(same);
    }
    match &whole.node {
        TermNode::Const { .. } => Ok(Arc::try_clone(t)?),
        TermNode::Free { .. } => Ok(Arc::try_clone(t)?),
        TermNode::Var { .. } => Ok(Arc::try_clone(t)?),
        TermNode::Bound { .. } => Ok(Arc::try_clone(t)?),
        TermNode::Abs { .. } => unreachable!(),
        TermNode::App { fun, arg, .. } => {
            let fun = front_of(alloc, fun, map, least, scope, deep + 1, walk)?;
            let arg = long_of(alloc, arg, map, least, scope, deep + 1, walk)?;
            let done = applied(alloc, fun, arg)?;
            Ok(done)
        }
    }
}

/// The same of a whole term.
fn long_of_whole(
    alloc: Global,
    t: &Term,
    map: &TermMap,
    least: u64,
    room: u32,
) -> Result<Term, NormFault>
    requires least { Each (λ b. least ≤ b.index) map.now }
    requires own { IsOwn false [] t.now }
    requires closed { IsClosed (inst_term (term_image map.now) t.now) }
    requires within { Leaves max_size max_depth (term_size (inst_term (term_image map.now) t.now)) (term_depth (inst_term (term_image map.now) t.now)) (Some room) }
    ensures { IfOk result (IsInstanceLong map.now t.now) }
{
    let mut walk = Walk {
        steps: MAX_STEPS,
        room,
    };
    let t = copied(alloc, t)?;
    let long = long_of(alloc, &t, map, least, &Scope::Empty, 0, &mut walk)?;
    Ok(long.copy(alloc)?)
}

/// The long form of the normal form of an instance of a term that is its own long form. Only those parts are looked at that have
/// a variable of an index that an entry replaces. Where it has none within the limits, or memory is wanted, none is answered.
pub fn instance_long(alloc: Global, t: &Term, map: &TermMap) -> Option<Term>
    requires own { IsOwn false [] t.now }
    requires closed { IsClosed (inst_term (term_image map.now) t.now) }
    ensures { IfSome result (IsInstanceLong map.now t.now) }
{
    let least = least_index(map);
    let Some(room) = instance_leaves(t, map, least, MAX_SIZE, MAX_DEPTH) else {
        return None;
    };
    match long_of_whole(alloc, t, map, least, room) {
        Ok(long) => Some(long),
        Err(_) => None,
    }
}
