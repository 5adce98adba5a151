//! The contraction of a redex: its argument is bound in the scope of its function's body.
ghost use Rattle.std.specs.Prelude.{◌≡◌, ◌+◌, ◌*◌, ◌<◌, ◌≤◌, IfOk, IfErr, MatchOption};
ghost use Rattle.pure_definitions.specs.Types.Typ.{typ_size};
ghost use Rattle.pure_definitions.specs.Terms.Term.{App, max_depth};
ghost use Rattle.pure_norm.specs.Occurrences.{LeavesAfter};
ghost use Rattle.pure_norm.specs.Env.{meant};
ghost use Rattle.pure_norm.specs.Held.{closure_term};
ghost use Rattle.pure_norm.specs.Walk.{CanWalk, Contracted, CannotContract};
ghost use Rattle.pure_norm.specs.Function.{function_term};
ghost use Rattle.pure_norm.specs.Pieces.{IsPiece};

use crate::fault::NormFault;
use crate::held::hold;
use crate::measure::Measure;
use crate::occurrences::{Occurrences, find_occurrences};
use crate::pieces::Piece;
use crate::scope::{Closure, Scope, scope_with};
use pure_term::{MAX_DEPTH, Typ};
use pure_typ::size_of_typ;
use std::alloc::Global;
use std::rc::Rc;

/// What is left: steps, and how many nodes more the whole term may have.
#[derive(Drop)]
pub struct Walk {
    pub steps: u32,
    pub room: u32,
}

/// An abstraction whose body is held in a scope.
#[derive(Drop)]
pub struct Function<'t> {
    pub typ: &'t Typ,
    pub body: Piece<'t>,
    pub scope: Rc<Scope<'t>>,
}

/// The function's body, with its variable bound to the argument. It costs a look through the row of the body and one through that of the argument.
pub fn contract<'t>(
    alloc: Global,
    function: &Function<'t>,
    arg: &Piece<'t>,
    scope: &Rc<Scope<'t>>,
    deep: u32,
    walk: &mut Walk,
) -> Result<Closure<'t>, NormFault>
    requires body { IsPiece function.now.body }
    requires arg { IsPiece arg.now }
    requires can { CanWalk deep walk.old (App (function_term function.now) (meant scope.now.value arg.now.term.now)) }
    ensures contracted { IfOk result (λ closure. Contracted deep walk.old walk.new (App (function_term function.now) (meant scope.now.value arg.now.term.now)) (closure_term closure)) }
    ensures piece { IfOk result (λ closure. IsPiece closure.piece) }
    ensures fault { IfErr result (λ fault. CannotContract deep walk.old (App (function_term function.now) (meant scope.now.value arg.now.term.now)) fault) }
{
    if walk.steps == 0 {
        return Err(NormFault::Steps);
    }
    let held = hold(alloc, arg, scope)?;
    let measure = held.measure;
    let found = find_occurrences(&function.body, deep);
    let Some(room) = room_after(function.typ, measure, found, walk.room) else {
        return Err(NormFault::Big);
    };
    let scope = scope_with(alloc, &held.closure, measure, &function.scope)?;
    walk.steps -= 1;
    walk.room = room;
    let piece = function.body;
    Ok(Closure { piece, scope })
}

/// How many nodes are left of room when the argument of a redex goes to its occurrences, below the binder's type.
fn room_after(typ: &Typ, arg: Measure, found: Occurrences, room: u32) -> Option<u32>
    requires few { room + 2 + typ_size typ.now + arg.size ≤ 200000 }
    requires shallow { arg.depth ≤ max_depth }
    requires count { found.count ≤ 200000 }
    requires deepest { found.deepest ≤ max_depth }
    ensures { LeavesAfter (room + 2 + typ_size typ.now) found.count found.deepest arg.size arg.depth result }
{
    if found.count > 0 && found.deepest + arg.depth > MAX_DEPTH {
        return None;
    }
    let freed = room + 2 + size_of_typ(typ);
    room_left(freed + arg.size + found.count, found.count, arg.size)
}

/// What is left of room for `all` nodes when so many nodes are put in so often.
fn room_left(all: u32, count: u32, nodes: u32) -> Option<u32>
    requires count { count ≤ 200000 }
    requires nodes { nodes ≤ 200000 }
    ensures { MatchOption result (all < count * nodes) (λ rest. rest + count * nodes ≡ all) }
{
    let added = u64::from(count) * u64::from(nodes);
    if u64::from(all) < added {
        return None;
    }
    Some((u64::from(all) - added) as u32)
}
