//! The call that unifies.
ghost use Rattle.std.specs.Prelude.{◌≡◌, ◌+◌, ◌<◌, ◌^◌, [], List, IfOk, false};
ghost use Rattle.pure_text.specs.Lists.{Each};
ghost use Rattle.pure_definitions.specs.Declarations.Decl.{algebra_of};
ghost use Rattle.pure_logic.specs.Content.{Content};
ghost use Rattle.pure_unify_definitions.specs.Node as nodes;
ghost use Rattle.pure_unify_definitions.specs.Search as answers;
ghost use Rattle.pure_unify_nodes.specs.SideAnswer.{AreSidesTyped};
ghost use Rattle.pure_unify_steps.specs.Held.{IsNode};
ghost use Rattle.pure_unify_laws.specs.Condition.{IsUnifyContent, AreUnifiable};
ghost use Rattle.pure_unify_answers.specs.Maps.{Solves, IsFiniteUnifier};
ghost use Rattle.pure_unify_nodes.specs.Long.{IsLongPair};
ghost use Rattle.pure_unify_visits.specs.Visited.{IsVisitAnswer, IsLongVisit};
ghost use Rattle.pure_unify.specs.Unified.{seen, IsToldAs, IsUnified, IsLeftOver, UnlessStopped, StopsWhere};
ghost use Rattle.pure_unify.specs.Unsolved.{HaveIndexesUpTo, IsNoFinal};
ghost use Rattle.pure_unify.specs.Frames.{HoldNodes, CanGoOn, IsSimpleVisit};

use crate::clash::fails_at_once;
use crate::fault::UnifyFault;
use crate::own::are_own;
use crate::search::{Search, after_visit, take_turn};
use crate::unifier::Unifier;
use pure_norm::NormFault;
use pure_order::Order;
use pure_theorem::{Pair, copied_pairs};
use pure_unify_steps::{Node, Path};
use pure_unify_visits::{Visited, visit, visit_long};
use pure_watch::{Unwatched, Watch};
use std::alloc::{AllocError, Global};

/// The root: the given pairs.
fn root_of(alloc: Global, pairs: &[Pair]) -> Result<Node, AllocError>
    ensures node { IfOk result (λ held. IsNode held (nodes.root pairs.now)) }
    ensures pairs { IfOk result (λ held. held.pairs.items ≡ pairs.now) }
{
    let pairs = copied_pairs(alloc, pairs)?;
    let path = Path {
        settings: Vec::new(alloc),
        choices: 0,
        fresh: 0,
    };
    Ok(Node { pairs, path })
}

/// A root is visited whose sides are in long form.
fn visit_long_root(
    alloc: Global,
    order: &Order,
    maxidx: u32,
    root: Node,
) -> Result<Visited, NormFault>
    requires long { Each IsLongPair root.pairs.items }
    requires room { maxidx + 66 < 2 ^ 32 }
    ensures answer { (n : nodes.Node) → IsNode root n → IsVisitAnswer order.now maxidx n result }
    ensures long { IfOk result IsLongVisit }
{
    let Node { pairs, path } = root;
    visit_long(alloc, order, maxidx, pairs, path)
}

/// The root is visited.
fn visit_root(
    alloc: Global,
    order: &Order,
    maxidx: u32,
    pairs: &[Pair],
) -> Result<Visited, NormFault>
    requires typed { Each AreSidesTyped pairs.now }
    requires room { maxidx + 66 < 2 ^ 32 }
    ensures answer { IsVisitAnswer order.now maxidx (nodes.root pairs.now) result }
    ensures simple { IfOk result IsSimpleVisit }
{
    let root = root_of(alloc, pairs)?;
    if are_own(pairs) {
        return visit_long_root(alloc, order, maxidx, root);
    }
    visit(alloc, order, maxidx, root)
}

/// What the search answers from here on, or none where the watch breaks it off. The watch is asked before each turn.
fn run<W: Watch>(
    alloc: Global,
    order: &Order,
    maxidx: u32,
    search: Search,
    watch: &W,
) -> Result<Option<Unifier>, UnifyFault>
    requires room { maxidx + 66 < 2 ^ 32 }
    requires go { CanGoOn search }
    ensures answer { (ns : List nodes.Node) → HoldNodes search.frames.items ns → UnlessStopped (IsToldAs (answers.Searches order.now maxidx search.visited search.cut ns)) result }
    ensures left { UnlessStopped (λ found. IfOk found (λ u. Each IsLeftOver u.flexflex.items)) result }
    ensures stopped { StopsWhere (W.may_say watch.now false) result }
{
    let mut search = search;
    for _ in 0..u64::MAX {
        if !watch.goes_on() {
            return Ok(None);
        }
        match take_turn(alloc, order, maxidx, &mut search) {
            Ok(Some(unifier)) => return Ok(Some(unifier)),
            Ok(None) => {}
            Err(fault) => return Err(fault),
        }
    }
    Err(UnifyFault::Memory)
}

/// The unifier of the pairs to which the search comes first, as `unify` answers, or none where the watch breaks the search
/// off. The watch is asked before each node that is visited.
///
/// # Errors
///
/// As in `unify`.
pub fn unify_while<W: Watch>(
    alloc: Global,
    order: &Order,
    pairs: &[Pair],
    maxidx: u32,
    watch: &W,
) -> Result<Option<Unifier>, UnifyFault>
    requires typed { Each AreSidesTyped pairs.now }
    requires room { maxidx + 66 < 2 ^ 32 }
    ensures answer { UnlessStopped (IsUnified order.now maxidx pairs.now) result }
    ensures left { UnlessStopped (λ found. IfOk found (λ u. Each IsLeftOver u.flexflex.items)) result }
    ensures solves { (Q : Content) → IsUnifyContent Q → order.now ≡ algebra_of Q.declarations → AreUnifiable Q maxidx pairs.now → UnlessStopped (λ found. IfOk found (λ u. Solves Q pairs.now (seen u))) result }
    ensures finite { (Q : Content) → IsUnifyContent Q → order.now ≡ algebra_of Q.declarations → AreUnifiable Q maxidx pairs.now → UnlessStopped (λ found. IfOk found (λ u. IsFiniteUnifier Q (seen u))) result }
    ensures unsolved { HaveIndexesUpTo maxidx pairs.now → UnlessStopped (IsNoFinal pairs.now) result }
    ensures stopped { StopsWhere (W.may_say watch.now false) result }
{
    if fails_at_once(pairs) {
        return Err(UnifyFault::NoUnifier);
    }
    if !watch.goes_on() {
        return Ok(None);
    }
    let outcome = visit_root(alloc, order, maxidx, pairs);
    let mut search = Search {
        frames: Vec::new(alloc),
        visited: 1,
        cut: false,
    };
    match after_visit(alloc, maxidx, &mut search, outcome) {
        Ok(Some(unifier)) => Ok(Some(unifier)),
        Ok(None) => run(alloc, order, maxidx, search, watch),
        Err(fault) => Err(fault),
    }
}

/// The unifier of the pairs to which the search comes first: nodes in preorder, imitation before projections (Huet, A
/// unification algorithm for typed lambda-calculus, 1975; Isabelle/Isar Implementation manual, section 4.1). The new
/// variables have indexes above `maxidx`, which is at least each index in the pairs. Why there is none to answer, the fault
/// says; where new variables weren't new, since an index is greater, it may be want of memory. That there is no unifier is final:
/// nothing solves the pairs.
pub fn unify(
    alloc: Global,
    order: &Order,
    pairs: &[Pair],
    maxidx: u32,
) -> Result<Unifier, UnifyFault>
    requires typed { Each AreSidesTyped pairs.now }
    requires room { maxidx + 66 < 2 ^ 32 }
    ensures answer { IsUnified order.now maxidx pairs.now result }
    ensures left { IfOk result (λ u. Each IsLeftOver u.flexflex.items) }
    ensures solves { (Q : Content) → IsUnifyContent Q → order.now ≡ algebra_of Q.declarations → AreUnifiable Q maxidx pairs.now → IfOk result (λ u. Solves Q pairs.now (seen u)) }
    ensures finite { (Q : Content) → IsUnifyContent Q → order.now ≡ algebra_of Q.declarations → AreUnifiable Q maxidx pairs.now → IfOk result (λ u. IsFiniteUnifier Q (seen u)) }
    ensures unsolved { HaveIndexesUpTo maxidx pairs.now → IsNoFinal pairs.now result }
{
    match unify_while(alloc, order, pairs, maxidx, &Unwatched) {
        Ok(Some(unifier)) => Ok(unifier),
        Ok(None) => unreachable!(),
        Err(fault) => Err(fault),
    }
}
