//! Whether two types have a unifier, found out with no type written out.
ghost use Rattle.std.specs.Prelude.{[], ◌∷◌, map, IfOk, MatchBool};
ghost use Rattle.std.specs.Bool.{OnTrue};
ghost use Rattle.pure_tunify.specs.GraphCode.{part_of, root_at, shape_at, rank_at, asked_at, IsKnownAt, AreOne, AreCertain, AreNeverMet, HaveOneValue, NeverHaveOneValue};
ghost use Rattle.pure_tunify.specs.Graphs.{IsClosed};
ghost use Rattle.pure_tunify.specs.Unifiers.{HasUnifier, HasNoUnifier};
ghost use Rattle.pure_tunify.specs.Steps.{pair};

use crate::agreement::{all_agree, all_met};
use crate::classes::{classes_of, number_at};
use crate::demands::asked_classes;
use crate::graph::{Graph, Node, add, empty_graph};
use crate::ranks::{are_circular, are_ranked, ranks_of, spread_ranks};
use pure_order::Order;
use pure_typ::{Name, Typ, TypNode};
use std::alloc::{AllocError, Global};

/// Whether the variable is found at a node of this class.
fn is_known(
    graph: &Graph,
    alloc: Global,
    roots: &[usize],
    at: usize,
    node: &Node,
) -> Result<bool, AllocError>
    ensures { IfOk result (λ known. OnTrue known (IsKnownAt graph.now.leaves roots.now at (part_of node.now))) }
{
    let Node::Variable { name, index, sort } = node else {
        return Ok(true);
    };
    let sort = sort.copy(alloc)?;
    let (name, index) = (*name, *index);
    let variable = Typ {
        node: TypNode::TVar { name, index, sort },
    };
    match graph.leaves.get(&variable) {
        None => Ok(false),
        Some(first) => Ok(number_at(roots, *first) == number_at(roots, at)),
    }
}

/// Whether the nodes of one variable are of one class.
fn are_one(graph: &Graph, alloc: Global, roots: &[usize]) -> Result<bool, AllocError>
    ensures { IfOk result (λ one. OnTrue one (AreOne (map part_of graph.now.nodes.items) (root_at roots.now))) }
{
    let nodes = graph.nodes.as_slice();
    for at in 0..nodes.len() {
        let known = is_known(graph, alloc, roots, at, &nodes[at])?;
        if !known {
            return Ok(false);
        }
    }
    Ok(true)
}

/// Whether what was found of the nodes shows that they have values.
fn is_closed(
    order: &Order,
    nodes: &[Node],
    roots: &[usize],
    shapes: &[usize],
    ranks: &[usize],
    asked: &[Vec<Name>],
) -> bool
    ensures { OnTrue result (IsClosed order.now (map part_of nodes.now) (root_at roots.now) (shape_at (map part_of nodes.now) shapes.now) (rank_at ranks.now) (asked_at asked.now)) }
{
    if !are_ranked(nodes, roots, shapes, ranks) {
        return false;
    }
    if !all_agree(nodes, roots, shapes, asked) {
        return false;
    }
    if !all_met(order, nodes, roots, shapes, asked) {
        return false;
    }
    true
}

/// Whether the nodes have values, one for each class.
fn have_values(
    order: &Order,
    alloc: Global,
    graph: &Graph,
    roots: &[usize],
    shapes: &[usize],
    asked: &[Vec<Name>],
) -> Result<bool, AllocError>
    ensures { IfOk result (λ can. MatchBool can
        (AreCertain order.now (map part_of graph.now.nodes.items) roots.now shapes.now)
        (AreNeverMet order.now (map part_of graph.now.nodes.items) roots.now shapes.now)) }
{
    let nodes = graph.nodes.as_slice();
    let mut ranks = ranks_of(alloc, nodes, roots, shapes)?;
    if are_circular(nodes, roots, shapes, ranks.as_slice()) {
        return Ok(false);
    }
    spread_ranks(&mut ranks, roots);
    let one = are_one(graph, alloc, roots)?;
    if !one {
        return Err(AllocError);
    }
    let ranks = ranks.as_slice();
    if !is_closed(order, nodes, roots, shapes, ranks, asked) {
        return Err(AllocError);
    }
    Ok(true)
}

/// The same of nodes in classes, for which it isn't known yet what is asked of them.
fn have_sorted_values(
    order: &Order,
    alloc: Global,
    graph: &Graph,
    roots: &[usize],
    shapes: &[usize],
) -> Result<bool, AllocError>
    ensures { IfOk result (λ can. MatchBool can
        (AreCertain order.now (map part_of graph.now.nodes.items) roots.now shapes.now)
        (AreNeverMet order.now (map part_of graph.now.nodes.items) roots.now shapes.now)) }
{
    let nodes = graph.nodes.as_slice();
    let found = asked_classes(order, alloc, nodes, roots, shapes)?;
    let Some(asked) = found else {
        return Ok(false);
    };
    let can = have_values(order, alloc, graph, roots, shapes, asked.as_slice())?;
    Ok(can)
}

/// Whether the nodes have values, and these two the same.
fn have_one_value(
    order: &Order,
    alloc: Global,
    graph: &Graph,
    left: usize,
    right: usize,
) -> Result<bool, AllocError>
    ensures { IfOk result (λ can. MatchBool can (HaveOneValue order.now (map part_of graph.now.nodes.items) left right) (NeverHaveOneValue order.now (map part_of graph.now.nodes.items) left right)) }
{
    let nodes = graph.nodes.as_slice();
    let found = classes_of(alloc, nodes, left, right)?;
    let Some(classes) = found else {
        return Ok(false);
    };
    let roots = classes.parent.as_slice();
    let shapes = classes.shape.as_slice();
    let can = have_sorted_values(order, alloc, graph, roots, shapes)?;
    if !can {
        return Ok(false);
    }
    let first = number_at(roots, left);
    let second = number_at(roots, right);
    if first != second {
        return Err(AllocError);
    }
    Ok(true)
}

/// Whether two types have a unifier.
pub fn is_unifiable(
    order: &Order,
    alloc: Global,
    left: &Typ,
    right: &Typ,
) -> Result<bool, AllocError>
    ensures { IfOk result (λ can. MatchBool can (HasUnifier order.now (pair left.now right.now ∷ [])) (HasNoUnifier order.now (pair left.now right.now ∷ []))) }
{
    let mut graph = empty_graph(alloc);
    let first = add(&mut graph, alloc, left)?;
    let second = add(&mut graph, alloc, right)?;
    let can = have_one_value(order, alloc, &graph, first, second)?;
    Ok(can)
}
