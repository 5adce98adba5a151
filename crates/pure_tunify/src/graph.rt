//! Types as nodes with numbers, in which equal parts are one node.
ghost use Rattle.std.specs.Prelude.{◌≡◌, [], map, slice_get, Some, IfOk, IfSome};
ghost use Rattle.std.specs.Bool.{OnTrue};
ghost use Rattle.pure_tunify.specs.Graphs.{StandsFor, StandForEach, made};
ghost use Rattle.pure_definitions.specs.Types.Typ as tree;
ghost use Rattle.pure_definitions.specs.Types.Typ.{typs_of};
ghost use Rattle.pure_tunify.specs.GraphCode.{part_of, IsLeafOf, IsPut, IsMadeAt, IsAdded};

use pure_typ::{Name, Sort, Typ, TypNode, whole_size_of_typ};
use std::alloc::{AllocError, Global};
use std::collections::BTreeMap;

/// A fixed type variable, a schematic one, or a constructor with the numbers of its arguments' nodes.
#[derive(Drop)]
pub enum Node {
    Fixed { name: Name, sort: Sort },
    Variable { name: Name, index: u32, sort: Sort },
    Made { name: Name, kids: Vec<usize> },
}

/// Nodes, and where they are found: the numbers of variables, and of constructors by their names and arguments; and of each
/// size the number of the type of this size that was added last.
#[derive(Drop)]
pub struct Graph {
    pub nodes: Vec<Node>,
    pub leaves: BTreeMap<Typ, usize>,
    pub made: BTreeMap<Vec<usize>, usize>,
    pub sized: BTreeMap<u64, usize>,
}

/// A graph without nodes.
pub fn empty_graph(alloc: Global) -> Graph
    ensures { result.nodes.items ≡ [] }
{
    Graph {
        nodes: Vec::new(alloc),
        leaves: BTreeMap::new(alloc),
        made: BTreeMap::new(alloc),
        sized: BTreeMap::new(alloc),
    }
}

/// Whether the node is the variable.
fn is_leaf(node: &Node, t: &Typ) -> bool
    ensures { OnTrue result (IsLeafOf (part_of node.now) t.now) }
{
    match (node, &t.node) {
        (
            Node::Fixed { name, sort },
            TypNode::TFree {
                name: own,
                sort: other,
            },
        ) => { *name == *own && *sort == *other }
        (
            Node::Variable { name, index, sort },
            TypNode::TVar {
                name: own,
                index: number,
                sort: other,
            },
        ) => *name == *own && *index == *number && *sort == *other,
        (_, _) => false,
    }
}

/// The number of the variable's node, where it is known.
fn find_leaf(graph: &Graph, t: &Typ) -> Option<usize>
    ensures { IfSome result (λ i. StandsFor (map part_of graph.now.nodes.items) i t.now) }
{
    let Some(found) = graph.leaves.get(t) else {
        return None;
    };
    let at = *found;
    match graph.nodes.as_slice().get(at) {
        None => None,
        Some(node) => {
            if is_leaf(node, t) {
                return Some(at);
            }
            None
        }
    }
}

/// Puts one more node behind the others.
fn put(graph: &mut Graph, node: Node) -> Result<usize, AllocError>
    ensures { IfOk result (IsPut (map part_of graph.old.nodes.items) (map part_of graph.new.nodes.items) (part_of node)) }
{
    let at = graph.nodes.len();
    graph.nodes.push(node)?;
    Ok(at)
}

/// Puts the node of a variable, which isn't known yet.
fn put_leaf(graph: &mut Graph, alloc: Global, t: &Typ, node: Node) -> Result<usize, AllocError>
    requires { IsLeafOf (part_of node) t.now }
    ensures { IfOk result (IsAdded (map part_of graph.old.nodes.items) (map part_of graph.new.nodes.items) t.now) }
{
    let at = put(graph, node)?;
    let key = t.copy(alloc)?;
    graph.leaves.insert(key, at)?;
    Ok(at)
}

/// The number of the fixed variable.
fn add_fixed(
    graph: &mut Graph,
    alloc: Global,
    t: &Typ,
    name: Name,
    sort: &Sort,
) -> Result<usize, AllocError>
    requires { t.now ≡ tree.TFree name sort.now }
    ensures { IfOk result (IsAdded (map part_of graph.old.nodes.items) (map part_of graph.new.nodes.items) t.now) }
{
    if let Some(at) = find_leaf(graph, t) {
        return Ok(at);
    }
    let sort = sort.copy(alloc)?;
    put_leaf(graph, alloc, t, Node::Fixed { name, sort })
}

/// The number of the schematic variable.
fn add_variable(
    graph: &mut Graph,
    alloc: Global,
    t: &Typ,
    name: Name,
    index: u32,
    sort: &Sort,
) -> Result<usize, AllocError>
    requires { t.now ≡ tree.TVar name index sort.now }
    ensures { IfOk result (IsAdded (map part_of graph.old.nodes.items) (map part_of graph.new.nodes.items) t.now) }
{
    if let Some(at) = find_leaf(graph, t) {
        return Ok(at);
    }
    let sort = sort.copy(alloc)?;
    put_leaf(graph, alloc, t, Node::Variable { name, index, sort })
}

/// What the constructor with these arguments is found by.
fn key_of(alloc: Global, name: Name, kids: &[usize]) -> Result<Vec<usize>, AllocError> {
    let mut key = Vec::new(alloc);
    key.push(name.0 as usize)?;
    for kid in kids {
        key.push(*kid)?;
    }
    Ok(key)
}

/// Whether the node is the constructor with these arguments.
fn is_made(node: &Node, name: Name, kids: &[usize]) -> bool
    ensures { OnTrue result (part_of node.now ≡ made name kids.now) }
{
    match node {
        Node::Fixed { .. } => false,
        Node::Variable { .. } => false,
        Node::Made {
            name: own,
            kids: others,
        } => *own == name && others.as_slice() == kids,
    }
}

/// The number of the constructor with these arguments, where it is known.
fn find_made(graph: &Graph, key: &Vec<usize>, name: Name, kids: &[usize]) -> Option<usize>
    ensures { IfSome result (λ i. slice_get (map part_of graph.now.nodes.items) i ≡ Some (made name kids.now)) }
{
    let Some(found) = graph.made.get(key) else {
        return None;
    };
    let at = *found;
    match graph.nodes.as_slice().get(at) {
        None => None,
        Some(node) => {
            if is_made(node, name, kids) {
                return Some(at);
            }
            None
        }
    }
}

/// The number of the constructor with these arguments.
fn add_made(
    graph: &mut Graph,
    alloc: Global,
    name: Name,
    kids: Vec<usize>,
) -> Result<usize, AllocError>
    ensures { IfOk result (IsMadeAt (map part_of graph.old.nodes.items) (map part_of graph.new.nodes.items) name kids.items) }
{
    let key = key_of(alloc, name, kids.as_slice())?;
    if let Some(at) = find_made(graph, &key, name, kids.as_slice()) {
        return Ok(at);
    }
    let at = put(graph, Node::Made { name, kids })?;
    graph.made.insert(key, at)?;
    Ok(at)
}

/// The same of one whose type has so many nodes.
fn add_sized(
    graph: &mut Graph,
    alloc: Global,
    name: Name,
    kids: Vec<usize>,
    size: u64,
) -> Result<usize, AllocError>
    ensures { IfOk result (IsMadeAt (map part_of graph.old.nodes.items) (map part_of graph.new.nodes.items) name kids.items) }
{
    let at = add_made(graph, alloc, name, kids)?;
    graph.sized.insert(size, at)?;
    Ok(at)
}

/// Whether the node stands for the type.
#[cycle(stands_for)]
fn stands_for(nodes: &[Node], at: usize, t: &Typ) -> bool
    ensures { OnTrue result (StandsFor (map part_of nodes.now) at t.now) }
{
    let Some(node) = nodes.get(at) else {
        return false;
    };
    match (node, &t.node) {
        (Node::Made { name, kids }, TypNode::Con { name: own, args }) => {
            if *name != *own {
                return false;
            }
            stand_for_each(nodes, kids.as_slice(), args.as_slice())
        }
        (_, _) => is_leaf(node, t),
    }
}

/// Whether the nodes stand for the types, each for its own.
#[cycle(stands_for)]
fn stand_for_each(nodes: &[Node], kids: &[usize], types: &[Typ]) -> bool
    ensures { OnTrue result (StandForEach (map part_of nodes.now) kids.now (typs_of types.now)) }
{
    if kids.len() != types.len() {
        return false;
    }
    for i in 0..types.len() {
        let (kid, typ) = (&kids[i], &types[i]);
        if !stands_for(nodes, *kid, typ) {
            return false;
        }
    }
    true
}

/// The number of the type that was added last of this size, where it is this type: so what one image is put in for is added
/// once, however often it stands there.
fn find_sized(graph: &Graph, t: &Typ, size: u64) -> Option<usize>
    ensures { IfSome result (λ i. StandsFor (map part_of graph.now.nodes.items) i t.now) }
{
    let Some(found) = graph.sized.get(&size) else {
        return None;
    };
    let at = *found;
    if stands_for(graph.nodes.as_slice(), at, t) {
        return Some(at);
    }
    None
}

/// The number of the type's node. Its parts have nodes before it.
pub fn add(graph: &mut Graph, alloc: Global, t: &Typ) -> Result<usize, AllocError>
    ensures { IfOk result (IsAdded (map part_of graph.old.nodes.items) (map part_of graph.new.nodes.items) t.now) }
{
    match &t.node {
        TypNode::TFree { name, sort } => add_fixed(graph, alloc, t, *name, sort),
        TypNode::TVar { name, index, sort } => {
            add_variable(graph, alloc, t, *name, *index, sort)
        }
        TypNode::Con { name, args } => {
            let size = whole_size_of_typ(t);
            if let Some(at) = find_sized(graph, t, size) {
                return Ok(at);
            }
            let args = args.as_slice();
            let mut kids = Vec::new(alloc);
            for arg in args {
                let kid = add(graph, alloc, arg)?;
                kids.push(kid)?;
            }
            add_sized(graph, alloc, *name, kids, size)
        }
    }
}
