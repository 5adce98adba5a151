//! Nodes that have one value wherever two given ones have: the least such classes.
ghost use Rattle.std.specs.Prelude.{◌≡◌, ℕ, length, get_or, map, IfOk, OnOk, MatchOption};
ghost use Rattle.pure_definitions.specs.Types.Order.{Algebra};
ghost use Rattle.pure_tunify.specs.Graphs.{FitsAll};
ghost use Rattle.pure_definitions.specs.Types.Typ as tree;
ghost use Rattle.pure_tunify.specs.GraphCode.{part_of, KeepsValues, AreCoupled, IsKept, AreNodesMet, AreJoined, AreClosed};

use crate::graph::Node;
use std::alloc::{AllocError, Global};

/// Two nodes that are to have one value.
#[derive(Clone, Copy)]
pub struct Couple {
    pub left: usize,
    pub right: usize,
}

/// With each node one of its class that isn't greater, the root's being itself; with each root a node of its class that is no
/// variable, if one was found; and the couples that are left.
#[derive(Drop)]
pub struct Classes {
    pub parent: Vec<usize>,
    pub shape: Vec<usize>,
    pub work: Vec<Couple>,
}

/// The number at a place, and past the end the place itself.
pub fn number_at(numbers: &[usize], at: usize) -> usize
    ensures { result ≡ get_or numbers.now at at }
{
    match numbers.get(at) {
        None => at,
        Some(number) => *number,
    }
}

/// Writes a number at a place.
fn set_at(numbers: &mut Vec<usize>, at: usize, to: usize)
    ensures { (v : ℕ → tree.Typ) → KeepsValues v numbers.old.items → v at ≡ v to → KeepsValues v numbers.new.items }
{
    if at < numbers.len() {
        numbers[at] = to;
    }
}

/// The root of a node's class. The way to it is made shorter.
fn root(parent: &mut Vec<usize>, start: usize) -> usize
    ensures { (v : ℕ → tree.Typ) → KeepsValues v parent.old.items → KeepsValues v parent.new.items × (v start ≡ v result) }
{
    let mut at = start;
    loop {
        let next = number_at(parent.as_slice(), at);
        if next >= at {
            return at;
        }
        let over = number_at(parent.as_slice(), next);
        if over >= next {
            return next;
        }
        set_at(parent, at, over);
        at = over;
    }
}

/// Whether the node is a schematic variable.
fn is_variable_at(nodes: &[Node], at: usize) -> bool {
    match nodes.get(at) {
        None => true,
        Some(Node::Fixed { .. }) => false,
        Some(Node::Variable { .. }) => true,
        Some(Node::Made { .. }) => false,
    }
}

/// Adds the couples of arguments.
fn couple_each(work: &mut Vec<Couple>, lefts: &[usize], rights: &[usize]) -> Result<(), AllocError>
    requires { length lefts.now ≡ length rights.now }
    ensures { OnOk result ((v : ℕ → tree.Typ) → AreCoupled v work.old.items → map v lefts.now ≡ map v rights.now → AreCoupled v work.new.items) }
{
    for i in 0..lefts.len() {
        let (left, right) = (&lefts[i], &rights[i]);
        work.push(Couple {
            left: *left,
            right: *right,
        })?;
    }
    Ok(())
}

/// Adds the couples of arguments of two constructors; false where they never have one value.
fn meet(left: &Node, right: &Node, work: &mut Vec<Couple>) -> Result<bool, AllocError>
    ensures { IfOk result (AreNodesMet (part_of left.now) (part_of right.now) work.old.items work.new.items) }
{
    match (left, right) {
        (
            Node::Made { name, kids },
            Node::Made {
                name: other,
                kids: others,
            },
        ) => {
            if *name != *other {
                return Ok(false);
            }
            let (kids, others) = (kids.as_slice(), others.as_slice());
            if kids.len() != others.len() {
                return Ok(false);
            }
            couple_each(work, kids, others)?;
            Ok(true)
        }
        (
            Node::Fixed { name, sort },
            Node::Fixed {
                name: other,
                sort: own,
            },
        ) => { Ok(*name == *other && *sort == *own) }
        (Node::Fixed { .. }, Node::Made { .. }) => Ok(false),
        (Node::Made { .. }, Node::Fixed { .. }) => Ok(false),
        (Node::Variable { .. }, _) => Ok(true),
        (_, Node::Variable { .. }) => Ok(true),
    }
}

/// Takes the second node as a class's shape, where the first one is a schematic variable.
fn choose(nodes: &[Node], shape: &mut Vec<usize>, class: usize, first: usize, second: usize)
    ensures { (v : ℕ → tree.Typ) → KeepsValues v shape.old.items → v class ≡ v second → KeepsValues v shape.new.items }
{
    if is_variable_at(nodes, first) {
        set_at(shape, class, second);
    }
}

/// Makes two classes one, and adds the couples of their shapes' arguments; false where they never have one value.
fn unite(nodes: &[Node], classes: &mut Classes, low: usize, high: usize) -> Result<bool, AllocError>
    ensures { IfOk result (AreJoined (map part_of nodes.now) classes.old classes.new low high) }
{
    let first = number_at(classes.shape.as_slice(), low);
    let second = number_at(classes.shape.as_slice(), high);
    set_at(&mut classes.parent, high, low);
    choose(nodes, &mut classes.shape, low, first, second);
    let Some(left) = nodes.get(first) else {
        return Err(AllocError);
    };
    let Some(right) = nodes.get(second) else {
        return Err(AllocError);
    };
    let can = meet(left, right, &mut classes.work)?;
    Ok(can)
}

/// Makes the classes of two nodes one; false where they never have one value.
fn join(nodes: &[Node], classes: &mut Classes, couple: Couple) -> Result<bool, AllocError>
    ensures { IfOk result (AreJoined (map part_of nodes.now) classes.old classes.new couple.left couple.right) }
{
    let left = root(&mut classes.parent, couple.left);
    let right = root(&mut classes.parent, couple.right);
    if left == right {
        return Ok(true);
    }
    if left < right {
        let can = unite(nodes, classes, left, right)?;
        return Ok(can);
    }
    let can = unite(nodes, classes, right, left)?;
    Ok(can)
}

/// Makes the nodes of all couples that are left one; false where they never have one value.
fn close(nodes: &[Node], classes: &mut Classes) -> Result<bool, AllocError>
    ensures { IfOk result (AreClosed (map part_of nodes.now) classes.old classes.new) }
{
    for _ in 0..u64::MAX {
        let Some(couple) = classes.work.pop() else {
            return Ok(true);
        };
        let can = join(nodes, classes, couple)?;
        if !can {
            return Ok(false);
        }
    }
    Err(AllocError)
}

/// The numbers below a count.
fn numbers(alloc: Global, count: usize) -> Result<Vec<usize>, AllocError>
    ensures { IfOk result (λ xs. (v : ℕ → tree.Typ) → KeepsValues v xs.items) }
{
    let mut xs = Vec::new(alloc);
    for i in 0..count {
        xs.push(i)?;
    }
    Ok(xs)
}

/// Writes the root of each node behind it.
fn flatten(parent: &mut Vec<usize>)
    ensures { (v : ℕ → tree.Typ) → KeepsValues v parent.old.items → KeepsValues v parent.new.items }
{
    for at in 0..parent.len() {
        let top = root(parent, at);
        set_at(parent, at, top);
    }
}

/// Each node alone, and these to have one value.
fn start(alloc: Global, count: usize, left: usize, right: usize) -> Result<Classes, AllocError>
    ensures { IfOk result (λ classes. (v : ℕ → tree.Typ) → v left ≡ v right → IsKept v classes) }
{
    let parent = numbers(alloc, count)?;
    let shape = numbers(alloc, count)?;
    let mut work = Vec::new(alloc);
    work.push(Couple { left, right })?;
    Ok(Classes {
        parent,
        shape,
        work,
    })
}

/// The classes in which two nodes have one value, with the root of each node behind it; none where they never have.
pub fn classes_of(
    alloc: Global,
    nodes: &[Node],
    left: usize,
    right: usize,
) -> Result<Option<Classes>, AllocError>
    ensures { IfOk result (λ found. (A : Algebra) (v : ℕ → tree.Typ) → FitsAll A (map part_of nodes.now) v → v left ≡ v right → MatchOption found ⊥ (IsKept v)) }
{
    let mut classes = start(alloc, nodes.len(), left, right)?;
    let can = close(nodes, &mut classes)?;
    if !can {
        return Ok(None);
    }
    flatten(&mut classes.parent);
    Ok(Some(classes))
}
