//! The classes of types that sorts ask of nodes, and of the arguments of constructors.
ghost use Rattle.std.specs.Prelude.{◌≡◌, ℕ, length, map, IfOk, OnOk, MatchBool, MatchOption, ⊤};
ghost use Rattle.std.specs.Bool.{OnTrue};
ghost use Rattle.pure_text.specs.Lists.{IsIn};
ghost use Rattle.pure_definitions.specs.Types.Typ as tree;
ghost use Rattle.pure_definitions.specs.Types.Typ.{typs_of};
ghost use Rattle.pure_definitions.specs.Types.Order.{Algebra, HasClassBelow, IsOfSort, AreOfSorts};
ghost use Rattle.pure_tunify.specs.Graphs.{Fits, FitsAll};
ghost use Rattle.pure_tunify.specs.GraphCode.{part_of, asked_at, AreDemanded, IsDemanding, IsAsking, AreNeverMet};

use crate::classes::number_at;
use crate::graph::Node;
use pure_order::Order;
use pure_typ::{Name, Sort};
use std::alloc::{AllocError, Global};

/// A class that is asked of a node's value.
#[derive(Clone, Copy)]
struct Demand {
    node: usize,
    class: Name,
}

/// Whether some class of the sort is below the class.
pub fn has_class_below(order: &Order, sort: &Sort, class: Name) -> bool
    ensures { MatchBool result (HasClassBelow order.now sort.now class) (¬ HasClassBelow order.now sort.now class) }
{
    for own in sort.classes() {
        if order.below(*own, class) {
            return true;
        }
    }
    false
}

/// Whether the class is one of these.
fn has_class(classes: &[Name], class: Name) -> bool
    ensures { OnTrue result (IsIn class classes.now) }
{
    for own in classes {
        if *own == class {
            return true;
        }
    }
    false
}

/// Whether the class was asked of the node.
pub fn is_asked(asked: &[Vec<Name>], node: usize, class: Name) -> bool
    ensures { OnTrue result (IsIn class (asked_at asked.now node)) }
{
    let Some(own) = asked.get(node) else {
        return false;
    };
    let classes = own.as_slice();
    if !has_class(classes, class) {
        return false;
    }
    true
}

/// Keeps that the class is asked of the node; false where it is known.
fn note(asked: &mut Vec<Vec<Name>>, node: usize, class: Name) -> Result<bool, AllocError> {
    if is_asked(asked.as_slice(), node, class) {
        return Ok(false);
    }
    if node >= asked.len() {
        return Err(AllocError);
    }
    asked[node].push(class)?;
    Ok(true)
}

/// Adds what a sort asks of a node.
fn demand_sort(work: &mut Vec<Demand>, node: usize, sort: &Sort) -> Result<(), AllocError>
    ensures { OnOk result ((A : Algebra) (v : ℕ → tree.Typ) → AreDemanded A v work.old.items → IsOfSort A (v node) sort.now → AreDemanded A v work.new.items) }
{
    for class in sort.classes() {
        work.push(Demand {
            node,
            class: *class,
        })?;
    }
    Ok(())
}

/// Adds what sorts ask of the arguments of a constructor, each of its own.
fn demand_each(work: &mut Vec<Demand>, kids: &[usize], domains: &[Sort]) -> Result<(), AllocError>
    requires { length kids.now ≡ length domains.now }
    ensures { OnOk result ((A : Algebra) (v : ℕ → tree.Typ) → AreDemanded A v work.old.items → AreOfSorts A (typs_of (map v kids.now)) domains.now → AreDemanded A v work.new.items) }
{
    for i in 0..kids.len() {
        let (kid, domain) = (&kids[i], &domains[i]);
        demand_sort(work, *kid, domain)?;
    }
    Ok(())
}

/// Adds what a class asks of the arguments of a node; false where its value is never of the class.
fn demand_of(
    order: &Order,
    node: &Node,
    class: Name,
    work: &mut Vec<Demand>,
) -> Result<bool, AllocError>
    ensures { IfOk result (IsDemanding order.now (part_of node.now) class work.old.items work.new.items) }
{
    match node {
        Node::Variable { .. } => Ok(true),
        Node::Fixed { sort, .. } => Ok(has_class_below(order, sort, class)),
        Node::Made { name, kids } => {
            let kids = kids.as_slice();
            let Some(domains) = order.domains(*name, class) else {
                return Ok(false);
            };
            if kids.len() != domains.len() {
                return Ok(false);
            }
            demand_each(work, kids, domains)?;
            Ok(true)
        }
    }
}

/// Adds what a class that is asked of a node asks of others, if it wasn't asked before; false where it is never met.
fn ask(
    order: &Order,
    nodes: &[Node],
    roots: &[usize],
    shapes: &[usize],
    asked: &mut Vec<Vec<Name>>,
    work: &mut Vec<Demand>,
    wanted: Demand,
) -> Result<bool, AllocError>
    ensures { IfOk result (IsAsking order.now (map part_of nodes.now) roots.now shapes.now wanted.node wanted.class work.old.items work.new.items) }
{
    let root = number_at(roots, wanted.node);
    let new = note(asked, root, wanted.class)?;
    if !new {
        return Ok(true);
    }
    let shape = number_at(shapes, root);
    let Some(node) = nodes.get(shape) else {
        return Err(AllocError);
    };
    let can = demand_of(order, node, wanted.class, work)?;
    Ok(can)
}

/// Adds what a variable's sort asks of its node.
fn first_demand(work: &mut Vec<Demand>, at: usize, node: &Node) -> Result<(), AllocError>
    ensures { OnOk result ((A : Algebra) (v : ℕ → tree.Typ) → AreDemanded A v work.old.items → Fits A v (part_of node.now) (v at) → AreDemanded A v work.new.items) }
{
    match node {
        Node::Fixed { .. } => Ok(()),
        Node::Variable { sort, .. } => {
            demand_sort(work, at, sort)?;
            Ok(())
        }
        Node::Made { .. } => Ok(()),
    }
}

/// What the sorts of the variables ask of them.
fn first_demands(alloc: Global, nodes: &[Node]) -> Result<Vec<Demand>, AllocError>
    ensures { IfOk result (λ work. (A : Algebra) (v : ℕ → tree.Typ) → FitsAll A (map part_of nodes.now) v → AreDemanded A v work.items) }
{
    let mut work = Vec::new(alloc);
    for at in 0..nodes.len() {
        let node = &nodes[at];
        first_demand(&mut work, at, node)?;
    }
    Ok(work)
}

/// As many empty lists of classes.
fn no_classes(alloc: Global, count: usize) -> Result<Vec<Vec<Name>>, AllocError> {
    let mut lists = Vec::new(alloc);
    for _ in 0..count {
        lists.push(Vec::new(alloc))?;
    }
    Ok(lists)
}

/// The classes that are asked of each class of nodes; none where they are never met.
pub fn asked_classes(
    order: &Order,
    alloc: Global,
    nodes: &[Node],
    roots: &[usize],
    shapes: &[usize],
) -> Result<Option<Vec<Vec<Name>>>, AllocError>
    ensures { IfOk result (λ found. MatchOption found (AreNeverMet order.now (map part_of nodes.now) roots.now shapes.now) (λ _. ⊤)) }
{
    let mut asked = no_classes(alloc, nodes.len())?;
    let mut work = first_demands(alloc, nodes)?;
    for _ in 0..u64::MAX {
        let Some(wanted) = work.pop() else {
            return Ok(Some(asked));
        };
        let can = ask(order, nodes, roots, shapes, &mut asked, &mut work, wanted)?;
        if !can {
            return Ok(None);
        }
    }
    Err(AllocError)
}
