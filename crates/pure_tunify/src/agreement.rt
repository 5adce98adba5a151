//! What shows that nodes have values: each agrees with the shape of its class, and what is asked of each class is met.
ghost use Rattle.std.specs.Prelude.{◌≡◌, map, Some};
ghost use Rattle.std.specs.Bool.{OnTrue};
ghost use Rattle.pure_text.specs.Lists.{Each, IsIn, EachTwo};
ghost use Rattle.pure_tunify.specs.Graphs.{Agrees, IsMet};
ghost use Rattle.pure_tunify.specs.GraphCode.{part_of, root_at, shape_at, asked_at, AreSameHeads, AllAgree, AllMet};

use crate::classes::number_at;
use crate::demands::{has_class_below, is_asked};
use crate::graph::Node;
use pure_order::Order;
use pure_typ::{Name, Sort};

/// Whether nodes are of the same classes, each as its fellow.
fn have_same_roots(roots: &[usize], lefts: &[usize], rights: &[usize]) -> bool
    ensures { OnTrue result (map (root_at roots.now) lefts.now ≡ map (root_at roots.now) rights.now) }
{
    if lefts.len() != rights.len() {
        return false;
    }
    for i in 0..lefts.len() {
        if number_at(roots, lefts[i]) != number_at(roots, rights[i]) {
            return false;
        }
    }
    true
}

/// Whether all classes of the sort are asked of the class of nodes.
fn is_sort_asked(asked: &[Vec<Name>], class: usize, sort: &Sort) -> bool
    ensures { OnTrue result (Each (λ c. IsIn c (asked_at asked.now class)) sort.now) }
{
    for own in sort.classes() {
        if !is_asked(asked, class, *own) {
            return false;
        }
    }
    true
}

/// Whether the nodes are one fixed variable, or one constructor with arguments of the same classes.
fn have_same_heads(roots: &[usize], node: &Node, shape: &Node) -> bool
    ensures { OnTrue result (AreSameHeads (root_at roots.now) (part_of node.now) (part_of shape.now)) }
{
    match (node, shape) {
        (
            Node::Fixed { name, sort },
            Node::Fixed {
                name: other,
                sort: own,
            },
        ) => { *name == *other && *sort == *own }
        (
            Node::Made { name, kids },
            Node::Made {
                name: other,
                kids: others,
            },
        ) => { *name == *other && have_same_roots(roots, kids.as_slice(), others.as_slice()) }
        (_, _) => false,
    }
}

/// Whether the node agrees with the shape of its class.
fn agrees(
    nodes: &[Node],
    roots: &[usize],
    shapes: &[usize],
    asked: &[Vec<Name>],
    at: usize,
    node: &Node,
) -> bool
    ensures { OnTrue result (Agrees (root_at roots.now) (asked_at asked.now) (shape_at (map part_of nodes.now) shapes.now (root_at roots.now at)) (root_at roots.now at) (part_of node.now)) }
{
    let root = number_at(roots, at);
    if let Node::Variable { sort, .. } = node {
        return is_sort_asked(asked, root, sort);
    }
    match nodes.get(number_at(shapes, root)) {
        None => false,
        Some(shape) => have_same_heads(roots, node, shape),
    }
}

/// Whether each node agrees with the shape of its class.
pub fn all_agree(nodes: &[Node], roots: &[usize], shapes: &[usize], asked: &[Vec<Name>]) -> bool
    ensures { OnTrue result (AllAgree (map part_of nodes.now) roots.now shapes.now asked.now) }
{
    for at in 0..nodes.len() {
        if !agrees(nodes, roots, shapes, asked, at, &nodes[at]) {
            return false;
        }
    }
    true
}

/// Whether the sorts are asked of the nodes, each of its own.
fn are_sorts_asked(roots: &[usize], asked: &[Vec<Name>], kids: &[usize], domains: &[Sort]) -> bool
    ensures { OnTrue result (EachTwo (λ kid sort. Each (λ d. IsIn d (asked_at asked.now (root_at roots.now kid))) sort) kids.now domains.now) }
{
    if kids.len() != domains.len() {
        return false;
    }
    for i in 0..kids.len() {
        let (kid, domain) = (&kids[i], &domains[i]);
        let root = number_at(roots, *kid);
        if !is_sort_asked(asked, root, domain) {
            return false;
        }
    }
    true
}

/// Whether what a class asks of a shape is met, or asked.
fn is_met(order: &Order, roots: &[usize], asked: &[Vec<Name>], class: Name, shape: &Node) -> bool
    ensures { OnTrue result (IsMet order.now (root_at roots.now) (asked_at asked.now) class (Some (part_of shape.now))) }
{
    match shape {
        Node::Variable { .. } => true,
        Node::Fixed { sort, .. } => has_class_below(order, sort, class),
        Node::Made { name, kids } => {
            let Some(domains) = order.domains(*name, class) else {
                return false;
            };
            let kids = kids.as_slice();
            if !are_sorts_asked(roots, asked, kids, domains) {
                return false;
            }
            true
        }
    }
}

/// Whether all that is asked of a class of nodes is met, or asked.
fn are_met(
    order: &Order,
    nodes: &[Node],
    roots: &[usize],
    shapes: &[usize],
    asked: &[Vec<Name>],
    root: usize,
    classes: &[Name],
) -> bool
    ensures { OnTrue result (Each (λ c. IsMet order.now (root_at roots.now) (asked_at asked.now) c (shape_at (map part_of nodes.now) shapes.now root)) classes.now) }
{
    let Some(shape) = nodes.get(number_at(shapes, root)) else {
        return true;
    };
    for class in classes {
        if !is_met(order, roots, asked, *class, shape) {
            return false;
        }
    }
    true
}

/// Whether all that is asked of classes of nodes is met, or asked.
pub fn all_met(
    order: &Order,
    nodes: &[Node],
    roots: &[usize],
    shapes: &[usize],
    asked: &[Vec<Name>],
) -> bool
    ensures { OnTrue result (AllMet order.now (map part_of nodes.now) roots.now shapes.now asked.now) }
{
    for root in 0..asked.len() {
        let own = &asked[root];
        let classes = own.as_slice();
        if !are_met(order, nodes, roots, shapes, asked, root, classes) {
            return false;
        }
    }
    true
}
