//! The nodes of the graph: the axioms, definitions and lemmas of a table.
ghost use Rattle.std.specs.Prelude.{◌≡◌, ◌++◌, ◌∷◌, [], IfOk, None};
ghost use Rattle.std.specs.List.{filter_map};
ghost use Rattle.pure_statements.specs.Rows.{definition_word};
ghost use Rattle.pure_citations.specs.Nodes as spec;

use crate::heads::{behind, fact_of};
use pure_print::{Row, RowStatus};
use pure_text::Text;
use std::alloc::{AllocError, Global};

/// What a node is: an axiom, a definition, or a lemma that is proved, failed, tainted, or none of these.
#[derive(Clone, Copy)]
pub(crate) enum Kind {
    Axiom,
    Definition,
    Proved,
    Failed,
    Tainted,
    Left,
}

/// A node: what it is, and the full name of its fact.
#[derive(Drop)]
pub(crate) struct Node {
    pub(crate) kind: Kind,
    pub(crate) name: Text,
}

/// The node with this name.
fn make_node(alloc: Global, kind: Kind, name: &[u8]) -> Result<Option<Node>, AllocError>
    ensures { IfOk result (λ node. node ≡ spec.node kind name.now) }
{
    let name = Text::make(alloc, name)?;
    Ok(Some(Node { kind, name }))
}

/// The node of a definition, if the head of its row is one's.
fn definition_node(alloc: Global, head: &[u8]) -> Result<Option<Node>, AllocError>
    ensures { IfOk result (λ node. node ≡ spec.definition_node (spec.behind definition_word head.now)) }
{
    match behind(head, b"definition ") {
        Some(constant) => {
            let full = fact_of(alloc, constant)?;
            make_node(alloc, Kind::Definition, full.as_slice())
        }
        None => Ok(None),
    }
}

/// The node of a row that declares something with this head, if it is an axiom or a definition.
fn declared_node(alloc: Global, head: &[u8]) -> Result<Option<Node>, AllocError>
    ensures { IfOk result (λ node. node ≡ spec.declared_node head.now) }
{
    match behind(head, b"axiom ") {
        Some(name) => make_node(alloc, Kind::Axiom, name),
        None => definition_node(alloc, head),
    }
}

/// The node of the row, if it is one.
fn node_of(alloc: Global, row: &Row) -> Result<Option<Node>, AllocError>
    ensures { IfOk result (λ node. node ≡ spec.node_of row.now) }
{
    let head = row.head.bytes();
    match row.status {
        RowStatus::Declared => declared_node(alloc, head),
        RowStatus::Refused => Ok(None),
        RowStatus::Proved => make_node(alloc, Kind::Proved, head),
        RowStatus::Failed => make_node(alloc, Kind::Failed, head),
        RowStatus::Tainted => make_node(alloc, Kind::Tainted, head),
        RowStatus::Cancelled => make_node(alloc, Kind::Left, head),
        RowStatus::Unsettled => make_node(alloc, Kind::Left, head),
    }
}

/// Puts the node of the row behind the others, if it is one.
fn put_node(alloc: Global, nodes: &mut Vec<Node>, row: &Row) -> Result<(), AllocError>
    ensures { IfOk result (λ _. nodes.new.items ≡ nodes.old.items ++ filter_map spec.node_of (row.now ∷ [])) }
{
    match node_of(alloc, row)? {
        Some(node) => {
            nodes.push(node)?;
            Ok(())
        }
        None => Ok(()),
    }
}

/// The nodes of the rows, in their order.
pub(crate) fn nodes(alloc: Global, rows: &[Row]) -> Result<Vec<Node>, AllocError>
    ensures { IfOk result (λ nodes. nodes.items ≡ spec.nodes_of rows.now) }
{
    let mut nodes = Vec::new(alloc);
    for row in rows {
        put_node(alloc, &mut nodes, row)?;
    }
    Ok(nodes)
}
