//! Lines of the graph: theories with their nodes, and edges.
ghost use Rattle.std.specs.Prelude.{◌≡◌, ◌↔◌, ◌<◌, ◌≤◌, ◌+◌, ◌-◌, ◌/◌, ◌%◌, ◌++◌, ◌∷◌, [], ℕ, IsTrue, take, drop, length, get_or, IfOk, OnOk};
ghost use Rattle.std.specs.List.{flat_map};
ghost use Rattle.pure_order_tables.specs.Rows.{Holds};
ghost use Rattle.pure_promise_fates.specs.Reach.{IsAt};
ghost use Rattle.pure_citations.specs.Drawn as spec;
ghost use Rattle.pure_citations.specs.Drawn.{cluster, edge_line, node_line, quoted, HasName};
ghost use Rattle.pure_citations.specs.Heads.{IsPut, IsPutOf};
ghost use Rattle.pure_citations.specs.declared.nodes.Node as node;

use crate::heads::behind;
use crate::nodes::{Kind, Node};
use crate::rows::holds;
use pure_text::Text;
use pure_typ::Names;
use std::alloc::{AllocError, Global};

/// Puts a name in double quotes behind the text.
fn put_quoted(text: &mut Vec<u8>, name: &[u8]) -> Result<(), AllocError>
    ensures { IfOk result (λ _. text.new.items ≡ text.old.items ++ quoted name.now) }
{
    text.push(b'"')?;
    text.extend_from_slice(name)?;
    text.push(b'"')?;
    Ok(())
}

/// How a node is drawn, as its attributes say behind its name.
#[tactic(auto, unfolding(crate::specs::Drawn::drawn_as))]
fn drawn_as(kind: Kind) -> &'static [u8]
    ensures { result.now ≡ spec.drawn_as kind }
{
    match kind {
        Kind::Axiom => b" [shape=box];\n",
        Kind::Definition => b" [shape=box, style=rounded];\n",
        Kind::Proved => b";\n",
        Kind::Failed => b" [color=red];\n",
        Kind::Tainted => b" [color=orange];\n",
        Kind::Left => b" [color=gray];\n",
    }
}

/// Puts the line of the node behind the text.
fn put_node_line(text: &mut Vec<u8>, node: &Node) -> Result<(), AllocError>
    ensures { IfOk result (λ _. text.new.items ≡ text.old.items ++ node_line node.now) }
{
    put_quoted(text, node.name.bytes())?;
    text.extend_from_slice(drawn_as(node.kind))?;
    Ok(())
}

/// The same where the node's name begins so, and else nothing.
fn put_if_in(text: &mut Vec<u8>, beginning: &[u8], node: &Node) -> Result<(), AllocError>
    ensures { IfOk result (λ _. text.new.items ≡ text.old.items ++ spec.line_behind beginning.now node.now) }
{
    match behind(node.name.bytes(), beginning) {
        Some(_) => {
            put_node_line(text, node)?;
            Ok(())
        }
        None => Ok(()),
    }
}

/// The same of all nodes.
fn put_all_in(text: &mut Vec<u8>, beginning: &[u8], nodes: &[Node]) -> Result<(), AllocError>
    ensures { IfOk result (λ _. text.new.items ≡ text.old.items ++ flat_map (spec.line_behind beginning.now) nodes.now) }
{
    for node in nodes {
        put_if_in(text, beginning, node)?;
    }
    Ok(())
}

/// With what the full names of a theory begin.
fn beginning_of(alloc: Global, theory: &[u8]) -> Result<Vec<u8>, AllocError>
    ensures { IfOk result (λ beginning. beginning.items ≡ theory.now ++ 46 ∷ []) }
{
    let mut beginning = Vec::from_slice(alloc, theory)?;
    beginning.push(b'.')?;
    Ok(beginning)
}

/// Puts what stands before a theory's name behind the text.
#[tactic(auto, unfolding(crate::specs::Drawn::cluster_word))]
fn put_cluster_word(text: &mut Vec<u8>) -> Result<(), AllocError>
    ensures { IfOk result (λ _. text.new.items ≡ text.old.items ++ spec.cluster_word) }
{
    text.extend_from_slice(b"subgraph \"cluster_")?;
    Ok(())
}

/// Puts what stands behind a theory's name behind the text.
#[tactic(auto, unfolding(crate::specs::Drawn::label_word))]
fn put_label_word(text: &mut Vec<u8>) -> Result<(), AllocError>
    ensures { IfOk result (λ _. text.new.items ≡ text.old.items ++ spec.label_word) }
{
    text.extend_from_slice(b"\" {\nlabel=")?;
    Ok(())
}

/// Puts how the cluster of a theory begins behind the text.
fn put_title(text: &mut Vec<u8>, theory: &[u8]) -> Result<(), AllocError>
    ensures { IfOk result (λ _. text.new.items ≡ text.old.items ++ spec.cluster_title theory.now) }
{
    put_cluster_word(text)?;
    text.extend_from_slice(theory)?;
    put_label_word(text)?;
    Ok(())
}

/// Puts the label of a theory's cluster behind the text.
#[tactic(auto, unfolding(crate::specs::Drawn::label_end))]
fn put_label(text: &mut Vec<u8>, theory: &[u8]) -> Result<(), AllocError>
    ensures { IfOk result (λ _. text.new.items ≡ text.old.items ++ spec.cluster_label theory.now) }
{
    put_quoted(text, theory)?;
    text.extend_from_slice(b";\n")?;
    Ok(())
}

/// Puts what stands before the nodes of a theory behind the text.
fn put_head(text: &mut Vec<u8>, theory: &[u8]) -> Result<(), AllocError>
    ensures { IfOk result (λ _. text.new.items ≡ text.old.items ++ spec.cluster_head theory.now) }
{
    put_title(text, theory)?;
    put_label(text, theory)?;
    Ok(())
}

/// Puts what stands behind the nodes of a theory, and at the end, behind the text.
#[tactic(auto, unfolding(crate::specs::Drawn::closing))]
pub(crate) fn put_closing(text: &mut Vec<u8>) -> Result<(), AllocError>
    ensures { IfOk result (λ _. text.new.items ≡ text.old.items ++ spec.closing) }
{
    text.extend_from_slice(b"}\n")?;
    Ok(())
}

/// Puts the first line behind the text.
#[tactic(auto, unfolding(crate::specs::Drawn::opening))]
pub(crate) fn put_opening(text: &mut Vec<u8>) -> Result<(), AllocError>
    ensures { IfOk result (λ _. text.new.items ≡ text.old.items ++ spec.opening) }
{
    text.extend_from_slice(b"digraph session {\n")?;
    Ok(())
}

/// Puts the theory with its nodes behind the text.
fn put_cluster(
    alloc: Global,
    text: &mut Vec<u8>,
    nodes: &[Node],
    theory: &[u8],
) -> Result<(), AllocError>
    ensures { IfOk result (λ _. text.new.items ≡ text.old.items ++ cluster nodes.now theory.now) }
{
    let beginning = beginning_of(alloc, theory)?;
    put_head(text, theory)?;
    put_all_in(text, beginning.as_slice(), nodes)?;
    put_closing(text)?;
    Ok(())
}

/// The same of all theories.
pub(crate) fn put_clusters(
    alloc: Global,
    text: &mut Vec<u8>,
    nodes: &[Node],
    theories: &[Text],
) -> Result<(), AllocError>
    ensures { IfOk result (λ _. text.new.items ≡ text.old.items ++ flat_map (cluster nodes.now) theories.now) }
{
    for theory in theories {
        put_cluster(alloc, text, nodes, theory.bytes())?;
    }
    Ok(())
}

/// Puts the line of an edge behind the text.
#[tactic(auto, unfolding(crate::specs::Drawn::arrow, crate::specs::Drawn::label_end))]
fn put_edge(text: &mut Vec<u8>, from: &[u8], node: &Node) -> Result<(), AllocError>
    ensures { IfOk result (λ _. text.new.items ≡ text.old.items ++ edge_line from.now node.now) }
{
    put_quoted(text, from)?;
    text.extend_from_slice(b" -> ")?;
    put_quoted(text, node.name.bytes())?;
    text.extend_from_slice(b";\n")?;
    Ok(())
}

/// The word at the place, and 0 behind the end.
fn word_at(held: &[u64], place: usize) -> u64
    ensures { result ≡ get_or held.now place 0 }
{
    if place < held.len() { held[place] } else { 0 }
}

/// Whether the word at the place has no bits.
fn is_empty(held: &[u64], place: usize) -> bool
    ensures { IsTrue result → get_or held.now place 0 ≡ 0 }
{
    word_at(held, place) == 0
}

/// Whether a word begins at the place.
fn is_first(place: usize) -> bool
    ensures { IsTrue result → place % 64 ≡ 0 }
{
    place % 64 == 0
}

/// Whether the set holds none of the 64 places from this one on, which begin a word.
fn is_clear(held: &[u64], place: usize) -> bool
    ensures { IsTrue result → ((q : ℕ) → place ≤ q → q < place + 64 → ¬ Holds held.now q) }
{
    if is_first(place) {
        return is_empty(held, place / 64);
    }
    false
}

/// The place behind a word.
fn behind_word(place: usize) -> Result<usize, AllocError>
    ensures { IfOk result (λ next. next ≡ place + 64) }
{
    place.checked_add(64).ok_or(AllocError)
}

/// Puts the edge to the node at the place behind the text, where the set holds the place.
fn put_if_held(
    text: &mut Vec<u8>,
    from: &[u8],
    node: &Node,
    held: &[u64],
    place: usize,
) -> Result<(), AllocError>
    ensures { OnOk result (IsPut (Holds held.now place) text.old.items (edge_line from.now node.now) text.new.items) }
{
    if holds(held, place) {
        put_edge(text, from, node)?;
        return Ok(());
    }
    Ok(())
}

/// Goes on from the place: over nodes to which no edge leads, or over one. The place behind them.
fn go_on(
    names: &Names,
    named: &[u64],
    text: &mut Vec<u8>,
    from: &[u8],
    nodes: &[Node],
    held: &[u64],
    place: usize,
) -> Result<usize, AllocError>
    requires within { place < length nodes.now }
    requires held { (q : ℕ) (n : node.Node) → IsAt nodes.now q n → Holds held.now q ↔ HasName names.now named.now n }
    ensures further { IfOk result (λ next. place < next) }
    ensures text { IfOk result (λ next. IsPutOf (edge_line from.now) (HasName names.now named.now) (take (next - place) (drop place nodes.now)) text.old.items text.new.items) }
{
    if is_clear(held, place) {
        return behind_word(place);
    }
    put_if_held(text, from, &nodes[place], held, place)?;
    Ok(place + 1)
}

/// Puts the edges behind the text that lead to nodes whose names the first set holds; the second holds their places.
pub(crate) fn put_edges_to(
    names: &Names,
    named: &[u64],
    text: &mut Vec<u8>,
    from: &[u8],
    nodes: &[Node],
    held: &[u64],
) -> Result<(), AllocError>
    requires { (q : ℕ) (n : node.Node) → IsAt nodes.now q n → Holds held.now q ↔ HasName names.now named.now n }
    ensures { OnOk result (IsPutOf (edge_line from.now) (HasName names.now named.now) nodes.now text.old.items text.new.items) }
{
    let mut place = 0;
    while place < nodes.len() {
        let next = go_on(names, named, text, from, nodes, held, place)?;
        place = next;
    }
    Ok(())
}
