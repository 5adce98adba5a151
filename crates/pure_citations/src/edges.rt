//! The graph: the nodes of a table, and the edges of its lemmas.
ghost use Rattle.std.specs.Prelude.{◌≡◌, ◌↔◌, ◌<◌, ◌++◌, ℕ, List, IfOk, OnOk, length, map};
ghost use Rattle.pure_text.specs.Lists.{IsIn, Each, AnyOf, EachTwo};
ghost use Rattle.pure_theorem.specs.Sets.{IsLabelSet};
ghost use Rattle.pure_lookup.specs.Laws.{IsInSession};
ghost use Rattle.pure_order_tables.specs.Rows.{Holds};
ghost use Rattle.pure_print.specs.NameText.{text_of_name};
ghost use Rattle.pure_promise_fates.specs.Entries as fates;
ghost use Rattle.pure_promise_fates.specs.Entries.{AreEntries, Shown};
ghost use Rattle.pure_promise_fates.specs.Reach.{IsAt};
ghost use Rattle.pure_table.specs.Promise.Entries.{LemmaEntry};
ghost use Rattle.pure_table.specs.Promise.Seen.{seen, reported};
ghost use Rattle.pure_citations.specs.Cited.{forks, AreInSession, AreBeside};
ghost use Rattle.pure_citations.specs.Heads.{IsPutOf};
ghost use Rattle.pure_citations.specs.Drawn.{edge_line, HasName, IsNameOf, IsEdgeToName, AreNamedRests, AreEdgesPut, AreAllPut, IsDrawing};
ghost use Rattle.pure_citations.specs.Index.{IsCode, IsIndex};
ghost use Rattle.pure_citations.specs.Nodes.{nodes_of};
ghost use Rattle.pure_citations.specs.Reached.{Gains};

use crate::cited::put_named;
use crate::drawn::{put_closing, put_clusters, put_edges_to, put_opening};
use crate::facts::put_name;
use crate::index::{Index, codes, index_of, put_places};
use crate::nodes::{Node, nodes};
use pure_print::Row;
use pure_promise_fates::{Reported, place_of};
use pure_table::declare::Duty;
use pure_table::promise::Entry;
use pure_text::Text;
use pure_typ::{Label, Name, Names, NamesByBase};
use std::alloc::{AllocError, Global};
use std::sync::Arc;

/// The nodes of a table, with their codes and where those of a name stand.
#[derive(Drop)]
struct Graph {
    nodes: Vec<Node>,
    codes: Vec<usize>,
    index: Index,
}

/// The nodes of a table with these rows.
fn graph_of(alloc: Global, names: &Names, rows: &[Row]) -> Result<Graph, AllocError>
    ensures nodes { IfOk result (λ graph. graph.nodes.items ≡ nodes_of rows.now) }
    ensures codes { IfOk result (λ graph. EachTwo (IsCode names.now) graph.nodes.items graph.codes.items) }
    ensures index { IfOk result (λ graph. IsIndex graph.codes.items graph.index.last.items graph.index.before.items) }
{
    let nodes = nodes(alloc, rows)?;
    let codes = codes(alloc, names, nodes.as_slice())?;
    let index = index_of(alloc, codes.as_slice())?;
    Ok(Graph {
        nodes,
        codes,
        index,
    })
}

/// Puts in the name of the lemma with the label.
fn put_name_of(entries: &[Entry], label: Label, named: &mut Vec<u64>) -> Result<(), AllocError>
    requires ascend { IsLabelSet (map fates.Entry.label (map reported entries.now)) }
    requires stands { IsIn label (map fates.Entry.label (map reported entries.now)) }
    ensures { OnOk result (Gains (IsNameOf (seen entries.now) label) named.old.items named.new.items) }
{
    let place = place_of(entries, label);
    put_name(named, entries[place].name)?;
    Ok(())
}

/// Puts in the names of the lemmas with these labels.
fn put_names_of(entries: &[Entry], labels: &[Label], named: &mut Vec<u64>) -> Result<(), AllocError>
    requires ascend { IsLabelSet (map fates.Entry.label (map reported entries.now)) }
    requires stand { Each (λ k. IsIn k (map fates.Entry.label (map reported entries.now))) labels.now }
    ensures { OnOk result (Gains (λ n. AnyOf (λ k. IsNameOf (seen entries.now) k n) labels.now) named.old.items named.new.items) }
{
    for label in labels {
        put_name_of(entries, *label, named)?;
    }
    Ok(())
}

/// The names of what the steps of the proof of the lemma at the place name, where it rests on these promises.
fn names_of(
    alloc: Global,
    names: &NamesByBase,
    entries: &[Entry],
    duties: &[Arc<Duty>],
    place: usize,
    rests: &[Label],
) -> Result<Vec<u64>, AllocError>
    requires entries { AreEntries (map reported entries.now) }
    requires session { AreInSession names.now (forks duties.now) }
    requires beside { AreBeside (forks duties.now) (seen entries.now) }
    requires entry { place < length entries.now }
    requires duty { place < length duties.now }
    requires rests { AreNamedRests names.now (forks duties.now) (seen entries.now) }
    requires shown { (e : fates.Entry) → IsAt (map reported entries.now) place e → e.own ≡ Shown rests.now }
    ensures { IfOk result (λ named. (e : LemmaEntry) → IsAt (seen entries.now) place e → (n : ℕ) → Holds named.items n ↔ IsEdgeToName names.now (forks duties.now) (seen entries.now) e.label n) }
{
    let mut named = Vec::new(alloc);
    put_named(names, &duties[place], &mut named)?;
    put_names_of(entries, rests, &mut named)?;
    Ok(named)
}

/// The text of the name.
fn text_of<'a>(names: &'a NamesByBase, name: Name) -> &'a [u8]
    ensures { result.now ≡ text_of_name names.entry.now name }
{
    match names.names().text(name) {
        Some(text) => text,
        None => &[],
    }
}

/// Puts the edges behind the text that lead from the lemma at the place to the nodes whose names the set holds.
fn put_named_edges(
    alloc: Global,
    names: &NamesByBase,
    entry: &Entry,
    graph: &Graph,
    named: &[u64],
    text: &mut Vec<u8>,
) -> Result<(), AllocError>
    requires codes { EachTwo (IsCode names.now) graph.now.nodes.items graph.now.codes.items }
    requires index { IsIndex graph.now.codes.items graph.now.index.last.items graph.now.index.before.items }
    ensures { OnOk result (IsPutOf (edge_line (text_of_name names.now entry.now.name)) (HasName names.now named.now) graph.now.nodes.items text.old.items text.new.items) }
{
    names.are_session_texts();
    let mut held = Vec::new(alloc);
    put_places(graph.codes.as_slice(), &graph.index, named, &mut held)?;
    put_edges_to(
        names.names(),
        named,
        text,
        text_of(names, entry.name),
        graph.nodes.as_slice(),
        held.as_slice(),
    )?;
    Ok(())
}

/// Puts the edges behind the text that lead from the lemma at the place, whose proof rests on these promises.
fn put_shown(
    alloc: Global,
    names: &NamesByBase,
    entries: &[Entry],
    duties: &[Arc<Duty>],
    graph: &Graph,
    place: usize,
    rests: &[Label],
    text: &mut Vec<u8>,
) -> Result<(), AllocError>
    requires entries { AreEntries (map reported entries.now) }
    requires session { AreInSession names.now (forks duties.now) }
    requires beside { AreBeside (forks duties.now) (seen entries.now) }
    requires entry { place < length entries.now }
    requires duty { place < length duties.now }
    requires rests { AreNamedRests names.now (forks duties.now) (seen entries.now) }
    requires codes { EachTwo (IsCode names.now) graph.now.nodes.items graph.now.codes.items }
    requires index { IsIndex graph.now.codes.items graph.now.index.last.items graph.now.index.before.items }
    requires shown { (e : fates.Entry) → IsAt (map reported entries.now) place e → e.own ≡ Shown rests.now }
    ensures { OnOk result ((e : LemmaEntry) → IsAt (seen entries.now) place e → AreEdgesPut names.now (forks duties.now) (seen entries.now) graph.now.nodes.items e text.old.items text.new.items) }
{
    let named = names_of(alloc, names, entries, duties, place, rests)?;
    put_named_edges(alloc, names, &entries[place], graph, named.as_slice(), text)?;
    Ok(())
}

/// Puts the edges behind the text that lead from the lemma at the place.
fn put_edges(
    alloc: Global,
    names: &NamesByBase,
    entries: &[Entry],
    duties: &[Arc<Duty>],
    graph: &Graph,
    place: usize,
    text: &mut Vec<u8>,
) -> Result<(), AllocError>
    requires entries { AreEntries (map reported entries.now) }
    requires session { AreInSession names.now (forks duties.now) }
    requires beside { AreBeside (forks duties.now) (seen entries.now) }
    requires entry { place < length entries.now }
    requires duty { place < length duties.now }
    requires rests { AreNamedRests names.now (forks duties.now) (seen entries.now) }
    requires codes { EachTwo (IsCode names.now) graph.now.nodes.items graph.now.codes.items }
    requires index { IsIndex graph.now.codes.items graph.now.index.last.items graph.now.index.before.items }
    ensures { OnOk result ((e : LemmaEntry) → IsAt (seen entries.now) place e → AreEdgesPut names.now (forks duties.now) (seen entries.now) graph.now.nodes.items e text.old.items text.new.items) }
{
    match entries[place].rests() {
        Some(rests) => {
            put_shown(alloc, names, entries, duties, graph, place, rests, text)?;
            Ok(())
        }
        None => Ok(()),
    }
}

/// Puts the edges of all lemmas behind the text.
fn put_all_edges(
    alloc: Global,
    names: &NamesByBase,
    entries: &[Entry],
    duties: &[Arc<Duty>],
    graph: &Graph,
    text: &mut Vec<u8>,
) -> Result<(), AllocError>
    requires entries { AreEntries (map reported entries.now) }
    requires session { AreInSession names.now (forks duties.now) }
    requires beside { AreBeside (forks duties.now) (seen entries.now) }
    requires long { length duties.now ≡ length entries.now }
    requires rests { AreNamedRests names.now (forks duties.now) (seen entries.now) }
    requires codes { EachTwo (IsCode names.now) graph.now.nodes.items graph.now.codes.items }
    requires index { IsIndex graph.now.codes.items graph.now.index.last.items graph.now.index.before.items }
    ensures { OnOk result (AreAllPut names.now (forks duties.now) (seen entries.now) graph.now.nodes.items (seen entries.now) text.old.items text.new.items) }
{
    for place in 0..entries.len() {
        put_edges(alloc, names, entries, duties, graph, place, text)?;
    }
    Ok(())
}

/// The graph of a session as a text in DOT, by its lemmas in order of their labels, what became of each, and the names of
/// its theories and the rows of its table: the theories with their axioms, definitions and lemmas, and then the edges.
///
/// # Errors
///
/// Want of memory alone.
pub fn drawing(
    alloc: Global,
    names: &NamesByBase,
    entries: &[Entry],
    duties: &[Arc<Duty>],
    theories: &[Text],
    rows: &[Row],
) -> Result<Text, AllocError>
    requires entries { AreEntries (map reported entries.now) }
    requires session { AreInSession names.now (forks duties.now) }
    requires beside { AreBeside (forks duties.now) (seen entries.now) }
    requires long { length duties.now ≡ length entries.now }
    requires rests { AreNamedRests names.now (forks duties.now) (seen entries.now) }
    ensures { IfOk result (λ text. IsDrawing names.now theories.now (forks duties.now) (seen entries.now) rows.now text) }
{
    let graph = graph_of(alloc, names.names(), rows)?;
    let mut text = Vec::new(alloc);
    put_opening(&mut text)?;
    put_clusters(alloc, &mut text, graph.nodes.as_slice(), theories)?;
    put_all_edges(alloc, names, entries, duties, &graph, &mut text)?;
    put_closing(&mut text)?;
    Ok(Text::from(text))
}
