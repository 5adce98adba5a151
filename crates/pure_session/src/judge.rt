//! What the imports among the files say of them.
ghost use Rattle.std.specs.Prelude.{◌≡◌, ◌⊎◌, ◌↔◌, ◌<◌, ◌&&◌, not, ℕ, true, false, map, option_map, get_or, IfOk, OnOk, MatchBool};
ghost use Rattle.std.specs.List.{find};
ghost use Rattle.std.specs.List.Sorted.{IsStrictlySortedBy};
ghost use Rattle.std.specs.Ordering.{nat_cmp};
ghost use Rattle.std.specs.Cmp.Lexicographic.{slice_cmp};
ghost use Rattle.pure_text.specs.Lists.{EachTwo};
ghost use Rattle.pure_grammar.specs.Theories.Lexeme.{same};
ghost use Rattle.pure_graph.specs.Outcome.{pure_theory};
ghost use Rattle.pure_graph.specs.Graph.{other_than_pure, AreJudged};
ghost use Rattle.pure_session.specs.ImportGraph.{stands, standing, theories, AreLinked, MarksPlaces, IsImportRow, LeadsToCycle, IsLost, AreGrounded};
ghost use Rattle.pure_session.specs.Places.{place_in, cells, HasMark, is_marked as is_marked_in};
ghost use Rattle.pure_session.specs.Judging as spec;
ghost use Rattle.pure_session.specs.Judging.{IsGraphOf};
ghost use Rattle.pure_graph.specs.Seen.{seen_outcome, seen_file, seen_files};
ghost use Rattle.pure_script.specs.Seen.{seen_theory};

use crate::imports::is_pure;
use crate::place::place_of;
use crate::table::{close, is_marked, mark};
use pure_graph::{Outcome, Reason, TheoryFile};
use pure_script::TheoryText;
use pure_text::Text;
use std::alloc::{AllocError, Global};

/// The files that stand by their names, the table of which reaches which, and which of them are refused.
#[derive(Drop)]
pub(crate) struct ImportGraph {
    names: Vec<Text>,
    rows: Vec<Vec<bool>>,
    lost: Vec<bool>,
}

/// Whether the file stands.
fn stands(outcome: &Outcome) -> bool
    ensures { result ≡ stands (seen_outcome outcome.now) }
{
    match outcome {
        Outcome::Refused { .. } => false,
        Outcome::Stands { .. } => true,
    }
}

/// The names of the files that stand.
pub(crate) fn standing_names(alloc: Global, files: &[TheoryFile]) -> Result<Vec<Text>, AllocError>
    ensures { IfOk result (λ names. names.items ≡ theories (standing (seen_files files.now))) }
{
    let mut names = Vec::new(alloc);
    for file in files {
        if stands(&file.outcome) {
            names.push(file.theory.copy(alloc)?)?;
        }
    }
    Ok(names)
}

/// Marks the place of the import, if it is another than Pure.
fn mark_import(row: &mut Vec<bool>, names: &[Text], import: &Text) -> Result<(), AllocError>
    requires { IsStrictlySortedBy (slice_cmp nat_cmp) names.now }
    ensures { OnOk result ((i : ℕ) → HasMark row.new.items i ↔ (HasMark row.old.items i ⊎ ((same import.now pure_theory ≡ false) × (place_in names.now import.now ≡ i)))) }
{
    if is_pure(import) {
        return Ok(());
    }
    mark(row, place_of(names, import))?;
    Ok(())
}

/// The row in which the places of the imports are marked.
fn import_row(alloc: Global, names: &[Text], imports: &[Text]) -> Result<Vec<bool>, AllocError>
    requires { IsStrictlySortedBy (slice_cmp nat_cmp) names.now }
    ensures { IfOk result (λ row. MarksPlaces names.now (other_than_pure imports.now) row.items) }
{
    let mut row = Vec::new(alloc);
    for import in imports {
        mark_import(&mut row, names, import)?;
    }
    Ok(row)
}

/// The rows of the files that stand.
fn import_table(
    alloc: Global,
    names: &[Text],
    files: &[TheoryFile],
) -> Result<Vec<Vec<bool>>, AllocError>
    requires { IsStrictlySortedBy (slice_cmp nat_cmp) names.now }
    ensures { IfOk result (λ rows. EachTwo (IsImportRow names.now) (standing (seen_files files.now)) (cells rows.items)) }
{
    let mut rows = Vec::new(alloc);
    for file in files {
        if let Outcome::Stands { text, .. } = &file.outcome {
            rows.push(import_row(alloc, names, text.imports.as_slice())?)?;
        }
    }
    Ok(rows)
}

/// Whether the place is on a cycle or leads to one.
fn leads_to_cycle(rows: &[Vec<bool>], count: usize, place: usize) -> bool
    ensures { MatchBool result (LeadsToCycle (is_marked_in (cells rows.now)) count place) (¬ LeadsToCycle (is_marked_in (cells rows.now)) count place) }
{
    for k in 0..count {
        if is_marked(rows, k, k) && (k == place || is_marked(rows, place, k)) {
            return true;
        }
    }
    false
}

/// Whether what stands at the place is refused.
fn is_lost(rows: &[Vec<bool>], count: usize, place: usize) -> bool
    ensures { MatchBool result (IsLost (is_marked_in (cells rows.now)) count place) (¬ IsLost (is_marked_in (cells rows.now)) count place) }
{
    place == count || is_marked(rows, place, count) || leads_to_cycle(rows, count, place)
}

/// For each place whether what stands there is refused.
fn lost_places(alloc: Global, rows: &[Vec<bool>], count: usize) -> Result<Vec<bool>, AllocError>
    ensures { IfOk result (λ lost. (i : ℕ) → MatchBool (get_or lost.items i true) (i < count → IsLost (is_marked_in (cells rows.now)) count i) ((i < count) × ¬ IsLost (is_marked_in (cells rows.now)) count i)) }
{
    let mut lost = Vec::new(alloc);
    for place in 0..count {
        lost.push(is_lost(rows, count, place))?;
    }
    Ok(lost)
}

/// The graph of the files.
fn graph_of(alloc: Global, files: &[TheoryFile]) -> Result<ImportGraph, AllocError>
    requires ascend { IsStrictlySortedBy (slice_cmp nat_cmp) (theories (seen_files files.now)) }
    requires linked { AreLinked (seen_files files.now) }
    ensures { IfOk result (λ graph. IsGraphOf (seen_files files.now) graph.names.items (cells graph.rows.items) graph.lost.items) }
{
    let names = standing_names(alloc, files)?;
    let table = import_table(alloc, names.as_slice(), files)?;
    let rows = close(alloc, table)?;
    let lost = lost_places(alloc, rows.as_slice(), names.len())?;
    Ok(ImportGraph { names, rows, lost })
}

/// Whether what stands at the place is refused; what stands at none is.
fn is_refused(lost: &[bool], place: usize) -> bool
    ensures { result ≡ get_or lost.now place true }
{
    match lost.get(place) {
        Some(is_lost) => *is_lost,
        None => true,
    }
}

/// Whether the import is another than Pure and is refused.
fn is_refused_import(graph: &ImportGraph, import: &Text) -> bool
    requires { IsStrictlySortedBy (slice_cmp nat_cmp) graph.now.names.items }
    ensures { result ≡ (not (same import.now pure_theory) && get_or graph.now.lost.items (place_in graph.now.names.items import.now) true) }
{
    !is_pure(import)
        && is_refused(
            graph.lost.as_slice(),
            place_of(graph.names.as_slice(), import),
        )
}

/// The first import that is refused.
fn first_refused<'t>(graph: &ImportGraph, imports: &'t [Text]) -> Option<&'t Text>
    requires { IsStrictlySortedBy (slice_cmp nat_cmp) graph.now.names.items }
    ensures { option_map (λ t. t.now) result ≡ find (λ p. get_or graph.now.lost.items (place_in graph.now.names.items p) true) (other_than_pure imports.now) }
{
    for import in imports {
        if is_refused_import(graph, import) {
            return Some(import);
        }
    }
    None
}

/// Why a theory is refused that stood so far.
fn verdict(
    alloc: Global,
    graph: &ImportGraph,
    theory: &Text,
    text: &TheoryText,
) -> Result<Option<Reason>, AllocError>
    requires { IsStrictlySortedBy (slice_cmp nat_cmp) graph.now.names.items }
    ensures { IfOk result (λ reason. reason ≡ spec.verdict graph.now.names.items (cells graph.now.rows.items) graph.now.lost.items theory.now (seen_theory text.now)) }
{
    let place = place_of(graph.names.as_slice(), theory);
    if is_marked(graph.rows.as_slice(), place, place) {
        return Ok(Some(Reason::CyclicImports));
    }
    match first_refused(graph, text.imports.as_slice()) {
        None => Ok(None),
        Some(parent) => {
            let theory = parent.copy(alloc)?;
            Ok(Some(Reason::ParentRefused { theory }))
        }
    }
}

/// The file, refused if the graph refuses it.
fn judged(alloc: Global, graph: &ImportGraph, file: TheoryFile) -> Result<TheoryFile, AllocError>
    requires { IsStrictlySortedBy (slice_cmp nat_cmp) graph.now.names.items }
    ensures { IfOk result (λ j. seen_file j ≡ spec.judged_file graph.now.names.items (cells graph.now.rows.items) graph.now.lost.items (seen_file file)) }
{
    let TheoryFile { theory, outcome } = file;
    let outcome = match outcome {
        Outcome::Refused { reason } => Outcome::Refused { reason },
        Outcome::Stands { source, text } => match verdict(alloc, graph, &theory, &text)? {
            None => Outcome::Stands { source, text },
            Some(reason) => Outcome::Refused { reason },
        },
    };
    Ok(TheoryFile { theory, outcome })
}

/// The files, each refused if the graph refuses it.
fn judge_all(
    alloc: Global,
    graph: &ImportGraph,
    files: Vec<TheoryFile>,
) -> Result<Vec<TheoryFile>, AllocError>
    requires { IsStrictlySortedBy (slice_cmp nat_cmp) graph.now.names.items }
    ensures { IfOk result (λ done. seen_files done.items ≡ map (spec.judged_file graph.now.names.items (cells graph.now.rows.items) graph.now.lost.items) (seen_files files.items)) }
{
    let mut done = Vec::new(alloc);
    for file in files {
        done.push(judged(alloc, graph, file)?)?;
    }
    Ok(done)
}

/// The files behind the tests on cycles and refused imports.
pub(crate) fn judge(alloc: Global, files: Vec<TheoryFile>) -> Result<Vec<TheoryFile>, AllocError>
    requires ascend { IsStrictlySortedBy (slice_cmp nat_cmp) (theories (seen_files files.items)) }
    requires linked { AreLinked (seen_files files.items) }
    ensures judged { IfOk result (λ judged. AreJudged (seen_files files.items) (seen_files judged.items)) }
    ensures grounded { IfOk result (λ judged. AreGrounded (seen_files judged.items)) }
{
    let graph = graph_of(alloc, files.as_slice())?;
    let done = judge_all(alloc, &graph, files)?;
    Ok(done)
}
