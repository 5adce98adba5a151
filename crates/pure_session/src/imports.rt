//! The imports of theories.
ghost use Rattle.std.specs.Prelude.{◌≡◌, ◌&&◌, not, map, option_map, IfOk};
ghost use Rattle.std.specs.List.{list_any};
ghost use Rattle.std.specs.List.Sorted.{IsStrictlySortedBy};
ghost use Rattle.std.specs.Ordering.{nat_cmp};
ghost use Rattle.std.specs.Cmp.Lexicographic.{slice_cmp};
ghost use Rattle.pure_grammar.specs.Theories.Lexeme.{same};
ghost use Rattle.pure_graph.specs.Outcome.{pure_theory};
ghost use Rattle.pure_graph.specs.Graph as spec;
ghost use Rattle.pure_session.specs.ImportGraph.{theories};
ghost use Rattle.pure_graph.specs.Seen.{seen_outcome, seen_file, seen_files};

use crate::place::place_of;
use pure_graph::{Outcome, Reason, TheoryFile};
use pure_text::Text;
use std::alloc::{AllocError, Global};

/// Whether the name is that of the built-in theory.
#[tactic(auto, unfolding(pure_graph::specs::Outcome::pure_theory))]
pub(crate) fn is_pure(name: &Text) -> bool
    ensures { result ≡ same name.now pure_theory }
{
    name.bytes() == b"Pure".as_slice()
}

/// Whether the theory is listed.
fn is_listed(listed: &[Text], theory: &Text) -> bool
    requires { IsStrictlySortedBy (slice_cmp nat_cmp) listed.now }
    ensures { result ≡ list_any (same theory.now) listed.now }
{
    place_of(listed, theory) < listed.len()
}

/// Whether the import is another than Pure and isn't listed.
fn is_absent(listed: &[Text], import: &Text) -> bool
    requires { IsStrictlySortedBy (slice_cmp nat_cmp) listed.now }
    ensures { result ≡ (not (same import.now pure_theory) && not (list_any (same import.now) listed.now)) }
{
    !is_pure(import) && !is_listed(listed, import)
}

/// The first import other than Pure that isn't listed.
fn first_absent<'t>(listed: &[Text], imports: &'t [Text]) -> Option<&'t Text>
    requires { IsStrictlySortedBy (slice_cmp nat_cmp) listed.now }
    ensures { option_map (λ t. t.now) result ≡ spec.first_absent listed.now (spec.other_than_pure imports.now) }
{
    for import in imports {
        if is_absent(listed, import) {
            return Some(import);
        }
    }
    None
}

/// The first import of a file that isn't listed.
fn absent_import<'t>(listed: &[Text], outcome: &'t Outcome) -> Option<&'t Text>
    requires { IsStrictlySortedBy (slice_cmp nat_cmp) listed.now }
    ensures { option_map (λ t. t.now) result ≡ spec.first_absent listed.now (spec.imports_of (seen_outcome outcome.now)) }
{
    match outcome {
        Outcome::Refused { .. } => None,
        Outcome::Stands { text, .. } => first_absent(listed, text.imports.as_slice()),
    }
}

/// What is said of a file that an import refuses if it isn't listed.
fn linked_outcome(alloc: Global, listed: &[Text], outcome: Outcome) -> Result<Outcome, AllocError>
    requires { IsStrictlySortedBy (slice_cmp nat_cmp) listed.now }
    ensures { IfOk result (λ o. seen_outcome o ≡ spec.without (spec.first_absent listed.now (spec.imports_of (seen_outcome outcome))) (seen_outcome outcome)) }
{
    if let Some(absent) = absent_import(listed, &outcome) {
        let theory = absent.copy(alloc)?;
        return Ok(Outcome::Refused {
            reason: Reason::NoFile { theory },
        });
    }
    Ok(outcome)
}

/// The file, which its first import that isn't listed refuses.
fn linked(alloc: Global, listed: &[Text], file: TheoryFile) -> Result<TheoryFile, AllocError>
    requires { IsStrictlySortedBy (slice_cmp nat_cmp) listed.now }
    ensures { IfOk result (λ f. seen_file f ≡ spec.linked listed.now (seen_file file)) }
{
    let TheoryFile { theory, outcome } = file;
    let outcome = linked_outcome(alloc, listed, outcome)?;
    Ok(TheoryFile { theory, outcome })
}

/// The names of the files' theories.
fn theories_in(alloc: Global, files: &[TheoryFile]) -> Result<Vec<Text>, AllocError>
    ensures { IfOk result (λ names. names.items ≡ theories (seen_files files.now)) }
{
    let mut names = Vec::new(alloc);
    for file in files {
        names.push(file.theory.copy(alloc)?)?;
    }
    Ok(names)
}

/// The files, each refused by its first import that isn't listed.
pub(crate) fn link(alloc: Global, files: Vec<TheoryFile>) -> Result<Vec<TheoryFile>, AllocError>
    requires { IsStrictlySortedBy (slice_cmp nat_cmp) (theories (seen_files files.items)) }
    ensures { IfOk result (λ done. seen_files done.items ≡ map (spec.linked (theories (seen_files files.items))) (seen_files files.items)) }
{
    let listed = theories_in(alloc, files.as_slice())?;
    let mut done = Vec::new(alloc);
    for file in files {
        done.push(linked(alloc, listed.as_slice(), file)?)?;
    }
    Ok(done)
}
