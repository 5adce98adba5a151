//! The order in which theories are loaded.
ghost use Rattle.std.specs.Prelude.{◌≡◌, ◌+◌, ◌<◌, ◌^◌, not, map, length, get_or, replicate, nat_eq, IfOk};
ghost use Rattle.std.specs.List.Sorted.{IsStrictlySortedBy};
ghost use Rattle.std.specs.Ordering.{nat_cmp};
ghost use Rattle.std.specs.Cmp.Lexicographic.{slice_cmp};
ghost use Rattle.pure_text.specs.Lists.{Each};
ghost use Rattle.pure_script.specs.Seen.{seen_theory};
ghost use Rattle.pure_graph.specs.Graph.{other_than_pure};
ghost use Rattle.pure_session.specs.ImportGraph.{standing, theories, AreGrounded};
ghost use Rattle.pure_graph.specs.Order.{AreInLoadOrder};
ghost use Rattle.pure_session.specs.Places.{place_in};
ghost use Rattle.pure_graph.specs.Seen.{seen_files};
ghost use Rattle.pure_session.specs.Waiting.{waiting_files, HasPlaces, are_taken, IsFirstReady, seen_loaded, all_loaded};

use crate::imports::is_pure;
use crate::judge::standing_names;
use crate::place::place_of;
use pure_graph::{Outcome, TheoryFile};
use pure_script::TheoryText;
use pure_text::Text;
use std::alloc::{AllocError, Global};

/// A theory of the session: its name, the indexes of its imports other than Pure, in their order, its bytes and their tree.
#[derive(Drop)]
pub struct Loaded {
    pub name: Text,
    pub parents: Vec<u32>,
    pub source: Text,
    pub text: TheoryText,
}

/// A theory that waits for its imports, and their places among the names of all that wait.
#[derive(Drop)]
struct Waiting {
    name: Text,
    source: Text,
    text: TheoryText,
    places: Vec<usize>,
}

/// The places of the imports other than Pure.
fn places_of(alloc: Global, names: &[Text], imports: &[Text]) -> Result<Vec<usize>, AllocError>
    requires { IsStrictlySortedBy (slice_cmp nat_cmp) names.now }
    ensures { IfOk result (λ places. places.items ≡ map (place_in names.now) (other_than_pure imports.now)) }
{
    let mut places = Vec::new(alloc);
    for import in imports {
        if !is_pure(import) {
            places.push(place_of(names, import))?;
        }
    }
    Ok(places)
}

/// The theories of the files that stand, with the places of their imports.
fn waiting_theories(
    alloc: Global,
    names: &[Text],
    files: Vec<TheoryFile>,
) -> Result<Vec<Waiting>, AllocError>
    requires { IsStrictlySortedBy (slice_cmp nat_cmp) names.now }
    ensures files { IfOk result (λ rest. waiting_files rest.items ≡ standing (seen_files files.items)) }
    ensures places { IfOk result (λ rest. Each (HasPlaces names.now) rest.items) }
{
    let mut rest = Vec::new(alloc);
    for file in files {
        let TheoryFile { theory, outcome } = file;
        if let Outcome::Stands { source, text } = outcome {
            let places = places_of(alloc, names, text.imports.as_slice())?;
            rest.push(Waiting {
                name: theory,
                source,
                text,
                places,
            })?;
        }
    }
    Ok(rest)
}

/// The index at the place, 0 where the theory there isn't taken.
fn index_at(index: &[u32], place: usize) -> u32
    ensures { result ≡ get_or index.now place 0 }
{
    match index.get(place) {
        Some(number) => *number,
        None => 0,
    }
}

/// Whether the theories at these places are taken.
fn are_taken(index: &[u32], places: &[usize]) -> bool
    ensures { result ≡ are_taken index.now places.now }
{
    places.iter().all(|place| index_at(index, *place) != 0)
}

/// The place of the first that has all its imports taken.
fn first_ready(index: &[u32], rest: &[Waiting]) -> Option<usize>
    ensures { IsFirstReady index.now rest.now result }
{
    for (at, waiting) in rest.iter().enumerate() {
        if are_taken(index, waiting.places.as_slice()) {
            return Some(at);
        }
    }
    None
}

/// The indexes of the theories at these places.
fn indexes_of(alloc: Global, index: &[u32], places: &[usize]) -> Result<Vec<u32>, AllocError>
    ensures { IfOk result (λ indexes. indexes.items ≡ map (λ p. get_or index.now p 0) places.now) }
{
    let mut indexes = Vec::new(alloc);
    for place in places {
        indexes.push(index_at(index, *place))?;
    }
    Ok(indexes)
}

/// The theory, loaded behind its imports.
fn loaded_behind(alloc: Global, index: &[u32], waiting: Waiting) -> Result<Loaded, AllocError>
    ensures { IfOk result (λ l. seen_loaded l ≡ record { name = waiting.name; parents = map (λ p. get_or index.now p 0) waiting.places.items; source = waiting.source; text = seen_theory waiting.text }) }
{
    let Waiting {
        name,
        source,
        text,
        places,
    } = waiting;
    let parents = indexes_of(alloc, index, places.as_slice())?;
    Ok(Loaded {
        name,
        parents,
        source,
        text,
    })
}

/// So many indexes of theories that aren't taken.
fn no_indexes(alloc: Global, count: usize) -> Result<Vec<u32>, AllocError>
    ensures { IfOk result (λ index. index.items ≡ replicate count 0) }
{
    let index = vec![in alloc; 0; count]?;
    Ok(index)
}

/// The theories that wait, in load order.
fn ordered(alloc: Global, names: &[Text], rest: Vec<Waiting>) -> Result<Vec<Loaded>, AllocError>
    requires ascend { IsStrictlySortedBy (slice_cmp nat_cmp) names.now }
    requires named { names.now ≡ theories (waiting_files rest.items) }
    requires places { Each (HasPlaces names.now) rest.items }
    requires grounded { AreGrounded (waiting_files rest.items) }
    requires few { length rest.items < 2 ^ 32 }
    ensures { IfOk result (λ all. AreInLoadOrder (waiting_files rest.items) (all_loaded all.items)) }
{
    let mut rest = rest;
    let mut index = no_indexes(alloc, names.len())?;
    let mut all = Vec::new(alloc);
    while let Some(at) = first_ready(index.as_slice(), rest.as_slice()) {
        let waiting = rest.remove(at);
        let place = place_of(names, &waiting.name);
        all.push(loaded_behind(alloc, index.as_slice(), waiting)?)?;
        index[place] = all.len() as u32;
    }
    Ok(all)
}

/// The theories of the files that stand, in load order.
pub(crate) fn load_order(alloc: Global, files: Vec<TheoryFile>) -> Result<Vec<Loaded>, AllocError>
    requires ascend { IsStrictlySortedBy (slice_cmp nat_cmp) (theories (seen_files files.items)) }
    requires grounded { AreGrounded (seen_files files.items) }
    requires few { length files.items < 2 ^ 32 }
    ensures { IfOk result (λ all. AreInLoadOrder (seen_files files.items) (all_loaded all.items)) }
{
    let names = standing_names(alloc, files.as_slice())?;
    let rest = waiting_theories(alloc, names.as_slice(), files)?;
    let all = ordered(alloc, names.as_slice(), rest)?;
    Ok(all)
}
