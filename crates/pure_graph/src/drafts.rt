//! Files on the way from what was read of them to what they say by themselves.
ghost use Rattle.std.specs.Prelude.{◌≡◌, ℕ, List, Option, IfOk, nat_lt};
ghost use Rattle.pure_io.specs.declared.library.File as library;
ghost use Rattle.pure_text.specs.Lists.{EachTwo};
ghost use Rattle.pure_graph.specs.Drafts.{IsKnownOf, IsSaidOf};
ghost use Rattle.pure_graph.specs.Limits.{most_files};
ghost use Rattle.pure_graph.specs.Seen.{seen_outcome};
ghost use Rattle.pure_graph.specs.Told.{IsTriedOf};

use crate::outcome::{Outcome, TheoryFile};
use crate::source::own_outcome;
use pure_text::Text;
use std::alloc::{AllocError, Global};
use std::thread::Threads;
use std::{mem, thread};

/// What is known of a theory's file.
#[derive(Drop)]
pub(crate) enum Known {
    /// Its first bytes, one more than it may have at most; none where it is missing.
    Read { bytes: Option<Text> },
    /// What it says by itself.
    Said { outcome: Outcome },
    /// Nothing: it is taken to be worked on.
    Taken,
}

/// A theory, and what is known of its file.
#[derive(Drop)]
pub(crate) struct Draft {
    pub(crate) theory: Text,
    pub(crate) known: Known,
}

/// What is known once what was read has said what it says. Where memory runs out it stays as it was read.
fn said(alloc: Global, theory: &Text, known: Known) -> Known
    ensures { (told : Option (List library.File)) (place : ℕ) → IsKnownOf told place theory.now known → IsKnownOf told place theory.now result }
{
    match known {
        Known::Read { bytes } => match own_outcome(alloc, theory, bytes) {
            Ok(outcome) => Known::Said { outcome },
            Err(bytes) => Known::Read { bytes },
        },
        Known::Said { outcome } => Known::Said { outcome },
        Known::Taken => Known::Taken,
    }
}

/// Has a file say what it says.
fn say(alloc: Global, draft: &mut Draft)
    ensures { IsSaidOf draft.old draft.new }
{
    let known = mem::replace(&mut draft.known, Known::Taken);
    draft.known = said(alloc, &draft.theory, known);
}

/// Has each file say what it says, in so many threads at most. One for which a thread finds no memory stays as it was read.
pub(crate) fn say_all<T: Threads + Sync>(
    threads: &T,
    alloc: Global,
    number: usize,
    drafts: &mut [Draft],
)
    ensures { EachTwo IsSaidOf drafts.old drafts.new }
{
    let worker = |_place: usize, draft: &mut Draft|
        ensures { IsSaidOf draft.entry.now draft.exit.now }
    { say(alloc, draft) };
    thread::for_each_mut(threads, drafts, number.max(1), &worker);
}

/// What a file says by itself; it is asked here where it hasn't said it yet.
pub(crate) fn own_file(alloc: Global, draft: Draft) -> Result<TheoryFile, AllocError>
    ensures theory { IfOk result (λ file. file.theory ≡ draft.theory) }
    ensures own { IfOk result (λ file. (told : Option (List library.File)) (place : ℕ) → IsKnownOf told place draft.theory draft.known → IsTriedOf told (nat_lt place most_files) draft.theory (seen_outcome file.outcome)) }
{
    let Draft { theory, known } = draft;
    let known = said(alloc, &theory, known);
    match known {
        Known::Said { outcome } => Ok(TheoryFile { theory, outcome }),
        _ => Err(AllocError),
    }
}
