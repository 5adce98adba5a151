//! The files that are refused, with the texts of their reasons.
ghost use Rattle.std.specs.Prelude.{◌≡◌, ◌++◌, ◌∷◌, map, IfOk};
ghost use Rattle.std.specs.List.{filter_map};
ghost use Rattle.std.specs.Fmt.{decimal};
ghost use Rattle.pure_graph.specs.Session as spec;
ghost use Rattle.pure_graph.specs.Session.{refusal_of, shown};
ghost use Rattle.pure_graph.specs.Seen.{seen_files};
ghost use Rattle.pure_session.specs.Refused.{seen_refused, all_refused};

use pure_graph::{Outcome, Reason, TheoryFile};
use pure_text::Text;
use std::alloc::{AllocError, Global};

/// A file that is refused in loading, and the text of the reason.
#[derive(Drop)]
pub struct RefusedFile {
    pub name: Text,
    pub reason: Text,
}

/// One text behind another.
pub(crate) fn joined(alloc: Global, front: &[u8], back: &[u8]) -> Result<Text, AllocError>
    ensures { IfOk result (λ t. t ≡ front.now ++ back.now) }
{
    let mut text = Vec::from_slice(alloc, front)?;
    text.extend_from_slice(back)?;
    Ok(Text::from(text))
}

/// The text of a fault of syntax at this line and column.
#[tactic(auto, unfolding(pure_graph::specs::Session::syntax_text))]
fn syntax_text(alloc: Global, line: u32, column: u32) -> Result<Text, AllocError>
    ensures { IfOk result (λ t. t ≡ spec.syntax_text ++ (decimal line ++ (58 ∷ decimal column))) }
{
    let mut text = Vec::from_slice(alloc, b"syntax at ")?;
    text.extend_from_slice(line.to_string(alloc)?.as_bytes())?;
    text.extend_from_slice(b":")?;
    text.extend_from_slice(column.to_string(alloc)?.as_bytes())?;
    Ok(Text::from(text))
}

/// That the parent of this name was refused.
#[tactic(auto, unfolding(pure_graph::specs::Session::parent_refused_text))]
pub fn parent_refused_text(alloc: Global, parent: &[u8]) -> Result<Text, AllocError>
    ensures { IfOk result (λ t. t ≡ spec.parent_refused_text ++ parent.now) }
{
    joined(alloc, b"parent refused ", parent)
}

/// The text of a reason.
#[tactic(auto, unfolding(pure_graph::specs::Session::too_many_files_text, pure_graph::specs::Session::no_file_text, pure_graph::specs::Session::too_large_text, pure_graph::specs::Session::unknown_version_text, pure_graph::specs::Session::header_name_text, pure_graph::specs::Session::cyclic_imports_text))]
fn reason_text(alloc: Global, reason: &Reason) -> Result<Text, AllocError>
    ensures { IfOk result (λ t. t ≡ spec.reason_text reason.now) }
{
    match reason {
        Reason::TooManyFiles => Text::make(alloc, b"too many files"),
        Reason::NoFile { theory } => joined(alloc, b"no file ", theory.bytes()),
        Reason::TooLarge => Text::make(alloc, b"too large"),
        Reason::Syntax { line, column } => syntax_text(alloc, *line, *column),
        Reason::UnknownVersion => Text::make(alloc, b"unknown version"),
        Reason::HeaderName => Text::make(alloc, b"header name"),
        Reason::CyclicImports => Text::make(alloc, b"cyclic imports"),
        Reason::ParentRefused { theory } => parent_refused_text(alloc, theory.bytes()),
    }
}

/// The files that are refused.
pub(crate) fn refused_files(
    alloc: Global,
    files: &[TheoryFile],
) -> Result<Vec<RefusedFile>, AllocError>
    ensures { IfOk result (λ refused. all_refused refused.items ≡ map shown (filter_map refusal_of (seen_files files.now))) }
{
    let mut refused = Vec::new(alloc);
    for file in files {
        if let Outcome::Refused { reason } = &file.outcome {
            let name = file.theory.copy(alloc)?;
            let reason = reason_text(alloc, reason)?;
            refused.push(RefusedFile { name, reason })?;
        }
    }
    Ok(refused)
}
