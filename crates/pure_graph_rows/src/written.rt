//! Sessions that are loaded, in short forms.
use crate::numbered::put_count;
use pure_graph::LoadFault;
use pure_io::Library;
use pure_session::{Loaded, RefusedFile, Session, load};
use pure_typ::{BUILTIN_COUNT, Name, Names};
use std::alloc::{AllocError, Global};
use std::mem;
use std::rt::Files;
use std::thread::Threads;

/// How many threads find what files say.
const THREADS: usize = 3;

/// What is written of a session.
#[derive(Clone, Copy)]
pub(crate) enum Form {
    /// The loaded theories in load order, each with the indexes of its parents, the refused files with their reasons, and the number of files.
    Whole,
    /// The refused files and the number of files.
    Rest,
    /// The names.
    Names,
    /// How many parents each theory has.
    Counts,
}

/// Writes the number.
fn put_number(alloc: Global, text: &mut Vec<u8>, number: usize) -> Result<(), AllocError> {
    let digits = number.to_string(alloc)?;
    text.extend_from_slice(digits.as_bytes())?;
    Ok(())
}

/// Writes a loaded theory: its name and the indexes of its parents.
fn put_loaded(alloc: Global, text: &mut Vec<u8>, theory: &Loaded) -> Result<(), AllocError> {
    text.extend_from_slice(theory.name.bytes())?;
    for parent in theory.parents.as_slice() {
        text.extend_from_slice(b" ")?;
        put_number(alloc, text, *parent as usize)?;
    }
    text.extend_from_slice(b"|")?;
    Ok(())
}

/// Writes the loaded theories.
fn put_theories(alloc: Global, text: &mut Vec<u8>, theories: &[Loaded]) -> Result<(), AllocError> {
    for theory in theories {
        put_loaded(alloc, text, theory)?;
    }
    Ok(())
}

/// Writes a refused file: its name and the reason.
fn put_refused(text: &mut Vec<u8>, file: &RefusedFile) -> Result<(), AllocError> {
    text.extend_from_slice(file.name.bytes())?;
    text.extend_from_slice(b": ")?;
    text.extend_from_slice(file.reason.bytes())?;
    text.extend_from_slice(b"|")?;
    Ok(())
}

/// Writes the refused files and the number of all.
fn put_rest(alloc: Global, text: &mut Vec<u8>, session: &Session) -> Result<(), AllocError> {
    for file in session.refused.as_slice() {
        put_refused(text, file)?;
    }
    put_number(alloc, text, session.files as usize)
}

/// Writes the names that aren't Pure's own, with blanks between them.
fn put_names(text: &mut Vec<u8>, names: &Names) -> Result<(), AllocError> {
    for number in BUILTIN_COUNT..names.first_fresh() {
        if !text.is_empty() {
            text.extend_from_slice(b" ")?;
        }
        text.extend_from_slice(names.text(Name(number)).unwrap_or(b"NONE"))?;
    }
    Ok(())
}

/// Writes how many parents each of the theories has, with a blank behind each.
fn put_counts(alloc: Global, text: &mut Vec<u8>, theories: &[Loaded]) -> Result<(), AllocError> {
    for theory in theories {
        put_count(alloc, text, theory.parents.len())?;
    }
    Ok(())
}

/// The session in the form.
fn session_written(alloc: Global, session: &Session, form: Form) -> Result<Vec<u8>, AllocError> {
    let mut text = Vec::new(alloc);
    match form {
        Form::Whole => {
            put_theories(alloc, &mut text, &session.theories)?;
            put_rest(alloc, &mut text, session)?;
        }
        Form::Rest => put_rest(alloc, &mut text, session)?,
        Form::Names => put_names(&mut text, &session.names)?,
        Form::Counts => put_counts(alloc, &mut text, &session.theories)?,
    }
    Ok(text)
}

/// What loading answered, in the form.
fn answer_written(
    alloc: Global,
    answer: &Result<Session, LoadFault>,
    form: Form,
) -> Result<Vec<u8>, AllocError> {
    match answer {
        Ok(session) => session_written(alloc, session, form),
        Err(LoadFault::ReadFault) => Vec::from_slice(alloc, b"read fault"),
        Err(LoadFault::Memory) => Err(AllocError),
    }
}

/// What loading the library answers, in the form. The session isn't let go, since to prove that anew takes minutes.
pub(crate) fn loaded<R: Files + Print + AllocGlobal, T: Threads + Sync, L: Library>(
    rt: &R,
    alloc: Global,
    library: &mut L,
    threads: &T,
    form: Form,
) -> Result<Vec<u8>, AllocError> {
    let answer = load(rt, alloc, library, threads, THREADS);
    let text = answer_written(alloc, &answer, form);
    mem::forget(answer);
    text
}
