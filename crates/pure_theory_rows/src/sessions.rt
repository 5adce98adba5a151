//! Sessions: theories one after another, in the notation that the head of `theories.rows` explains.
use crate::declarations::grow;
use crate::kept::{Kept, keep, last_stage, put};
use crate::notation::{name, name_of, pure};
use crate::stop::Stop;
use pure_rows::number_of;
use pure_term::Name;
use pure_theory::{Stage, Theory};
use std::alloc::Global;
use std::mem;
use std::sync::Arc;

/// A theory of a session: its name, its index in load order, the letters of its parents, where none means Pure, and its
/// declarations.
#[derive(Clone, Copy)]
pub(crate) struct Told<'t> {
    pub(crate) name: Name,
    pub(crate) index: u32,
    pub(crate) parents: &'t [u8],
    pub(crate) declared: &'t [u8],
}

/// The text without the blank that it begins with, if it does.
fn unblanked(text: &[u8]) -> &[u8] {
    match text {
        [b' ', rest @ ..] => rest,
        _ => text,
    }
}

/// The parts of the text before and behind the first such byte; nothing is behind where there is none.
fn parted(text: &[u8], mark: u8) -> (&[u8], &[u8]) {
    match text.iter().position(|byte| *byte == mark) {
        Some(at) => (&text[..at], &text[at + 1..]),
        None => (text, b""),
    }
}

/// The theory that is written `NAME INDEX PARENTS: DECLARATIONS`; none where it can't be read.
pub(crate) fn told_of(text: &[u8]) -> Option<Told<'_>> {
    if !text.contains(&b':') {
        return None;
    }
    let (head, declared) = parted(text, b':');
    let (letter, rest) = parted(head, b' ');
    let (digits, parents) = parted(rest, b' ');
    Some(Told {
        name: name_of(letter).ok()?,
        index: number_of(digits)?,
        parents,
        declared: unblanked(declared),
    })
}

/// Puts those of the stages whose theory has the name.
fn put_named(found: &mut Vec<Stage>, stages: &[Stage], name: Name) -> Result<(), Stop> {
    for stage in stages {
        let theory = &**stage;
        if theory.name() == Some(name) {
            put(found, Arc::try_clone(stage))?;
        }
    }
    Ok(())
}

/// Puts the theories of the session that have these letters; Pure, where there is no letter.
pub(crate) fn put_parents(
    alloc: Global,
    kept: &mut Kept,
    found: &mut Vec<Stage>,
    letters: &[u8],
) -> Result<(), Stop> {
    if letters.is_empty() {
        return keep(alloc, found, pure(alloc));
    }
    for letter in letters {
        put_named(found, &kept.ends, name(*letter))?;
    }
    Ok(())
}

/// The theory that begins with these parents.
pub(crate) fn begun(
    alloc: Global,
    index: u32,
    name: Name,
    parents: &[Stage],
) -> Result<Theory, Stop> {
    if !Theory::may_begin(alloc, index, name, parents)? {
        return Err(Stop::MayNot);
    }
    Theory::begin(alloc, index, name, parents).map_err(Stop::of)
}

/// The theory that begins so over the session, whose parents are put behind those found.
fn begun_over(
    alloc: Global,
    kept: &mut Kept,
    parents: &mut Vec<Stage>,
    told: &Told,
) -> Result<Theory, Stop> {
    put_parents(alloc, kept, parents, told.parents)?;
    begun(alloc, told.index, told.name, parents)
}

/// Puts the theory behind the others, at its beginning and with each of its declarations.
pub(crate) fn tell(alloc: Global, kept: &mut Kept, told: &Told) -> Result<(), Stop> {
    let mut parents = Vec::new(alloc);
    let made = begun_over(alloc, kept, &mut parents, told);
    mem::forget(parents);
    keep(alloc, &mut kept.stages, made)?;
    grow(alloc, &mut kept.stages, told.declared)
}

/// Tells a theory, and puts its last stage behind those of the session.
fn tell_end(alloc: Global, kept: &mut Kept, text: &[u8]) -> Result<(), Stop> {
    let Some(told) = told_of(text) else {
        return Err(Stop::Unreadable);
    };
    tell(alloc, kept, &told)?;
    let stage = Arc::try_clone(last_stage(&kept.stages)?);
    put(&mut kept.ends, stage)
}

/// Tells the theories of the session, which bars part.
pub(crate) fn session(alloc: Global, kept: &mut Kept, text: &[u8]) -> Result<(), Stop> {
    if text.is_empty() {
        return Ok(());
    }
    for piece in text.split(|byte| *byte == b'|') {
        tell_end(alloc, kept, piece.trim_ascii())?;
    }
    Ok(())
}
