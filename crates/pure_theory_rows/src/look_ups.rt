//! What written names mean in a theory.
use crate::notation::{entry_of, variable};
use crate::promises::LABEL;
use crate::stop::Stop;
use pure_term::{Name, Term};
use pure_theorem::Built;
use pure_theory::{Fact, Theory};
use pure_typ::NamesByBase;
use std::alloc::{AllocError, Global};
use std::mem;

/// A name space.
#[derive(Clone, Copy, PartialEq, Eq)]
pub(crate) enum Space {
    Classes,
    Typs,
    Consts,
    Facts,
}

/// What a written name means.
#[derive(Clone, Copy, PartialEq, Eq)]
pub(crate) enum Meaning {
    /// No such name.
    Nothing,
    /// What is declared under the name.
    Declared(Name),
    /// The promise of the name.
    Promised(Name),
    /// A built fact.
    Built(Built),
    /// A fact that states something else.
    Other,
}

/// The name spaces by their words.
static SPACES: [(&[u8], Space); 4] = [
    (b"class", Space::Classes),
    (b"type", Space::Typs),
    (b"const", Space::Consts),
    (b"fact", Space::Facts),
];

/// The built facts by their names.
static BUILT: [(&[u8], Built); 6] = [
    (b"Pure.refl", Built::Refl),
    (b"Pure.subst", Built::Subst),
    (b"Pure.ext", Built::Ext),
    (b"Pure.iff", Built::Iff),
    (b"Pure.mp", Built::Mp),
    (b"Pure.spec", Built::Spec),
];

/// The name space of the word.
pub(crate) fn space_of(word: &[u8]) -> Result<Space, Stop> {
    entry_of(&SPACES, word)
}

/// The name of this text.
fn name_of(names: &NamesByBase, text: &[u8]) -> Result<Name, Stop> {
    match names.names().find(text) {
        Some(name) => Ok(name),
        None => Err(Stop::Unreadable),
    }
}

/// The meaning that is written so: a name, a promise's name with a question mark, a built fact, or `-` for none.
pub(crate) fn meaning_of(names: &NamesByBase, text: &[u8]) -> Result<Meaning, Stop> {
    if text == b"-".as_slice() {
        return Ok(Meaning::Nothing);
    }
    if let Ok(which) = entry_of(&BUILT, text) {
        return Ok(Meaning::Built(which));
    }
    match text.split_last() {
        Some((b'?', front)) => Ok(Meaning::Promised(name_of(names, front)?)),
        _ => Ok(Meaning::Declared(name_of(names, text)?)),
    }
}

/// The meaning, where the fact states what all facts of the rows do.
fn stated(alloc: Global, prop: &Term, meaning: Meaning) -> Meaning {
    let wanted = variable(alloc);
    let same = *prop == wanted;
    mem::forget(wanted);
    if same { meaning } else { Meaning::Other }
}

/// What the fact is; a promise has the label.
fn meaning_of_fact(alloc: Global, fact: &Fact) -> Meaning {
    match fact {
        Fact::Built { which } => Meaning::Built(*which),
        Fact::Axiom { name, prop } => stated(alloc, prop, Meaning::Declared(*name)),
        Fact::Promised { name, label, prop } => {
            if *label == LABEL {
                stated(alloc, prop, Meaning::Promised(*name))
            } else {
                Meaning::Other
            }
        }
    }
}

/// What was found among facts.
fn meaning_found(alloc: Global, found: Result<Option<Fact>, AllocError>) -> Result<Meaning, Stop> {
    match found {
        Ok(Some(fact)) => {
            let meaning = meaning_of_fact(alloc, &fact);
            mem::forget(fact);
            Ok(meaning)
        }
        Ok(None) => Ok(Meaning::Nothing),
        Err(_) => Err(Stop::Memory),
    }
}

/// What the written name means among facts; names have to serve look-ups in the theory.
fn fact(
    alloc: Global,
    theory: &Theory,
    names: &NamesByBase,
    written: &[u8],
) -> Result<Meaning, Stop> {
    names.are_session_texts();
    if !theory.may_look_up(names) {
        return Err(Stop::Unreadable);
    }
    meaning_found(alloc, theory.find_fact(names, written))
}

/// What it means in a proof of the lemma with this text.
pub(crate) fn local_fact(
    alloc: Global,
    theory: &Theory,
    names: &NamesByBase,
    lemma: &[u8],
    written: &[u8],
) -> Result<Meaning, Stop> {
    let lemma = name_of(names, lemma)?;
    names.are_session_texts();
    if !theory.may_look_up(names) {
        return Err(Stop::Unreadable);
    }
    meaning_found(alloc, theory.find_local(names, written, lemma))
}

/// What the written name means among classes, types or constants.
fn name_in(
    theory: &Theory,
    names: &NamesByBase,
    space: Space,
    written: &[u8],
) -> Result<Meaning, Stop> {
    names.are_session_texts();
    if !theory.may_look_up(names) {
        return Err(Stop::Unreadable);
    }
    let found = match space {
        Space::Classes => theory.find_class(names, written),
        Space::Typs => theory.find_typ(names, written),
        _ => theory.find_const(names, written),
    };
    match found {
        Some(name) => Ok(Meaning::Declared(name)),
        None => Ok(Meaning::Nothing),
    }
}

/// What the written name means in the name space of the theory.
pub(crate) fn found(
    alloc: Global,
    theory: &Theory,
    names: &NamesByBase,
    space: Space,
    written: &[u8],
) -> Result<Meaning, Stop> {
    match space {
        Space::Facts => fact(alloc, theory, names, written),
        space => name_in(theory, names, space, written),
    }
}
