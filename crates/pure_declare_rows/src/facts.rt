//! What written names mean in a lemma's proof.
use crate::lines::push_label;
use pure_print::push_text_of_name;
use pure_rows::Fault;
use pure_theorem::Built;
use pure_theory::{Fact, Stage, Theory};
use pure_typ::{Name, Names, NamesByBase};
use std::alloc::{AllocError, Global};
use std::mem;

/// The full name of the built fact.
fn built_text(which: Built) -> &'static [u8] {
    match which {
        Built::Refl => b"Pure.refl",
        Built::Subst => b"Pure.subst",
        Built::Ext => b"Pure.ext",
        Built::Iff => b"Pure.iff",
        Built::Mp => b"Pure.mp",
        Built::Spec => b"Pure.spec",
    }
}

/// How the fact is written: its full name, and behind that of a promise its label.
fn fact_text(alloc: Global, names: &Names, fact: &Fact) -> Result<Vec<u8>, AllocError> {
    let mut text = Vec::new(alloc);
    match fact {
        Fact::Built { which } => text.extend_from_slice(built_text(*which))?,
        Fact::Axiom { name, .. } => push_text_of_name(&mut text, names, *name)?,
        Fact::Promised { name, label, .. } => {
            push_text_of_name(&mut text, names, *name)?;
            text.push(b' ')?;
            push_label(&mut text, *label)?;
        }
    }
    Ok(text)
}

/// Whether the fact is written so; `-` stands for none.
fn is_fact(
    alloc: Global,
    names: &Names,
    fact: &Option<Fact>,
    wanted: &[u8],
) -> Result<bool, AllocError> {
    match fact {
        Some(fact) => {
            let text = fact_text(alloc, names, fact)?;
            Ok(text.as_slice() == wanted)
        }
        None => Ok(wanted == b"-".as_slice()),
    }
}

/// Whether the written name means this in the theory, in a proof of the lemma; names have to serve look-ups there.
fn is_meant(
    alloc: Global,
    theory: &Theory,
    names: &NamesByBase,
    lemma: Name,
    written: &[u8],
    wanted: &[u8],
) -> Result<bool, Fault> {
    names.are_session_texts();
    if !theory.may_look_up(names) {
        return Err(Fault::Unreadable);
    }
    let fact = theory.find_local(names, written, lemma)?;
    let holds = is_fact(alloc, names.names(), &fact, wanted);
    mem::forget(fact);
    Ok(holds?)
}

/// Whether the written name means these in the stages, one each, in a proof of the lemma.
pub(crate) fn are_meant(
    alloc: Global,
    stages: &[Stage],
    names: &NamesByBase,
    lemma: &[u8],
    written: &[u8],
    wanted: &[Vec<u8>],
) -> Result<bool, Fault> {
    let Some(lemma) = names.names().find(lemma) else {
        return Err(Fault::Unreadable);
    };
    if stages.len() != wanted.len() {
        return Ok(false);
    }
    for (stage, text) in stages.iter().zip(wanted.iter()) {
        if !is_meant(alloc, &**stage, names, lemma, written, text.as_slice())? {
            return Ok(false);
        }
    }
    Ok(true)
}
