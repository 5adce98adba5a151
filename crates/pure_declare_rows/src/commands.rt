//! Lemmas with haves made by hand, and the call that declares them.
use crate::quotes::Quotes;
use pure_declare::{Declared, declare, may_declare};
use pure_rows::Fault;
use pure_script::{Command, Have};
use pure_text::Text;
use pure_theory::Stage;
use pure_typ::{Label, NamesByBase};
use std::alloc::Global;

/// A have of this name, whose statement is the next quoted text. Its proof has no steps, since none is run.
fn have_of(alloc: Global, quotes: &mut Quotes<'_>, name: &[u8]) -> Result<Have, Fault> {
    let prop = quotes.take()?;
    let name = Text::make(alloc, name)?;
    Ok(Have {
        name,
        prop,
        script: Vec::new(alloc),
    })
}

/// Haves of these names, with a blank between two, whose statements are the next quoted texts; `-` stands for none.
fn haves_of(alloc: Global, quotes: &mut Quotes<'_>, names: &[u8]) -> Result<Vec<Have>, Fault> {
    let mut haves = Vec::new(alloc);
    if names == b"-".as_slice() {
        return Ok(haves);
    }
    for name in names.split(|byte| *byte == b' ') {
        haves.push(have_of(alloc, quotes, name)?)?;
    }
    Ok(haves)
}

/// A lemma of this name with haves of these names. Its statement is the next quoted text, and theirs are those behind it.
pub(crate) fn lemma_of(
    alloc: Global,
    quotes: &mut Quotes<'_>,
    name: &[u8],
    haves: &[u8],
) -> Result<Command, Fault> {
    let prop = quotes.take()?;
    let name = Text::make(alloc, name)?;
    let haves = haves_of(alloc, quotes, haves)?;
    Ok(Command::Lemma {
        name,
        prop,
        haves,
        script: Vec::new(alloc),
    })
}

/// What the command leaves over the stage. A row whose command may not be declared can't be read.
pub(crate) fn declared(
    alloc: Global,
    stage: &Stage,
    names: &NamesByBase,
    source: &[u8],
    command: &Command,
    label: Label,
) -> Result<Declared, Fault> {
    let may = may_declare(alloc, stage, names, source, command, label)?;
    if !may {
        return Err(Fault::Unreadable);
    }
    let declared = declare(alloc, stage, names, source, command, label)?;
    Ok(declared)
}
