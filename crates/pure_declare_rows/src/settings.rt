//! Rows that set what the lemmas of the rows behind them are declared over.
use crate::kept::{Kept, keep, last_stage};
use pure_kernel::name_table;
use pure_rows::Fault;
use pure_theory::{DeclFault, Stage, Theory};
use pure_typ::{Name, NamesByBase};
use std::alloc::{AllocError, Global};
use std::mem;
use std::sync::Arc;

/// The texts between blanks.
fn words(alloc: Global, text: &[u8]) -> Result<Vec<&[u8]>, AllocError> {
    text.split(|byte| *byte == b' ').collect(alloc)
}

/// The table of the names with these texts, with a blank between two.
fn names_of(alloc: Global, texts: &[u8]) -> Result<NamesByBase, AllocError> {
    let texts = words(alloc, texts)?;
    name_table(alloc, texts.as_slice())
}

/// Sets the names, and begins anew with Pure.
pub(crate) fn set_session(alloc: Global, kept: &mut Kept, texts: &[u8]) -> Result<(), Fault> {
    let names = names_of(alloc, texts)?;
    kept.put_names(names);
    kept.theory = 0;
    kept.first = kept.stages.len();
    let pure = Theory::pure(alloc)?;
    keep(alloc, &mut kept.stages, pure)
}

/// What a refusal makes of the row.
fn unbegun(fault: DeclFault) -> Fault {
    match fault {
        DeclFault::Memory => Fault::Memory,
        _ => Fault::Unreadable,
    }
}

/// A theory of this name and number over the parents.
fn begun(alloc: Global, index: u32, name: Name, parents: &[Stage]) -> Result<Theory, Fault> {
    if !Theory::may_begin(alloc, index, name, parents)? {
        return Err(Fault::Unreadable);
    }
    Theory::begin(alloc, index, name, parents).map_err(unbegun)
}

/// A theory of this name and number over the stage.
fn begun_over(alloc: Global, index: u32, name: Name, stage: &Stage) -> Result<Theory, Fault> {
    let Ok(parent) = Arc::try_clone(stage) else {
        return Err(Fault::Memory);
    };
    let parents = [parent];
    let theory = begun(alloc, index, name, &parents);
    mem::forget(parents);
    theory
}

/// Begins a theory of this name over the present stage, and sets its source.
pub(crate) fn set_theory(
    alloc: Global,
    kept: &mut Kept,
    name: &[u8],
    source: &[u8],
) -> Result<(), Fault> {
    let Some(name) = kept.names.names().find(name) else {
        return Err(Fault::Unreadable);
    };
    kept.theory = kept.theory.saturating_add(1);
    kept.first = kept.stages.len();
    let theory = begun_over(alloc, kept.theory, name, last_stage(&kept.stages)?)?;
    keep(alloc, &mut kept.stages, theory)?;
    kept.source = Vec::from_slice(alloc, source)?;
    kept.place = 0;
    kept.command = 0;
    Ok(())
}
