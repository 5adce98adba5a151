//! The text of each fault of a proof.
use crate::names::{label_at, name_at};
use crate::order::are_listed;
use crate::session::variable;
use pure_goal_steps::StepFault;
use pure_print::print_row;
use pure_promise::{Entry, Own, rows};
use pure_rows::Row;
use pure_term::Names;
use pure_theory_tables::shared;
use std::alloc::{AllocError, Global};
use std::mem;

/// The faults that the goal and its facts give.
fn of_facts(name: &[u8]) -> Option<StepFault> {
    match name {
        b"UnknownFact" => Some(StepFault::UnknownFact),
        b"NotDefinition" => Some(StepFault::NotDefinition),
        b"NothingToUnfold" => Some(StepFault::NothingToUnfold),
        b"NoSubgoal" => Some(StepFault::NoSubgoal),
        b"NoPremise" => Some(StepFault::NoPremise),
        b"NoHypothesis" => Some(StepFault::NoHypothesis),
        b"SubgoalsLeft" => Some(StepFault::SubgoalsLeft),
        _ => None,
    }
}

/// The fault of this name.
fn read_fault(name: &[u8]) -> Option<StepFault> {
    match name {
        b"NoUnifier" => Some(StepFault::NoUnifier),
        b"SearchBound" => Some(StepFault::SearchBound),
        b"Steps" => Some(StepFault::Steps),
        b"Big" => Some(StepFault::Big),
        _ => of_facts(name),
    }
}

/// A lemma whose proof is at fault.
fn failed(alloc: Global, step: u32, fault: StepFault) -> Result<Entry, AllocError> {
    let prop = shared(alloc, variable(alloc))?;
    Ok(Entry {
        label: label_at(0),
        name: name_at(0),
        prop,
        own: Own::Fault { step, fault },
    })
}

/// Whether the lemmas have this row alone.
fn have_row(alloc: Global, names: &Names, lemmas: &[Entry], text: &[u8]) -> Option<bool> {
    if !are_listed(lemmas) {
        return None;
    }
    let rows = rows(alloc, names, lemmas).ok()?;
    match rows.as_slice() {
        [row] => Some(print_row(alloc, row).ok()?.bytes() == text),
        _ => Some(false),
    }
}

/// Whether a lemma whose proof is at fault so has the row's text.
pub(crate) fn fault_row(alloc: Global, names: &Names, row: &Row) -> Option<bool> {
    let fault = read_fault(row.field(2))?;
    let lemma = failed(alloc, row.number(1)?, fault).ok()?;
    let lemmas = [lemma];
    let answer = have_row(alloc, names, &lemmas, row.field(3));
    mem::forget(lemmas);
    answer
}
