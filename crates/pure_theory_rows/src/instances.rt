//! An axiom of a theory, instantiated before and after arities are declared.
use crate::definitions::{defined, term_of};
use crate::kept::{Kept, keep, last};
use crate::notation::{entry_of, given, number, pure};
use crate::stop::Stop;
use pure_inst::{InstFault, instantiate};
use pure_rows::{Outcome, Row};
use pure_rules::axiom;
use pure_term::{Name, Sort, Term, TermMap, Typ, TypBind, TypMap};
use pure_theorem::{RuleFault, Thm};
use pure_theory::{Stage, Theory};
use std::alloc::{AllocError, Global};
use std::mem;

// Names are the notation's: the classes A.c and A.d, this one below the other, the type A.i, and the constant A.P, whose axiom is p.

const UPPER: Name = Name(8);

const LOWER: Name = Name(9);

const CON: Name = Name(11);

const CONSTANT: Name = Name(7);

const FACT: Name = Name(24);

/// Puts the theories of the classes, the type and the constant of this body behind each other.
fn put_defined(alloc: Global, stages: &mut Vec<Stage>, body: &[u8]) -> Result<(), Stop> {
    keep(alloc, stages, pure(alloc))?;
    let upper = last(stages)?.declare_class(UPPER, &[]);
    keep(alloc, stages, upper.map_err(Stop::of))?;
    let lower = last(stages)?.declare_class(LOWER, &[UPPER]);
    keep(alloc, stages, lower.map_err(Stop::of))?;
    let con = last(stages)?.declare_typ(CON, 0);
    keep(alloc, stages, con.map_err(Stop::of))?;
    let constant = defined(alloc, last(stages)?, CONSTANT, FACT, body);
    keep(alloc, stages, constant)
}

/// The classes by their texts.
static CLASSES: [(&[u8], u32); 2] = [(b"A.c", UPPER.0), (b"A.d", LOWER.0)];

/// Puts the theories with an arity of A.i for each of the classes behind each other.
fn put_arities(alloc: Global, stages: &mut Vec<Stage>, classes: &[u8]) -> Result<(), Stop> {
    if classes.is_empty() {
        return Ok(());
    }
    for text in classes.split(|byte| *byte == b' ') {
        let class = Name(entry_of(&CLASSES, text)?);
        let more = last(stages)?.declare_arity(CON, &[], class);
        keep(alloc, stages, more.map_err(Stop::of))?;
    }
    Ok(())
}

/// The sort of the class A.c.
fn sort(alloc: Global) -> Result<Sort, AllocError> {
    Sort::make(alloc, vec![in alloc; UPPER]?)
}

/// `?'a` of the class A.c, and A.i for it.
fn bind(alloc: Global) -> Result<TypBind, AllocError> {
    let image = Typ::constructed(alloc, CON, Vec::new(alloc))?;
    let sort = sort(alloc)?;
    Ok(TypBind {
        name: Name(14),
        index: 0,
        sort,
        image,
    })
}

/// The map of that variable alone.
fn typs(alloc: Global) -> Result<TypMap, AllocError> {
    let bind = bind(alloc)?;
    let mut map = TypMap::empty(alloc);
    map.push(bind)?;
    Ok(map)
}

/// The axiom with A.i put in.
fn instance(alloc: Global, theory: &Theory, th: &Thm) -> Result<Thm, InstFault> {
    let typs = typs(alloc)?;
    let terms = TermMap::empty(alloc);
    instantiate(alloc, theory, &typs, &terms, th)
}

/// The axiom with A.i put in, in the row's theory.
fn found(
    alloc: Global,
    stages: &mut Vec<Stage>,
    row: &Row,
) -> Result<Result<Thm, InstFault>, Stop> {
    put_defined(alloc, stages, row.field(2))?;
    put_arities(alloc, stages, given(row, 1))?;
    let theory = last(stages)?;
    match axiom(alloc, theory, FACT) {
        Ok(th) => {
            let made = instance(alloc, theory, &th);
            mem::forget(th);
            Ok(made)
        }
        Err(RuleFault::Memory) => Err(Stop::Memory),
        Err(_) => Err(Stop::Unreadable),
    }
}

/// Whether the instance states this.
fn states(made: &Result<Thm, InstFault>, wanted: &Result<Term, Stop>) -> Result<Outcome, Stop> {
    match (made, wanted) {
        (_, Err(stop)) => Err(*stop),
        (Ok(th), Ok(wanted)) => Ok(Outcome::of(th.prop == *wanted)),
        (Err(InstFault::Memory), _) => Err(Stop::Memory),
        (Err(_), _) => Ok(Outcome::Differs),
    }
}

/// Whether the instance isn't made by this fault.
fn is_fault(made: &Result<Thm, InstFault>, wanted: InstFault) -> Result<Outcome, Stop> {
    match made {
        Ok(_) => Ok(Outcome::Differs),
        Err(InstFault::Memory) => Err(Stop::Memory),
        Err(fault) => Ok(Outcome::of(*fault == wanted)),
    }
}

/// `instance`: classes of arities, a body, and what the instance states.
pub(crate) fn instance_row(alloc: Global, kept: &mut Kept, row: &Row) -> Result<Outcome, Stop> {
    let made = found(alloc, &mut kept.stages, row)?;
    let wanted = term_of(alloc, row.field(3));
    let outcome = states(&made, &wanted);
    mem::forget(made);
    mem::forget(wanted);
    outcome
}

/// `unsorted`: classes of arities, a body, and the place of the type variable of whose sort A.i isn't.
pub(crate) fn unsorted_row(alloc: Global, kept: &mut Kept, row: &Row) -> Result<Outcome, Stop> {
    let place = number(row, 3)?;
    let made = found(alloc, &mut kept.stages, row)?;
    let outcome = is_fault(&made, InstFault::SortFails { place });
    mem::forget(made);
    outcome
}
