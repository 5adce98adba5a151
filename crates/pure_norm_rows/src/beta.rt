//! Beta-normal forms.
use crate::asked::is_closed;
use crate::read::term;
use pure_norm::{NormFault, beta_norm};
use pure_rows::Fault;
use pure_term::Term;
use std::alloc::Global;

/// Whether the answer is this fault.
fn is_fault(found: &Result<Term, NormFault>, wanted: NormFault) -> Result<bool, Fault> {
    match found {
        Ok(_) => Ok(false),
        Err(NormFault::Memory) => Err(Fault::Memory),
        Err(fault) => Ok(*fault == wanted),
    }
}

/// Whether the answer is this term.
fn is_term(found: &Result<Term, NormFault>, wanted: &Term) -> Result<bool, Fault> {
    match found {
        Ok(t) => Ok(t == wanted),
        Err(NormFault::Memory) => Err(Fault::Memory),
        Err(_) => Ok(false),
    }
}

/// Whether the answer is what the field wants: `steps`, `big` or a term.
fn is_wanted(alloc: Global, found: &Result<Term, NormFault>, wanted: &[u8]) -> Result<bool, Fault> {
    match wanted {
        b"steps" => is_fault(found, NormFault::Steps),
        b"big" => is_fault(found, NormFault::Big),
        _ => is_term(found, &term(alloc, wanted)?),
    }
}

/// Whether `beta_norm`, which is asked of closed terms, answers so.
pub(crate) fn is_beta_normal(alloc: Global, t: &[u8], wanted: &[u8]) -> Result<bool, Fault> {
    let t = term(alloc, t)?;
    if !is_closed(&t, 0) {
        return Err(Fault::Unreadable);
    }
    is_wanted(alloc, &beta_norm(alloc, &t), wanted)
}
