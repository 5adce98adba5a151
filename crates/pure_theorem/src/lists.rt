//! Copies of lists.
ghost use Rattle.std.specs.Prelude.{◌≡◌, ◌++◌, IfOk, OnOk};

use crate::theorem::Pair;
use pure_term::Term;
use std::alloc::{AllocError, Global};

/// Puts equal terms behind those of the list.
pub fn extend_terms(alloc: Global, list: &mut Vec<Term>, terms: &[Term]) -> Result<(), AllocError>
    ensures { OnOk result (list.new.items ≡ list.old.items ++ terms.now) }
{
    for term in terms {
        list.push(term.copy(alloc)?)?;
    }
    Ok(())
}

/// Puts equal pairs behind those of the list.
pub fn extend_pairs(alloc: Global, list: &mut Vec<Pair>, pairs: &[Pair]) -> Result<(), AllocError>
    ensures { OnOk result (list.new.items ≡ list.old.items ++ pairs.now) }
{
    for pair in pairs {
        list.push(pair.copy(alloc)?)?;
    }
    Ok(())
}

/// Equal terms.
pub fn copied_terms(alloc: Global, terms: &[Term]) -> Result<Vec<Term>, AllocError>
    ensures { IfOk result (λ copies. copies.items ≡ terms.now) }
{
    let mut copies = Vec::with_capacity(alloc, terms.len())?;
    extend_terms(alloc, &mut copies, terms)?;
    Ok(copies)
}

/// Equal pairs.
pub fn copied_pairs(alloc: Global, pairs: &[Pair]) -> Result<Vec<Pair>, AllocError>
    ensures { IfOk result (λ copies. copies.items ≡ pairs.now) }
{
    let mut copies = Vec::with_capacity(alloc, pairs.len())?;
    extend_pairs(alloc, &mut copies, pairs)?;
    Ok(copies)
}
