//! What the items of a record declare.
ghost use Rattle.std.specs.Prelude.{◌≡◌, ◌↔◌, IsTrue, IfOk, MatchOption};
ghost use Rattle.pure_definitions.specs.Terms.Limits.{cut_off};
ghost use Rattle.pure_definitions.specs.Declarations.Decl.{ConDecl, ConstDecl, AxiomDecl};
ghost use Rattle.pure_logic.specs.Content.{IsStatement};
ghost use Rattle.pure_logic.specs.PureContent as content;
ghost use Rattle.pure_record.specs.Seen.{seen_item, seen_items};
ghost use Rattle.pure_replay.specs.Step.{plain_content};
ghost use Rattle.pure_replay.specs.Contents.{declared_by};
ghost use Rattle.pure_replay.specs.Added.{IsAdded, IsNext, AreDeclared};

use crate::fault::ReplayFault;
use crate::schematic::{is_schematic, is_schematic_typ};
use crate::tables::{Declared, is_proposition};
use pure_record::Item;
use pure_term::{Name, Term, Typ};
use pure_theory::pure_declarations;
use pure_theory_tables::shared;
use std::alloc::{AllocError, Global};
use std::sync::Arc;

/// What Pure declares.
fn pure(alloc: Global) -> Result<Declared, AllocError>
    ensures { IfOk result (λ ds. ds ≡ content.pure_declarations) }
{
    let list = pure_declarations(alloc)?;
    Ok(Declared::of(alloc, list))
}

/// With a type constructor more.
fn with_typ(
    alloc: Global,
    declared: &Declared,
    name: Name,
    params: u32,
) -> Result<Option<Declared>, AllocError>
    ensures { IfOk result (λ more. IsAdded declared.now (ConDecl name params) more) }
{
    if let Some(_) = declared.list.typ_params(name) {
        return Ok(None);
    }
    let list = declared.list.with_typ(name, params)?;
    Ok(Some(Declared::of(alloc, list)))
}

/// The type behind a pointer.
fn shared_typ(alloc: Global, typ: &Typ) -> Result<Arc<Typ>, AllocError>
    ensures { IfOk result (λ pointer. pointer.value ≡ typ.now) }
{
    let copy = typ.copy(alloc)?;
    shared(alloc, copy)
}

/// The proposition behind a pointer.
fn shared_prop(alloc: Global, prop: &Term) -> Result<Arc<Term>, AllocError>
    ensures { IfOk result (λ pointer. pointer.value ≡ prop.now) }
{
    let copy = prop.copy(alloc)?;
    shared(alloc, copy)
}

/// With a constant more.
fn with_const(
    alloc: Global,
    declared: &Declared,
    name: Name,
    typ: &Typ,
) -> Result<Option<Declared>, AllocError>
    ensures { IfOk result (λ more. IsAdded declared.now (ConstDecl name typ.now) more) }
{
    if let Some(_) = declared.list.const_typ(name) {
        return Ok(None);
    }
    if !is_schematic_typ(typ) {
        return Ok(None);
    }
    let pointer = shared_typ(alloc, typ)?;
    let list = declared.list.with_const(name, pointer)?;
    Ok(Some(Declared::of(alloc, list)))
}

/// Whether the term is a proposition in which nothing is fixed.
fn is_statement(alloc: Global, declared: &Declared, t: &Term) -> Result<bool, AllocError>
    ensures { IfOk result (λ is. IsTrue is ↔ IsStatement (plain_content declared.now) t.now) }
{
    if !is_schematic(t) {
        return Ok(false);
    }
    let is = is_proposition(alloc, declared, t)?;
    Ok(is)
}

/// The declarations, where the term is a statement over them.
fn stating(alloc: Global, declared: Declared, t: &Term) -> Result<Option<Declared>, AllocError>
    ensures { IfOk result (λ kept. MatchOption kept (¬ IsStatement (plain_content declared) t.now) (λ same. (same ≡ declared) × IsStatement (plain_content declared) t.now)) }
{
    if is_statement(alloc, &declared, t)? {
        Ok(Some(declared))
    } else {
        Ok(None)
    }
}

/// With an axiom more.
fn with_axiom(
    alloc: Global,
    declared: &Declared,
    name: Name,
    prop: &Term,
) -> Result<Option<Declared>, AllocError>
    ensures { IfOk result (λ more. IsAdded declared.now (AxiomDecl name prop.now) more) }
{
    if let Some(_) = declared.list.fact(name) {
        return Ok(None);
    }
    let pointer = shared_prop(alloc, prop)?;
    let list = declared.list.with_axiom(name, pointer)?;
    stating(alloc, Declared::of(alloc, list), prop)
}

/// With what the item declares more; none exactly where it may not be added.
fn with_item(
    alloc: Global,
    declared: &Declared,
    item: &Item,
) -> Result<Option<Declared>, AllocError>
    ensures { IfOk result (λ more. IsAdded declared.now (declared_by (seen_item item.now)) more) }
{
    match item {
        Item::TypeDecl { name, params } => with_typ(alloc, declared, *name, *params),
        Item::Const { name, typ } => with_const(alloc, declared, *name, typ),
        Item::Axiom { name, prop } => with_axiom(alloc, declared, *name, prop),
    }
}

/// The place, cut off at `u32::MAX`.
pub(crate) fn cut_place(place: usize) -> u32
    ensures { result ≡ cut_off place }
{
    if place < u32::MAX as usize {
        place as u32
    } else {
        u32::MAX
    }
}

/// With what the item at the place declares more.
fn next(
    alloc: Global,
    declared: &Declared,
    item: &Item,
    place: usize,
) -> Result<Declared, ReplayFault>
    ensures { IsNext declared.now (declared_by (seen_item item.now)) place result }
{
    match with_item(alloc, declared, item)? {
        None => Err(ReplayFault::Content {
            item: cut_place(place),
        }),
        Some(more) => Ok(more),
    }
}

/// What Pure and the items declare, in order.
pub(crate) fn declarations(alloc: Global, items: &[Item]) -> Result<Declared, ReplayFault>
    ensures { AreDeclared (seen_items items.now) result }
{
    let mut declared = pure(alloc)?;
    for (place, item) in items.iter().enumerate() {
        match next(alloc, &declared, item, place) {
            Ok(more) => declared = more,
            Err(fault) => return Err(fault),
        }
    }
    Ok(declared)
}
