//! Axioms at an instance.
ghost use Rattle.std.specs.Prelude.{◌≡◌, ◌↔◌, [], ◌∷◌, ◌++◌, map, IsTrue, IfOk, MatchBool, MatchOption};
ghost use Rattle.pure_text.specs.Lists.{IsIn, Each};
ghost use Rattle.pure_definitions.specs.Terms.Subst.{typ_variable, term_variable, IsTypMap, IsTermMap};
ghost use Rattle.pure_logic.specs.Laws.Maps.{instantiated};
ghost use Rattle.pure_theorem.specs.Made.{IsMade};
ghost use Rattle.pure_replay.specs.Figures.{IsTypEntry, IsTermEntry, GivesAxiom};
ghost use Rattle.pure_replay.specs.Step.{plain_content, IsStep};

use crate::conclusion::{Conclusion, single};
use crate::fault::NodeFault;
use crate::tables::{Declared, is_certified_of};
use pure_certify::{Tables, fault_of_typ};
use pure_inst::{fits, instantiated};
use pure_term::{Grow, Name, Sort, Term, TermBind, TermMap, Typ, TypBind, TypMap, TypNode};
use std::alloc::{AllocError, Global};

/// The schematic type variable.
fn variable(alloc: Global, name: Name, index: u32, sort: &Sort) -> Result<Typ, AllocError>
    ensures { IfOk result (λ t. t ≡ typ_variable (record { name = name; index = index; sort = sort.now; image = t })) }
{
    let sort = sort.copy(alloc)?;
    Ok(Typ {
        node: TypNode::TVar { name, index, sort },
    })
}

/// Whether the entry's variable and image are certified, and the image is of the variable's sort.
fn is_typ_entry(alloc: Global, declared: &Declared, bind: &TypBind) -> Result<bool, AllocError>
    ensures { IfOk result (λ is. IsTrue is ↔ IsTypEntry (plain_content declared.now) bind.now) }
{
    let own = variable(alloc, bind.name, bind.index, &bind.sort)?;
    if let Some(_) = fault_of_typ(declared, &own) {
        return Ok(false);
    }
    if let Some(_) = fault_of_typ(declared, &bind.image) {
        return Ok(false);
    }
    Ok(declared.order().of_sort(&bind.image, &bind.sort))
}

/// An equal entry.
fn copied_typ_entry(alloc: Global, bind: &TypBind) -> Result<TypBind, AllocError>
    ensures { IfOk result (λ b. b ≡ bind.now) }
{
    let sort = bind.sort.copy(alloc)?;
    let image = bind.image.copy(alloc)?;
    Ok(TypBind {
        name: bind.name,
        index: bind.index,
        sort,
        image,
    })
}

/// Adds the entry, unless it isn't one or its variable has one.
fn push_typ(
    alloc: Global,
    declared: &Declared,
    all: &mut TypMap,
    bind: &TypBind,
) -> Result<bool, AllocError>
    ensures { IfOk result (λ pushed. MatchBool pushed
        ((all.new ≡ all.old ++ bind.now ∷ []) × IsTypEntry (plain_content declared.now) bind.now × (¬ IsIn (typ_variable bind.now) (map typ_variable all.old)))
        (¬ (IsTypEntry (plain_content declared.now) bind.now × (¬ IsIn (typ_variable bind.now) (map typ_variable all.old))))) }
{
    if !is_typ_entry(alloc, declared, bind)? {
        return Ok(false);
    }
    if let Some(_) = all.find(bind.name, bind.index, &bind.sort) {
        return Ok(false);
    }
    all.push(copied_typ_entry(alloc, bind)?)?;
    Ok(true)
}

/// The map of the entries; none exactly where one isn't an entry, or two are for one variable.
fn typ_map(
    alloc: Global,
    declared: &Declared,
    binds: &[TypBind],
) -> Result<Option<TypMap>, AllocError>
    ensures { IfOk result (λ found. MatchOption found
        (¬ (IsTypMap binds.now × Each (IsTypEntry (plain_content declared.now)) binds.now))
        (λ all. (all ≡ binds.now) × IsTypMap binds.now × Each (IsTypEntry (plain_content declared.now)) binds.now)) }
{
    let mut all = TypMap::empty(alloc);
    for bind in binds {
        if !push_typ(alloc, declared, &mut all, bind)? {
            return Ok(None);
        }
    }
    Ok(Some(all))
}

/// Whether the type of the entry's variable and the image are certified, and the image has that type.
fn is_term_entry(alloc: Global, declared: &Declared, bind: &TermBind) -> Result<bool, AllocError>
    ensures { IfOk result (λ is. IsTrue is ↔ IsTermEntry (plain_content declared.now) bind.now) }
{
    if let Some(_) = fault_of_typ(declared, &bind.typ) {
        return Ok(false);
    }
    is_certified_of(alloc, declared, &bind.image, &bind.typ)
}

/// An equal entry.
fn copied_term_entry(alloc: Global, bind: &TermBind) -> Result<TermBind, AllocError>
    ensures { IfOk result (λ b. b ≡ bind.now) }
{
    let typ = bind.typ.copy(alloc)?;
    let image = bind.image.copy(alloc)?;
    Ok(TermBind {
        name: bind.name,
        index: bind.index,
        typ,
        image,
    })
}

/// Adds the entry, unless it isn't one or its variable has one.
fn push_term(
    alloc: Global,
    declared: &Declared,
    all: &mut TermMap,
    bind: &TermBind,
) -> Result<bool, AllocError>
    ensures { IfOk result (λ pushed. MatchBool pushed
        ((all.new ≡ all.old ++ bind.now ∷ []) × IsTermEntry (plain_content declared.now) bind.now × (¬ IsIn (term_variable bind.now) (map term_variable all.old)))
        (¬ (IsTermEntry (plain_content declared.now) bind.now × (¬ IsIn (term_variable bind.now) (map term_variable all.old))))) }
{
    if !is_term_entry(alloc, declared, bind)? {
        return Ok(false);
    }
    if let Some(_) = all.find(bind.name, bind.index, &bind.typ) {
        return Ok(false);
    }
    all.push(copied_term_entry(alloc, bind)?)?;
    Ok(true)
}

/// The map of the entries; none exactly where one isn't an entry, or two are for one variable.
fn term_map(
    alloc: Global,
    declared: &Declared,
    binds: &[TermBind],
) -> Result<Option<TermMap>, AllocError>
    ensures { IfOk result (λ found. MatchOption found
        (¬ (IsTermMap binds.now × Each (IsTermEntry (plain_content declared.now)) binds.now))
        (λ all. (all ≡ binds.now) × IsTermMap binds.now × Each (IsTermEntry (plain_content declared.now)) binds.now)) }
{
    let mut all = TermMap::empty(alloc);
    for bind in binds {
        if !push_term(alloc, declared, &mut all, bind)? {
            return Ok(None);
        }
    }
    Ok(Some(all))
}

/// The term with types and terms put in.
fn instance(alloc: Global, t: &Term, typs: &TypMap, terms: &TermMap) -> Result<Term, Grow>
    ensures { IsMade (instantiated typs.now terms.now t.now) result }
{
    if !fits(t, typs, terms) {
        return Err(Grow::Big);
    }
    Ok(instantiated(alloc, t, typs, terms)?)
}

/// The axiom of this name, with types and then terms put in.
///
///     ------------ A the axiom
///      |- A[maps]
pub(crate) fn axiom(
    alloc: Global,
    declared: &Declared,
    name: Name,
    typs: &[TypBind],
    terms: &[TermBind],
) -> Result<Conclusion, NodeFault>
    ensures { IsStep (GivesAxiom (plain_content declared.now) name typs.now terms.now) result }
{
    let Some(prop) = declared.list.axiom_prop(name) else {
        return Err(NodeFault::Wrong);
    };
    let Some(typs) = typ_map(alloc, declared, typs)? else {
        return Err(NodeFault::Wrong);
    };
    let Some(terms) = term_map(alloc, declared, terms)? else {
        return Err(NodeFault::Wrong);
    };
    single(alloc, instance(alloc, prop, &typs, &terms))
}
