//! The facts of a theory, compared with a statement one after the other.
ghost use Rattle.std.specs.Prelude.{◌≡◌, ◌+◌, ◌++◌, ◌∷◌, [], List, IfOk, IfSome, OnOk, Some, true};
ghost use Rattle.pure_text.specs.Lists.{IsIn};
ghost use Rattle.pure_definitions.specs.Declarations.Decl as decls;
ghost use Rattle.pure_definitions.specs.Terms.Term as tree;
ghost use Rattle.pure_theorem.specs.Built.{built_proposition};
ghost use Rattle.pure_theory_tables.specs.Facts.{Stated, fact_decl};
ghost use Rattle.pure_theory_tables.specs.View.{outline};
ghost use Rattle.pure_theory_run.specs.Named as named;
ghost use Rattle.pure_find.specs.Facts as spec;
ghost use Rattle.pure_find.specs.Findings.{IsTidyProposition, IsLongProposition, IsLongFound, IsFinding, GoesOn, StatesTidy, IsOutlineIn};

use crate::finding::Finding;
use crate::long::standing_of;
use pure_term::{Name, Term};
use pure_theorem::{Built, built_term};
use pure_theory_run::theory::Theory;
use pure_theory_run::{is_written, text_of};
use pure_theory_tables::Decl;
use pure_typ::NamesByBase;
use std::alloc::{AllocError, Global};

/// Compares a fact with the statement that has this long form.
fn add_fact(
    alloc: Global,
    long: &Option<Term>,
    name: &[u8],
    prop: &Term,
    finding: &mut Finding,
) -> Result<(), AllocError>
    requires prop { IsTidyProposition prop.now }
    requires long { IfSome long.now IsLongProposition }
    ensures { OnOk result ((fs : List spec.Fact) → GoesOn long.now fs (fs ++ spec.fact name.now prop.now ∷ []) finding.old finding.new) }
{
    let standing = standing_of(alloc, prop, long)?;
    finding.put(name, standing)
}

/// Compares a built fact, by its full name.
fn add_built(
    alloc: Global,
    long: &Option<Term>,
    name: &[u8],
    which: Built,
    finding: &mut Finding,
) -> Result<(), AllocError>
    requires { IfSome long.now IsLongProposition }
    ensures { OnOk result ((fs : List spec.Fact) → GoesOn long.now fs (fs ++ spec.fact name.now (built_proposition which) ∷ []) finding.old finding.new) }
{
    let prop = built_term(alloc, which)?;
    add_fact(alloc, long, name, &prop, finding)
}

/// The built facts, compared.
fn built_found(alloc: Global, long: &Option<Term>) -> Result<Finding, AllocError>
    requires { IfSome long.now IsLongProposition }
    ensures { IfOk result (λ finding. (C : tree.Term) → IsLongFound C long.now → IsFinding C spec.built finding) }
{
    let mut finding = Finding::empty(alloc);
    add_built(alloc, long, b"Pure.refl", Built::Refl, &mut finding)?;
    add_built(alloc, long, b"Pure.subst", Built::Subst, &mut finding)?;
    add_built(alloc, long, b"Pure.ext", Built::Ext, &mut finding)?;
    add_built(alloc, long, b"Pure.iff", Built::Iff, &mut finding)?;
    add_built(alloc, long, b"Pure.mp", Built::Mp, &mut finding)?;
    add_built(alloc, long, b"Pure.spec", Built::Spec, &mut finding)?;
    Ok(finding)
}

/// Compares the axiom or the promise of this name, by which it is found.
fn add_stated(
    alloc: Global,
    names: &NamesByBase,
    theory: &Theory,
    long: &Option<Term>,
    name: Name,
    finding: &mut Finding,
) -> Result<(), AllocError>
    requires long { IfSome long.now IsLongProposition }
    requires tidy { StatesTidy theory.now }
    requires declared { (s : Stated) × IsIn (fact_decl name s) theory.now.declarations }
    requires written { named.is_written names.now name ≡ true }
    ensures { OnOk result ((s : Stated) → IsIn (fact_decl name s) theory.now.declarations → (fs : List spec.Fact) → GoesOn long.now fs (fs ++ spec.written names.now name s.prop) finding.old finding.new) }
{
    match theory.fact(name) {
        None => unreachable!(),
        Some(statement) => add_fact(alloc, long, text_of(names, name), statement.prop(), finding),
    }
}

/// The same, if it is found by this name.
fn add_named(
    alloc: Global,
    names: &NamesByBase,
    theory: &Theory,
    long: &Option<Term>,
    name: Name,
    finding: &mut Finding,
) -> Result<(), AllocError>
    requires long { IfSome long.now IsLongProposition }
    requires tidy { StatesTidy theory.now }
    requires declared { (s : Stated) × IsIn (fact_decl name s) theory.now.declarations }
    ensures { OnOk result ((s : Stated) → IsIn (fact_decl name s) theory.now.declarations → (fs : List spec.Fact) → GoesOn long.now fs (fs ++ spec.written names.now name s.prop) finding.old finding.new) }
{
    if is_written(names, name) {
        return Ok(add_stated(alloc, names, theory, long, name, finding)?);
    }
    Ok(())
}

/// Compares the fact that is declared, if one is.
fn add_declared(
    alloc: Global,
    names: &NamesByBase,
    theory: &Theory,
    long: &Option<Term>,
    decl: Decl,
    finding: &mut Finding,
) -> Result<(), AllocError>
    requires long { IfSome long.now IsLongProposition }
    requires tidy { StatesTidy theory.now }
    requires declared { IsOutlineIn theory.now decl }
    ensures { OnOk result ((d : decls.Decl) → IsIn d theory.now.declarations → outline d ≡ decl → (fs : List spec.Fact) → GoesOn long.now fs (fs ++ spec.declared names.now d) finding.old finding.new) }
{
    match decl {
        Decl::Axiom { name } => add_named(alloc, names, theory, long, name, finding),
        Decl::Promise { name, .. } => add_named(alloc, names, theory, long, name, finding),
        Decl::Class { .. } => Ok(()),
        Decl::Con { .. } => Ok(()),
        Decl::Arity { .. } => Ok(()),
        Decl::Const { .. } => Ok(()),
    }
}

/// The next place.
fn next_place(place: u32) -> Result<u32, AllocError>
    ensures { IfOk result (λ next. next ≡ place + 1) }
{
    place.checked_add(1).ok_or(AllocError)
}

/// The facts of the theory, compared in order with the statement that has this long form.
pub(crate) fn facts_found(
    alloc: Global,
    names: &NamesByBase,
    theory: &Theory,
    long: &Option<Term>,
) -> Result<Finding, AllocError>
    requires long { IfSome long.now IsLongProposition }
    requires tidy { StatesTidy theory.now }
    ensures { IfOk result (λ finding. (C : tree.Term) → IsLongFound C long.now → IsFinding C (spec.facts_of names.now theory.now) finding) }
{
    let mut finding = built_found(alloc, long)?;
    let mut place: u32 = 0;
    'decls: loop {
        match theory.decl_at(place) {
            None => return Ok(finding),
            Some(decl) => {
                add_declared(alloc, names, theory, long, decl, &mut finding)?;
                place = next_place(place)?;
            }
        }
    }
}
