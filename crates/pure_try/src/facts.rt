//! The methods that are tried, in order.
ghost use Rattle.std.specs.Prelude.{◌≡◌, ◌+◌, [], ◌∷◌, ◌++◌, OnOk, IfOk, map};
ghost use Rattle.pure_lookup.specs.Meaning.{built_texts};
ghost use Rattle.pure_try.specs.Methods.{methods_of, written_name};
ghost use Rattle.pure_try.specs.Proofs.{outlined_fact};
ghost use Rattle.pure_try.specs.declared.method.Method.TheVariants as shown;

use crate::method::Method;
use pure_check_work::theory::Theory;
use pure_check_work::theory_run::{is_written, text_of};
use pure_text::Text;
use pure_theory_tables::Decl;
use pure_typ::{Name, NamesByBase};
use std::alloc::{AllocError, Global};

/// Adds the rule that is a fact with this full name.
fn add_rule(alloc: Global, methods: &mut Vec<Method>, fact: &[u8]) -> Result<(), AllocError>
    ensures { OnOk result (methods.new.items ≡ methods.old.items ++ shown.Rule fact.now ∷ []) }
{
    let fact = Text::make(alloc, fact)?;
    methods.push(Method::Rule { fact })?;
    Ok(())
}

/// Assumption, and the built facts as rules.
#[tactic(auto, unfolding(pure_lookup::specs::Meaning::built_texts))]
fn first_methods(alloc: Global) -> Result<Vec<Method>, AllocError>
    ensures { IfOk result (λ methods. methods.items ≡ shown.Assumption ∷ map shown.Rule built_texts) }
{
    let mut methods = Vec::new(alloc);
    methods.push(Method::Assumption)?;
    add_rule(alloc, &mut methods, b"Pure.refl")?;
    add_rule(alloc, &mut methods, b"Pure.subst")?;
    add_rule(alloc, &mut methods, b"Pure.ext")?;
    add_rule(alloc, &mut methods, b"Pure.iff")?;
    add_rule(alloc, &mut methods, b"Pure.mp")?;
    add_rule(alloc, &mut methods, b"Pure.spec")?;
    Ok(methods)
}

/// Adds the rule that is the fact of this name, if it is found by it.
fn add_named(
    alloc: Global,
    names: &NamesByBase,
    name: Name,
    methods: &mut Vec<Method>,
) -> Result<(), AllocError>
    ensures { OnOk result (methods.new.items ≡ methods.old.items ++ map shown.Rule (written_name names.now name)) }
{
    if is_written(names, name) {
        return add_rule(alloc, methods, text_of(names, name));
    }
    Ok(())
}

/// Adds the rule that is the fact which is declared, if one is.
fn add_declared(
    alloc: Global,
    names: &NamesByBase,
    decl: Decl,
    methods: &mut Vec<Method>,
) -> Result<(), AllocError>
    ensures { OnOk result (methods.new.items ≡ methods.old.items ++ map shown.Rule (outlined_fact names.now decl)) }
{
    match decl {
        Decl::Axiom { name } => add_named(alloc, names, name, methods),
        Decl::Promise { name, .. } => add_named(alloc, names, name, methods),
        _ => Ok(()),
    }
}

/// The next place.
fn next_place(place: u32) -> Result<u32, AllocError>
    ensures { IfOk result (λ next. next ≡ place + 1) }
{
    place.checked_add(1).ok_or(AllocError)
}

/// The methods that are tried on a lemma of the theory, in order.
pub(crate) fn methods(
    alloc: Global,
    names: &NamesByBase,
    theory: &Theory,
) -> Result<Vec<Method>, AllocError>
    ensures { IfOk result (λ methods. methods.items ≡ methods_of names.now theory.now) }
{
    let mut methods = first_methods(alloc)?;
    let mut place: u32 = 0;
    'decls: loop {
        match theory.decl_at(place) {
            None => return Ok(methods),
            Some(decl) => {
                add_declared(alloc, names, decl, &mut methods)?;
                place = next_place(place)?;
            }
        }
    }
}
