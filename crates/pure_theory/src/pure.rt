//! What Pure itself declares.
ghost use Rattle.std.specs.Prelude.{◌≡◌, ℕ, [], ◌∷◌, ◌++◌, IfOk};
ghost use Rattle.pure_text.specs.Lists.{IsIn};
ghost use Rattle.pure_definitions.specs.Types.Typ as types;
ghost use Rattle.pure_definitions.specs.Declarations.Decl.{ConDecl, ConstDecl, AxiomDecl};
ghost use Rattle.pure_definitions.specs.Terms.Term.{Const};
ghost use Rattle.pure_logic.specs.Connectives as connectives;
ghost use Rattle.pure_logic.specs.PureContent as content;
ghost use Rattle.pure_theory_tables.specs.Facts.{Stated, fact_decl};
ghost use Rattle.pure_theory.specs.PureParts.{pure_typs, pure_to_all, pure_to_imp, pure_to_eq, pure_to_protect};

use pure_term::{Name, Sort, Term, TermNode, Typ, TypNode};
use pure_theorem::{equation, prop_typ};
use pure_theory_tables::{Declarations, shared};
use std::alloc::{AllocError, Global};
use std::sync::Arc;

/// The schematic type variable of the empty sort that stands in Pure's constants.
fn any_typ(_alloc: Global) -> Typ
    ensures { result ≡ content.any_typ }
{
    let node = TypNode::TVar {
        name: Name(0),
        index: 0,
        sort: Sort::empty(),
    };
    Typ { node }
}

/// The type of `all`.
fn all_typ(alloc: Global) -> Result<Typ, AllocError>
    ensures { IfOk result (λ t. t ≡ connectives.all_typ content.any_typ) }
{
    let domain = Typ::arrow(alloc, any_typ(alloc), prop_typ(alloc))?;
    let typ = Typ::arrow(alloc, domain, prop_typ(alloc))?;
    Ok(typ)
}

/// The type of `imp`.
fn imp_typ(alloc: Global) -> Result<Typ, AllocError>
    ensures { IfOk result (λ t. t ≡ connectives.imp_typ) }
{
    let range = Typ::arrow(alloc, prop_typ(alloc), prop_typ(alloc))?;
    let typ = Typ::arrow(alloc, prop_typ(alloc), range)?;
    Ok(typ)
}

/// The type of `eq`.
fn eq_typ(alloc: Global) -> Result<Typ, AllocError>
    ensures { IfOk result (λ t. t ≡ connectives.eq_typ content.any_typ) }
{
    let range = Typ::arrow(alloc, any_typ(alloc), prop_typ(alloc))?;
    let typ = Typ::arrow(alloc, any_typ(alloc), range)?;
    Ok(typ)
}

/// The type of `protect`.
fn protect_typ(alloc: Global) -> Result<Typ, AllocError>
    ensures { IfOk result (λ t. t ≡ connectives.protect_typ) }
{
    let typ = Typ::arrow(alloc, prop_typ(alloc), prop_typ(alloc))?;
    Ok(typ)
}

/// A constant as a term.
pub(crate) fn constant(name: Name, typ: Typ) -> Term
    ensures { result ≡ Const name typ }
{
    let node = TermNode::Const { name, typ };
    Term { node }
}

/// The schematic variable of type prop that stands in Pure's axiom.
fn variable(alloc: Global) -> Term
    ensures { result ≡ content.proposition_variable 0 }
{
    let node = TermNode::Var {
        name: Name(0),
        index: 0,
        typ: prop_typ(alloc),
    };
    Term { node }
}

/// The term with the mark of a goal.
fn protected(alloc: Global, term: Term) -> Result<Term, AllocError>
    ensures { IfOk result (λ t. t ≡ connectives.protect term) }
{
    let argument = shared(alloc, term)?;
    let typ = protect_typ(alloc)?;
    let function = shared(alloc, constant(Name::PROTECT, typ))?;
    Ok(Term::app(function, argument))
}

/// Pure's axiom.
fn protect_axiom(alloc: Global) -> Result<Term, AllocError>
    ensures { IfOk result (λ t. t ≡ content.protect_axiom) }
{
    let left = protected(alloc, variable(alloc))?;
    let typ = prop_typ(alloc);
    equation(alloc, &typ, left, variable(alloc))
}

/// The declarations with a constant of the type more.
fn with_const(
    alloc: Global,
    ds: &Declarations,
    name: Name,
    typ: Typ,
) -> Result<Declarations, AllocError>
    requires { (T : types.Typ) → ¬ IsIn (ConstDecl name T) ds.now }
    ensures { IfOk result (λ more. more ≡ ds.now ++ ConstDecl name typ ∷ []) }
{
    let pointer = shared(alloc, typ)?;
    let more = ds.with_const(name, pointer)?;
    Ok(more)
}

/// With a constant of the type more. The declarations before are let go of here alone.
fn add_const(
    alloc: Global,
    ds: Declarations,
    name: Name,
    typ: Typ,
) -> Result<Declarations, AllocError>
    requires { (T : types.Typ) → ¬ IsIn (ConstDecl name T) ds }
    ensures { IfOk result (λ more. more ≡ ds ++ ConstDecl name typ ∷ []) }
{
    with_const(alloc, &ds, name, typ)
}

/// With a type constructor more.
fn add_typ(ds: Declarations, name: Name, params: u32) -> Result<Declarations, AllocError>
    requires { (n : ℕ) → ¬ IsIn (ConDecl name n) ds }
    ensures { IfOk result (λ more. more ≡ ds ++ ConDecl name params ∷ []) }
{
    ds.with_typ(name, params)
}

/// With an axiom more.
fn add_axiom(ds: Declarations, name: Name, prop: Arc<Term>) -> Result<Declarations, AllocError>
    requires { (s : Stated) → ¬ IsIn (fact_decl name s) ds }
    ensures { IfOk result (λ more. more ≡ ds ++ AxiomDecl name prop.value ∷ []) }
{
    ds.with_axiom(name, prop)
}

/// Pure's type constructors.
fn with_typs(alloc: Global) -> Result<Declarations, AllocError>
    ensures { IfOk result (λ ds. ds ≡ pure_typs) }
{
    let none = Declarations::empty(alloc)?;
    let one = add_typ(none, Name::FUN, 2)?;
    let both = add_typ(one, Name::PROP, 0)?;
    Ok(both)
}

/// With the constant `all`.
fn with_all(alloc: Global) -> Result<Declarations, AllocError>
    ensures { IfOk result (λ ds. ds ≡ pure_to_all) }
{
    let typ = all_typ(alloc)?;
    let before = with_typs(alloc)?;
    let more = add_const(alloc, before, Name::ALL, typ)?;
    Ok(more)
}

/// With the constant `imp`.
fn with_imp(alloc: Global) -> Result<Declarations, AllocError>
    ensures { IfOk result (λ ds. ds ≡ pure_to_imp) }
{
    let typ = imp_typ(alloc)?;
    let before = with_all(alloc)?;
    let more = add_const(alloc, before, Name::IMP, typ)?;
    Ok(more)
}

/// With the constant `eq`.
fn with_eq(alloc: Global) -> Result<Declarations, AllocError>
    ensures { IfOk result (λ ds. ds ≡ pure_to_eq) }
{
    let typ = eq_typ(alloc)?;
    let before = with_imp(alloc)?;
    let more = add_const(alloc, before, Name::EQ, typ)?;
    Ok(more)
}

/// With the constant `protect`.
fn with_protect(alloc: Global) -> Result<Declarations, AllocError>
    ensures { IfOk result (λ ds. ds ≡ pure_to_protect) }
{
    let typ = protect_typ(alloc)?;
    let before = with_eq(alloc)?;
    let more = add_const(alloc, before, Name::PROTECT, typ)?;
    Ok(more)
}

/// What Pure declares.
pub fn pure_declarations(alloc: Global) -> Result<Declarations, AllocError>
    ensures { IfOk result (λ ds. ds ≡ content.pure_declarations) }
{
    let axiom = protect_axiom(alloc)?;
    let pointer = shared(alloc, axiom)?;
    let before = with_protect(alloc)?;
    let all = add_axiom(before, Name::PROTECT, pointer)?;
    Ok(all)
}
