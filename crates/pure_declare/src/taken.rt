//! Whether the name spaces have a name already.
ghost use Rattle.std.specs.Prelude.{◌↔◌, ℕ, IsTrue};
ghost use Rattle.pure_text.specs.Lists.{IsIn};
ghost use Rattle.pure_definitions.specs.Types.Typ as types;
ghost use Rattle.pure_definitions.specs.Declarations.Decl.{ConDecl, ConstDecl, IsDeclaredClass};
ghost use Rattle.pure_lookup.specs.Meaning.{IsDeclaredIn, classes, constructors, constants, facts};
ghost use Rattle.pure_declare.specs.Commands.{IsTaken};

use crate::place::Place;
use pure_theory::Theory;
use pure_typ::Name;

/// Whether the class is declared.
fn declares_class(theory: &Theory, name: Name) -> bool
    ensures { IsTrue result ↔ IsDeclaredClass theory.now.declarations name }
{
    let order = theory.order();
    order.is_declared(name)
}

/// Whether the type constructor is declared.
fn declares_typ(theory: &Theory, name: Name) -> bool
    ensures { IsTrue result ↔ ((count : ℕ) × IsIn (ConDecl name count) theory.now.declarations) }
{
    match theory.typ_params(name) {
        None => false,
        Some(_) => true,
    }
}

/// Whether the constant is declared.
fn declares_const(theory: &Theory, name: Name) -> bool
    ensures { IsTrue result ↔ ((typ : types.Typ) × IsIn (ConstDecl name typ) theory.now.declarations) }
{
    match theory.const_typ(name) {
        None => false,
        Some(_) => true,
    }
}

/// Whether the fact is declared.
fn declares_fact(theory: &Theory, name: Name) -> bool
    ensures { IsTrue result ↔ IsDeclaredIn facts theory.now.declarations name }
{
    match theory.fact(name) {
        None => false,
        Some(_) => true,
    }
}

/// Whether a class has the name.
pub(crate) fn is_class_taken(place: &Place<'_>, name: Name) -> bool
    ensures { IsTrue result ↔ IsTaken place.now classes name }
{
    declares_class(place.theory(), name)
}

/// Whether a type constructor has the name.
pub(crate) fn is_typ_taken(place: &Place<'_>, name: Name) -> bool
    ensures { IsTrue result ↔ IsTaken place.now constructors name }
{
    declares_typ(place.theory(), name)
}

/// Whether a constant has the name.
pub(crate) fn is_const_taken(place: &Place<'_>, name: Name) -> bool
    ensures { IsTrue result ↔ IsTaken place.now constants name }
{
    declares_const(place.theory(), name)
}

/// Whether a fact has the name.
pub(crate) fn is_fact_taken(place: &Place<'_>, name: Name) -> bool
    ensures { IsTrue result ↔ IsTaken place.now facts name }
{
    declares_fact(place.theory(), name)
}
