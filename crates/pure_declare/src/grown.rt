//! Theories with a declaration more, where nothing but memory can be wanting.
ghost use Rattle.std.specs.Prelude.{◌≡◌, IfOk};
ghost use Rattle.pure_text.specs.Lists.{Each};
ghost use Rattle.pure_definitions.specs.Declarations.Decl.{ClassDecl, ConDecl, ConstDecl, AxiomDecl, PromiseDecl, IsDeclaredClass};
ghost use Rattle.pure_definitions.specs.Declarations.Certified.{IsCertifiedTyp};
ghost use Rattle.pure_logic.specs.Content.{IsSchematicTyp, IsStatement};
ghost use Rattle.pure_lookup.specs.Meaning.{classes, constructors, constants, facts};
ghost use Rattle.pure_theory.specs.Stage.{with_decl};
ghost use Rattle.pure_theory.specs.declared.fault.DeclFault.TheVariants as fault;
ghost use Rattle.pure_declare.specs.Commands.{IsTaken};

use crate::place::Place;
use pure_term::Term;
use pure_theory::{DeclFault, Theory};
use pure_typ::{Name, Typ};
use std::alloc::AllocError;
use std::sync::Arc;

/// The only failure that is left.
fn only_memory(_fault: DeclFault) -> AllocError
    requires { _fault ≡ fault.Memory }
{
    AllocError
}

/// With a class of a new name, below classes that are declared.
pub(crate) fn with_class(
    place: &Place<'_>,
    name: Name,
    above: &[Name],
) -> Result<Theory, AllocError>
    requires new { IsTaken place.now classes name → ⊥ }
    requires known { Each (IsDeclaredClass place.now.content.declarations) above.now }
    ensures { IfOk result (λ Q. Q ≡ with_decl place.now.content (ClassDecl (record { name = name; above = above.now }))) }
{
    match place.theory().declare_class(name, above) {
        Ok(next) => Ok(next),
        Err(fault) => Err(only_memory(fault)),
    }
}

/// With a type constructor of a new name.
pub(crate) fn with_typ(place: &Place<'_>, name: Name, params: u32) -> Result<Theory, AllocError>
    requires { IsTaken place.now constructors name → ⊥ }
    ensures { IfOk result (λ Q. Q ≡ with_decl place.now.content (ConDecl name params)) }
{
    match place.theory().declare_typ(name, params) {
        Ok(next) => Ok(next),
        Err(fault) => Err(only_memory(fault)),
    }
}

/// With a constant of a new name.
pub(crate) fn with_const(place: &Place<'_>, name: Name, typ: &Typ) -> Result<Theory, AllocError>
    requires new { IsTaken place.now constants name → ⊥ }
    requires certified { IsCertifiedTyp place.now.content.declarations typ.now }
    requires schematic { IsSchematicTyp typ.now }
    ensures { IfOk result (λ Q. Q ≡ with_decl place.now.content (ConstDecl name typ.now)) }
{
    match place.theory().declare_const(name, typ) {
        Ok(next) => Ok(next),
        Err(fault) => Err(only_memory(fault)),
    }
}

/// With an axiom of a new name.
pub(crate) fn with_axiom(
    place: &Place<'_>,
    name: Name,
    prop: Arc<Term>,
) -> Result<Theory, AllocError>
    requires new { IsTaken place.now facts name → ⊥ }
    requires statement { IsStatement place.now.content prop.value }
    ensures { IfOk result (λ Q. Q ≡ with_decl place.now.content (AxiomDecl name prop.value)) }
{
    match place.theory().declare_axiom(name, prop) {
        Ok(next) => Ok(next),
        Err(fault) => Err(only_memory(fault)),
    }
}

/// With a promise of a new name, under the command's label.
pub(crate) fn with_promise(
    place: &Place<'_>,
    name: Name,
    prop: Arc<Term>,
) -> Result<Theory, AllocError>
    requires new { IsTaken place.now facts name → ⊥ }
    requires statement { IsStatement place.now.content prop.value }
    ensures { IfOk result (λ Q. Q ≡ with_decl place.now.content (PromiseDecl name place.now.label prop.value)) }
{
    let label = place.label();
    match place.theory().declare_promise(name, label, prop) {
        Ok(next) => Ok(next),
        Err(fault) => Err(only_memory(fault)),
    }
}
