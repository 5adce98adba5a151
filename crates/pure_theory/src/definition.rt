//! Definitions of constants.
ghost use Rattle.std.specs.Prelude.{◌≡◌, ◌++◌, IfOk, IfErr, OnOk};
ghost use Rattle.pure_definitions.specs.Declarations.Decl.{AxiomDecl};
ghost use Rattle.pure_definitions.specs.Terms.Term.{Const};
ghost use Rattle.pure_definitions.specs.Terms.Subst.{inst_typ};
ghost use Rattle.pure_logic.specs.Connectives.{eq};
ghost use Rattle.pure_logic.specs.Content.{IsCertifiedOf, IsStatement, definition, schematic_typ_variable};
ghost use Rattle.pure_theory.specs.Stage.{with_decl, with_declarations};
ghost use Rattle.pure_theory.specs.Refusals.{HasNamesake, IsNameRefusal};
ghost use Rattle.pure_theory.specs.Definitions.{HasVariable, HasExtraTyp, AreNew, IsDefinitionRefusal};

use crate::fault::DeclFault;
use crate::pure::constant;
use crate::schematic::{schematic_term, schematic_typ};
use crate::theory::Theory;
use pure_certify::{has_extra_typ, has_variable};
use pure_term::{Name, Term, Typ};
use pure_theorem::equation;
use pure_theory_tables::shared;
use std::alloc::{AllocError, Global};
use std::sync::Arc;

/// The axiom that the constant of this type is the body, with its fixed type variables made schematic.
fn definition_axiom(
    alloc: Global,
    name: Name,
    typ: &Typ,
    body: &Term,
) -> Result<Arc<Term>, AllocError>
    ensures { IfOk result (λ t. t.value ≡ eq typ.now (Const name typ.now) (inst_typ schematic_typ_variable body.now)) }
{
    let schematic = schematic_term(alloc, body)?;
    let copy = typ.copy(alloc)?;
    let right = schematic.copy(alloc)?;
    let left = constant(name, copy);
    let axiom = equation(alloc, typ, left, right)?;
    let pointer = shared(alloc, axiom)?;
    Ok(pointer)
}

/// The theory with an axiom more. It is let go of here alone.
fn with_axiom(theory: Theory, name: Name, prop: Arc<Term>) -> Result<Theory, DeclFault>
    requires { IsStatement theory prop.value }
    ensures ok { IfOk result (λ more. more ≡ with_decl theory (AxiomDecl name prop.value)) }
    ensures new { OnOk result (¬ HasNamesake theory.declarations (AxiomDecl name prop.value)) }
    ensures fault { IfErr result (IsNameRefusal theory.declarations (AxiomDecl name prop.value)) }
{
    theory.declare_axiom(name, prop)
}

impl Theory {
    /// Refuses a definition whose names are taken, or whose body has a variable, or a type variable that its type lacks.
    fn check_definition(
        &self,
        name: Name,
        fact: Name,
        typ: &Typ,
        body: &Term,
    ) -> Result<(), DeclFault>
        ensures new { OnOk result (AreNew self.now.declarations (definition name fact typ.now body.now)) }
        ensures closed { OnOk result ((¬ HasVariable body.now) × (¬ HasExtraTyp typ.now body.now)) }
        ensures fault { IfErr result (IsDefinitionRefusal self.now.declarations (definition name fact typ.now body.now) typ.now body.now) }
    {
        if let Some(_) = self.const_typ(name) {
            return Err(DeclFault::Duplicate);
        }
        if let Some(_) = self.fact(fact) {
            return Err(DeclFault::Duplicate);
        }
        if has_variable(body) {
            return Err(DeclFault::NotClosed);
        }
        if has_extra_typ(typ, body) {
            return Err(DeclFault::ExtraType);
        }
        Ok(())
    }

    /// Defines a constant: declares it with the type, and then an axiom by which it is the body, with type variables schematic in both.
    pub fn declare_definition(
        &self,
        name: Name,
        fact: Name,
        typ: &Typ,
        body: &Term,
    ) -> Result<Theory, DeclFault>
        requires { IsCertifiedOf self.now body.now typ.now }
        ensures ok { IfOk result (λ more. more ≡ with_declarations self.now (self.now.declarations ++ definition name fact typ.now body.now)) }
        ensures new { OnOk result (AreNew self.now.declarations (definition name fact typ.now body.now)) }
        ensures closed { OnOk result ((¬ HasVariable body.now) × (¬ HasExtraTyp typ.now body.now)) }
        ensures fault { IfErr result (IsDefinitionRefusal self.now.declarations (definition name fact typ.now body.now) typ.now body.now) }
    {
        self.content_is_sound();
        self.check_definition(name, fact, typ, body)?;
        let typ = schematic_typ(self.alloc, typ)?;
        let prop = definition_axiom(self.alloc, name, &typ, body)?;
        let constant = self.declare_const(name, &typ)?;
        let more = with_axiom(constant, fact, prop)?;
        Ok(more)
    }
}
