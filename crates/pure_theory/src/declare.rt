//! Declarations: each makes a theory with just one declaration more.
ghost use Rattle.std.specs.Prelude.{◌≡◌, IfOk, IfErr, OnOk};
ghost use Rattle.pure_definitions.specs.Declarations.Decl.{ConDecl, ConstDecl, AxiomDecl, PromiseDecl};
ghost use Rattle.pure_definitions.specs.Declarations.Certified.{IsCertifiedTyp};
ghost use Rattle.pure_logic.specs.Content.{IsSchematicTyp, IsStatement};
ghost use Rattle.pure_theory.specs.Stage.{with_decl};
ghost use Rattle.pure_theory.specs.Refusals.{HasNamesake, IsNameRefusal, IsLabelAbove};

use crate::fault::DeclFault;
use crate::theory::Theory;
use pure_term::{Label, Name, Term, Typ};
use std::sync::Arc;

impl Theory {
    /// Declares a type constructor, with the count of its arguments.
    pub fn declare_typ(&self, name: Name, params: u32) -> Result<Theory, DeclFault>
        ensures ok { IfOk result (λ more. more ≡ with_decl self.now (ConDecl name params)) }
        ensures new { OnOk result (¬ HasNamesake self.now.declarations (ConDecl name params)) }
        ensures fault { IfErr result (IsNameRefusal self.now.declarations (ConDecl name params)) }
    {
        if let Some(_old) = self.declared.typ_params(name) {
            return Err(DeclFault::Duplicate);
        }
        let order = Arc::try_clone(&self.order)?;
        let declared = self.declared.with_typ(name, params)?;
        let more = self.with(declared, order)?;
        Ok(more)
    }

    /// Declares a constant, with its type.
    pub fn declare_const(&self, name: Name, typ: &Typ) -> Result<Theory, DeclFault>
        requires certified { IsCertifiedTyp self.now.declarations typ.now }
        requires schematic { IsSchematicTyp typ.now }
        ensures ok { IfOk result (λ more. more ≡ with_decl self.now (ConstDecl name typ.now)) }
        ensures new { OnOk result (¬ HasNamesake self.now.declarations (ConstDecl name typ.now)) }
        ensures fault { IfErr result (IsNameRefusal self.now.declarations (ConstDecl name typ.now)) }
    {
        if let Some(_old) = self.declared.const_typ(name) {
            return Err(DeclFault::Duplicate);
        }
        let typ = self.shared_typ(typ)?;
        let order = Arc::try_clone(&self.order)?;
        let declared = self.declared.with_const(name, typ)?;
        let more = self.with(declared, order)?;
        Ok(more)
    }

    /// Declares an axiom, whose statement the theory shares.
    pub fn declare_axiom(&self, name: Name, prop: Arc<Term>) -> Result<Theory, DeclFault>
        requires { IsStatement self.now prop.value }
        ensures ok { IfOk result (λ more. more ≡ with_decl self.now (AxiomDecl name prop.value)) }
        ensures new { OnOk result (¬ HasNamesake self.now.declarations (AxiomDecl name prop.value)) }
        ensures fault { IfErr result (IsNameRefusal self.now.declarations (AxiomDecl name prop.value)) }
    {
        if let Some(_old) = self.declared.fact(name) {
            return Err(DeclFault::Duplicate);
        }
        let order = Arc::try_clone(&self.order)?;
        let declared = self.declared.with_axiom(name, prop)?;
        let more = self.with(declared, order)?;
        Ok(more)
    }

    /// Declares a promise, whose label comes after those of all others. The theory shares its statement.
    pub fn declare_promise(
        &self,
        name: Name,
        label: Label,
        prop: Arc<Term>,
    ) -> Result<Theory, DeclFault>
        requires statement { IsStatement self.now prop.value }
        requires label { IsLabelAbove self.now.declarations label }
        ensures ok { IfOk result (λ more. more ≡ with_decl self.now (PromiseDecl name label prop.value)) }
        ensures new { OnOk result (¬ HasNamesake self.now.declarations (PromiseDecl name label prop.value)) }
        ensures fault { IfErr result (IsNameRefusal self.now.declarations (PromiseDecl name label prop.value)) }
    {
        if let Some(_old) = self.declared.fact(name) {
            return Err(DeclFault::Duplicate);
        }
        let order = Arc::try_clone(&self.order)?;
        let declared = self.declared.with_promise(name, label, prop)?;
        let more = self.with(declared, order)?;
        Ok(more)
    }
}
