//! Theories, which grow by declarations.
ghost use Rattle.std.specs.Prelude.{◌≡◌, ◌↔◌, ℕ, List, IfOk, MatchOption, slice_get};
ghost use Rattle.std.specs.Option.{option_map};
ghost use Rattle.pure_text.specs.Lists.{IsIn};
ghost use Rattle.pure_definitions.specs.Terms.Term as terms;
ghost use Rattle.pure_definitions.specs.Declarations.Decl.{AxiomDecl, PromiseDecl, algebra_of};
ghost use Rattle.pure_certify.specs.Tables.{IsParams, IsConstOf, IsUnknownConst};
ghost use Rattle.pure_logic.specs.PureContent.{pure_content};
ghost use Rattle.pure_theory_tables.specs.Facts.{Stated, fact_decl};
ghost use Rattle.pure_theory_tables.specs.View.{outline};
ghost use Rattle.pure_theory.specs.Stage.{IsSound, IsStage, with_declarations};

use crate::pure::pure_declarations;
use crate::theory_id::Known;
use pure_order::Order;
use pure_term::{Label, Name, Term, Typ};
use pure_theory_tables::{Decl, Declarations, Statement, shared};
use std::alloc::{AllocError, Global};
use std::marker::Model;
use std::sync::Arc;

/// A theory at some point, which contracts see as its content. What is declared stands in tables that theories share which grow from one another; classes
/// and arities stand in an order that they share until another class or arity is declared.
#[derive(Drop)]
pub struct Theory {
    pub(crate) alloc: Global,
    pub(crate) declared: Declarations,
    pub(crate) order: Arc<Order>,
    pub(crate) own: Option<Known>,
    pub(crate) ancestors: Arc<Vec<Known>>,
}

/// A theory that others share.
pub type Stage = Arc<Theory>;

impl Model for Theory {
    ghost use Rattle.pure_logic.specs.Content.{Content};
    ghost use Rattle.pure_theory.specs.Codes.{coded_content};
    ghost use Rattle.pure_theory.specs.Stage.{IsStage};

    ghost Value = { Content };

    ghost coded = { coded_content };

    ghost view = { λ t. record { declarations = t.declared; own = t.own; ancestors = t.ancestors.value.items } };

    ghost invariant = { λ t. IsStage (record { declarations = t.declared; own = t.own; ancestors = t.ancestors.value.items }) t.order.value };
}

/// Questions that take no memory.
impl Theory {
    /// The name handed to `begin`; none exactly where the theory is Pure itself.
    pub fn name(&self) -> Option<Name>
        ensures { result ≡ option_map (λ t. t.name) self.now.own }
    {
        match &self.own {
            None => None,
            Some(own) => Some(own.name),
        }
    }

    /// The theory itself; none exactly where it is Pure.
    pub(crate) fn own_theory(&self) -> Option<Known>
        ensures { result ≡ self.now.own }
    {
        self.own
    }

    /// The ancestors.
    pub(crate) fn ancestor_list(&self) -> &[Known]
        ensures { result.now ≡ self.now.ancestors }
    {
        self.ancestors.as_slice()
    }

    /// The classes and arities.
    pub fn order(&self) -> &Order
        ensures { result.now ≡ algebra_of self.now.declarations }
    {
        &*self.order
    }

    /// How many arguments the type constructor takes; none exactly where it isn't declared.
    pub fn typ_params(&self, name: Name) -> Option<u32>
        ensures { IsParams self.now.declarations name result }
    {
        self.declared.typ_params(name)
    }

    /// The constant's type; none exactly where it isn't declared.
    pub fn const_typ(&self, name: Name) -> Option<&Typ>
        ensures { MatchOption result (IsUnknownConst self.now.declarations name) (λ T. IsConstOf self.now.declarations name T.now) }
    {
        self.declared.const_typ(name)
    }

    /// What the fact of this name states; none exactly where neither an axiom nor a promise has the name.
    pub fn fact(&self, name: Name) -> Option<&Statement>
        ensures { MatchOption result ((s : Stated) → ¬ IsIn (fact_decl name s) self.now.declarations) (λ s. (t : Stated) → IsIn (fact_decl name t) self.now.declarations ↔ (t ≡ s.now)) }
    {
        self.declared.fact(name)
    }

    /// What the axiom states; none exactly where there is no such axiom.
    pub fn axiom_prop(&self, name: Name) -> Option<&Term>
        ensures { MatchOption result ((A : terms.Term) → ¬ IsIn (AxiomDecl name A) self.now.declarations) (λ A. (B : terms.Term) → IsIn (AxiomDecl name B) self.now.declarations ↔ (B ≡ A.now)) }
    {
        self.declared.axiom_prop(name)
    }

    /// The statement of the promise with the label; none exactly where there is no such promise.
    pub fn promise_prop(&self, label: Label) -> Option<&Term>
        ensures { MatchOption result ((x : ℕ) (A : terms.Term) → ¬ IsIn (PromiseDecl x label A) self.now.declarations) (λ A. (x : ℕ) × IsIn (PromiseDecl x label A.now) self.now.declarations) }
    {
        self.declared.promise_prop(label)
    }

    /// The declaration at the place, from 0; none exactly where there is no such place.
    pub fn decl_at(&self, place: u32) -> Option<Decl>
        ensures { result ≡ option_map outline (slice_get self.now.declarations place) }
    {
        self.declared.decl_at(place)
    }

    /// The theory's content is sound.
    pub fn content_is_sound(&self)
        ensures { IsSound self.now }
    {
        let _ = &self.own;
    }
}

/// The first theory, and those that grow from others.
impl Theory {
    /// Pure itself.
    pub fn pure(alloc: Global) -> Result<Theory, AllocError>
        ensures { IfOk result (λ t. t ≡ pure_content) }
    {
        let order = shared(alloc, Order::empty(alloc))?;
        let none = Vec::new(alloc);
        let ancestors = shared(alloc, none)?;
        let declared = pure_declarations(alloc)?;
        Ok(Theory {
            alloc,
            declared,
            order,
            own: None,
            ancestors,
        })
    }

    /// The theory with these declarations.
    pub(crate) fn with(
        &self,
        declared: Declarations,
        order: Arc<Order>,
    ) -> Result<Theory, AllocError>
        requires { IsStage (with_declarations self.now declared) order.value }
        ensures { IfOk result (λ t. t ≡ with_declarations self.now declared) }
    {
        let ancestors = Arc::try_clone(&self.ancestors)?;
        Ok(Theory {
            alloc: self.alloc,
            declared,
            order,
            own: self.own,
            ancestors,
        })
    }
}
