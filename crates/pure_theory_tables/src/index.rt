//! Tables of type constructors, constants and facts by their names, and of promises by their labels.
ghost use Rattle.std.specs.Prelude.{◌≡◌, ℕ, List, [], ◌∷◌, ◌++◌, IfOk, MatchOption, None, Some};
ghost use Rattle.std.specs.FinMap.{get};
ghost use Rattle.pure_text.specs.Lists.{IsIn};
ghost use Rattle.pure_definitions.specs.Terms.Term as tree;
ghost use Rattle.pure_definitions.specs.Declarations.Decl.{Decl, ConDecl, ConstDecl, AxiomDecl, PromiseDecl};
ghost use Rattle.pure_logic.specs.Content.{AreNamedAlike};
ghost use Rattle.pure_theory_tables.specs.Keys.{label_key};
ghost use Rattle.pure_theory_tables.specs.Tables.{IsIndexOf, IsOther};
ghost use Rattle.pure_theory_tables.specs.View.{decl_of};

use crate::entry::Entry;
use crate::fact::Statement;
use crate::labels::Labels;
use crate::shelves::put;
use pure_shared_maps::Shelf;
use pure_term::{Label, Name, Term, Typ};
use std::alloc::{AllocError, Global};
use std::sync::Arc;

/// The counts of arguments of type constructors, the types of constants and the statements of facts, by their names; and the names of promises by their labels.
#[derive(Drop)]
pub struct Index {
    pub(crate) typs: Shelf<u32>,
    pub(crate) consts: Shelf<Typ>,
    pub(crate) facts: Shelf<Statement>,
    labels: Labels,
}

impl Index {
    /// The tables of no declarations.
    pub(crate) fn empty(alloc: Global) -> Result<Index, AllocError>
        ensures { IfOk result (λ index. IsIndexOf index []) }
    {
        let labels = Labels::empty(alloc)?;
        Ok(Index {
            typs: Shelf::empty(alloc),
            consts: Shelf::empty(alloc),
            facts: Shelf::empty(alloc),
            labels,
        })
    }

    /// The same tables, which are shared. They are those of the declarations with a class or an arity more, too.
    pub(crate) fn share(&self) -> Result<Index, AllocError>
        ensures same { IfOk result (λ same. (ds : List Decl) → IsIndexOf self.now ds → IsIndexOf same ds) }
        ensures other { IfOk result (λ same. (ds : List Decl) (d : Decl) → IsOther d → IsIndexOf self.now ds → IsIndexOf same (ds ++ d ∷ [])) }
    {
        let typs = self.typs.share()?;
        let consts = self.consts.share()?;
        let facts = self.facts.share()?;
        let labels = self.labels.share()?;
        Ok(Index {
            typs,
            consts,
            facts,
            labels,
        })
    }

    /// The tables with the entry's declaration more.
    pub(crate) fn with_entry(self, alloc: Global, entry: &Entry) -> Result<Index, AllocError>
        requires { (ds : List Decl) × IsIndexOf self ds × ((e : Decl) → IsIn e ds → ¬ AreNamedAlike (decl_of entry.now) e) }
        ensures { IfOk result (λ more. (ds : List Decl) → IsIndexOf self ds → IsIndexOf more (ds ++ decl_of entry.now ∷ [])) }
    {
        match entry {
            Entry::Class { .. } => Ok(self),
            Entry::Arity { .. } => Ok(self),
            Entry::Con { name, params } => self.with_typ(alloc, *name, *params),
            Entry::Const { name, typ } => {
                let typ = Arc::try_clone(typ)?;
                self.with_const(*name, typ)
            }
            Entry::Axiom { name, prop } => {
                let prop = Arc::try_clone(prop)?;
                self.with_axiom(alloc, *name, prop)
            }
            Entry::Promise { name, label, prop } => {
                let prop = Arc::try_clone(prop)?;
                self.with_promise(alloc, *name, *label, prop)
            }
        }
    }

    /// The tables with a type constructor more.
    pub(crate) fn with_typ(
        &self,
        alloc: Global,
        name: Name,
        params: u32,
    ) -> Result<Index, AllocError>
        requires { get self.now.typs name ≡ None }
        ensures { IfOk result (λ more. (ds : List Decl) → IsIndexOf self.now ds → IsIndexOf more (ds ++ ConDecl name params ∷ [])) }
    {
        let params = Arc::new(alloc, params)?;
        let typs = put(&self.typs, name.0, params)?;
        let consts = self.consts.share()?;
        let facts = self.facts.share()?;
        let labels = self.labels.share()?;
        Ok(Index {
            typs,
            consts,
            facts,
            labels,
        })
    }

    /// The tables with a constant more.
    pub(crate) fn with_const(&self, name: Name, typ: Arc<Typ>) -> Result<Index, AllocError>
        requires { get self.now.consts name ≡ None }
        ensures { IfOk result (λ more. (ds : List Decl) → IsIndexOf self.now ds → IsIndexOf more (ds ++ ConstDecl name typ.value ∷ [])) }
    {
        let typs = self.typs.share()?;
        let consts = put(&self.consts, name.0, typ)?;
        let facts = self.facts.share()?;
        let labels = self.labels.share()?;
        Ok(Index {
            typs,
            consts,
            facts,
            labels,
        })
    }

    /// The tables with an axiom more.
    pub(crate) fn with_axiom(
        &self,
        alloc: Global,
        name: Name,
        prop: Arc<Term>,
    ) -> Result<Index, AllocError>
        requires { get self.now.facts name ≡ None }
        ensures { IfOk result (λ more. (ds : List Decl) → IsIndexOf self.now ds → IsIndexOf more (ds ++ AxiomDecl name prop.value ∷ [])) }
    {
        let statement = Arc::new(alloc, Statement::make(None, prop))?;
        let typs = self.typs.share()?;
        let consts = self.consts.share()?;
        let facts = put(&self.facts, name.0, statement)?;
        let labels = self.labels.share()?;
        Ok(Index {
            typs,
            consts,
            facts,
            labels,
        })
    }

    /// The tables with a promise more.
    pub(crate) fn with_promise(
        &self,
        alloc: Global,
        name: Name,
        label: Label,
        prop: Arc<Term>,
    ) -> Result<Index, AllocError>
        requires { get self.now.facts name ≡ None }
        ensures { IfOk result (λ more. (ds : List Decl) → IsIndexOf self.now ds → IsIndexOf more (ds ++ PromiseDecl name label prop.value ∷ [])) }
    {
        let statement = Arc::new(alloc, Statement::make(Some(label), prop))?;
        let typs = self.typs.share()?;
        let consts = self.consts.share()?;
        let facts = put(&self.facts, name.0, statement)?;
        let labels = self.labels.with(alloc, name, label)?;
        Ok(Index {
            typs,
            consts,
            facts,
            labels,
        })
    }

    /// The statement of the promise, if it has the name and the label.
    fn promise(&self, name: Name, label: Label) -> Option<&Term>
        ensures { MatchOption result ((A : tree.Term) → ¬ (get self.now.facts name ≡ Some (record { label = Some label; prop = A }))) (λ A. get self.now.facts name ≡ Some (record { label = Some label; prop = A.now })) }
    {
        match self.facts.get(name.0) {
            None => None,
            Some(statement) => statement.of_label(label),
        }
    }

    /// The statement of the promise with the label, if its name is among the rest.
    fn promise_in_rest(&self, label: Label) -> Option<&Term>
        ensures { MatchOption result
            ((x : ℕ) (A : tree.Term) → IsIn x self.now.labels.rest.value.items → ¬ (get self.now.facts x ≡ Some (record { label = Some label; prop = A })))
            (λ A. (x : ℕ) × (get self.now.facts x ≡ Some (record { label = Some label; prop = A.now }))) }
    {
        for name in self.labels.rest() {
            if let Some(prop) = self.promise(*name, label) {
                return Some(prop);
            }
        }
        None
    }

    /// The statement of the promise with the label, if it stands under the label's number.
    fn promise_in_place(&self, label: Label) -> Option<&Term>
        ensures { MatchOption result
            ((x : ℕ) (A : tree.Term) → get self.now.labels.by_key (label_key label) ≡ Some x → ¬ (get self.now.facts x ≡ Some (record { label = Some label; prop = A })))
            (λ A. (x : ℕ) × (get self.now.facts x ≡ Some (record { label = Some label; prop = A.now }))) }
    {
        match self.labels.first(label) {
            None => None,
            Some(name) => match self.promise(*name, label) {
                None => None,
                Some(prop) => Some(prop),
            },
        }
    }

    /// The statement of the promise with the label.
    pub(crate) fn promise_prop(&self, label: Label) -> Option<&Term>
        ensures { (ds : List Decl) → IsIndexOf self.now ds → MatchOption result ((x : ℕ) (A : tree.Term) → ¬ IsIn (PromiseDecl x label A) ds) (λ A. (x : ℕ) × IsIn (PromiseDecl x label A.now) ds) }
    {
        match self.promise_in_place(label) {
            Some(prop) => Some(prop),
            None => match self.promise_in_rest(label) {
                None => None,
                Some(prop) => Some(prop),
            },
        }
    }
}
