//! Lists of declarations, in tables that grow from one another.
ghost use Rattle.std.specs.Prelude.{◌≡◌, ◌↔◌, ℕ, [], ◌∷◌, ◌++◌, IfOk, MatchOption, None, Some, length, slice_get};
ghost use Rattle.std.specs.Option.{option_map};
ghost use Rattle.pure_text.specs.Lists.{IsIn};
ghost use Rattle.pure_definitions.specs.Types.Typ as types;
ghost use Rattle.pure_definitions.specs.Terms.Term as terms;
ghost use Rattle.pure_definitions.specs.Declarations.Decl.{ClassDecl, ConDecl, ArityDecl, ConstDecl, AxiomDecl, PromiseDecl};
ghost use Rattle.pure_certify.specs.Tables.{IsParams};
ghost use Rattle.pure_theory_tables.specs.Facts.{Stated, fact_decl};
ghost use Rattle.pure_theory_tables.specs.View.{decl_of, outline};
ghost use Rattle.pure_theory_tables.specs.Tables.{IsIndexOf};

use crate::decl::Decl;
use crate::entry::{Entry, outline_of};
use crate::fact::Statement;
use crate::index::Index;
use crate::numbers::with_number;
use crate::pointers::shared;
use crate::shelves::put;
use pure_shared_maps::Shelf;
use pure_term::{Label, Name, Sort, Term, Typ};
use std::alloc::{AllocError, Global};
use std::marker::Model;
use std::sync::Arc;

/// A list of declarations, which contracts see as such. Its entries stand by their places, and tables answer questions by names and labels, and give the
/// entry of a class or an arity by its number; lists that grow from this one share all but a few short runs of each table.
#[derive(Drop)]
pub struct Declarations {
    pub(crate) alloc: Global,
    pub(crate) list: Shelf<Entry>,
    pub(crate) index: Index,
    pub(crate) numbered: Shelf<Entry>,
}

impl Model for Declarations {
    ghost use Rattle.std.specs.Prelude.{List};
    ghost use Rattle.std.specs.Coded.{coded_list};
    ghost use Rattle.pure_definitions.specs.Declarations.Decl as tree;
    ghost use Rattle.pure_theory_tables.specs.Codes.{coded_decl};

    ghost Value = { List tree.Decl };

    ghost coded = { coded_list coded_decl };

    ghost use Rattle.pure_theory_tables.specs.View.{in_order};
    ghost use Rattle.pure_theory_tables.specs.Tables.{AreTables};

    ghost view = { λ d. in_order d.list };

    ghost invariant = { λ d. AreTables d.list d.index d.numbered (in_order d.list) };
}

/// The questions.
impl Declarations {
    /// The count of declarations.
    pub fn count(&self) -> u32
        ensures { result ≡ length self.now }
    {
        self.list.count()
    }

    /// The entry at the place, from 0.
    pub fn entry_at(&self, place: u32) -> Option<&Entry>
        ensures { MatchOption result (slice_get self.now place ≡ None) (λ entry. slice_get self.now place ≡ Some (decl_of entry.now)) }
    {
        match self.list.get(place) {
            None => None,
            Some(entry) => Some(entry),
        }
    }

    /// The pointer to the entry at the place, from 0.
    pub(crate) fn pointer_at(&self, place: u32) -> Option<&Arc<Entry>>
        ensures { MatchOption result (slice_get self.now place ≡ None) (λ entry. slice_get self.now place ≡ Some (decl_of entry.now.value)) }
    {
        match self.list.pointer(place) {
            None => None,
            Some(entry) => Some(entry),
        }
    }

    /// Which declaration stands at the place, from 0.
    pub fn decl_at(&self, place: u32) -> Option<Decl>
        ensures { result ≡ option_map outline (slice_get self.now place) }
    {
        match self.entry_at(place) {
            None => None,
            Some(entry) => Some(outline_of(entry)),
        }
    }

    /// How many arguments the type constructor takes; none exactly where it isn't declared.
    pub fn typ_params(&self, name: Name) -> Option<u32>
        ensures { IsParams self.now name result }
    {
        match self.index.typs.get(name.0) {
            None => None,
            Some(params) => Some(*params),
        }
    }

    /// The constant's type; none exactly where it isn't declared.
    pub fn const_typ(&self, name: Name) -> Option<&Typ>
        ensures { MatchOption result ((T : types.Typ) → ¬ IsIn (ConstDecl name T) self.now) (λ T. (U : types.Typ) → IsIn (ConstDecl name U) self.now ↔ (U ≡ T.now)) }
    {
        match self.index.consts.get(name.0) {
            None => None,
            Some(typ) => Some(typ),
        }
    }

    /// What the fact of this name states; none exactly where neither an axiom nor a promise has the name.
    pub fn fact(&self, name: Name) -> Option<&Statement>
        ensures { MatchOption result ((s : Stated) → ¬ IsIn (fact_decl name s) self.now) (λ s. (t : Stated) → IsIn (fact_decl name t) self.now ↔ (t ≡ s.now)) }
    {
        match self.index.facts.get(name.0) {
            None => None,
            Some(statement) => Some(statement),
        }
    }

    /// What the axiom states; none exactly where there is no such axiom.
    pub fn axiom_prop(&self, name: Name) -> Option<&Term>
        ensures { MatchOption result ((A : terms.Term) → ¬ IsIn (AxiomDecl name A) self.now) (λ A. (B : terms.Term) → IsIn (AxiomDecl name B) self.now ↔ (B ≡ A.now)) }
    {
        match self.fact(name) {
            None => None,
            Some(statement) => statement.of_axiom(),
        }
    }

    /// The statement of the promise with the name and the label; none exactly where there is no such promise.
    pub fn promise_of(&self, name: Name, label: Label) -> Option<&Term>
        ensures { MatchOption result ((A : terms.Term) → ¬ IsIn (PromiseDecl name label A) self.now) (λ A. (B : terms.Term) → IsIn (PromiseDecl name label B) self.now ↔ (B ≡ A.now)) }
    {
        match self.fact(name) {
            None => None,
            Some(statement) => statement.of_label(label),
        }
    }

    /// The statement of the promise with the label; none exactly where there is no such promise.
    pub fn promise_prop(&self, label: Label) -> Option<&Term>
        ensures { MatchOption result ((x : ℕ) (A : terms.Term) → ¬ IsIn (PromiseDecl x label A) self.now) (λ A. (x : ℕ) × IsIn (PromiseDecl x label A.now) self.now) }
    {
        self.index.promise_prop(label)
    }
}

/// The lists that grow from others.
impl Declarations {
    /// No declarations.
    pub fn empty(alloc: Global) -> Result<Declarations, AllocError>
        ensures { IfOk result (λ none. none ≡ []) }
    {
        let index = Index::empty(alloc)?;
        Ok(Declarations {
            alloc,
            list: Shelf::empty(alloc),
            index,
            numbered: Shelf::empty(alloc),
        })
    }

    /// The same list, which shares all parts.
    pub fn share(&self) -> Result<Declarations, AllocError>
        ensures { IfOk result (λ same. same ≡ self.now) }
    {
        let list = self.list.share()?;
        let index = self.index.share()?;
        let numbered = self.numbered.share()?;
        Ok(Declarations {
            alloc: self.alloc,
            list,
            index,
            numbered,
        })
    }

    /// The list with an entry more, whose tables are given.
    fn grown(&self, entry: Entry, index: Index) -> Result<Declarations, AllocError>
        requires { IsIndexOf index (self.now ++ decl_of entry ∷ []) }
        ensures { IfOk result (λ more. more ≡ self.now ++ decl_of entry ∷ []) }
    {
        let entry = shared(self.alloc, entry)?;
        let numbered = with_number(&self.numbered, &entry)?;
        let list = put(&self.list, self.list.count(), entry)?;
        Ok(Declarations {
            alloc: self.alloc,
            list,
            index,
            numbered,
        })
    }

    /// The list with a class more.
    pub fn with_class(&self, name: Name, above: Arc<Vec<Name>>) -> Result<Declarations, AllocError>
        ensures { IfOk result (λ more. more ≡ self.now ++ ClassDecl (record { name = name; above = above.value.items }) ∷ []) }
    {
        let index = self.index.share()?;
        let more = self.grown(Entry::Class { name, above }, index)?;
        Ok(more)
    }

    /// The list with a type constructor more.
    pub fn with_typ(&self, name: Name, params: u32) -> Result<Declarations, AllocError>
        requires { (n : ℕ) → ¬ IsIn (ConDecl name n) self.now }
        ensures { IfOk result (λ more. more ≡ self.now ++ ConDecl name params ∷ []) }
    {
        let index = self.index.with_typ(self.alloc, name, params)?;
        let more = self.grown(Entry::Con { name, params }, index)?;
        Ok(more)
    }

    /// The list with an arity more.
    pub fn with_arity(
        &self,
        con: Name,
        domains: Arc<Vec<Sort>>,
        class: Name,
    ) -> Result<Declarations, AllocError>
        ensures { IfOk result (λ more. more ≡ self.now ++ ArityDecl (record { con = con; domains = domains.value.items; class = class }) ∷ []) }
    {
        let index = self.index.share()?;
        let more = self.grown(
            Entry::Arity {
                con,
                domains,
                class,
            },
            index,
        )?;
        Ok(more)
    }

    /// The list with a constant more.
    pub fn with_const(&self, name: Name, typ: Arc<Typ>) -> Result<Declarations, AllocError>
        requires { (T : types.Typ) → ¬ IsIn (ConstDecl name T) self.now }
        ensures { IfOk result (λ more. more ≡ self.now ++ ConstDecl name typ.value ∷ []) }
    {
        let same = Arc::try_clone(&typ)?;
        let index = self.index.with_const(name, same)?;
        let more = self.grown(Entry::Const { name, typ }, index)?;
        Ok(more)
    }

    /// The list with an axiom more.
    pub fn with_axiom(&self, name: Name, prop: Arc<Term>) -> Result<Declarations, AllocError>
        requires { (s : Stated) → ¬ IsIn (fact_decl name s) self.now }
        ensures { IfOk result (λ more. more ≡ self.now ++ AxiomDecl name prop.value ∷ []) }
    {
        let same = Arc::try_clone(&prop)?;
        let index = self.index.with_axiom(self.alloc, name, same)?;
        let more = self.grown(Entry::Axiom { name, prop }, index)?;
        Ok(more)
    }

    /// The list with a promise more.
    pub fn with_promise(
        &self,
        name: Name,
        label: Label,
        prop: Arc<Term>,
    ) -> Result<Declarations, AllocError>
        requires { (s : Stated) → ¬ IsIn (fact_decl name s) self.now }
        ensures { IfOk result (λ more. more ≡ self.now ++ PromiseDecl name label prop.value ∷ []) }
    {
        let same = Arc::try_clone(&prop)?;
        let index = self.index.with_promise(self.alloc, name, label, same)?;
        let more = self.grown(Entry::Promise { name, label, prop }, index)?;
        Ok(more)
    }
}
