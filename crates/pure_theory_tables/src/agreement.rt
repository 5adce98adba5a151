//! Whether what two lists declare alike is the same.
ghost use Rattle.std.specs.Prelude.{◌≡◌, ◌↔◌, ◌⊎◌, ℕ, IsTrue};
ghost use Rattle.pure_text.specs.Lists.{IsIn, Each};
ghost use Rattle.pure_definitions.specs.Types.Typ as types;
ghost use Rattle.pure_definitions.specs.Terms.Term as terms;
ghost use Rattle.pure_definitions.specs.Declarations.Decl.{ConDecl, ConstDecl, PromiseDecl, IsDeclaredClass};
ghost use Rattle.pure_theory_tables.specs.Facts.{Stated, fact_decl};
ghost use Rattle.pure_theory_tables.specs.View.{decl_of};
ghost use Rattle.pure_theory_tables.specs.Agreement.{IsOfClass, HasAlike, AreOnce, Fits};

use crate::declarations::Declarations;
use crate::entry::Entry;
use pure_term::{Label, Name};

/// Whether the entry is that of the class.
fn is_class(entry: &Entry, name: Name) -> bool
    ensures { IsTrue result ↔ IsOfClass (decl_of entry.now) name }
{
    match entry {
        Entry::Class { name: own, .. } => own.0 == name.0,
        _ => false,
    }
}

impl Declarations {
    /// Whether the class is declared: it is mostly that of the entry under its number, else the list is gone through.
    fn declares_class(&self, name: Name) -> bool
        ensures { IsTrue result ↔ IsDeclaredClass self.now name }
    {
        match self.numbered.get(name.0) {
            None => false,
            Some(entry) => is_class(entry, name) || self.is_class_listed(name),
        }
    }

    /// Whether the class is declared: the list is gone through.
    fn is_class_listed(&self, name: Name) -> bool
        ensures { IsTrue result ↔ IsDeclaredClass self.now name }
    {
        for place in 0..self.count() {
            let Some(entry) = self.entry_at(place) else {
                return false;
            };
            if is_class(entry, name) {
                return true;
            }
        }
        false
    }

    /// Whether the type constructor is declared.
    fn declares_typ(&self, name: Name) -> bool
        ensures { IsTrue result ↔ ((count : ℕ) × IsIn (ConDecl name count) self.now) }
    {
        match self.typ_params(name) {
            None => false,
            Some(_) => true,
        }
    }

    /// Whether the constant is declared.
    fn declares_const(&self, name: Name) -> bool
        ensures { IsTrue result ↔ ((typ : types.Typ) × IsIn (ConstDecl name typ) self.now) }
    {
        match self.const_typ(name) {
            None => false,
            Some(_) => true,
        }
    }

    /// Whether an axiom or a promise has the name.
    fn declares_fact(&self, name: Name) -> bool
        ensures { IsTrue result ↔ ((s : Stated) × IsIn (fact_decl name s) self.now) }
    {
        match self.fact(name) {
            None => false,
            Some(_) => true,
        }
    }

    /// Whether a promise has the label.
    fn declares_label(&self, label: Label) -> bool
        ensures { IsTrue result ↔ ((x : ℕ) × (A : terms.Term) × IsIn (PromiseDecl x label A) self.now) }
    {
        match self.promise_prop(label) {
            None => false,
            Some(_) => true,
        }
    }

    /// Whether a promise has the label, or a fact the name.
    fn declares_promise(&self, name: Name, label: Label) -> bool
        ensures { IsTrue result ↔ (((s : Stated) × IsIn (fact_decl name s) self.now) ⊎ ((x : ℕ) × (A : terms.Term) × IsIn (PromiseDecl x label A) self.now)) }
    {
        self.declares_fact(name) || self.declares_label(label)
    }

    /// Whether a declaration of the list is of the entry's kind with its name, or a promise with its label.
    fn has_alike(&self, entry: &Entry) -> bool
        ensures { IsTrue result ↔ HasAlike self.now (decl_of entry.now) }
    {
        match entry {
            Entry::Class { name, .. } => self.declares_class(*name),
            Entry::Con { name, .. } => self.declares_typ(*name),
            Entry::Arity { .. } => false,
            Entry::Const { name, .. } => self.declares_const(*name),
            Entry::Axiom { name, .. } => self.declares_fact(*name),
            Entry::Promise { name, label, .. } => self.declares_promise(*name, *label),
        }
    }

    /// Whether the entry's declaration stands in the list, which is told at once where it stands at this place.
    pub(crate) fn holds(&self, place: u32, entry: &Entry) -> bool
        ensures { IsTrue result ↔ IsIn (decl_of entry.now) self.now }
    {
        self.is_at(place, entry) || self.has(entry)
    }

    /// Whether what the list declares like the entry is the entry's declaration itself.
    fn fits(&self, place: u32, entry: &Entry) -> bool
        requires { AreOnce self.now }
        ensures { IsTrue result ↔ Fits self.now (decl_of entry.now) }
    {
        self.holds(place, entry) || !self.has_alike(entry)
    }

    /// Whether what the other list declares like a declaration of this one is the same.
    pub fn agrees(&self, other: &Declarations) -> bool
        requires { AreOnce self.now }
        ensures { IsTrue result ↔ Each (Fits self.now) other.now }
    {
        for place in 0..other.count() {
            let Some(entry) = other.entry_at(place) else {
                return true;
            };
            if !self.fits(place, entry) {
                return false;
            }
        }
        true
    }
}
