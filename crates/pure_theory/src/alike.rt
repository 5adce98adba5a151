//! Types and statements that are those of what was declared last, where they are equal.
ghost use Rattle.std.specs.Prelude.{◌≡◌, IfOk, IsTrue};

use crate::theory::Theory;
use pure_term::{Term, Typ, size};
use pure_theorem::{are_same, are_same_typs};
use pure_theory_tables::{Entry, shared};
use pure_typ::size_of_typ;
use std::alloc::{AllocError, Global};
use std::sync::Arc;

/// Whether the types are equal; ones of different sizes, which they keep, aren't walked through.
fn are_typs_alike(last: &Typ, typ: &Typ) -> bool
    ensures { IsTrue result → last.now ≡ typ.now }
{
    if size_of_typ(last) != size_of_typ(typ) {
        return false;
    }
    are_same_typs(last, typ)
}

/// Whether the terms are equal; ones of different sizes, which they keep, aren't walked through.
fn are_alike(last: &Term, prop: &Term) -> bool
    ensures { IsTrue result → last.now ≡ prop.now }
{
    if size(last) != size(prop) {
        return false;
    }
    are_same(last, prop)
}

/// The type, to be shared: the other one where they are equal.
fn typ_like(alloc: Global, last: Option<&Arc<Typ>>, typ: &Typ) -> Result<Arc<Typ>, AllocError>
    ensures { IfOk result (λ pointer. pointer.value ≡ typ.now) }
{
    if let Some(last) = last {
        if are_typs_alike(last, typ) {
            return Arc::try_clone(last);
        }
    }
    let copy = typ.copy(alloc)?;
    shared(alloc, copy)
}

/// The statement, to be shared: the other one where they are equal.
fn prop_like(alloc: Global, last: Option<&Arc<Term>>, prop: Term) -> Result<Arc<Term>, AllocError>
    ensures { IfOk result (λ pointer. pointer.value ≡ prop) }
{
    if let Some(last) = last {
        if are_alike(last, &prop) {
            return Arc::try_clone(last);
        }
    }
    shared(alloc, prop)
}

/// What is shared with the declaration before: constants of one type in a row, or facts of one statement, take the room of one.
impl Theory {
    /// What was declared last.
    fn last_entry(&self) -> Option<&Entry> {
        let count = self.declared.count();
        if count == 0 {
            return None;
        }
        self.declared.entry_at(count - 1)
    }

    /// The type of what was declared last, if that is a constant.
    fn last_typ(&self) -> Option<&Arc<Typ>> {
        match self.last_entry() {
            Some(Entry::Const { typ, .. }) => Some(typ),
            _ => None,
        }
    }

    /// The statement of what was declared last, if that is a fact.
    fn last_prop(&self) -> Option<&Arc<Term>> {
        match self.last_entry() {
            Some(Entry::Axiom { prop, .. }) => Some(prop),
            Some(Entry::Promise { prop, .. }) => Some(prop),
            _ => None,
        }
    }

    /// The type, to be shared.
    pub(crate) fn shared_typ(&self, typ: &Typ) -> Result<Arc<Typ>, AllocError>
        ensures { IfOk result (λ pointer. pointer.value ≡ typ.now) }
    {
        typ_like(self.alloc, self.last_typ(), typ)
    }

    /// The statement, to be shared.
    pub fn shared_prop(&self, prop: Term) -> Result<Arc<Term>, AllocError>
        ensures { IfOk result (λ pointer. pointer.value ≡ prop) }
    {
        prop_like(self.alloc, self.last_prop(), prop)
    }
}
