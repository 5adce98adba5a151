//! Which declarations stand in a list.
ghost use Rattle.std.specs.Prelude.{◌≡◌, ◌↔◌, IsTrue, MatchOption, Some, slice_get};
ghost use Rattle.pure_text.specs.Lists.{IsIn, Each};
ghost use Rattle.pure_theory_tables.specs.Keys.{number_key};
ghost use Rattle.pure_theory_tables.specs.View.{decl_of};
ghost use Rattle.pure_theory_tables.specs.Missing.{IsFirstMissing};
ghost use Rattle.pure_theory_tables.specs.Same.{decl_eq};

use crate::decl::Decl;
use crate::declarations::Declarations;
use crate::entry::{Entry, outline_of};
use crate::labels::is_same_label;
use crate::numbers::arity_key;

/// Whether the entries hold the same declaration.
fn is_same_entry(first: &Entry, second: &Entry) -> bool
    ensures { result ≡ decl_eq (decl_of first.now) (decl_of second.now) }
{
    match (first, second) {
        (Entry::Class { name: c, above: cs }, Entry::Class { name: d, above: ds }) => {
            c.0 == d.0 && cs.as_slice() == ds.as_slice()
        }
        (Entry::Con { name: k, params: m }, Entry::Con { name: l, params: n }) => {
            k.0 == l.0 && *m == *n
        }
        (
            Entry::Arity {
                con: k,
                domains: ss,
                class: c,
            },
            Entry::Arity {
                con: l,
                domains: rs,
                class: d,
            },
        ) => k.0 == l.0 && c.0 == d.0 && ss.as_slice() == rs.as_slice(),
        (Entry::Const { name: c, typ: t }, Entry::Const { name: d, typ: u }) => {
            c.0 == d.0 && **t == **u
        }
        (Entry::Axiom { name: x, prop: p }, Entry::Axiom { name: y, prop: q }) => {
            x.0 == y.0 && **p == **q
        }
        (
            Entry::Promise {
                name: x,
                label: l,
                prop: p,
            },
            Entry::Promise {
                name: y,
                label: m,
                prop: q,
            },
        ) => x.0 == y.0 && is_same_label(*l, *m) && **p == **q,
        _ => false,
    }
}

impl Declarations {
    /// Whether the entry at the place holds the same declaration.
    pub(crate) fn is_at(&self, place: u32, entry: &Entry) -> bool
        ensures { IsTrue result ↔ (slice_get self.now place ≡ Some (decl_of entry.now)) }
    {
        match self.entry_at(place) {
            None => false,
            Some(own) => is_same_entry(own, entry),
        }
    }

    /// Whether the entry's declaration stands in the list, which is gone through.
    fn is_listed(&self, entry: &Entry) -> bool
        ensures { IsTrue result ↔ IsIn (decl_of entry.now) self.now }
    {
        for place in 0..self.count() {
            if self.is_at(place, entry) {
                return true;
            }
        }
        false
    }

    /// Whether the declaration of an entry with this number stands in the list: it is mostly that of the entry under the number, else
    /// the list is gone through.
    fn is_numbered(&self, key: u32, entry: &Entry) -> bool
        requires { number_key (decl_of entry.now) ≡ Some key }
        ensures { IsTrue result ↔ IsIn (decl_of entry.now) self.now }
    {
        match self.numbered.get(key) {
            None => false,
            Some(own) => is_same_entry(own, entry) || self.is_listed(entry),
        }
    }

    /// Whether the entry's declaration stands in the list: classes and arities are looked for under their numbers, and all others under their names.
    pub fn has(&self, entry: &Entry) -> bool
        ensures { IsTrue result ↔ IsIn (decl_of entry.now) self.now }
    {
        match entry {
            Entry::Class { name, .. } => self.is_numbered(name.0, entry),
            Entry::Arity { con, class, .. } => self.is_numbered(arity_key(*con, *class), entry),
            Entry::Con { name, params } => match self.typ_params(*name) {
                None => false,
                Some(own) => own == *params,
            },
            Entry::Const { name, typ } => match self.const_typ(*name) {
                None => false,
                Some(own) => *own == **typ,
            },
            Entry::Axiom { name, prop } => match self.axiom_prop(*name) {
                None => false,
                Some(own) => *own == **prop,
            },
            Entry::Promise { name, label, prop } => match self.promise_of(*name, *label) {
                None => false,
                Some(own) => *own == **prop,
            },
        }
    }

    /// The first declaration of this list that isn't one of the other.
    pub fn first_missing(&self, other: &Declarations) -> Option<Decl>
        ensures { MatchOption result (Each (λ d. IsIn d other.now) self.now) (IsFirstMissing self.now other.now) }
    {
        for place in 0..self.count() {
            let Some(entry) = self.entry_at(place) else {
                return None;
            };
            if !other.is_at(place, entry) && !other.has(entry) {
                return Some(outline_of(entry));
            }
        }
        None
    }
}
