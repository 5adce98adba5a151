//! Look-ups of facts by their written names.
ghost use Rattle.std.specs.Prelude.{◌≡◌, ◌↔◌, ◌⊎◌, ℕ, IsTrue, MatchOption, IfOk, IfSome};
ghost use Rattle.std.specs.Option.{option_map};
ghost use Rattle.pure_text.specs.Lists.{IsIn};
ghost use Rattle.pure_theory_tables.specs.Facts.{fact_decl};
ghost use Rattle.pure_lookup.specs.Meaning.{facts, Declared, IsMeant};
ghost use Rattle.pure_lookup.specs.Laws.{IsInSession};
ghost use Rattle.pure_lookup.specs.LookUps.{IsFoundFact};
ghost use Rattle.pure_theory.specs.FactView.{built_place, seen_fact, IsBuiltText, IsOwnName};

use crate::lookup::{Scoped, Space};
use crate::theory::Theory;
use pure_lookup::{find_name, theory_in};
use pure_term::{Label, Name, Term};
use pure_theorem::Built;
use pure_theory_tables::Statement;
use pure_typ::{Names, NamesByBase};
use std::alloc::AllocError;

/// A fact that a written name means.
#[derive(Drop)]
pub enum Fact {
    /// A built fact.
    Built {
        which: Built,
    },
    /// An axiom, with what it states.
    Axiom {
        name: Name,
        prop: Term,
    },
    /// A promise, with its label and its statement.
    Promised {
        name: Name,
        label: Label,
        prop: Term,
    },
}

/// More names than these with one base are many.
const MANY: usize = 8;

/// Whether many names have the base.
fn is_common(names: &NamesByBase, base: &[u8]) -> bool {
    names.with_base(base).len() > MANY
}

/// Whether the text is one of two.
fn is_either(text: &[u8], full: &[u8], base: &[u8]) -> bool
    ensures { IsTrue result ↔ ((text.now ≡ full.now) ⊎ (text.now ≡ base.now)) }
{
    text == full || text == base
}

/// The built fact whose full name or whose base the text is.
fn built_of(text: &[u8]) -> Option<Built>
    ensures { MatchOption result ((place : ℕ) → ¬ IsBuiltText text.now place) (λ b. IsBuiltText text.now (built_place b)) }
{
    if is_either(text, b"Pure.refl", b"refl") {
        return Some(Built::Refl);
    }
    if is_either(text, b"Pure.subst", b"subst") {
        return Some(Built::Subst);
    }
    if is_either(text, b"Pure.ext", b"ext") {
        return Some(Built::Ext);
    }
    if is_either(text, b"Pure.iff", b"iff") {
        return Some(Built::Iff);
    }
    if is_either(text, b"Pure.mp", b"mp") {
        return Some(Built::Mp);
    }
    if is_either(text, b"Pure.spec", b"spec") {
        return Some(Built::Spec);
    }
    None
}

impl Theory {
    /// The name that stands in the theory itself under the written one.
    fn own_name(&self, names: &Names, written: &[u8]) -> Option<Name>
        ensures { IfSome result (IsOwnName names.now self.now written.now) }
    {
        let Some(own) = self.own_theory() else {
            return None;
        };
        let Some(theory) = names.text(own.name) else {
            return None;
        };
        names.find_in(theory, written)
    }

    /// The axiom or the promise of the theory itself that is written so without a dot: it is the last in load order.
    fn find_own(&self, names: &Names, written: &[u8]) -> Option<(Name, &Statement)>
        requires { IsInSession names.now self.now }
        ensures { IfSome result (λ found. IsMeant names.now self.now facts written.now (Declared found.0) × IsIn (fact_decl found.0 found.1.now) self.now.declarations) }
    {
        if let Some(_) = theory_in(written) {
            return None;
        }
        let Some(name) = self.own_name(names, written) else {
            return None;
        };
        match self.fact(name) {
            None => None,
            Some(statement) => Some((name, statement)),
        }
    }

    /// The name of the axiom or the promise that is written so, with what it states.
    fn find_stated(&self, names: &NamesByBase, written: &[u8]) -> Option<(Name, &Statement)>
        requires { IsInSession names.now self.now }
        ensures { MatchOption result
            ((n : ℕ) → ¬ IsMeant names.now self.now facts written.now (Declared n))
            (λ found. IsMeant names.now self.now facts written.now (Declared found.0) × IsIn (fact_decl found.0 found.1.now) self.now.declarations) }
    {
        if is_common(names, written) {
            if let Some(found) = self.find_own(names.names(), written) {
                return Some(found);
            }
        }
        self.find_any(names, written)
    }

    /// The same, of all that is visible.
    fn find_any(&self, names: &NamesByBase, written: &[u8]) -> Option<(Name, &Statement)>
        requires { IsInSession names.now self.now }
        ensures { MatchOption result
            ((n : ℕ) → ¬ IsMeant names.now self.now facts written.now (Declared n))
            (λ found. IsMeant names.now self.now facts written.now (Declared found.0) × IsIn (fact_decl found.0 found.1.now) self.now.declarations) }
    {
        let scope = Scoped {
            theory: self,
            space: Space::Facts,
        };
        let Some(name) = find_name(&scope, names, written) else {
            return None;
        };
        match self.fact(name) {
            None => None,
            Some(statement) => Some((name, statement)),
        }
    }

    /// The fact that is written so; none exactly where the written name means nothing.
    pub fn find_fact(&self, names: &NamesByBase, written: &[u8]) -> Result<Option<Fact>, AllocError>
        requires { IsInSession names.now self.now }
        ensures { IfOk result (λ found. IsFoundFact names.now self.now written.now (option_map seen_fact found)) }
    {
        let Some((name, statement)) = self.find_stated(names, written) else {
            return match built_of(written) {
                None => Ok(None),
                Some(which) => Ok(Some(Fact::Built { which })),
            };
        };
        let prop = statement.prop().copy(self.alloc)?;
        match statement.label() {
            None => Ok(Some(Fact::Axiom { name, prop })),
            Some(label) => Ok(Some(Fact::Promised { name, label, prop })),
        }
    }
}
