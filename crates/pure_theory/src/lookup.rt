//! Look-ups of classes, type constructors and constants by their written names.
ghost use Rattle.std.specs.Prelude.{◌↔◌, ◌≡◌, ℕ, IsTrue, MatchOption, Some};
ghost use Rattle.pure_text.specs.Lists.{IsIn};
ghost use Rattle.pure_definitions.specs.Types.Typ as types;
ghost use Rattle.pure_definitions.specs.Declarations.Decl.{ConDecl, ConstDecl, IsDeclaredClass};
ghost use Rattle.pure_lookup.specs.Meaning.{IsDeclaredIn, classes, constructors, constants, facts};
ghost use Rattle.pure_logic.specs.Content.{TheoryId};
ghost use Rattle.pure_lookup.specs.Places.{IsIndexOf};
ghost use Rattle.pure_lookup.specs.Laws.{IsInSession};
ghost use Rattle.pure_lookup.specs.LookUps.{IsFoundName};
ghost use Rattle.pure_theory.specs.Spaces.{seen_space};

use crate::theory::Theory;
use crate::theory_id::Known;
use pure_lookup::{Scope, find_name};
use pure_term::Name;
use pure_typ::NamesByBase;

/// A name space.
#[derive(Clone, Copy)]
pub(crate) enum Space {
    Classes,
    Typs,
    Consts,
    Facts,
}

/// A name space of a theory.
#[derive(Drop)]
pub(crate) struct Scoped<'t> {
    pub(crate) theory: &'t Theory,
    pub(crate) space: Space,
}

/// Whether the theory has this name.
fn is_named(theory: Known, name: Name) -> bool
    ensures { IsTrue result ↔ (theory.name ≡ name) }
{
    theory.name.0 == name.0
}

/// The index of the first of the theories with this name.
fn index_among(theories: &[Known], name: Name) -> Option<u32>
    ensures { MatchOption result ((t : TheoryId) → IsIn t theories.now → ¬ (t.name ≡ name)) (λ index. (t : TheoryId) × IsIn t theories.now × (t.name ≡ name) × (t.index ≡ index)) }
{
    for theory in theories {
        if is_named(*theory, name) {
            return Some(theory.index);
        }
    }
    None
}

impl Theory {
    /// Whether the class is declared.
    pub(crate) fn declares_class(&self, name: Name) -> bool
        ensures { IsTrue result ↔ IsDeclaredClass self.now.declarations name }
    {
        let order = self.order();
        order.is_declared(name)
    }

    /// Whether the type constructor is declared.
    fn declares_typ(&self, name: Name) -> bool
        ensures { IsTrue result ↔ ((count : ℕ) × IsIn (ConDecl name count) self.now.declarations) }
    {
        match self.typ_params(name) {
            None => false,
            Some(_) => true,
        }
    }

    /// Whether the constant is declared.
    fn declares_const(&self, name: Name) -> bool
        ensures { IsTrue result ↔ ((typ : types.Typ) × IsIn (ConstDecl name typ) self.now.declarations) }
    {
        match self.const_typ(name) {
            None => false,
            Some(_) => true,
        }
    }

    /// Whether the fact is declared.
    fn declares_fact(&self, name: Name) -> bool
        ensures { IsTrue result ↔ IsDeclaredIn facts self.now.declarations name }
    {
        match self.fact(name) {
            None => false,
            Some(_) => true,
        }
    }

    /// Whether the name is declared in the name space.
    pub(crate) fn declares(&self, space: Space, name: Name) -> bool
        ensures { IsTrue result ↔ IsDeclaredIn (seen_space space) self.now.declarations name }
    {
        match space {
            Space::Classes => self.declares_class(name),
            Space::Typs => self.declares_typ(name),
            Space::Consts => self.declares_const(name),
            Space::Facts => self.declares_fact(name),
        }
    }

    /// The index of the theory itself, if it has this name.
    fn own_index(&self, theory: Name) -> Option<u32>
        ensures { MatchOption result ((t : TheoryId) → self.now.own ≡ Some t → ¬ (t.name ≡ theory)) (λ index. (t : TheoryId) × (self.now.own ≡ Some t) × (t.name ≡ theory) × (t.index ≡ index)) }
    {
        match self.own_theory() {
            None => None,
            Some(own) => {
                if is_named(own, theory) {
                    Some(own.index)
                } else {
                    None
                }
            }
        }
    }

    /// The index of the theory itself, or of its ancestor, with this name.
    pub(crate) fn index_of(&self, theory: Name) -> Option<u32>
        ensures { IsIndexOf self.now theory result }
    {
        match self.own_index(theory) {
            Some(index) => Some(index),
            None => match index_among(self.ancestor_list(), theory) {
                None => None,
                Some(index) => Some(index),
            },
        }
    }
}

impl Scope for Scoped<'_> {
    ghost content = { λ s. s.theory.now };

    ghost space = { λ s. seen_space s.space };

    fn is_declared(&self, name: Name) -> bool {
        self.theory.declares(self.space, name)
    }

    fn index_of(&self, theory: Name) -> Option<u32> {
        self.theory.index_of(theory)
    }
}

impl Theory {
    /// The class that is written so; none exactly where the written name means nothing.
    pub fn find_class(&self, names: &NamesByBase, written: &[u8]) -> Option<Name>
        requires { IsInSession names.now self.now }
        ensures { IsFoundName names.now self.now classes written.now result }
    {
        let scope = Scoped {
            theory: self,
            space: Space::Classes,
        };
        find_name(&scope, names, written)
    }

    /// The type constructor that is written so; none exactly where the written name means nothing.
    pub fn find_typ(&self, names: &NamesByBase, written: &[u8]) -> Option<Name>
        requires { IsInSession names.now self.now }
        ensures { IsFoundName names.now self.now constructors written.now result }
    {
        let scope = Scoped {
            theory: self,
            space: Space::Typs,
        };
        find_name(&scope, names, written)
    }

    /// The constant that is written so; none exactly where the written name means nothing.
    pub fn find_const(&self, names: &NamesByBase, written: &[u8]) -> Option<Name>
        requires { IsInSession names.now self.now }
        ensures { IsFoundName names.now self.now constants written.now result }
    {
        let scope = Scoped {
            theory: self,
            space: Space::Consts,
        };
        find_name(&scope, names, written)
    }
}
