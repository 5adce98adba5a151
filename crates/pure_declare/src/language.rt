//! A theory with a session's names: the vocabulary in which its texts are elaborated.
ghost use Rattle.std.specs.Prelude.{◌≡◌};
ghost use Rattle.pure_lookup.specs.Laws.{IsInSession};

use pure_elab::Language;
use pure_order::Order;
use pure_theory::Theory;
use pure_typ::{Name, NamesByBase, Typ};
use std::marker::Model;

/// A theory with a session's names.
#[derive(Drop)]
pub struct NamedTheory<'t> {
    theory: &'t Theory,
    names: &'t NamesByBase,
}

impl<'t> Model for NamedTheory<'t> {
    ghost use Rattle.pure_declare.specs.Named.{Named, coded_named};
    ghost use Rattle.pure_lookup.specs.Laws.{IsInSession};

    ghost Value = { Named };

    ghost coded = { coded_named };

    ghost view = { λ n. record { texts = n.names.now; content = n.theory.now } };

    ghost invariant = { λ n. IsInSession n.names.now n.theory.now };
}

impl<'t> NamedTheory<'t> {
    /// The theory with these names.
    pub fn make(theory: &'t Theory, names: &'t NamesByBase) -> NamedTheory<'t>
        requires { IsInSession names.now theory.now }
        ensures { result ≡ record { texts = names.now; content = theory.now } }
    {
        NamedTheory { theory, names }
    }
}

impl Language for NamedTheory<'_> {
    ghost use Rattle.pure_elab.specs.Found.{vocabulary_of};

    ghost vocabulary = { λ n. vocabulary_of n.texts n.content };

    fn find_class(&self, written: &[u8]) -> Option<Name> {
        self.theory.content_is_sound();
        self.theory.find_class(self.names, written)
    }

    fn find_typ(&self, written: &[u8]) -> Option<Name> {
        self.theory.content_is_sound();
        self.theory.find_typ(self.names, written)
    }

    fn find_const(&self, written: &[u8]) -> Option<Name> {
        self.theory.content_is_sound();
        self.theory.find_const(self.names, written)
    }

    fn find_name(&self, text: &[u8]) -> Option<Name> {
        self.theory.content_is_sound();
        let names = self.names.names();
        names.find(text)
    }

    fn typ_params(&self, name: Name) -> Option<u32> {
        self.theory.content_is_sound();
        self.theory.typ_params(name)
    }

    fn const_typ(&self, name: Name) -> Option<&Typ> {
        self.theory.content_is_sound();
        self.theory.const_typ(name)
    }

    fn order(&self) -> &Order {
        self.theory.order()
    }

    fn first_fresh(&self) -> u32 {
        let names = self.names.names();
        names.first_fresh()
    }
}
