//! A small theory.
use pure_shown::{label, term};
use pure_term::{Label, Name, Term};
use pure_theorem::Base;
use std::alloc::Global;

/// A theory of one axiom and one promise.
#[derive(Drop)]
pub(crate) struct Small {
    name: Name,
    prop: Term,
    label: Label,
    statement: Term,
}

impl Base for Small {
    ghost use Rattle.std.specs.Prelude.{◌∷◌, [], None};
    ghost use Rattle.pure_definitions.specs.Declarations.Decl.{AxiomDecl, PromiseDecl};

    ghost content = { λ s. record { declarations = AxiomDecl s.name s.prop ∷ PromiseDecl 0 s.label s.statement ∷ []; own = None; ancestors = [] } };

    fn axiom_prop(&self, name: Name) -> Option<&Term> {
        if name == self.name {
            Some(&self.prop)
        } else {
            None
        }
    }

    fn promise_prop(&self, label: Label) -> Option<&Term> {
        if label == self.label {
            Some(&self.statement)
        } else {
            None
        }
    }
}

/// The theory of the axiom 40 and of the promise of the label 1, whose propositions the texts write.
pub(crate) fn small_theory(alloc: Global, axiom: &[u8], promise: &[u8]) -> Option<Small> {
    let prop = term(alloc, axiom)?;
    let statement = term(alloc, promise)?;
    Some(Small {
        name: Name(40),
        prop,
        label: label(b'1'),
        statement,
    })
}

/// The theory of the axiom `P a` and of the promise `?b`.
pub(crate) fn usual_theory(alloc: Global) -> Option<Small> {
    small_theory(alloc, b"@ =A.P: > i Pure.prop =a", b"?b: Pure.prop")
}
