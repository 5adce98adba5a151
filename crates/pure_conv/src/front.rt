//! The type of a term, as its head tells it.
ghost use Rattle.std.specs.Prelude.{◌≡◌, [], IfOk, IfSome};
ghost use Rattle.pure_definitions.specs.Types.Typ as typ_tree;
ghost use Rattle.pure_definitions.specs.Terms.Typing.{HasType};
ghost use Rattle.pure_theorem.specs.Shapes.{IsTyped};

use pure_term::{Term, TermNode, Typ};
use pure_theorem::typ_of_typed;
use std::alloc::{AllocError, Global};

/// What functions of the type give.
fn range_of(typ: &Typ) -> Option<&Typ>
    ensures { IfSome result (λ range. (A B : typ_tree.Typ) → typ_tree.arrow A B ≡ typ.now → B ≡ range.now) }
{
    match typ.as_arrow() {
        Some((_, range)) => Some(range),
        None => None,
    }
}

/// The type that the term has if it has any, where its head is written with a type: no argument is looked at.
fn front_typ(t: &Term) -> Option<&Typ>
    ensures { IfSome result (λ typ. (T : typ_tree.Typ) → HasType [] t.now T → T ≡ typ.now) }
{
    match &t.node {
        TermNode::Const { typ, .. } => Some(typ),
        TermNode::Free { typ, .. } => Some(typ),
        TermNode::Var { typ, .. } => Some(typ),
        TermNode::Bound { .. } => None,
        TermNode::Abs { .. } => None,
        TermNode::App { fun, .. } => match front_typ(fun) {
            Some(typ) => range_of(typ),
            None => None,
        },
    }
}

/// The type of a term that has one.
pub fn typ_at_front(alloc: Global, t: &Term) -> Result<Typ, AllocError>
    requires { IsTyped t.now }
    ensures { IfOk result (λ T. HasType [] t.now T) }
{
    match front_typ(t) {
        Some(typ) => typ.copy(alloc),
        None => typ_of_typed(alloc, t),
    }
}
