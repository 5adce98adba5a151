//! Occurrences on firm paths.
ghost use Rattle.std.specs.Prelude.{◌≡◌, ◌+◌, ◌<◌};
ghost use Rattle.pure_definitions.specs.Terms.Term.{term_depth};
ghost use Rattle.pure_unify_definitions.specs.Firm as firm;

use crate::fronts::front;
use pure_term::{Term, TermNode};

/// Whether a path through the arguments of this head is firm, below so many abstractions that aren't the leading ones.
fn is_firm_head(inner: u32, t: &Term) -> bool
    ensures { result ≡ firm.is_firm_head inner t.now }
{
    match &t.node {
        TermNode::Const { .. } => true,
        TermNode::Free { .. } => true,
        TermNode::Bound { place } => *place < inner,
        _ => false,
    }
}

/// Whether the variable stands at the end of a firm path into the argument.
#[cycle(stands)]
fn stands_in(v: &Term, inner: u32, t: &Term) -> bool
    requires { inner + term_depth t.now < 4294967296 }
    ensures { result ≡ firm.stands_in v.now inner t.now }
{
    match &t.node {
        TermNode::Abs { body, .. } => stands_in(v, inner + 1, body),
        TermNode::App { fun, arg, .. } => {
            *v == *front(fun)
                || (is_firm_head(inner, front(fun))
                    && (stands_in_arguments(v, inner, fun) || stands_in(v, inner, arg)))
        }
        _ => *v == *t,
    }
}

/// The same of one of the arguments of an application.
#[cycle(stands)]
fn stands_in_arguments(v: &Term, inner: u32, t: &Term) -> bool
    requires { inner + term_depth t.now < 4294967296 }
    ensures { result ≡ firm.stands_in_arguments v.now inner t.now }
{
    match &t.node {
        TermNode::App { fun, arg, .. } => {
            stands_in_arguments(v, inner, fun) || stands_in(v, inner, arg)
        }
        _ => false,
    }
}

/// Whether the variable occurs on a firm path of the side.
pub fn occurs_firmly(v: &Term, t: &Term) -> bool
    requires { term_depth t.now < 4294967296 }
    ensures { result ≡ firm.occurs_firmly v.now t.now }
{
    match &t.node {
        TermNode::Abs { body, .. } => occurs_firmly(v, body),
        _ => is_firm_head(0, front(t)) && stands_in_arguments(v, 0, t),
    }
}
