//! Heads of terms.
ghost use Rattle.std.specs.Prelude.{◌≡◌};
ghost use Rattle.pure_unify_definitions.specs.Fronts as fronts;

use pure_term::{Term, TermNode};

/// What stands below the term's outermost abstractions.
pub fn term_body(t: &Term) -> &Term
    ensures { result.now ≡ fronts.term_body t.now }
{
    match &t.node {
        TermNode::Abs { body, .. } => term_body(body),
        _ => t,
    }
}

/// The function at the front of applications.
pub fn front(t: &Term) -> &Term
    ensures { result.now ≡ fronts.front t.now }
{
    match &t.node {
        TermNode::App { fun, .. } => front(fun),
        _ => t,
    }
}

/// The head of the term.
pub fn head(t: &Term) -> &Term
    ensures { result.now ≡ fronts.head t.now }
{
    front(term_body(t))
}

/// Whether the term is a schematic variable.
pub fn is_schematic(t: &Term) -> bool
    ensures { result ≡ fronts.is_schematic t.now }
{
    match &t.node {
        TermNode::Var { .. } => true,
        _ => false,
    }
}

/// Whether the term's head is schematic.
pub fn is_flexible(t: &Term) -> bool
    ensures { result ≡ fronts.is_flexible t.now }
{
    is_schematic(head(t))
}
