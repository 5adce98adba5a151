//! The body of a definition.
ghost use Rattle.std.specs.Prelude.{◌≡◌, option_map};
ghost use Rattle.pure_statements.specs.Body as spec;

use pure_grammar::TokenKind;
use pure_read::{Raw, RawNode};

fn is_ident(kind: TokenKind) -> bool
    ensures { result ≡ spec.is_ident kind }
{
    match kind {
        TokenKind::Ident => true,
        _ => false,
    }
}

fn is_dotted(kind: TokenKind) -> bool
    ensures { result ≡ spec.is_dotted kind }
{
    match kind {
        TokenKind::Qualified => true,
        _ => false,
    }
}

/// Whether the tree is the constant for which `==` stands.
#[tactic(auto, unfolding(crate::specs::Body::equality_text))]
fn is_equality(raw: &Raw) -> bool
    ensures { result ≡ spec.is_equality raw.now }
{
    match &raw.node {
        RawNode::Leaf { kind, text, .. } => is_dotted(*kind)
            && text.bytes() == b"Pure.eq".as_slice(),
        RawNode::Abs { .. } => false,
        RawNode::App { .. } => false,
        RawNode::Typed { .. } => false,
    }
}

/// Whether the tree is just this name.
fn is_named(name: &[u8], raw: &Raw) -> bool
    ensures { result ≡ spec.is_named name.now raw.now }
{
    match &raw.node {
        RawNode::Leaf { kind, text, .. } => is_ident(*kind) && text.bytes() == name,
        RawNode::Abs { .. } => false,
        RawNode::App { .. } => false,
        RawNode::Typed { .. } => false,
    }
}

/// Whether the tree is the first side of an equation and its sign, and the side just this name.
fn begins_equation(name: &[u8], raw: &Raw) -> bool
    ensures { result ≡ spec.begins_equation name.now raw.now }
{
    match &raw.node {
        RawNode::Leaf { .. } => false,
        RawNode::Abs { .. } => false,
        RawNode::App { fun, arg, .. } => is_equality(fun) && is_named(name, arg),
        RawNode::Typed { .. } => false,
    }
}

/// The second side of an equation whose first side is just this name; none where the tree is no such equation.
pub fn body_of<'r>(name: &[u8], raw: &'r Raw) -> Option<&'r Raw>
    ensures { option_map (λ r. r.now) result ≡ spec.body_of name.now raw.now }
{
    match &raw.node {
        RawNode::Leaf { .. } => None,
        RawNode::Abs { .. } => None,
        RawNode::App { fun, arg, .. } => {
            if begins_equation(name, fun) {
                Some(arg)
            } else {
                None
            }
        }
        RawNode::Typed { .. } => None,
    }
}
