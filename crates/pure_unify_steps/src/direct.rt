//! Pairs by which a variable is set to the other side as it stands, told without a copy.
ghost use Rattle.std.specs.Prelude.{◌≡◌, MatchResult};
ghost use Rattle.std.specs.Bool.{OnTrue};
ghost use Rattle.pure_unify_definitions.specs.Treatment as rules;
ghost use Rattle.pure_unify_nodes.specs.Long.{IsLongPair};
ghost use Rattle.pure_unify_steps.specs.Direct as direct;
ghost use Rattle.pure_unify_steps.specs.Direct.{IsSetTo};

use crate::bare::entry_for;
use pure_term::{Term, TermBind, TermNode, occurs};
use pure_theorem::Pair;
use pure_unify_nodes::have_one_typ;
use pure_unify_sides::is_schematic;

/// Whether the term is neither an abstraction nor a schematic variable.
pub fn is_plain(t: &Term) -> bool
    ensures { result ≡ direct.is_plain t.now }
{
    match &t.node {
        TermNode::Var { .. } => false,
        TermNode::Abs { .. } => false,
        _ => true,
    }
}

/// Whether the term is another than the innermost bound variable.
fn is_other(t: &Term) -> bool
    ensures { result ≡ direct.is_other t.now }
{
    match &t.node {
        TermNode::Bound { place } => 0 < *place,
        _ => true,
    }
}

/// Whether the body of an abstraction is no application to its variable.
fn is_other_body(t: &Term) -> bool
    ensures { result ≡ direct.is_other_body t.now }
{
    match &t.node {
        TermNode::App { arg, .. } => is_other(arg),
        _ => true,
    }
}

/// Whether no abstraction in the term is of an application to its own variable.
fn is_contracted(t: &Term) -> bool
    ensures { result ≡ direct.is_contracted t.now }
{
    match &t.node {
        TermNode::Abs { body, .. } => is_other_body(body) && is_contracted(body),
        TermNode::App { fun, arg, .. } => is_contracted(fun) && is_contracted(arg),
        _ => true,
    }
}

/// Whether the first side is a schematic variable that the rule of bare variables sets to the other side as it stands.
fn is_set_to(v: &Term, other: &Term) -> bool
    ensures { OnTrue result (IsSetTo v.now other.now) }
{
    if !is_schematic(v) {
        return false;
    }
    if !have_one_typ(v, other) {
        return false;
    }
    if occurs(v, other) {
        return false;
    }
    if !is_contracted(other) {
        return false;
    }
    true
}

/// The entry of a pair by which a variable is set to the other side as it stands, or else the pair.
pub fn direct_entry(pair: Pair) -> Result<TermBind, Pair>
    requires { IsLongPair pair }
    ensures { MatchResult result (λ b. rules.IsTreatment pair.left pair.right (rules.Put b)) (λ p. p ≡ pair) }
{
    if is_set_to(&pair.left, &pair.right) {
        let Pair { left, right } = pair;
        return Ok(entry_for(left, right));
    }
    if !is_plain(&pair.left) {
        return Err(pair);
    }
    if is_set_to(&pair.right, &pair.left) {
        let Pair { left, right } = pair;
        return Ok(entry_for(right, left));
    }
    Err(pair)
}
