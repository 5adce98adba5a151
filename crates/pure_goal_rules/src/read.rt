//! Propositions read as a prefix and a conclusion.
ghost use Rattle.std.specs.Prelude.{◌≡◌, IfOk, MatchOption};
ghost use Rattle.pure_logic.specs.Connectives.{all};
ghost use Rattle.pure_goal_steps.specs.Reading.{IsRead};
ghost use Rattle.pure_goal_rules.specs.Shown.{shown, IsNoQuantified, IsReadBehind};

use crate::item::Item;
use pure_term::{Term, TermNode, Typ};
use pure_theorem::{are_same_typs, as_all, as_implication};
use std::alloc::{AllocError, Global};

/// The type and the body of a quantification; none exactly where the term isn't one.
pub fn as_quantified(t: &Term) -> Option<(&Typ, &Term)>
    ensures { MatchOption result (IsNoQuantified t.now) (λ parts. t.now ≡ all parts.0.now parts.1.now) }
{
    let Some((domain, function)) = as_all(t) else {
        return None;
    };
    match &function.node {
        TermNode::Abs { typ, body, .. } => {
            if are_same_typs(domain, typ) {
                Some((domain, &**body))
            } else {
                None
            }
        }
        _ => None,
    }
}

/// Puts the items of the term's prefix behind those of the list, and gives its conclusion.
fn read_on<'t>(t: &'t Term, prefix: &mut Vec<Item<'t>>) -> Result<&'t Term, AllocError>
    ensures { IfOk result (λ c. IsReadBehind t.now (shown prefix.old.items) (shown prefix.new.items) c.now) }
{
    if let Some((premise, rest)) = as_implication(t) {
        prefix.push(Item::Hypothesis(premise))?;
        return read_on(rest, prefix);
    }
    if let Some((typ, body)) = as_quantified(t) {
        prefix.push(Item::Parameter(typ))?;
        return read_on(body, prefix);
    }
    Ok(t)
}

/// A proposition as a prefix and a conclusion.
#[derive(Drop)]
pub struct Parts<'t> {
    pub prefix: Vec<Item<'t>>,
    pub conclusion: &'t Term,
}

/// The proposition, read as its prefix and its conclusion.
pub fn read_proposition<'t>(alloc: Global, t: &'t Term) -> Result<Parts<'t>, AllocError>
    ensures { IfOk result (λ r. IsRead t.now (shown r.prefix.items) r.conclusion.now) }
{
    let mut prefix = Vec::new(alloc);
    let conclusion = read_on(t, &mut prefix)?;
    Ok(Parts { prefix, conclusion })
}
