//! What lines conclude.
ghost use Rattle.std.specs.Prelude.{◌≡◌, [], ◌∷◌, IfOk};
ghost use Rattle.pure_definitions.specs.Terms.Term as tree;
ghost use Rattle.pure_theorem.specs.Made.{IsMade};
ghost use Rattle.pure_replay.specs.Conclusion.{alone};
ghost use Rattle.pure_replay.specs.Step.{IsStep};

use crate::fault::NodeFault;
use pure_term::{Grow, Term};
use pure_theorem::copied_terms;
use std::alloc::{AllocError, Global};
use std::marker::Model;

/// What a line concludes: a proposition, and the hypotheses from which it follows, a set.
#[derive(Drop)]
pub(crate) struct Conclusion {
    pub(crate) hyps: Vec<Term>,
    pub(crate) prop: Term,
}

impl Model for Conclusion {
    ghost use Rattle.pure_replay.specs.Conclusion as specs;
    ghost use Rattle.pure_replay.specs.Conclusion.{coded_conclusion};
    ghost use Rattle.pure_theorem.specs.Sets.{IsTermSet};

    ghost Value = { specs.Conclusion };

    ghost coded = { coded_conclusion };

    ghost view = { λ c. record { hyps = c.hyps.items; prop = c.prop } };

    ghost invariant = { λ c. IsTermSet c.hyps.items };
}

/// The proposition from no hypotheses.
pub(crate) fn alone(alloc: Global, prop: Term) -> Conclusion
    ensures { result ≡ alone prop }
{
    Conclusion {
        hyps: Vec::new(alloc),
        prop,
    }
}

/// The made term from no hypotheses.
pub(crate) fn single(alloc: Global, made: Result<Term, Grow>) -> Result<Conclusion, NodeFault>
    ensures { (A : tree.Term) → IsMade A made → IsStep (λ c. c ≡ alone A) result }
{
    match made {
        Ok(prop) => Ok(alone(alloc, prop)),
        Err(Grow::Big) => Err(NodeFault::Big),
        Err(Grow::Memory) => Err(NodeFault::Memory),
    }
}

/// The proposition from itself.
pub(crate) fn from_itself(alloc: Global, prop: &Term) -> Result<Conclusion, AllocError>
    ensures { IfOk result (λ c. c ≡ record { hyps = prop.now ∷ []; prop = prop.now }) }
{
    let mut hyps = Vec::new(alloc);
    hyps.push(prop.copy(alloc)?)?;
    let prop = prop.copy(alloc)?;
    Ok(Conclusion { hyps, prop })
}

/// Lets go of a term, which no `?` has to.
fn discard(_prop: Term) {}

/// The proposition from the hypotheses of the conclusion.
fn from_same(alloc: Global, above: &Conclusion, prop: Term) -> Result<Conclusion, AllocError>
    ensures { IfOk result (λ c. c ≡ record { hyps = above.now.hyps; prop = prop }) }
{
    match copied_terms(alloc, &above.hyps) {
        Err(fault) => {
            discard(prop);
            Err(fault)
        }
        Ok(hyps) => Ok(Conclusion { hyps, prop }),
    }
}

/// The made term from the hypotheses of the conclusion.
pub(crate) fn kept(
    alloc: Global,
    above: &Conclusion,
    made: Result<Term, Grow>,
) -> Result<Conclusion, NodeFault>
    ensures { (A : tree.Term) → IsMade A made → IsStep (λ c. c ≡ record { hyps = above.now.hyps; prop = A }) result }
{
    match made {
        Ok(prop) => Ok(from_same(alloc, above, prop)?),
        Err(Grow::Big) => Err(NodeFault::Big),
        Err(Grow::Memory) => Err(NodeFault::Memory),
    }
}
