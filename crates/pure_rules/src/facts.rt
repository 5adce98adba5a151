//! Facts of a theory.
ghost use Rattle.std.specs.Prelude.{◌≡◌, [], ◌∷◌, IfOk};
ghost use Rattle.pure_logic.specs.Derivable.{IsDerivable};
ghost use Rattle.pure_theorem.specs.Facts.{IsTheoryContent};
ghost use Rattle.pure_theorem.specs.Answer.{IsAnswer, NoRefusal};
ghost use Rattle.pure_rules.specs.Facts.{GivesAxiom, RefusesAxiom, GivesPromise, RefusesPromise, GivesBuilt};

use pure_term::{Label, Name, Term};
use pure_theorem::{Base, Built, RuleFault, Thm, alone, built_term, within_limits};
use std::alloc::{AllocError, Global};

/// The axiom of this name.
///
///     ------- A the axiom
///      |- A
pub fn axiom<B: Base>(alloc: Global, thy: &B, name: Name) -> Result<Thm, RuleFault>
    ensures answer { IsAnswer (GivesAxiom (B.content thy.now) name) (RefusesAxiom (B.content thy.now) name) result }
    ensures derivable { IfOk result (IsDerivable (B.content thy.now)) }
{
    let Some(prop) = thy.axiom_prop(name) else {
        return Err(RuleFault::UnknownFact);
    };
    alone(alloc, Ok(prop.copy(alloc)?))
}

/// The statement of the promise of this label, resting on it.
///
///     ------- A the statement
///      |- A
pub fn promise<B: Base>(alloc: Global, thy: &B, label: Label) -> Result<Thm, RuleFault>
    ensures answer { IsAnswer (GivesPromise (B.content thy.now) label) (RefusesPromise (B.content thy.now) label) result }
    ensures derivable { IfOk result (IsDerivable (B.content thy.now)) }
{
    let Some(prop) = thy.promise_prop(label) else {
        return Err(RuleFault::UnknownFact);
    };
    within_limits(promised(alloc, prop, label)?)
}

/// The theorem of a statement, resting on the label.
fn promised(alloc: Global, prop: &Term, label: Label) -> Result<Thm, AllocError>
    ensures { IfOk result (λ th. th ≡ record { hyps = []; pairs = []; prop = prop.now; rests = label ∷ [] }) }
{
    let prop = prop.copy(alloc)?;
    let rests = Vec::from_slice(alloc, &[label])?;
    Ok(Thm {
        hyps: Vec::new(alloc),
        pairs: Vec::new(alloc),
        prop,
        rests,
    })
}

/// The built fact.
///
///     ------- A the built fact
///      |- A
pub fn built<B: Base>(alloc: Global, thy: &B, which: Built) -> Result<Thm, RuleFault>
    ensures answer { IsAnswer (GivesBuilt which) NoRefusal result }
    ensures derivable { IsTheoryContent (B.content thy.now) → IfOk result (IsDerivable (B.content thy.now)) }
{
    alone(alloc, Ok(built_term(alloc, which)?))
}
