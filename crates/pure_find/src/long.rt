//! Long forms of propositions, and how two of them stand to each other.
ghost use Rattle.std.specs.Prelude.{◌≡◌, [], ◌∷◌, IfOk, IfSome};
ghost use Rattle.pure_definitions.specs.Terms.Term as tree;
ghost use Rattle.pure_unify_definitions.specs.Fronts.{pair};
ghost use Rattle.pure_pattern_laws.specs.Answers.{AreReady};
ghost use Rattle.pure_find.specs.Findings.{IsTidyProposition, IsLongProposition, IsLongFound, IsAnsweredBy};
ghost use Rattle.pure_find.specs.Standings.{IsLongWithin, IsStanding};

use crate::standing::Standing;
use pure_eta::long_form;
use pure_pattern::{PatternFault, unify_pattern};
use pure_term::{Grow, Term};
use pure_theorem::Pair;
use std::alloc::{AllocError, Global};

/// The long form of the proposition; none where it isn't within the limits.
pub(crate) fn long_of(alloc: Global, prop: &Term) -> Result<Option<Term>, AllocError>
    requires { IsTidyProposition prop.now }
    ensures found { IfOk result (IsLongFound prop.now) }
    ensures long { IfOk result (λ found. IfSome found IsLongProposition) }
{
    match long_form(alloc, prop) {
        Ok(long) => Ok(Some(long)),
        Err(Grow::Big) => Ok(None),
        Err(Grow::Memory) => Err(AllocError),
    }
}

/// What the answer about the pairs says.
fn standing_by(alloc: Global, pairs: &[Pair]) -> Result<Standing, AllocError>
    requires { AreReady 0 pairs.now }
    ensures { IfOk result (IsAnsweredBy pairs.now) }
{
    match unify_pattern(alloc, pairs, 0) {
        Ok(_) => Ok(Standing::Match),
        Err(PatternFault::SchematicType { .. }) => Ok(Standing::Maybe),
        Err(PatternFault::NotPattern { .. }) => Ok(Standing::Maybe),
        Err(PatternFault::NoUnifier) => Ok(Standing::NoMatch),
        Err(PatternFault::Steps) => Ok(Standing::Maybe),
        Err(PatternFault::Big) => Ok(Standing::Maybe),
        Err(PatternFault::Memory) => Err(AllocError),
    }
}

/// The pair of a proposition and a copy of the other.
fn pair_with(alloc: Global, left: Term, right: &Term) -> Result<Vec<Pair>, AllocError>
    ensures { IfOk result (λ pairs. pairs.items ≡ pair left right.now ∷ []) }
{
    let right = right.copy(alloc)?;
    let mut pairs = Vec::new(alloc);
    pairs.push(Pair { left, right })?;
    Ok(pairs)
}

/// What the answer about two propositions in long form says.
fn compared(alloc: Global, left: Term, right: &Term) -> Result<Standing, AllocError>
    requires left { IsLongProposition left }
    requires right { IsLongProposition right.now }
    ensures { IfOk result (IsAnsweredBy (pair left right.now ∷ [])) }
{
    let pairs = pair_with(alloc, left, right)?;
    standing_by(alloc, &pairs)
}

/// How what a fact states stands to a statement with this long form.
fn standing_to(alloc: Global, prop: &Term, right: &Term) -> Result<Standing, AllocError>
    requires prop { IsTidyProposition prop.now }
    requires right { IsLongProposition right.now }
    ensures { IfOk result (λ standing. (C : tree.Term) → IsLongWithin C right.now → IsStanding prop.now C standing) }
{
    match long_of(alloc, prop)? {
        None => Ok(Standing::Maybe),
        Some(left) => compared(alloc, left, right),
    }
}

/// How what a fact states stands to a statement, of which this is the long form within the limits, if it has one.
pub(crate) fn standing_of(
    alloc: Global,
    prop: &Term,
    long: &Option<Term>,
) -> Result<Standing, AllocError>
    requires prop { IsTidyProposition prop.now }
    requires long { IfSome long.now IsLongProposition }
    ensures { IfOk result (λ standing. (C : tree.Term) → IsLongFound C long.now → IsStanding prop.now C standing) }
{
    match long {
        None => Ok(Standing::Maybe),
        Some(right) => standing_to(alloc, prop, right),
    }
}
