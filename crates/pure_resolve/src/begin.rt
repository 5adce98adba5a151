//! Goals at their beginning.
ghost use Rattle.std.specs.Prelude.{◌≡◌, ◌∷◌, [], IfOk};
ghost use Rattle.pure_definitions.specs.Declarations.Certified.{IsCertified};
ghost use Rattle.pure_logic.specs.Connectives.{protect};
ghost use Rattle.pure_logic.specs.Content.{IsProposition};
ghost use Rattle.pure_logic.specs.Derivable.{IsDerivable};
ghost use Rattle.pure_theorem.specs.Facts.{IsTheoryContent};
ghost use Rattle.pure_goal_steps.specs.Steps.{BeginsAs};
ghost use Rattle.pure_unify_nodes.specs.SideAnswer.{IsTyped};
ghost use Rattle.pure_resolve.specs.Goals.{IsOutcome, IsLongSubgoal};

use crate::close::concluded;
use crate::state::Goal;
use pure_goal_rules::is_long;
use pure_goal_steps::StepFault;
use pure_norm::NormFault;
use pure_term::{Name, Term, TermNode, Typ};
use pure_theorem::{Base, application, prop_typ};
use pure_unify_nodes::long_side;
use std::alloc::{AllocError, Global};

/// The term with the mark of a goal.
fn marked(alloc: Global, t: &Term) -> Result<Term, AllocError>
    ensures { IfOk result (λ u. u ≡ protect t.now) }
{
    let typ = Typ::arrow(alloc, prop_typ(alloc), prop_typ(alloc))?;
    let name = Name::PROTECT;
    let mark = Term {
        node: TermNode::Const { name, typ },
    };
    application(alloc, mark, t.copy(alloc)?)
}

/// The subgoal brought to long form, or why it has none.
fn lengthened(alloc: Global, t: &Term) -> Result<Term, StepFault>
    requires { IsTyped t.now }
    ensures { IsLongSubgoal t.now result }
{
    match long_side(alloc, t) {
        Ok(long) => Ok(long),
        Err(NormFault::Steps) => Err(StepFault::Steps),
        Err(NormFault::Big) => Err(StepFault::Big),
        Err(NormFault::Memory) => Err(StepFault::Memory),
    }
}

/// A subgoal in long form, or why it has none. One that is in long form is only copied.
pub fn long_subgoal(alloc: Global, t: &Term) -> Result<Term, StepFault>
    requires { IsTyped t.now }
    ensures { IsLongSubgoal t.now result }
{
    if !is_long(t) {
        return lengthened(alloc, t);
    }
    let copy = t.copy(alloc)?;
    Ok(copy)
}

/// The same of a subgoal that is given: one that is in long form stays where it is.
pub fn long_given(alloc: Global, t: Term) -> Result<Term, StepFault>
    requires { IsTyped t }
    ensures { IsLongSubgoal t result }
{
    if !is_long(&t) {
        let answer = lengthened(alloc, &t);
        return answer;
    }
    Ok(t)
}

/// The list of one term.
pub fn single(alloc: Global, t: Term) -> Result<Vec<Term>, AllocError>
    ensures { IfOk result (λ list. list.items ≡ t ∷ []) }
{
    let mut list = Vec::new(alloc);
    list.push(t)?;
    Ok(list)
}

/// The first goal: the statement's long form is its one subgoal.
///
///     --------------
///      |- C ==> # C
///
/// # Errors
///
/// `Steps` where the statement, which need not be normal, has too many beta steps; `Big` where its long form, or the goal,
/// isn't within the limits.
pub fn start<B: Base>(alloc: Global, _thy: &B, c: &Term) -> Result<Goal, StepFault>
    requires { IsTyped c.now }
    ensures answer { IsOutcome (BeginsAs c.now) (λ rests. rests ≡ []) result }
    ensures derivable { let Q = B.content _thy.now in IsTheoryContent Q → IsProposition Q c.now → IfOk result (λ new. IsDerivable Q new.thm) }
{
    let long = match long_subgoal(alloc, c) {
        Ok(long) => long,
        Err(fault) => return Err(fault),
    };
    let subgoals = single(alloc, long)?;
    let statement = marked(alloc, c)?;
    concluded(alloc, subgoals, statement, Vec::new(alloc), Vec::new(alloc))
}
