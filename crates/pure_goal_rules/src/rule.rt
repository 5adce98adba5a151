//! A fact used as a rule on a goal.
ghost use Rattle.std.specs.Prelude.{◌≡◌, ◌+◌, IfOk};
ghost use Rattle.pure_logic.specs.Derivable.{Theorem};
ghost use Rattle.pure_goal_steps.specs.State as state;
ghost use Rattle.pure_goal_steps.specs.Reading.{IsRuleOf};
ghost use Rattle.pure_goal_rules.specs.Rules.{IsFactProposition, IsRaisedForm};

use crate::build::one_more;
use crate::raising::raised;
use crate::stripping::strip;
use pure_eta::{is_own_long_form, lengthened};
use pure_goal_steps::pairs::theorem_index_above;
use pure_term::Term;
use pure_theorem::Thm;
use std::alloc::{AllocError, Global};

/// The greatest index in the theorem, 0 where there is none. One beyond 32 bits is want of memory.
pub fn greatest_index(th: &Thm) -> Result<u32, AllocError>
    ensures { IfOk result (λ i. i ≡ state.greatest_index th.now) }
{
    let above = theorem_index_above(th);
    let greatest = above.saturating_sub(1);
    if greatest > u32::MAX as u64 {
        return Err(AllocError);
    }
    Ok(greatest as u32)
}

/// The greatest index of a goal and of a rule, from those of the goal and of the fact.
pub fn rule_index(goal: u32, fact: u32) -> Result<u32, AllocError>
    ensures { IfOk result (λ i. i ≡ goal + fact + 2) }
{
    let Some(sum) = goal.checked_add(fact) else {
        return Err(AllocError);
    };
    match sum.checked_add(2) {
        Some(index) => Ok(index),
        None => Err(AllocError),
    }
}

/// A rule: its premises in order, and its conclusion.
#[derive(Drop)]
pub struct Rule {
    pub premises: Vec<Term>,
    pub conclusion: Term,
}

/// The long form of the proposition, with its indexes raised.
fn raised_form(alloc: Global, by: u32, t: &Term) -> Result<Term, AllocError>
    requires { IsFactProposition t.now }
    ensures { IfOk result (IsRaisedForm by t.now) }
{
    if is_own_long_form(t) {
        return raised(alloc, by, t);
    }
    let form = lengthened(alloc, t)?;
    let apart = raised(alloc, by, &form)?;
    Ok(apart)
}

/// The fact as a rule on a goal with this greatest index; the fact has the other one.
pub fn rule_of(alloc: Global, goal: u32, fact: &Thm, index: u32) -> Result<Rule, AllocError>
    requires fact { IsFactProposition fact.now.prop }
    requires index { index ≡ state.greatest_index fact.now }
    ensures { (s : Theorem) → goal ≡ state.greatest_index s → IfOk result (λ r. IsRuleOf s fact.now r.premises.items r.conclusion) }
{
    let above = rule_index(goal, index)?;
    let by = one_more(goal)?;
    let apart = raised_form(alloc, by, &fact.prop)?;
    let mut premises = Vec::new(alloc);
    let conclusion = strip(alloc, above, 0, &apart, &mut premises)?;
    Ok(Rule {
        premises,
        conclusion,
    })
}
