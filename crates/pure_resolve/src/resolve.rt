//! Resolution with a fact.
ghost use Rattle.std.specs.Prelude.{◌++◌, IfOk};
ghost use Rattle.pure_definitions.specs.Declarations.Decl.{algebra_of};
ghost use Rattle.pure_logic.specs.Derivable.{IsDerivable};
ghost use Rattle.pure_theorem.specs.Sets.{label_cmp, IsSetOf};
ghost use Rattle.pure_unify_laws.specs.Condition.{IsUnifyContent};
ghost use Rattle.pure_goal_steps.specs.State.{State, IsTheoremOf};
ghost use Rattle.pure_goal_steps.specs.Steps.{indexed, RuleStep};
ghost use Rattle.pure_goal_rules.specs.Rules.{IsFactProposition};
ghost use Rattle.pure_resolve.specs.Goals.{IsStep};
ghost use Rattle.pure_resolve.specs.Uses.{MayUse, IsFirstSubgoal, IsResolver, IsRuleAttempt, IsFactAttempt};

use crate::follow::followed;
use crate::state::Goal;
use pure_goal_rules::{
    Attempt, Parts, Rule, greatest_index, read_proposition, rule_attempt, rule_index, rule_of,
};
use pure_goal_steps::StepFault;
use pure_inst::Ordered;
use pure_term::{Label, Term};
use pure_theorem::{Thm, as_implication, united_labels};
use pure_watch::{Unwatched, Watch};
use std::alloc::{AllocError, Global};

/// A fact as a rule on a goal, and the greatest index of both.
#[derive(Drop)]
pub struct Resolver {
    pub rule: Rule,
    pub maxidx: u32,
}

/// The fact as a rule on the goal.
pub fn rule_on(alloc: Global, goal: &Thm, fact: &Thm) -> Result<Resolver, AllocError>
    requires { IsFactProposition fact.now.prop }
    ensures { (s : State) → IsTheoremOf s goal.now → IfOk result (IsResolver (indexed s) fact.now) }
{
    let own = greatest_index(goal)?;
    let index = greatest_index(fact)?;
    let maxidx = rule_index(own, index)?;
    let rule = rule_of(alloc, own, fact, index)?;
    Ok(Resolver { rule, maxidx })
}

/// The promises on which the goal rests, and those of the fact.
pub fn united_rests(alloc: Global, goal: &Thm, fact: &Thm) -> Result<Vec<Label>, AllocError>
    ensures { IfOk result (λ all. IsSetOf label_cmp (goal.now.rests ++ fact.now.rests) all.items) }
{
    let all = united_labels(alloc, &goal.rests, &fact.rests)?;
    Ok(all)
}

/// Lets the rule go.
pub fn discard(_resolver: Resolver) {}

/// An attempt, and the greatest index in it.
#[derive(Drop)]
pub struct Trying {
    attempt: Attempt,
    maxidx: u32,
}

/// The attempt with the rule on a subgoal that is read so.
fn attempt_with(alloc: Global, parts: &Parts, resolver: &Resolver) -> Result<Trying, AllocError>
    ensures { IfOk result (IsRuleAttempt parts.now resolver.now) }
{
    let maxidx = resolver.maxidx;
    let items = parts.prefix.as_slice();
    let attempt = rule_attempt(alloc, items, parts.conclusion, &resolver.rule)?;
    Ok(Trying { attempt, maxidx })
}

/// The attempt with the fact on a subgoal that is read so.
fn attempt_by(alloc: Global, goal: &Thm, fact: &Thm, parts: &Parts) -> Result<Trying, AllocError>
    requires { IsFactProposition fact.now.prop }
    ensures { (s : State) → IsTheoremOf s goal.now → IfOk result (IsFactAttempt (indexed s) fact.now parts.now) }
{
    let resolver = rule_on(alloc, goal, fact)?;
    let attempt = attempt_with(alloc, parts, &resolver);
    discard(resolver);
    attempt
}

/// Resolution of the goal's first subgoal with the fact.
fn resolved<B: Ordered, W: Watch>(
    alloc: Global,
    thy: &B,
    goal: &Thm,
    fact: &Thm,
    first: &Term,
    watch: &W,
) -> Result<Goal, StepFault>
    requires may { MayUse (B.content thy.now) goal.now fact.now }
    requires first { IsFirstSubgoal goal.now first.now }
    ensures { IsStep (λ s. RuleStep (algebra_of (B.content thy.now).declarations) s fact.now) goal.now (IsSetOf label_cmp (goal.now.rests ++ fact.now.rests)) result }
{
    let parts = read_proposition(alloc, first)?;
    let rests = united_rests(alloc, goal, fact)?;
    let Trying { attempt, maxidx } = attempt_by(alloc, goal, fact, &parts)?;
    followed(alloc, thy, goal, attempt, maxidx, rests, watch)
}

impl Goal {
    /// Resolution with a fact: its conclusion is unified with that of the first subgoal, and its premises take the subgoal's place.
    ///
    /// # Errors
    ///
    /// `NoSubgoal` exactly where there is none; `NoUnifier`, `SearchBound`, `Steps` and `Big` as the unifier answers; `Steps` and `Big` where a subgoal has no long form within the limits, and `Big` where the new goal isn't within them.
    pub fn rule<B: Ordered>(&self, alloc: Global, thy: &B, fact: &Thm) -> Result<Goal, StepFault>
        requires { MayUse (B.content thy.now) self.now.thm fact.now }
        ensures answer { IsStep (λ s. RuleStep (algebra_of (B.content thy.now).declarations) s fact.now) self.now.thm (IsSetOf label_cmp (self.now.thm.rests ++ fact.now.rests)) result }
        ensures derivable { IsUnifyContent (B.content thy.now) → IfOk result (λ new. IsDerivable (B.content thy.now) new.thm) }
    {
        self.rule_while(alloc, thy, fact, &Unwatched)
    }

    /// As `rule`, as long as the watch lets searches go on.
    ///
    /// # Errors
    ///
    /// As in `rule`; `Memory` where memory was refused, or the watch broke a search off.
    pub fn rule_while<B: Ordered, W: Watch>(
        &self,
        alloc: Global,
        thy: &B,
        fact: &Thm,
        watch: &W,
    ) -> Result<Goal, StepFault>
        requires { MayUse (B.content thy.now) self.now.thm fact.now }
        ensures answer { IsStep (λ s. RuleStep (algebra_of (B.content thy.now).declarations) s fact.now) self.now.thm (IsSetOf label_cmp (self.now.thm.rests ++ fact.now.rests)) result }
        ensures derivable { IsUnifyContent (B.content thy.now) → IfOk result (λ new. IsDerivable (B.content thy.now) new.thm) }
    {
        match as_implication(&self.thm.prop) {
            Some((first, _)) => resolved(alloc, thy, &self.thm, fact, first, watch),
            None => Err(StepFault::NoSubgoal),
        }
    }
}
