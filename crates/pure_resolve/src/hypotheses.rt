//! Steps that use a hypothesis: assumption, elimination and destruction.
ghost use Rattle.std.specs.Prelude.{◌≡◌, ◌++◌, [], IfOk, Err};
ghost use Rattle.pure_definitions.specs.Declarations.Decl.{algebra_of};
ghost use Rattle.pure_logic.specs.Derivable.{IsDerivable};
ghost use Rattle.pure_theorem.specs.Sets.{label_cmp, IsLabelSet, IsSetOf};
ghost use Rattle.pure_unify_laws.specs.Condition.{IsUnifyContent};
ghost use Rattle.pure_goal_steps.specs.Steps.{elimination_attempt, destruction_attempt, EliminationStep, DestructionStep, AssumptionStep};
ghost use Rattle.pure_resolve.specs.Goals.{IsStep};
ghost use Rattle.pure_resolve.specs.Settled.{HasFirst};
ghost use Rattle.pure_resolve.specs.Uses.{MayStep, MayUse, IsFirstSubgoal, MayAttemptEach, IsFirstServed};

use crate::resolve::{Resolver, discard, rule_on, united_rests};
use crate::state::Goal;
use crate::trial::{Trial, Use, tried_from};
use pure_goal_rules::{Eliminator, Parts, greatest_index, read_proposition};
use pure_goal_steps::StepFault;
use pure_inst::Ordered;
use pure_term::{Label, Term};
use pure_theorem::{Thm, as_implication};
use pure_watch::{Unwatched, Watch};
use std::alloc::Global;

/// The goal's first subgoal by assumption.
fn assumed<B: Ordered, W: Watch>(
    alloc: Global,
    thy: &B,
    goal: &Thm,
    first: &Term,
    watch: &W,
) -> Result<Goal, StepFault>
    requires may { MayStep (B.content thy.now) goal.now }
    requires first { IsFirstSubgoal goal.now first.now }
    ensures { IsStep (AssumptionStep (algebra_of (B.content thy.now).declarations)) goal.now (λ rests. rests ≡ goal.now.rests) result }
{
    let parts = read_proposition(alloc, first)?;
    let maxidx = greatest_index(goal)?;
    let items = parts.prefix.as_slice();
    let rests = goal.rests.as_slice();
    let trial = Trial {
        goal,
        items,
        conclusion: parts.conclusion,
        maxidx,
        rests,
    };
    tried_from(alloc, thy, &trial, &Use::Assume, 0, watch)
}

/// A hypothesis of the goal's first subgoal, which is read so, eliminated by the rule.
fn eliminated_by<B: Ordered, W: Watch>(
    alloc: Global,
    thy: &B,
    goal: &Thm,
    parts: &Parts,
    resolver: &Resolver,
    rests: &[Label],
    watch: &W,
) -> Result<Goal, StepFault>
    requires first { HasFirst goal.now }
    requires may { MayAttemptEach goal.now parts.now resolver.now elimination_attempt }
    requires set { IsLabelSet rests.now }
    ensures none { resolver.now.rule.premises.items ≡ [] → result ≡ Err StepFault.NoPremise }
    ensures some { IsFirstServed (algebra_of (B.content thy.now).declarations) goal.now parts.now resolver.now elimination_attempt rests.now result }
{
    let premises = resolver.rule.premises.as_slice();
    let Some((first, others)) = premises.split_first() else {
        return Err(StepFault::NoPremise);
    };
    let items = parts.prefix.as_slice();
    let trial = Trial {
        goal,
        items,
        conclusion: parts.conclusion,
        maxidx: resolver.maxidx,
        rests,
    };
    let rule = Eliminator {
        first,
        others,
        conclusion: &resolver.rule.conclusion,
    };
    tried_from(alloc, thy, &trial, &Use::Eliminate(rule), 0, watch)
}

/// A hypothesis of the goal's first subgoal eliminated by the fact.
fn eliminated<B: Ordered, W: Watch>(
    alloc: Global,
    thy: &B,
    goal: &Thm,
    fact: &Thm,
    first: &Term,
    watch: &W,
) -> Result<Goal, StepFault>
    requires may { MayUse (B.content thy.now) goal.now fact.now }
    requires first { IsFirstSubgoal goal.now first.now }
    ensures { IsStep (λ s. EliminationStep (algebra_of (B.content thy.now).declarations) s fact.now) goal.now (IsSetOf label_cmp (goal.now.rests ++ fact.now.rests)) result }
{
    let parts = read_proposition(alloc, first)?;
    let rests = united_rests(alloc, goal, fact)?;
    let resolver = rule_on(alloc, goal, fact)?;
    let answer = eliminated_by(alloc, thy, goal, &parts, &resolver, &rests, watch);
    discard(resolver);
    answer
}

/// A hypothesis of the goal's first subgoal, which is read so, destructed by the rule.
fn destructed_by<B: Ordered, W: Watch>(
    alloc: Global,
    thy: &B,
    goal: &Thm,
    parts: &Parts,
    resolver: &Resolver,
    rests: &[Label],
    watch: &W,
) -> Result<Goal, StepFault>
    requires first { HasFirst goal.now }
    requires may { MayAttemptEach goal.now parts.now resolver.now destruction_attempt }
    requires set { IsLabelSet rests.now }
    ensures none { resolver.now.rule.premises.items ≡ [] → result ≡ Err StepFault.NoPremise }
    ensures some { IsFirstServed (algebra_of (B.content thy.now).declarations) goal.now parts.now resolver.now destruction_attempt rests.now result }
{
    let premises = resolver.rule.premises.as_slice();
    let Some((first, others)) = premises.split_first() else {
        return Err(StepFault::NoPremise);
    };
    let items = parts.prefix.as_slice();
    let trial = Trial {
        goal,
        items,
        conclusion: parts.conclusion,
        maxidx: resolver.maxidx,
        rests,
    };
    let rule = Eliminator {
        first,
        others,
        conclusion: &resolver.rule.conclusion,
    };
    tried_from(alloc, thy, &trial, &Use::Destruct(rule), 0, watch)
}

/// A hypothesis of the goal's first subgoal destructed by the fact.
fn destructed<B: Ordered, W: Watch>(
    alloc: Global,
    thy: &B,
    goal: &Thm,
    fact: &Thm,
    first: &Term,
    watch: &W,
) -> Result<Goal, StepFault>
    requires may { MayUse (B.content thy.now) goal.now fact.now }
    requires first { IsFirstSubgoal goal.now first.now }
    ensures { IsStep (λ s. DestructionStep (algebra_of (B.content thy.now).declarations) s fact.now) goal.now (IsSetOf label_cmp (goal.now.rests ++ fact.now.rests)) result }
{
    let parts = read_proposition(alloc, first)?;
    let rests = united_rests(alloc, goal, fact)?;
    let resolver = rule_on(alloc, goal, fact)?;
    let answer = destructed_by(alloc, thy, goal, &parts, &resolver, &rests, watch);
    discard(resolver);
    answer
}

impl Goal {
    /// The first subgoal by assumption: its conclusion is unified with a hypothesis, the first that serves, and it goes.
    ///
    /// # Errors
    ///
    /// `NoSubgoal` exactly where there is none; `NoHypothesis` exactly where for each hypothesis the unifier answers that there is no unifier; else as the unifier answers for the first for which it doesn't, and as in resolution.
    pub fn assumption<B: Ordered>(&self, alloc: Global, thy: &B) -> Result<Goal, StepFault>
        requires { MayStep (B.content thy.now) self.now.thm }
        ensures answer { IsStep (AssumptionStep (algebra_of (B.content thy.now).declarations)) self.now.thm (λ rests. rests ≡ self.now.thm.rests) result }
        ensures derivable { IsUnifyContent (B.content thy.now) → IfOk result (λ new. IsDerivable (B.content thy.now) new.thm) }
    {
        self.assumption_while(alloc, thy, &Unwatched)
    }

    /// As `assumption`, as long as the watch lets searches go on.
    ///
    /// # Errors
    ///
    /// As in `assumption`; `Memory` where memory was refused, or the watch broke a search off.
    pub fn assumption_while<B: Ordered, W: Watch>(
        &self,
        alloc: Global,
        thy: &B,
        watch: &W,
    ) -> Result<Goal, StepFault>
        requires { MayStep (B.content thy.now) self.now.thm }
        ensures answer { IsStep (AssumptionStep (algebra_of (B.content thy.now).declarations)) self.now.thm (λ rests. rests ≡ self.now.thm.rests) result }
        ensures derivable { IsUnifyContent (B.content thy.now) → IfOk result (λ new. IsDerivable (B.content thy.now) new.thm) }
    {
        match as_implication(&self.thm.prop) {
            Some((first, _)) => assumed(alloc, thy, &self.thm, first, watch),
            None => Err(StepFault::NoSubgoal),
        }
    }

    /// Elimination with a fact: its conclusion is unified with that of the first subgoal, and its first premise with a hypothesis, the first that serves; its other premises take the subgoal's place, behind its prefix without that hypothesis.
    ///
    /// # Errors
    ///
    /// `NoSubgoal` exactly where there is none; `NoPremise` where the fact has none; else as in `assumption`.
    pub fn erule<B: Ordered>(&self, alloc: Global, thy: &B, fact: &Thm) -> Result<Goal, StepFault>
        requires { MayUse (B.content thy.now) self.now.thm fact.now }
        ensures answer { IsStep (λ s. EliminationStep (algebra_of (B.content thy.now).declarations) s fact.now) self.now.thm (IsSetOf label_cmp (self.now.thm.rests ++ fact.now.rests)) result }
        ensures derivable { IsUnifyContent (B.content thy.now) → IfOk result (λ new. IsDerivable (B.content thy.now) new.thm) }
    {
        self.erule_while(alloc, thy, fact, &Unwatched)
    }

    /// As `erule`, as long as the watch lets searches go on.
    ///
    /// # Errors
    ///
    /// As in `erule`; `Memory` where memory was refused, or the watch broke a search off.
    pub fn erule_while<B: Ordered, W: Watch>(
        &self,
        alloc: Global,
        thy: &B,
        fact: &Thm,
        watch: &W,
    ) -> Result<Goal, StepFault>
        requires { MayUse (B.content thy.now) self.now.thm fact.now }
        ensures answer { IsStep (λ s. EliminationStep (algebra_of (B.content thy.now).declarations) s fact.now) self.now.thm (IsSetOf label_cmp (self.now.thm.rests ++ fact.now.rests)) result }
        ensures derivable { IsUnifyContent (B.content thy.now) → IfOk result (λ new. IsDerivable (B.content thy.now) new.thm) }
    {
        match as_implication(&self.thm.prop) {
            Some((first, _)) => eliminated(alloc, thy, &self.thm, fact, first, watch),
            None => Err(StepFault::NoSubgoal),
        }
    }

    /// Destruction with a fact: its first premise is unified with a hypothesis, the first that serves; its other premises take the subgoal's place, behind its prefix without that hypothesis, and then the subgoal itself so, with the fact's conclusion as its last hypothesis.
    ///
    /// # Errors
    ///
    /// As in `erule`.
    pub fn drule<B: Ordered>(&self, alloc: Global, thy: &B, fact: &Thm) -> Result<Goal, StepFault>
        requires { MayUse (B.content thy.now) self.now.thm fact.now }
        ensures answer { IsStep (λ s. DestructionStep (algebra_of (B.content thy.now).declarations) s fact.now) self.now.thm (IsSetOf label_cmp (self.now.thm.rests ++ fact.now.rests)) result }
        ensures derivable { IsUnifyContent (B.content thy.now) → IfOk result (λ new. IsDerivable (B.content thy.now) new.thm) }
    {
        self.drule_while(alloc, thy, fact, &Unwatched)
    }

    /// As `drule`, as long as the watch lets searches go on.
    ///
    /// # Errors
    ///
    /// As in `drule`; `Memory` where memory was refused, or the watch broke a search off.
    pub fn drule_while<B: Ordered, W: Watch>(
        &self,
        alloc: Global,
        thy: &B,
        fact: &Thm,
        watch: &W,
    ) -> Result<Goal, StepFault>
        requires { MayUse (B.content thy.now) self.now.thm fact.now }
        ensures answer { IsStep (λ s. DestructionStep (algebra_of (B.content thy.now).declarations) s fact.now) self.now.thm (IsSetOf label_cmp (self.now.thm.rests ++ fact.now.rests)) result }
        ensures derivable { IsUnifyContent (B.content thy.now) → IfOk result (λ new. IsDerivable (B.content thy.now) new.thm) }
    {
        match as_implication(&self.thm.prop) {
            Some((first, _)) => destructed(alloc, thy, &self.thm, fact, first, watch),
            None => Err(StepFault::NoSubgoal),
        }
    }
}
