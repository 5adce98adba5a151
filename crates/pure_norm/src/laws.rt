//! What normal forms are and what they keep: laws, each carried by the contract of a function that does nothing.
ghost use Rattle.pure_norm.specs.LawsBeta.{NormalFormIsNormal, NormalFormIsWithin, OneNormalForm, NormalFormOfNormal, StepKeepsType, StepKeepsCertified, StepKeepsClosed, NormalFormKeepsType, NormalFormKeepsCertified, NormalFormKeepsClosed, NormalUnderLift};
ghost use Rattle.pure_reduction.specs.LawsSteps.{BetaStepsAreConfluent};
ghost use Rattle.pure_reduction.specs.LawsLong.{LongFormUnderMap};

/// A normal form has no redex, is within the limits, and is the one normal term that the steps reach.
pub fn one_normal_form()
    ensures normal { NormalFormIsNormal }
    ensures within { NormalFormIsWithin }
    ensures one { OneNormalForm }
    ensures itself { NormalFormOfNormal }
{}

/// A step keeps a term's type, and that it is certified and closed.
pub fn step_keeps()
    ensures typ { StepKeepsType }
    ensures certified { StepKeepsCertified }
    ensures closed { StepKeepsClosed }
{}

/// So does the normal form.
pub fn normal_form_keeps()
    ensures typ { NormalFormKeepsType }
    ensures certified { NormalFormKeepsCertified }
    ensures closed { NormalFormKeepsClosed }
{}

/// Lifting keeps terms normal, and others not.
pub fn normal_under_lift()
    ensures { NormalUnderLift }
{}

/// Beta steps at any place, in any order, are confluent: the sequence of the normaliser is one of their ways.
pub fn beta_steps_are_confluent()
    ensures { BetaStepsAreConfluent }
{}

/// Under type-respecting maps a term has a long form exactly where its own long form has one, and the two are the same.
pub fn long_form_under_map()
    ensures { LongFormUnderMap }
{}
