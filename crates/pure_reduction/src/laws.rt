//! What beta steps at any place, and long forms, are like: laws, each carried by the contract of a function that does nothing.
ghost use Rattle.pure_reduction.specs.LawsSteps.{BetaStepsAreConfluent, OneBetaNormalForm, BetaStepsKeepType, NormalOrderStepIsStep, TypedTermHasBetaNormalForm, StepsCommute, UntypedStepsExample};
ghost use Rattle.pure_reduction.specs.LawsLong.{OneLongFormOfTerm, TypedTermHasLongForm, LongFormKeepsType, LongFormOfNormal, LongFormOfBetaReduct, LongFormOfEtaReduct, BetaStepsUnderMaps, EtaStepsUnderMaps, LongFormUnderMap, SameUnderMaps, LongFormOfRedexExample};

/// Beta steps are confluent, so steps lead to one normal term at most.
pub fn beta_steps_are_confluent()
    ensures confluent { BetaStepsAreConfluent }
    ensures one { OneBetaNormalForm }
{}

/// A step at any place keeps a term's type.
pub fn beta_steps_keep_type()
    ensures { BetaStepsKeepType }
{}

/// A step in normal order is a step.
pub fn normal_order_steps()
    ensures { NormalOrderStepIsStep }
{}

/// Steps lead from each typed term to a normal one.
pub fn typed_terms_have_normal_forms()
    ensures { TypedTermHasBetaNormalForm }
{}

/// Beta and eta steps of typed terms commute; those of others may not.
pub fn typed_steps_commute()
    ensures typed { StepsCommute }
    ensures untyped { UntypedStepsExample }
{}

/// A term has one long form at most, and a typed term has one, of its type.
pub fn one_long_form()
    ensures one { OneLongFormOfTerm }
    ensures some { TypedTermHasLongForm }
    ensures typ { LongFormKeepsType }
    ensures normal { LongFormOfNormal }
    ensures example { LongFormOfRedexExample }
{}

/// A term has the long form of its reducts.
pub fn long_forms_of_reducts()
    ensures beta { LongFormOfBetaReduct }
    ensures eta { LongFormOfEtaReduct }
{}

/// Maps keep steps.
pub fn steps_under_maps()
    ensures beta { BetaStepsUnderMaps }
    ensures eta { EtaStepsUnderMaps }
{}

/// Long forms under a map, and under two maps that agree on long forms.
pub fn long_forms_under_maps()
    ensures map { LongFormUnderMap }
    ensures two { SameUnderMaps }
{}
