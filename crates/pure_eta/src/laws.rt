//! What eta-normal forms and long forms are like: laws, each carried by the contract of a function that does nothing.
ghost use Rattle.pure_eta.specs.LawsEta.{EachTermHasEtaNormalForm, EachTypedNormalTermHasLongForm, LongFormOfLongForm, LongFormOfReduct, LongFormsOfJoined, EtaNormalFormOfLongForm, StepsKeepType, StepsKeepParts, StepsKeepCertified, StepsKeepBetaNormal, LongFormIsCertified, StepsOfLift, EtaNormalOfLift, SaturatedOfLift, SaturatedPartsOfLift, ExpandedArgumentExample};

/// There is an eta-normal form of each term, and a long form of each typed beta-normal one.
pub fn forms_exist()
    ensures eta { EachTermHasEtaNormalForm }
    ensures long { EachTypedNormalTermHasLongForm }
{}

/// Which terms have the same long form.
pub fn long_forms_of_joined_terms()
    ensures itself { LongFormOfLongForm }
    ensures reduct { LongFormOfReduct }
    ensures joined { LongFormsOfJoined }
    ensures eta { EtaNormalFormOfLongForm }
{}

/// What eta steps keep.
pub fn eta_steps_keep()
    ensures typ { StepsKeepType }
    ensures parts { StepsKeepParts }
    ensures certified { StepsKeepCertified }
    ensures normal { StepsKeepBetaNormal }
{}

/// A certified term has a certified long form.
pub fn long_form_is_certified()
    ensures { LongFormIsCertified }
{}

/// Eta-normal terms, and terms with as many abstractions as their types have arrows, stay so when they are lifted.
pub fn lifted_forms()
    ensures steps { StepsOfLift }
    ensures eta { EtaNormalOfLift }
    ensures saturated { SaturatedOfLift }
    ensures parts { SaturatedPartsOfLift }
{}

/// An argument is expanded at its own type.
pub fn expanded_argument_example()
    ensures { ExpandedArgumentExample }
{}
