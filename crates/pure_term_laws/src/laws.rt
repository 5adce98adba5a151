//! What the definitions mean: laws and computed examples, each carried by the contract of a function that does nothing.
ghost use Rattle.pure_term_laws.specs.LawsTyping.{TypsAreLists, ListsAreTyps, TypTestIsEquality, TermTestIsEquality, SizeExample, LimitsExample, TypedTermHasOneType, TypedTermIsClosed, TypedOrAtFault, TypedIsNotAtFault, OnePlaceOfFault, FaultExample, TypingExample, NoTypeExample, LiftExample, LiftOfClosedTerm, SubstBoundExample, AbstractionExample, OccursExample, OccursInItself};
ghost use Rattle.pure_term_laws.specs.LawsOrder.{BelowExample, SortBelowExample, OfSortExample, WrongCountExample, UnevenIsNotCoregular, DeclaredClasses, DeclaredArities, CertifiedPartsExample, JoinedForkIsCoregular, CrossingIsNotCoregular, OpenForkIsNotCoregular, FallingIsNotCoregular, CertifiedExample, NotCertifiedExample, CertifiedImagesExample};
ghost use Rattle.pure_term_laws.specs.LawsSubst.{IdentityIsSortRespecting, IdentityIsTypeRespecting, IdentityChangesNoType, IdentityChangesNoTerm, EntriesRespectSorts, EntriesRespectTypes, EntriesKeepFixedTyps, EntriesKeepFixed, TermMapAlone, InstanceExample, TypInstanceExample, FixedTypExample, AllAtOnceExample, KeyedOnOwnTypeExample, SortRespectExample, TypeRespectExample};
ghost use Rattle.pure_term_laws.specs.LawsNormal.{NoStepExactlyWhereNormal, OneBetaSequence, OneBetaSequenceToNormal, EachTermHasBetaAnswer, OneBetaAnswer, BetaStepsExample, BetaAnswerExample, BetaNormalExample, EndlessExample, LargeExample, EtaExample, LongFormExample, TwoArrowsExample, OneLongForm, OneEtaNormalForm};
ghost use Rattle.pure_term_laws.specs.LawsBounds.{LiftZero, LiftAgain, LiftLift, SizeOfLift, DepthOfLift, SubstLift, SubstBind, BindSubst, NotInBind, BindOfOther, LiftPastSubst, LiftAboveBind, LiftBelowBind, BindPastSubst, BindBelowSubst, TypingOfLift, TypingOfSubst, TypingOfBind, TypingOfInstance};
ghost use Rattle.pure_term_laws.specs.LawsCertified.{PartsOfLift, PartsOfSubst, PartsOfBind};
ghost use Rattle.pure_term_laws.specs.LawsOccurs.{TypInstancesAgree, AgreeingInstance, TypVariableOfTypInstance, VariableOfInstance, TypVariableOfInstance, SchematicMapKeeps, InstanceIsClosed};
ghost use Rattle.pure_term_laws.specs.LawsMaps.{SubstPastLift, SubstPastSubst, SizeOfSubst, DepthOfSubst, InstanceOfLift, InstanceOfSubst, InstanceOfBind, SendsAloneExample, InstancesAgree, InstanceSentElsewhere, OccursInInstance, InstanceOfInstance};

/// The mutual list of types stands for a list.
pub fn typs_are_lists()
    ensures there { TypsAreLists }
    ensures back { ListsAreTyps }
{}

/// The tests of types and of terms are equality.
pub fn tests_are_equality()
    ensures types { TypTestIsEquality }
    ensures terms { TermTestIsEquality }
{}

/// Size and depth count the nodes of types too.
pub fn size_example()
    ensures counted { SizeExample }
    ensures limits { LimitsExample }
{}

/// A typed term has one type, and no loose bound variable where it is typed under no binders.
pub fn typed_term_has_one_type()
    ensures one { TypedTermHasOneType }
    ensures closed { TypedTermIsClosed }
{}

/// A term is typed, or one of its nodes is the first at fault.
pub fn typed_or_at_fault()
    ensures either { TypedOrAtFault }
    ensures not_both { TypedIsNotAtFault }
    ensures one { OnePlaceOfFault }
    ensures example { FaultExample }
{}

/// Terms that have a type, and terms that have none.
pub fn typing_example()
    ensures typed { TypingExample }
    ensures untyped { NoTypeExample }
{}

/// Lifting, and that it changes no closed term.
pub fn lift_example()
    ensures lifted { LiftExample }
    ensures closed { LiftOfClosedTerm }
{}

/// An argument in place of bound variable 0 is captured by no binder.
pub fn subst_bound_example()
    ensures { SubstBoundExample }
{}

/// Abstraction over a variable, and whether it occurs.
pub fn abstraction_example()
    ensures abstraction { AbstractionExample }
    ensures occurs { OccursExample }
    ensures itself { OccursInItself }
{}

/// Classes and sorts below others, and not.
pub fn below_example()
    ensures classes { BelowExample }
    ensures sorts { SortBelowExample }
    ensures types { OfSortExample }
    ensures wrong_count { WrongCountExample }
{}

/// Algebras that are coregular.
pub fn coregular_example()
    ensures { JoinedForkIsCoregular }
{}

/// Algebras that are not.
pub fn not_coregular_example()
    ensures crossing { CrossingIsNotCoregular }
    ensures uneven { UnevenIsNotCoregular }
    ensures open_fork { OpenForkIsNotCoregular }
    ensures falling { FallingIsNotCoregular }
{}

/// The algebra of declarations has exactly their classes and arities.
pub fn declared_algebra()
    ensures classes { DeclaredClasses }
    ensures arities { DeclaredArities }
{}

/// Terms that are certified, and not.
pub fn certified_example()
    ensures certified { CertifiedExample }
    ensures parts { CertifiedPartsExample }
    ensures refused { NotCertifiedExample }
    ensures images { CertifiedImagesExample }
{}

/// The identity maps respect sorts and types.
pub fn identity_respects()
    ensures sorts { IdentityIsSortRespecting }
    ensures types { IdentityIsTypeRespecting }
{}

/// The identity maps change nothing.
pub fn identity_changes_nothing()
    ensures types { IdentityChangesNoType }
    ensures terms { IdentityChangesNoTerm }
    ensures alone { TermMapAlone }
{}

/// A finite map respects sorts, or types, exactly where each of its entries does, and it leaves fixed variables as they are.
pub fn entries_respect()
    ensures sorts { EntriesRespectSorts }
    ensures types { EntriesRespectTypes }
    ensures fixed_typs { EntriesKeepFixedTyps }
    ensures fixed { EntriesKeepFixed }
{}

/// Instances by finite maps.
pub fn instance_example()
    ensures term { InstanceExample }
    ensures typ { TypInstanceExample }
    ensures fixed { FixedTypExample }
{}

/// Maps are taken all at once, and keyed on a variable with its own type.
pub fn all_at_once_example()
    ensures at_once { AllAtOnceExample }
    ensures own_type { KeyedOnOwnTypeExample }
{}

/// Maps that respect sorts or types, and maps that do not.
pub fn respecting_example()
    ensures sorts { SortRespectExample }
    ensures types { TypeRespectExample }
{}

/// Exactly the normal terms have no beta step.
pub fn no_step_exactly_where_normal()
    ensures { NoStepExactlyWhereNormal }
{}

/// A term has one beta sequence.
pub fn one_beta_sequence()
    ensures as_long { OneBetaSequence }
    ensures to_normal { OneBetaSequenceToNormal }
{}

/// A term has one answer of the normaliser.
pub fn one_beta_answer()
    ensures some { EachTermHasBetaAnswer }
    ensures one { OneBetaAnswer }
{}

/// Beta steps, and the answers that they decide.
pub fn beta_example()
    ensures steps { BetaStepsExample }
    ensures answer { BetaAnswerExample }
    ensures normal { BetaNormalExample }
    ensures endless { EndlessExample }
    ensures large { LargeExample }
{}

/// Eta-normal forms and long forms.
pub fn eta_example()
    ensures eta { EtaExample }
    ensures long { LongFormExample }
    ensures two_arrows { TwoArrowsExample }
{}

/// A term has one eta-normal form.
pub fn one_eta_normal_form()
    ensures { OneEtaNormalForm }
{}

/// A term has one long form.
pub fn one_long_form()
    ensures { OneLongForm }
{}

/// Two liftings, and a lifted term's size and depth.
pub fn lifting()
    ensures zero { LiftZero }
    ensures again { LiftAgain }
    ensures twice { LiftLift }
    ensures size { SizeOfLift }
    ensures depth { DepthOfLift }
{}

/// Instantiation undoes a lifting, and instantiation and abstraction undo each other.
pub fn instantiation_and_abstraction()
    ensures lifted { SubstLift }
    ensures abstracted { SubstBind }
    ensures back { BindSubst }
{}

/// Typing is kept by lifting, by instantiation, by abstraction and by maps.
pub fn typing_is_kept()
    ensures lifted { TypingOfLift }
    ensures instantiated { TypingOfSubst }
    ensures abstracted { TypingOfBind }
    ensures mapped { TypingOfInstance }
{}

/// A term's parts stay certified under lifting, instantiation and abstraction.
pub fn certification_is_kept()
    ensures lifted { PartsOfLift }
    ensures instantiated { PartsOfSubst }
    ensures abstracted { PartsOfBind }
{}

/// Instantiation past a lifting and past an instantiation, and the size and depth of what it gives.
pub fn instantiation_past()
    ensures lifted { SubstPastLift }
    ensures instantiated { SubstPastSubst }
    ensures size { SizeOfSubst }
    ensures depth { DepthOfSubst }
{}

/// Maps past liftings, instantiations and abstractions; and maps one after the other are one map.
pub fn maps_past()
    ensures lifted { InstanceOfLift }
    ensures instantiated { InstanceOfSubst }
    ensures abstracted { InstanceOfBind }
    ensures again { InstanceOfInstance }
{}

/// A map past an abstraction may move a fixed variable of the term to a fresh one.
pub fn sent_alone_example()
    ensures { SendsAloneExample }
{}

/// An instance rests on the images of the variables that occur, and has what occurs in them.
pub fn instance_by_occurring_variables()
    ensures agree { InstancesAgree }
    ensures elsewhere { InstanceSentElsewhere }
    ensures occurs { OccursInInstance }
{}

/// Maps that agree on a term's variables and type variables give one instance; so maps of schematic ones alone leave a term without these as it is.
pub fn instance_by_what_occurs()
    ensures types { TypInstancesAgree }
    ensures terms { AgreeingInstance }
    ensures schematic { SchematicMapKeeps }
{}

/// The variables and the type variables of an instance come from the images of the term's.
pub fn variables_of_instance()
    ensures in_type { TypVariableOfTypInstance }
    ensures variable { VariableOfInstance }
    ensures type_variable { TypVariableOfInstance }
{}

/// Maps leave closed terms closed.
pub fn instance_is_closed()
    ensures { InstanceIsClosed }
{}

/// What was abstracted over doesn't occur any more, and abstraction over what doesn't occur is a lifting.
pub fn abstraction_and_occurrence()
    ensures none { NotInBind }
    ensures lifting { BindOfOther }
{}

/// Lifting and abstraction past one another, and both past an instantiation.
pub fn lifting_and_abstraction_past()
    ensures lift_past_subst { LiftPastSubst }
    ensures lift_above_bind { LiftAboveBind }
    ensures lift_below_bind { LiftBelowBind }
    ensures bind_past_subst { BindPastSubst }
    ensures bind_below_subst { BindBelowSubst }
{}
