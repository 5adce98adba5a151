//! What the definitions mean: laws, each carried by the contract of a function that does nothing.
ghost use Rattle.pure_logic.specs.Laws.Derivable.{DerivableAloneExactly, DerivableExactly, AxiomIsDerivable, PromiseIsDerivable, PureIsContent, VariableIsProposition, ChainIsDerivable, VariableChainIsDerivable, PureIsBelowItself, TrivialIsDerivable, WeakenedIsDerivable, ConsistentExactly};
ghost use Rattle.pure_logic.specs.Laws.Proves.{DerivableIsProves, PairsAreEquations, AssumedIsProved, WeakerIsProved, ImplicationIsProved, ConclusionIsProved, ChainIsProved, EndOfChainIsProved, QuantificationIsProved, InstanceOfBodyIsProved, ProvedIsProposition, CutIsProved};
ghost use Rattle.pure_logic.specs.Laws.Inferences.{InferredFromOne, InferredFromTwo, ImpliesElimIsDerivable, ImpliesIntroIsDerivable, AllElimIsDerivable, AllIntroIsDerivable};
ghost use Rattle.pure_logic.specs.Laws.Equality.{ReflexiveEquality, SymmetricEquality, TransitiveEquality, EqualsAreReplaced, EqualApplications, EqualPropositions, EqualIsProved, EqualFunctions, BetaEquality, EtaEquality, EqualAbstractions, MarkMeansNothing};
ghost use Rattle.pure_logic.specs.Laws.Quantification.{EqualInContext, EqualBodies, AbstractionIsDerivable, InstanceOfFunctionIsProved, ReducedInstanceIsProved, ReducedInstanceIsDerivable};
ghost use Rattle.pure_logic.specs.Laws.Substitution.{SubstitutionOfTrees, InstanceIsProved, InstanceIsDerivable};
ghost use Rattle.pure_logic.specs.Laws.Maps.{WeakerIsDerivable, InstanceFromSameHypotheses, GeneralisedIsDerivable, GeneralisedIsStatement, GeneralisedHasOnlyIndex, FixedMapKeeps, GeneralisationKeeps, RaisedIsDerivable, InstantiatedIsDerivable};
ghost use Rattle.pure_logic.specs.Laws.Promises.{CutOfTrees, CutByProofs, CutOfPromises, SettledIsDerivable, FulfilledIsDerivable, AllFulfilledIsDerivable, JoinedAreDerivable, JoinedExactly};
ghost use Rattle.pure_logic.specs.Laws.BuiltFacts.{BuiltFactsAreDerivable, BuiltFactsAreDerivableAbove, BuiltFactsAreStatements};
ghost use Rattle.pure_logic.specs.Laws.Tree.{OneConclusion, OneUnderPairs, WeakeningOfTrees, WeakeningOfDerivable, IdentityRespects, JoinedMapsRespect, JoinedInstance};
ghost use Rattle.pure_logic.specs.Laws.Names.{ImplicationByName, MarkByName, QuantificationByName, EqualityByName, RespectingImagesAreClosed, JoinedMapsKeepFixed};
ghost use Rattle.pure_logic.specs.Laws.Parts.{PartsOfInstance, InstanceIsCertified, ComposedMapsRespect};
ghost use Rattle.pure_logic.specs.Laws.Conclusion.{ConclusionIsProposition, DerivableIsProposition, DerivableAloneIsProposition};
ghost use Rattle.pure_logic.specs.Laws.Contents.{MergeHasDeclarations, MergeHasNoRepeats, OneMerge, BeginningIsContent, ParentsAreBelow, OneBeginning, AncestorsAreTheParents, AncestorsHaveNoRepeats, BeginningHasTheoriesApart, TheoriesAreToldApart, PureHasTheoriesApart};

/// Pure's content is a content, and below itself.
pub fn pure_is_content()
    ensures content { PureIsContent }
    ensures below { PureIsBelowItself }
{}

/// Schematic variables of type prop are propositions.
pub fn variable_is_proposition()
    ensures { VariableIsProposition }
{}

/// A chain of propositions with its conclusion among its premises is derivable.
pub fn chain_is_derivable()
    ensures chain { ChainIsDerivable }
    ensures variables { VariableChainIsDerivable }
    ensures trivial { TrivialIsDerivable }
    ensures weakened { WeakenedIsDerivable }
{}

/// What is derivable, in words of trees: exactly where a tree concludes it from what the theorem allows.
pub fn derivable_exactly()
    ensures alone { DerivableAloneExactly }
    ensures theorem { DerivableExactly }
{}

/// What is declared is derivable: an axiom alone, and the statement of a promise resting on its label.
pub fn declared_is_derivable()
    ensures axiom_alone { AxiomIsDerivable }
    ensures promise { PromiseIsDerivable }
{}

/// What is derivable is what is proved, with the equations of pairs among the hypotheses.
pub fn derivable_is_proved()
    ensures without_pairs { DerivableIsProves }
    ensures pairs { PairsAreEquations }
{}

/// What is proved: hypotheses, implications and chains of them, quantifications, and the cut.
pub fn proved()
    ensures assumed { AssumedIsProved }
    ensures weaker { WeakerIsProved }
    ensures implication { ImplicationIsProved }
    ensures conclusion { ConclusionIsProved }
    ensures chain { ChainIsProved }
    ensures chain_end { EndOfChainIsProved }
    ensures quantification { QuantificationIsProved }
    ensures body { InstanceOfBodyIsProved }
    ensures proposition { ProvedIsProposition }
    ensures cut { CutIsProved }
{}

/// Inferences on theorems keep their pairs: implications and quantifications are introduced and eliminated.
pub fn inferences()
    ensures from_one { InferredFromOne }
    ensures from_two { InferredFromTwo }
    ensures implies_elim { ImpliesElimIsDerivable }
    ensures implies_intro { ImpliesIntroIsDerivable }
    ensures all_elim { AllElimIsDerivable }
    ensures all_intro { AllIntroIsDerivable }
{}

/// Equality is an equivalence, and equals may be put for one another.
pub fn equality_is_congruence()
    ensures reflexive { ReflexiveEquality }
    ensures symmetric { SymmetricEquality }
    ensures transitive { TransitiveEquality }
    ensures replaced { EqualsAreReplaced }
    ensures applications { EqualApplications }
    ensures propositions { EqualPropositions }
    ensures proved { EqualIsProved }
    ensures mark { MarkMeansNothing }
{}

/// Functions that are equal at each argument are equal; beta and eta.
pub fn equality_of_functions()
    ensures functions { EqualFunctions }
    ensures beta { BetaEquality }
    ensures eta { EtaEquality }
    ensures abstractions { EqualAbstractions }
{}

/// From a quantification over any function follows the function applied to a term, also reduced.
pub fn quantification_over_any_function()
    ensures applied { InstanceOfFunctionIsProved }
    ensures reduced { ReducedInstanceIsProved }
    ensures derivable { ReducedInstanceIsDerivable }
{}

/// Equations go into contexts and under binders.
pub fn equality_in_contexts()
    ensures context { EqualInContext }
    ensures bodies { EqualBodies }
    ensures abstraction { AbstractionIsDerivable }
{}

/// Each instance by respecting maps of what is concluded, proved or derivable is so too.
pub fn substitution_is_admissible()
    ensures trees { SubstitutionOfTrees }
    ensures proved { InstanceIsProved }
    ensures derivable { InstanceIsDerivable }
{}

/// Maps on theorems: more hypotheses, maps that leave the hypotheses as they are, indexes raised, and the finite maps of a call.
pub fn maps_on_theorems()
    ensures weaker { WeakerIsDerivable }
    ensures same_hypotheses { InstanceFromSameHypotheses }
    ensures raised { RaisedIsDerivable }
    ensures instantiated { InstantiatedIsDerivable }
{}

/// Fixed variables that are in no hypothesis are made schematic, with one index; where there are none, nothing changes.
pub fn fixed_variables_made_schematic()
    ensures generalised { GeneralisedIsDerivable }
    ensures statement { GeneralisedIsStatement }
    ensures index { GeneralisedHasOnlyIndex }
    ensures fixed { FixedMapKeeps }
    ensures kept { GeneralisationKeeps }
{}

/// What rests on promises of which each is left open, or proved from those left open, or settled, rests on those left open alone.
pub fn promises_are_cut()
    ensures trees { CutOfTrees }
    ensures by_proofs { CutByProofs }
    ensures cut { CutOfPromises }
    ensures settled { SettledIsDerivable }
{}

/// The six built facts are derivable over Pure's content and over each above it, and could be axioms.
pub fn built_facts()
    ensures pure { BuiltFactsAreDerivable }
    ensures above { BuiltFactsAreDerivableAbove }
    ensures statements { BuiltFactsAreStatements }
{}

/// Promises fulfilled one after another leave the labels that remain; and those that rest on joined ones alone are derivable alone.
pub fn promises_are_fulfilled()
    ensures left { FulfilledIsDerivable }
    ensures all { AllFulfilledIsDerivable }
    ensures joined { JoinedAreDerivable }
    ensures exactly { JoinedExactly }
{}

/// A tree concludes one proposition at most.
pub fn one_conclusion()
    ensures tree { OneConclusion }
    ensures pairs { OneUnderPairs }
{}

/// What a tree concludes is a proposition of the content, and so are its hypotheses; what is derivable is one too.
pub fn conclusion_is_proposition()
    ensures tree { ConclusionIsProposition }
    ensures derivable { DerivableIsProposition }
    ensures alone { DerivableAloneIsProposition }
{}

/// What is concluded or derivable over a content is so over each content above it.
pub fn weakening()
    ensures trees { WeakeningOfTrees }
    ensures derivable { WeakeningOfDerivable }
{}

/// A content is consistent exactly where some proposition isn't derivable from its axioms alone.
pub fn consistent_exactly()
    ensures { ConsistentExactly }
{}

/// The name of a connective tells its type, in what is certified over a content above Pure's.
pub fn connectives_by_name()
    ensures implication { ImplicationByName }
    ensures mark { MarkByName }
    ensures quantification { QuantificationByName }
    ensures equality { EqualityByName }
{}

/// Maps that respect a content: the identity, and finite maps of a call, joined; what they keep.
pub fn respecting_maps()
    ensures closed { RespectingImagesAreClosed }
    ensures fixed { JoinedMapsKeepFixed }
    ensures identity { IdentityRespects }
    ensures joined { JoinedMapsRespect }
    ensures instance { JoinedInstance }
{}

/// A merge has its parents' declarations, each once, and there is one at most.
pub fn merge_has_declarations()
    ensures has { MergeHasDeclarations }
    ensures distinct { MergeHasNoRepeats }
    ensures one { OneMerge }
{}

/// With what a theory begins: one content at most, which has the parents below it.
pub fn beginning_is_content()
    ensures content { BeginningIsContent }
    ensures below { ParentsAreBelow }
    ensures one { OneBeginning }
{}

/// The ancestors of a theory, and how it and they are told apart.
pub fn ancestors_are_the_parents()
    ensures parents { AncestorsAreTheParents }
    ensures distinct { AncestorsHaveNoRepeats }
    ensures apart { BeginningHasTheoriesApart }
    ensures own { TheoriesAreToldApart }
    ensures pure { PureHasTheoriesApart }
{}

/// Certified terms, and their parts, stay certified under respecting maps; and such maps one after the other are respecting.
pub fn certification_is_kept()
    ensures parts { PartsOfInstance }
    ensures instance { InstanceIsCertified }
    ensures composed { ComposedMapsRespect }
{}
