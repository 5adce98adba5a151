//! What the definitions mean, by computed examples, each carried by the contract of a function that does nothing.
ghost use Rattle.pure_logic.specs.Examples.Contents.{BeginningExample, AncestorsExample, NotApartExample, NoMergeExample, MiddleMergeExample, NamedTwiceExample, IllFormedExample, SchematicExample, BelowExample, DefinitionExample};
ghost use Rattle.pure_logic.specs.Examples.Nodes.{ExampleIsContent, AxiomExample, OwnTypeExample, PromiseExample, RestsExample, NoAxiomExample, NoMapExample, AssumeExample, AllIntroExample, NoAllIntroExample, AllElimExample, NoAllElimExample, ImpliesIntroExample, TwiceAssumedExample, ImpliesElimExample, BetaExample, ReflExample, SubstExample, SymmetricExample, ExtExample, IffExample, PairsExample, DerivableExample, OpenHypothesisExample, OpenPromiseExample, NoPropositionExample};
ghost use Rattle.pure_logic.specs.Examples.Theorems.{InstantiatedExample, RaisedExample, RaisedIndexExample, GeneralisedExample, GeneralisedTypExample, StatementExample, IndexExample, NothingFixedExample, WeakerExample, QuantifiedVariableExample, ContextExample, AbstractedExample, NameExample, KeptExample, ClosedExample};
ghost use Rattle.pure_logic.specs.Examples.Fulfilments.{FulfilledExample, JoinedExample, GrowingExample};
ghost use Rattle.pure_logic.specs.Examples.Underivable.{UnderivableExample};

/// Declarations that make no content, contents below others, and what a definition declares.
pub fn content_example()
    ensures twice { NamedTwiceExample }
    ensures ill_formed { IllFormedExample }
    ensures schematic { SchematicExample }
    ensures below { BelowExample }
    ensures definition { DefinitionExample }
{}

/// Parents that have no merge: two with arities in conflict, and three that are coregular only all together.
pub fn merge_example()
    ensures none { NoMergeExample }
    ensures middle { MiddleMergeExample }
{}

/// With what a theory begins, its ancestors in order, and theories that aren't told apart.
pub fn beginning_example()
    ensures beginning { BeginningExample }
    ensures ancestors { AncestorsExample }
    ensures not_apart { NotApartExample }
{}

/// The content of the examples is one.
pub fn example_is_content()
    ensures { ExampleIsContent }
{}

/// Axioms and promises at an instance, and where they give nothing.
pub fn axiom_example()
    ensures axiom { AxiomExample }
    ensures own_type { OwnTypeExample }
    ensures promise { PromiseExample }
    ensures rests { RestsExample }
    ensures unknown { NoAxiomExample }
    ensures maps { NoMapExample }
{}

/// Quantification, and where its side conditions fail.
pub fn all_example()
    ensures intro { AllIntroExample }
    ensures no_intro { NoAllIntroExample }
    ensures elim { AllElimExample }
    ensures no_elim { NoAllElimExample }
{}

/// Assumption and implication, and where their side conditions fail.
pub fn implies_example()
    ensures assume { AssumeExample }
    ensures intro { ImpliesIntroExample }
    ensures twice { TwiceAssumedExample }
    ensures elim { ImpliesElimExample }
{}

/// The axioms of equality, and where their side conditions fail.
pub fn equality_example()
    ensures beta { BetaExample }
    ensures refl { ReflExample }
    ensures subst { SubstExample }
    ensures symmetric { SymmetricExample }
    ensures ext { ExtExample }
    ensures iff { IffExample }
{}

/// A theorem with hypotheses, a pair and a promise; and trees that leave a hypothesis or a promise open.
pub fn derivable_example()
    ensures pairs { PairsExample }
    ensures derivable { DerivableExample }
    ensures open_hypothesis { OpenHypothesisExample }
    ensures open_promise { OpenPromiseExample }
{}

/// A proposition that isn't derivable, and a conclusion that is no proposition.
pub fn underivable_example()
    ensures underivable { UnderivableExample }
    ensures without_pure { NoPropositionExample }
{}

/// Finite maps put into a theorem, indexes raised, and more hypotheses.
pub fn theorem_map_example()
    ensures instantiated { InstantiatedExample }
    ensures raised { RaisedExample }
    ensures raised_index { RaisedIndexExample }
    ensures weaker { WeakerExample }
{}

/// Fixed variables and fixed type variables made schematic, and where they may not be.
pub fn generalised_example()
    ensures generalised { GeneralisedExample }
    ensures of_type { GeneralisedTypExample }
    ensures statement { StatementExample }
    ensures index { IndexExample }
    ensures nothing { NothingFixedExample }
{}

/// A quantification over a variable, an equation in a context, and one that is abstracted.
pub fn quantification_example()
    ensures quantified { QuantifiedVariableExample }
    ensures context { ContextExample }
    ensures abstracted { AbstractedExample }
{}

/// Constants that aren't certified for their names, and terms that maps leave as they are, or closed.
pub fn name_example()
    ensures names { NameExample }
    ensures kept { KeptExample }
    ensures closed { ClosedExample }
{}

/// Promises that are fulfilled one after another, over one content and over growing ones, and which of them are joined.
pub fn fulfilment_example()
    ensures fulfilled { FulfilledExample }
    ensures joined { JoinedExample }
    ensures growing { GrowingExample }
{}
