//! Laws of proofs: each is the contract of a function that does nothing.
ghost use Rattle.pure_method.specs.Laws.{ProofOnce, ProvedIsDerivable, RestsOnPromises, NeverMemory};
ghost use Rattle.pure_method.specs.Laws.{ProofInOnce, ProvedInIsDerivable, RestsInOnPromises, NeverMemoryIn, ProofInHasAValue, NamesHaveAnswersIn, NothingIsLocal};
ghost use Rattle.std.specs.Prelude.{ℕ, List};
ghost use Rattle.pure_definitions.specs.Terms.Term as tree;
ghost use Rattle.pure_grammar.specs.Theories.TheoryText.{Step};
ghost use Rattle.pure_logic.specs.Content.{Content};
ghost use Rattle.pure_method.specs.Course.{CourseEnds, CourseOnce, CourseEndsIn, CourseInOnce};
ghost use Rattle.pure_method.specs.Outcomes.{BeginsSomehow, IsSomeRule, RuleSomehow, EliminationSomehow, DestructionSomehow, AssumptionSomehow, PreferSomehow, DeferSomehow, ConversionSomehow, ClosesSomehow, EndsSomehow, UnfoldsSomehow, ProofHasAValue};

/// One value at most comes of a proof.
pub fn proof_once()
    ensures { ProofOnce }
{}

/// A statement that is proved is derivable, and rests on promises of the content that the proof's steps name.
pub fn proved_is_derivable()
    ensures derivable { ProvedIsDerivable }
    ensures promises { RestsOnPromises }
{}

/// A fault of a proof is never want of memory.
pub fn never_memory()
    ensures { NeverMemory }
{}

/// Each step has an outcome on each goal that is derivable: by rules, each of which a fact is.
pub fn steps_have_outcomes()
    ensures begins { BeginsSomehow }
    ensures is_rule { IsSomeRule }
    ensures rule { RuleSomehow }
    ensures elimination { EliminationSomehow }
    ensures destruction { DestructionSomehow }
    ensures assumption { AssumptionSomehow }
    ensures prefer { PreferSomehow }
    ensures defer { DeferSomehow }
    ensures conversion { ConversionSomehow }
{}

/// Subgoals are closed up to some state, and a goal ends somehow.
pub fn goals_end()
    ensures closes { ClosesSomehow }
    ensures ends { EndsSomehow }
{}

/// A proposition unfolds something in a term, or nothing, or is no definition.
pub fn unfolds_or_not()
    ensures { UnfoldsSomehow }
{}

/// Something comes of each proof, where names have answers and facts are beta-normal.
pub fn proof_has_a_value()
    ensures { ProofHasAValue }
{}

/// The end of a proof's course is its outcome.
pub fn course_ends()
    ensures { (texts : List (List ℕ)) (Q : Content) (statement : tree.Term) (script : List Step) → CourseEnds texts Q statement script }
{}

/// A proof has one course at most.
pub fn course_once()
    ensures { CourseOnce }
{}

/// The same laws of a proof in a lemma, in which facts that are local to the lemma are found first.
pub fn proof_in_lemma()
    ensures once { ProofInOnce }
    ensures derivable { ProvedInIsDerivable }
    ensures promises { RestsInOnPromises }
    ensures memory { NeverMemoryIn }
    ensures value { ProofInHasAValue }
    ensures names { NamesHaveAnswersIn }
    ensures course_ends { CourseEndsIn }
    ensures course_once { CourseInOnce }
{}

/// Where nothing is local to a lemma, the same comes of a proof in it as otherwise.
pub fn nothing_is_local()
    ensures { NothingIsLocal }
{}
