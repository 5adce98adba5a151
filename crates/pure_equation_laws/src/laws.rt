//! What the definitions mean: laws, each carried by the contract of a function that does nothing.
ghost use Rattle.pure_equation_laws.specs.Laws.Sides.{EquatedAreTyped};
ghost use Rattle.pure_equation_laws.specs.Laws.Kept.{EquatedOfLift, EquatedInScope, EquatedOfSubst, EquatedOfInstance, EquatedModuloOthers};
ghost use Rattle.pure_equation_laws.specs.Laws.Reduction.{BetaStepIsEquated, BetaSequenceIsEquated, BetaNormalFormIsEquated, EtaStepIsEquated, EtaReductIsEquated, EtaNormalFormIsEquated, EtaExpansionIsEquated, LongFormIsEquated};
ghost use Rattle.pure_equation_laws.specs.Laws.Nodes.{EquatedNodeByNode, EquatedInstances, EquatedFunctions, EquatedBodies};
ghost use Rattle.pure_equation_laws.specs.Laws.Proved.{EquatedIsProved, EquatedPropositionIsProved, PropositionIsReplaced, PairsAreReplaced};

/// Equated terms have the type at which they are equated, and certified parts.
pub fn equated_are_typed()
    ensures { EquatedAreTyped }
{}

/// Terms stay equated under lifting, in a wider scope, under instantiation and under respecting maps, and modulo other pairs modulo which the pairs are equated.
pub fn equated_is_kept()
    ensures lifted { EquatedOfLift }
    ensures scope { EquatedInScope }
    ensures instantiated { EquatedOfSubst }
    ensures mapped { EquatedOfInstance }
    ensures others { EquatedModuloOthers }
{}

/// A term is equated with what it reduces to by beta steps.
pub fn beta_is_equated()
    ensures step { BetaStepIsEquated }
    ensures sequence { BetaSequenceIsEquated }
    ensures normal { BetaNormalFormIsEquated }
{}

/// A term is equated with what it reduces to by eta steps, and with its long form.
pub fn eta_is_equated()
    ensures step { EtaStepIsEquated }
    ensures reduct { EtaReductIsEquated }
    ensures normal { EtaNormalFormIsEquated }
    ensures expansion { EtaExpansionIsEquated }
    ensures long { LongFormIsEquated }
{}

/// Terms that are equal node by node but for equated nodes are equated, and so are instances with such images; functions are equated exactly where they are at a bound variable.
pub fn equated_is_congruence()
    ensures nodes { EquatedNodeByNode }
    ensures instances { EquatedInstances }
    ensures functions { EquatedFunctions }
    ensures bodies { EquatedBodies }
{}

/// Terms that are equated modulo pairs are provably equal where the pairs' sides are; so a theorem's proposition and its pairs may be replaced by equated ones.
pub fn equated_is_proved()
    ensures equal { EquatedIsProved }
    ensures proposition { EquatedPropositionIsProved }
    ensures replaced { PropositionIsReplaced }
    ensures pairs { PairsAreReplaced }
{}
