//! What the laws give, by example: equations of a beta redex modulo one pair, each carried by the contract of a function that does nothing.
ghost use Rattle.pure_equation_laws.specs.Examples.{NormalFormExample, EtaNormalFormExample, LongFormExample, RedexExample, OtherPairsExample, InstanceExample, TwoInstancesExample, FunctionsExample, BodiesExample, NodesExample, PropositionExample, PairsExample};

/// A term is equated with its normal forms and its long form.
pub fn reduction_example()
    ensures normal { NormalFormExample }
    ensures eta { EtaNormalFormExample }
    ensures long { LongFormExample }
{}

/// A redex is equated with its contractum at the other side of a pair, modulo other pairs, and at an instance.
pub fn pair_example()
    ensures redex { RedexExample }
    ensures others { OtherPairsExample }
    ensures instance { InstanceExample }
{}

/// Two instances of a redex, a function that is equated at each argument, bodies of equated abstractions, and terms that differ at the sides of a pair.
pub fn congruence_example()
    ensures instances { TwoInstancesExample }
    ensures functions { FunctionsExample }
    ensures bodies { BodiesExample }
    ensures nodes { NodesExample }
{}

/// Theorems under a pair.
pub fn derivable_example()
    ensures proposition { PropositionExample }
    ensures pairs { PairsExample }
{}
