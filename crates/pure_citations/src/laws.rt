//! What the definitions mean: laws, each carried by the contract of a function that does nothing.
ghost use Rattle.pure_citations.specs.Rowed.{CitedHaveRows, ListedAreLedTo, ListedSuffice};
ghost use Rattle.pure_citations.specs.Laws.{CitedAreLedTo, CitedSuffice, HeldSuffice, ProofIsKept, ReachedAreLedTo, StaysExactly};

/// Of a content's declarations those stay that are no axioms, Pure's own axiom, and the axioms that are listed.
pub fn stays_exactly()
    ensures { StaysExactly }
{}

/// A proof stays one over the content without the axioms that its steps don't name.
pub fn proof_is_kept()
    ensures { ProofIsKept }
{}

/// What is printed as proved is derivable from the axioms that it cites alone; and so from those that `cited_axioms` finds.
pub fn cited_suffice()
    ensures cited { CitedSuffice }
    ensures held { HeldSuffice }
{}

/// A lemma cites just the axioms to which edges lead from it, and reaches just the lemmas.
pub fn cited_are_led_to()
    ensures axioms { CitedAreLedTo }
    ensures lemmas { ReachedAreLedTo }
{}

/// Some row of a table declares each axiom or definition that a lemma cites.
pub fn cited_have_rows()
    ensures { CitedHaveRows }
{}

/// What is printed as proved is derivable from the axioms and definitions whose rows are listed for it alone; and what is
/// listed is what edges lead to.
pub fn listed_suffice()
    ensures suffice { ListedSuffice }
    ensures led { ListedAreLedTo }
{}
