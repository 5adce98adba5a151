//! Rows by their words.
use crate::calls::{OfBoth, OfTerm, OfTheorems, of_both, of_symmetric, of_term, of_theorems};
use crate::facts::{Fact, of_built, of_fact};
use crate::theory::Small;
use pure_rows::{Outcome, Row};
use std::alloc::Global;

/// What a row asks.
#[derive(Clone, Copy)]
enum Call {
    Fact(Fact),
    Built,
    OfTerm(OfTerm),
    OfBoth(OfBoth),
    Symmetric,
    OfTheorems(OfTheorems),
}

/// The call of the word.
fn call_of(word: &[u8]) -> Option<Call> {
    match word {
        b"axiom" => Some(Call::Fact(Fact::Axiom)),
        b"promise" => Some(Call::Fact(Fact::Promise)),
        b"built" => Some(Call::Built),
        b"assume" => Some(Call::OfTerm(OfTerm::Assume)),
        b"implies_intro" => Some(Call::OfBoth(OfBoth::ImpliesIntro)),
        b"implies_elim" => Some(Call::OfTheorems(OfTheorems::ImpliesElim)),
        b"all_intro" => Some(Call::OfBoth(OfBoth::AllIntro)),
        b"all_elim" => Some(Call::OfBoth(OfBoth::AllElim)),
        b"reflexive" => Some(Call::OfTerm(OfTerm::Reflexive)),
        b"symmetric" => Some(Call::Symmetric),
        b"transitive" => Some(Call::OfTheorems(OfTheorems::Transitive)),
        b"combination" => Some(Call::OfTheorems(OfTheorems::Combination)),
        b"abstraction" => Some(Call::OfBoth(OfBoth::Abstraction)),
        b"equal_intr" => Some(Call::OfTheorems(OfTheorems::EqualIntr)),
        b"equal_elim" => Some(Call::OfTheorems(OfTheorems::EqualElim)),
        b"beta" => Some(Call::OfTerm(OfTerm::Beta)),
        b"eta" => Some(Call::OfTerm(OfTerm::Eta)),
        _ => None,
    }
}

/// What comes of the row; none where it can't be read, or asks what may not be asked.
pub(crate) fn outcome_of(alloc: Global, thy: &Small, row: &Row) -> Option<Outcome> {
    match (call_of(row.field(0))?, row.len()) {
        (Call::Fact(fact), 5) => of_fact(alloc, fact, row),
        (Call::Built, 3) => of_built(alloc, thy, row),
        (Call::OfTerm(call), 3) => of_term(alloc, thy, call, row),
        (Call::OfBoth(call), 4) => of_both(alloc, thy, call, row),
        (Call::Symmetric, 3) => of_symmetric(alloc, thy, row),
        (Call::OfTheorems(call), 4) => of_theorems(alloc, thy, call, row),
        _ => None,
    }
}
