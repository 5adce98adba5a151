//! The words of the rows. What is read or elaborated isn't let go, since that is dear to prove.
use crate::faults::fault_wanted;
use crate::fixed::fixed_typ;
use crate::read::{Wanted, raw_of, raw_typ_of, term_wanted, typ_wanted};
use crate::theory::Theory;
use pure_elab::{ElabFault, elaborate, elaborate_at, elaborate_typ};
use pure_read::{Raw, RawTyp};
use pure_rows::{Outcome, Row, Subject};
use pure_term::Term;
use pure_typ::Typ;
use std::alloc::Global;
use std::mem;
use std::rt::Files;

/// What a row says.
#[derive(Clone, Copy)]
enum Word {
    /// A text is a proposition, with this term.
    Proposition,
    /// A text is none, by this fault.
    Fault,
    /// A text is ill-typed at this place before the arity is declared, and a proposition with this term afterwards.
    Arity,
    /// A text is a term at this type.
    At,
    /// A text is none at this type, by this fault.
    FaultAt,
    /// A text is this type.
    Typ,
    /// A text is no type, by this fault.
    TypFault,
}

/// The words with how many fields a row of each has.
static WORDS: [(&[u8], usize, Word); 7] = [
    (b"proposition", 3, Word::Proposition),
    (b"fault", 4, Word::Fault),
    (b"arity", 4, Word::Arity),
    (b"at", 4, Word::At),
    (b"fault-at", 5, Word::FaultAt),
    (b"type", 3, Word::Typ),
    (b"type-fault", 4, Word::TypFault),
];

/// The word of the row.
fn word_of(row: &Row) -> Option<Word> {
    for (text, fields, word) in WORDS {
        if row.field(0) == text && row.len() == fields {
            return Some(word);
        }
    }
    None
}

/// Whether what was found is what is wanted.
fn compared<T: PartialEq>(found: &Result<T, ElabFault>, wanted: &Result<T, ElabFault>) -> Outcome {
    match (found, wanted) {
        (Ok(found), Ok(wanted)) => Outcome::of(*found == *wanted),
        (Err(ElabFault::Memory), _) => Outcome::Memory,
        (Err(found), Err(wanted)) => Outcome::of(*found == *wanted),
        _ => Outcome::Differs,
    }
}

/// Whether what was found is what is wanted.
fn judged<T: PartialEq + Drop>(
    found: Result<T, ElabFault>,
    wanted: &Result<T, ElabFault>,
) -> Outcome {
    let outcome = compared(&found, wanted);
    mem::forget(found);
    outcome
}

/// Whether the fault was found.
fn is_fault(found: Result<Term, ElabFault>, wanted: ElabFault) -> Outcome {
    match found {
        Ok(found) => {
            mem::forget(found);
            Outcome::Differs
        }
        Err(ElabFault::Memory) => Outcome::Memory,
        Err(found) => Outcome::of(found == wanted),
    }
}

/// What the row wants of a term.
fn wanted(alloc: Global, word: Word, row: &Row) -> Wanted<Term> {
    match word {
        Word::Proposition => term_wanted(alloc, row.field(2)),
        Word::Arity | Word::At => term_wanted(alloc, row.field(3)),
        Word::Fault => fault_wanted(row, 2),
        Word::FaultAt => fault_wanted(row, 3),
        Word::Typ | Word::TypFault => Err(Outcome::Unreadable),
    }
}

/// Elaboration in the theory, and before the last of its arities is declared.
#[derive(Drop)]
pub(crate) struct Elaboration<'t> {
    pub(crate) early: &'t Theory,
    pub(crate) late: &'t Theory,
}

impl Elaboration<'_> {
    /// Whether the text is ill-typed at the row's place before the arity is declared.
    fn is_early(&self, alloc: Global, row: &Row, raw: &Raw) -> Outcome {
        match row.number(2) {
            Some(at) => is_fault(
                elaborate(alloc, self.early, raw),
                ElabFault::IllTyped { at },
            ),
            None => Outcome::Unreadable,
        }
    }

    /// Whether the text says what is wanted as a proposition.
    fn late(&self, alloc: Global, raw: &Raw, wanted: &Result<Term, ElabFault>) -> Outcome {
        judged(elaborate(alloc, self.late, raw), wanted)
    }

    /// Whether the text says what is wanted at the row's type.
    fn at(&self, alloc: Global, row: &Row, raw: &Raw, wanted: &Result<Term, ElabFault>) -> Outcome {
        match fixed_typ(alloc, row.field(2)) {
            Ok(typ) => {
                let outcome = judged(elaborate_at(alloc, self.late, raw, &typ), wanted);
                mem::forget(typ);
                outcome
            }
            Err(outcome) => outcome,
        }
    }

    /// Whether the text says what is wanted.
    fn says(
        &self,
        alloc: Global,
        word: Word,
        row: &Row,
        raw: &Raw,
        wanted: &Result<Term, ElabFault>,
    ) -> Outcome {
        match word {
            Word::At | Word::FaultAt => self.at(alloc, row, raw, wanted),
            Word::Arity => match self.is_early(alloc, row, raw) {
                Outcome::Holds => self.late(alloc, raw, wanted),
                outcome => outcome,
            },
            _ => self.late(alloc, raw, wanted),
        }
    }

    /// What comes of the row of this written term.
    fn of_raw(&self, alloc: Global, word: Word, row: &Row, raw: &Raw) -> Outcome {
        let wanted = wanted(alloc, word, row);
        let outcome = match &wanted {
            Ok(wanted) => self.says(alloc, word, row, raw, wanted),
            Err(outcome) => *outcome,
        };
        mem::forget(wanted);
        outcome
    }

    /// What comes of the row of this written type, of which this is wanted.
    fn of_raw_typ(&self, alloc: Global, raw: &RawTyp, wanted: Wanted<Typ>) -> Outcome {
        let outcome = match &wanted {
            Ok(wanted) => judged(elaborate_typ(alloc, self.late, raw), wanted),
            Err(outcome) => *outcome,
        };
        mem::forget(wanted);
        outcome
    }

    /// What comes of a row of a term.
    fn of_term(&self, alloc: Global, word: Word, row: &Row) -> Outcome {
        match raw_of(alloc, row.field(1)) {
            Ok(raw) => {
                let outcome = self.of_raw(alloc, word, row, &raw);
                mem::forget(raw);
                outcome
            }
            Err(outcome) => outcome,
        }
    }

    /// What comes of a row of a type.
    fn of_typ(&self, alloc: Global, row: &Row, wanted: Wanted<Typ>) -> Outcome {
        match raw_typ_of(alloc, row.field(1)) {
            Ok(raw) => {
                let outcome = self.of_raw_typ(alloc, &raw, wanted);
                mem::forget(raw);
                outcome
            }
            Err(outcome) => {
                mem::forget(wanted);
                outcome
            }
        }
    }
}

impl Subject for Elaboration<'_> {
    fn outcome<R: Files + Print + AllocGlobal>(
        &self,
        _rt: &R,
        alloc: Global,
        row: &Row,
    ) -> Outcome {
        match word_of(row) {
            Some(Word::Typ) => self.of_typ(alloc, row, typ_wanted(alloc, row.field(2))),
            Some(Word::TypFault) => self.of_typ(alloc, row, fault_wanted(row, 2)),
            Some(word) => self.of_term(alloc, word, row),
            None => Outcome::Unreadable,
        }
    }
}
