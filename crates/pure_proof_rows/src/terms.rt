//! Propositions in letters.
use pure_rows::Glossary;
use pure_shown::term;
use pure_term::Term;
use std::alloc::Global;

/// The term of the letters; none where they write none, or there is no memory.
pub(crate) fn lettered(alloc: Global, letters: &Glossary, text: &[u8]) -> Option<Term> {
    let spelled = letters.spelled_letters(alloc, text).ok()??;
    term(alloc, &spelled)
}
