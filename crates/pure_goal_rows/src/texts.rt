//! Texts of terms and theorems, in short words.
use pure_rows::Glossary;
use pure_shown::{term, theorem};
use pure_term::Term;
use pure_theorem::Thm;
use std::alloc::Global;

/// The term that the text writes; none where it writes none, or there is no memory.
pub(crate) fn term_in(alloc: Global, words: &Glossary, text: &[u8]) -> Option<Term> {
    let spelled = words.spelled(alloc, text).ok()?;
    term(alloc, &spelled)
}

/// The theorem that the text shows; none where it shows none, or there is no memory.
pub(crate) fn theorem_in(alloc: Global, words: &Glossary, text: &[u8]) -> Option<Thm> {
    let spelled = words.spelled(alloc, text).ok()?;
    theorem(alloc, &spelled)
}
