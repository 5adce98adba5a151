//! Theorems and maps in a notation, and two theories of classes, for the programs that hold rows against inferences.
//!
//! A theorem is written `H & D |- A ! 12`: its hypotheses, the sides of its pairs in turn, its proposition, and the digits
//! of the labels on which it rests. The terms are in the notation of `pure_notation`. What it has none of may be left out,
//! with its mark, as in `|- A`; the turnstile stays.
#![tactic(auto)]

mod answer;
mod asked;
mod classes;
mod maps;
mod shown;
mod text;

pub use answer::is_answer;
pub use asked::{is_closed_under, is_variable};
pub use classes::{Classes, Theories};
pub use maps::{term_map, typ_map};
pub use shown::{label, theorem};
pub use text::{cut, parts, term};
