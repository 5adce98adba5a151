//! Files of rows, for the programs that hold them against calls.
//!
//! Each line that isn't empty and doesn't begin with `#` is a row. Tabs part its fields. In a field `\n`, `\t`, `\r`
//! and `\\` are a line feed, a tab, a carriage return and a backslash, and `\xff` is the byte with these hexadecimal digits.
#![tactic(auto)]

mod escapes;
mod fault;
mod glossary;
mod outcome;
mod parts;
mod row;
mod run;
mod short;
mod tally;

pub use fault::Fault;
pub use glossary::{Glossary, read_glossary};
pub use outcome::Outcome;
pub use row::{Row, named, number_of, read_row};
pub use run::{Subject, hold_rows, read_file, run_rows};
pub use short::text_of;
pub use tally::Tally;
