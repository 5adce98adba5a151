//! Printing of types, terms, rows and the table.
#![tactic(auto)]

mod form;
pub mod laws;
mod name;
mod number;
mod row;
mod table;
mod term;
mod typ;

pub use name::push_text_of_name;
pub use number::push_number;
pub use row::{Row, RowStatus, print_row, status_word};
pub use table::{TableText, last_line, print_table};
pub use term::{print_state_term, print_term, push_text_of_term};
pub use typ::print_typ;
