//! Statements: what the quoted texts of commands say, why a command is refused, and the rows of commands.
#![tactic(auto)]

mod body;
mod elaborated;
pub mod laws;
mod normal;
mod quoted;
mod reason;
mod reason_text;
mod row;
mod schematic;
mod stated;

pub use body::body_of;
pub use elaborated::{elaborated_at, elaborated_typ};
pub use normal::{MAX_STATEMENT, is_large, normalised};
pub use quoted::{read_term, read_typ};
pub use reason::{Failed, Reason};
pub use reason_text::push_reason;
pub use row::{declared_row, head_of, refused_have, refused_row};
pub use schematic::{generalised, schematic_typ};
pub use stated::{Stated, statement_of, written_typ};
