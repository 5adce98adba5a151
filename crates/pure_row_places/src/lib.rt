//! The rows of a table, each behind the file, line and column where its command stands.
#![tactic(auto)]

mod cursor;
mod headers;
mod lines;
mod reasons;
mod scan;

pub use cursor::{Cursor, beginning};
pub use headers::refused_scans;
pub use lines::{push_lines, push_place};
pub use reasons::place_of_step;
pub use scan::{RefusedScan, Scan, scanned, scans};
