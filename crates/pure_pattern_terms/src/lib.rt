//! Patterns as terms: whether a term is one, the bound variables that its arguments are, bound variables renamed at once, images put in, and the types of new variables.
#![tactic(auto)]

mod places;
mod put;
mod refused;
mod renaming;
mod selections;
mod tests;
mod written;

pub use places::{place_of, places_of};
pub use put::put_in;
pub use refused::{first_no_pattern, first_with_schematic_typ};
pub use renaming::renamed;
pub use selections::{agreeing_typ, domain_at, left_typ, right_typ, stands_in};
pub use tests::{has_schematic_typ, is_pattern};
