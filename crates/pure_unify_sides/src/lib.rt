//! The sides of pairs as the unifier of terms looks at them: heads, firm occurrences, and the rule for rigid sides.
#![tactic(auto)]

mod firm;
mod fronts;
mod heads;
mod images;
mod split;

pub use firm::occurs_firmly;
pub use fronts::{front, head, is_flexible, is_schematic, term_body};
pub use heads::{Heads, compared_heads};
pub use images::{
    applied_to_bounds, below_domains, domain_count, function_to, image_with, range_of,
};
pub use split::push_argument_pairs;
