//! Texts, lists of texts, and words on lists that all crates share.
#![tactic(auto)]

mod text;
mod text_list;

pub use text::Text;
pub use text_list::TextList;
