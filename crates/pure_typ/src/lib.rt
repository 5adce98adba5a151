//! Names, sorts and types: what the crates of terms and of classes stand on. Texts are handed on.
#![tactic(auto)]

mod args;
mod by_base;
mod grow;
mod instance;
mod maps;
mod measure;
mod name;
mod names;
mod occurs;
mod room;
mod sort;
mod typ;

pub use by_base::NamesByBase;
pub use grow::Grow;
pub use instance::{instance_leaves, instance_of, instance_of_typ};
pub use maps::{TypBind, TypMap};
pub use measure::{
    MAX_DEPTH, MAX_SIZE, cut, depth_of_typ, index_above_of_typ, is_ground_typ, is_typ_within,
    kept_leaves, node_leaves, size_of_typ, typ_leaves, whole_depth_of_typ, whole_size_of_typ,
};
pub use name::{BUILTIN_COUNT, Label, Name};
pub use names::Names;
pub use occurs::occurs_in_typ;
pub use pure_text::Text;
pub use room::insert_in_room;
pub use sort::Sort;
pub use typ::{ArgList, Args, ArgsKept, Typ, TypNode};
