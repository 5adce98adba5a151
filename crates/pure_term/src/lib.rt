//! Terms: how they are measured, typed, lifted, abstracted and instantiated. Texts, names, sorts and types are handed on.
#![tactic(auto)]

mod bounds;
mod instance;
mod maps;
mod measure;
mod scope;
mod term;
mod typing;
mod walked;

pub use bounds::{abstract_over, lift, lift_under, put_under, subst_bound};
pub use instance::{inst_term, inst_typ, replaced, retyped};
pub use maps::{TermBind, TermMap};
pub use measure::{
    depth, index_above_of, is_within, loose_above_of, occurs, size, term_leaves, whole_depth,
    whole_size,
};
pub use pure_typ::{
    Args, Grow, Label, MAX_DEPTH, MAX_SIZE, Name, Names, Sort, Text, Typ, TypBind, TypMap, TypNode,
    index_above_of_typ, is_ground_typ,
};
pub use scope::{Scope, typ_at};
pub use term::{Kept, Term, TermNode, copied};
pub use typing::{TypeFault, typ_of};
