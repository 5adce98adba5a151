//! The unifier of terms, as definitions: its nodes, simplification, children, and the search of its tree.
#![tactic(auto)]
