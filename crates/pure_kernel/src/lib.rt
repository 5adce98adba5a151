//! The kernel as a library: what a prover needs, under one name, in the order in which it is needed.
#![tactic(auto)]

mod constant_text;
mod known;
mod table;
mod theory_text;

// Names, and their texts.
pub use pure_text::{Text, TextList};
pub use pure_typ::{BUILTIN_COUNT, Label, Name, Names, NamesByBase};
pub use table::name_table;

// Types.
pub use pure_typ::{
    Args, Grow, MAX_DEPTH, MAX_SIZE, Sort, Typ, TypBind, TypMap, TypNode, is_ground_typ,
    occurs_in_typ,
};

// Terms, and what propositions are made of.
pub use pure_term::{
    Scope, Term, TermBind, TermMap, TermNode, TypeFault, abstract_over, copied, depth, inst_term,
    inst_typ, is_within, lift, loose_above_of, occurs, size, subst_bound, typ_of,
};
pub use pure_theorem::{
    all_of, application, are_same, are_same_typs, as_all, as_application, as_equation,
    as_implication, equation, has_typ, implication, is_prop, prop_typ, typ_of_typed,
};

// Theories, and what they declare.
pub use constant_text::constant_typ_of_text;
pub use known::{certified_is_typed, theorem_is_closed};
pub use pure_declare::theory::{
    CertFault, Cthm, Decl, DeclFault, Fact, Stage, Statement, Theory, TransferFault,
};
pub use pure_order::Order;
pub use theory_text::{
    TextFault, has_theory_content, proposition_of_text, statement_of_text, term_of_text,
    typ_of_text,
};

// Texts over a theory, in steps of one's own.
pub use pure_declare::NamedTheory;
pub use pure_elab::{Language, elaborate, elaborate_at, elaborate_typ};
pub use pure_lex::{Token, tokens};
pub use pure_read::{Raw, RawTyp, read_raw, read_raw_typ};
pub use pure_script::Span;
pub use pure_statements::{
    Failed, Reason, Stated, body_of, generalised, normalised, push_reason, schematic_typ,
};

// Certificates.
pub use pure_certify::{Tables, certify, has_extra_typ, has_variable, match_typ};

// Theorems, and the theories over which they are inferred.
pub use pure_inst::Ordered;
pub use pure_theorem::{Base, Built, Pair, RuleFault, Thm};

// Inferences.
pub use pure_equal::{
    abstraction, beta, combination, equal_elim, equal_intr, eta, reflexive, symmetric, transitive,
};
pub use pure_rules::{
    all_elim, all_intro, assume, axiom, built as built_fact, implies_elim, implies_intro, promise,
};

// Instances.
pub use pure_inst::{InstFault, generalise, incr_indexes, instantiate};

// Conversions.
pub use pure_conv::{ConvFault, abs_conv, all_conv, bottom, comb_conv, then_conv, unfold};

// Goals and their steps, and what may be done with the pairs of a theorem.
pub use pure_resolve::pairs::{PairDiffers, drop_trivial, equal_modulo, smash};
pub use pure_resolve::{Goal, StepFault, start};
pub use pure_watch::{Unwatched, Watch};

// Printing.
pub use pure_print::{print_term, print_typ, push_text_of_name};
