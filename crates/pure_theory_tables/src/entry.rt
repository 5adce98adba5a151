//! Declarations with all that they say.
ghost use Rattle.std.specs.Prelude.{◌≡◌};
ghost use Rattle.pure_theory_tables.specs.View.{decl_of, outline};

use crate::decl::Decl;
use pure_term::{Label, Name, Sort, Term, Typ};
use std::sync::Arc;

/// A declaration, which shares what it says with tables and with other stages.
#[derive(Drop)]
pub enum Entry {
    /// A class, with those declared to be above it.
    Class {
        name: Name,
        above: Arc<Vec<Name>>,
    },
    /// A type constructor, with the count of its arguments.
    Con {
        name: Name,
        params: u32,
    },
    /// An arity.
    Arity {
        con: Name,
        domains: Arc<Vec<Sort>>,
        class: Name,
    },
    /// A constant, with its type.
    Const {
        name: Name,
        typ: Arc<Typ>,
    },
    /// An axiom.
    Axiom {
        name: Name,
        prop: Arc<Term>,
    },
    /// A promise, with its label and its statement.
    Promise {
        name: Name,
        label: Label,
        prop: Arc<Term>,
    },
}

/// The kind and the name of the declaration.
pub(crate) fn outline_of(entry: &Entry) -> Decl
    ensures { result ≡ outline (decl_of entry.now) }
{
    match entry {
        Entry::Class { name, .. } => Decl::Class { name: *name },
        Entry::Con { name, .. } => Decl::Con { name: *name },
        Entry::Arity { con, class, .. } => Decl::Arity {
            con: *con,
            class: *class,
        },
        Entry::Const { name, .. } => Decl::Const { name: *name },
        Entry::Axiom { name, .. } => Decl::Axiom { name: *name },
        Entry::Promise { name, label, .. } => Decl::Promise {
            name: *name,
            label: *label,
        },
    }
}
