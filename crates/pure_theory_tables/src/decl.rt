//! Declarations by their kinds and names.
use pure_typ::{Label, Name};

/// Which declaration it is: its kind and its name.
#[derive(Clone, Copy, PartialEq, Eq, Debug)]
pub enum Decl {
    /// A class.
    Class { name: Name },
    /// A type constructor.
    Con { name: Name },
    /// The constructor's arity for the class.
    Arity { con: Name, class: Name },
    /// A constant.
    Const { name: Name },
    /// An axiom.
    Axiom { name: Name },
    /// A promise, with its label.
    Promise { name: Name, label: Label },
}
