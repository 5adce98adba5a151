//! What is declared of the names in a declaration.
ghost use Rattle.std.specs.Prelude.{◌≡◌, ◌↔◌, IsTrue, MatchOption};
ghost use Rattle.pure_text.specs.Lists.{Each, IsIn};
ghost use Rattle.pure_order_tables.specs.Classes.{IsDeclared};
ghost use Rattle.pure_order_tables.specs.Unknown.{HasArityFor, IsFirstUnknown, joined};

use crate::tables::{ArityEntry, Tables};
use pure_typ::{Name, Sort};

/// Whether the arity is one of the constructor for the class.
fn is_for(arity: &ArityEntry, con: Name, class: Name) -> bool
    ensures { IsTrue result ↔ ((arity.now.con ≡ con) × (arity.now.class ≡ class)) }
{
    arity.con == con && arity.class == class
}

impl Tables {
    /// The first of these names that isn't a declared class.
    pub fn first_unknown(&self, names: &[Name]) -> Option<Name>
        ensures { MatchOption result (Each (IsDeclared self.now.classes) names.now) (IsFirstUnknown self.now.classes names.now) }
    {
        for name in names {
            if !self.is_declared(*name) {
                return Some(*name);
            }
        }
        None
    }

    /// The first of the classes in these sorts that isn't declared.
    pub fn first_unknown_in(&self, sorts: &[Sort]) -> Option<Name>
        ensures { MatchOption result (Each (Each (IsDeclared self.now.classes)) sorts.now) (IsFirstUnknown self.now.classes (joined sorts.now)) }
    {
        for sort in sorts {
            if let Some(name) = self.first_unknown(sort.classes()) {
                return Some(name);
            }
        }
        None
    }

    /// The domains of the constructor's first declared arity for the class.
    pub fn arity(&self, con: Name, class: Name) -> Option<&[Sort]>
        ensures { MatchOption result (¬ HasArityFor self.now con class) (λ domains. IsIn (record { con = con; domains = domains.now; class = class }) self.now.arities) }
    {
        let Some(_) = self.place(con, class) else {
            return None;
        };
        let arities = self.arities();
        for i in 0..arities.len() {
            let arity = arities.get(i);
            if is_for(arity, con, class) {
                return Some(arity.sorts());
            }
        }
        None
    }

    /// Whether the constructor has a declared arity for the class.
    pub fn has_arity(&self, con: Name, class: Name) -> bool
        ensures { IsTrue result ↔ HasArityFor self.now con class }
    {
        match self.arity(con, class) {
            None => false,
            Some(_) => true,
        }
    }
}
