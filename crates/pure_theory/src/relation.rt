//! Which theories are below others.
ghost use Rattle.std.specs.Prelude.{◌↔◌, IsTrue, MatchOption};
ghost use Rattle.pure_logic.specs.Content.{IsBelow};
ghost use Rattle.pure_theory_tables.specs.Missing.{IsFirstMissing};

use crate::theory::Theory;
use pure_theory_tables::Decl;

impl Theory {
    /// The first declaration of this theory that isn't one of the other; none exactly where this one is below the other.
    pub fn missing(&self, other: &Theory) -> Option<Decl>
        ensures { MatchOption result (IsBelow self.now other.now) (IsFirstMissing self.now.declarations other.now.declarations) }
    {
        match self.declared.first_missing(&other.declared) {
            None => None,
            Some(decl) => Some(decl),
        }
    }

    /// Whether each declaration of this theory is one of the other.
    pub fn below(&self, other: &Theory) -> bool
        ensures { IsTrue result ↔ IsBelow self.now other.now }
    {
        match self.missing(other) {
            None => true,
            Some(_) => false,
        }
    }
}
