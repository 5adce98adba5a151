//! Equality, said as a fact.
ghost use Rattle.std.specs.Prelude.{◌≡◌, ◌↔◌, IsTrue};

use pure_term::{Term, Typ};

/// Whether two terms are equal.
pub fn are_same(t: &Term, u: &Term) -> bool
    ensures { IsTrue result ↔ (t.now ≡ u.now) }
{
    t == u
}

/// Whether two types are equal.
pub fn are_same_typs(t: &Typ, u: &Typ) -> bool
    ensures { IsTrue result ↔ (t.now ≡ u.now) }
{
    t == u
}
