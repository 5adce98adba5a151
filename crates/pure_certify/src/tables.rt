//! Tables of declarations, as certification asks them.
use pure_order::Order;
use pure_typ::{Name, Typ};

/// Tables that answer exactly what a list of declarations says.
pub trait Tables {
    ghost use Rattle.std.specs.Prelude.{◌≡◌, List, MatchOption};
    ghost use Rattle.pure_definitions.specs.Declarations.Decl.{Decl, algebra_of};
    ghost use Rattle.pure_certify.specs.Tables.{IsParams, IsConstOf, IsUnknownConst};

    // The declarations.
    ghost declarations: { Self → List Decl };

    /// How many arguments the type constructor takes; none exactly where it isn't declared.
    fn typ_params(&self, name: Name) -> Option<u32>
        ensures { IsParams (declarations self.now) name result };

    /// The declared type of the constant; none exactly where it isn't declared.
    fn const_typ(&self, name: Name) -> Option<&Typ>
        ensures { MatchOption result (IsUnknownConst (declarations self.now) name) (λ typ. IsConstOf (declarations self.now) name typ.now) };

    /// The classes and arities.
    fn order(&self) -> &Order
        ensures { result.now ≡ algebra_of (declarations self.now) };
}
