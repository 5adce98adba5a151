//! A theory with its classes and arities.
use pure_order::Order;
use pure_theorem::Base;

/// A theory, as instances ask it: its classes and arities too.
pub trait Ordered: Base {
    ghost use Rattle.std.specs.Prelude.{◌≡◌};
    ghost use Rattle.pure_definitions.specs.Declarations.Decl.{algebra_of};

    /// The classes and arities.
    fn order(&self) -> &Order
        ensures { result.now ≡ algebra_of (Self.content self.now).declarations };
}
