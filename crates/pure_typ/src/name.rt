//! Names and labels, which are numbers.
use std::marker::Model;

/// The number of a name.
#[derive(Clone, Copy, PartialEq, Eq, PartialOrd, Ord, Debug)]
pub struct Name(pub u32);

impl Model for Name {
    ghost use Rattle.std.specs.Prelude.{ℕ};

    ghost Value = { ℕ };

    ghost view = { λ n. n.0 };

    ghost inverse = { λ n. record { 0 = n } };
}

/// The names that Pure itself declares.
impl Name {
    /// The type constructor `fun`.
    pub const FUN: Name = Name(0);

    /// The type constructor `prop`.
    pub const PROP: Name = Name(1);

    /// The constant `all`.
    pub const ALL: Name = Name(2);

    /// The constant `imp`.
    pub const IMP: Name = Name(3);

    /// The constant `eq`.
    pub const EQ: Name = Name(4);

    /// The constant `protect`.
    pub const PROTECT: Name = Name(5);
}

/// How many names Pure itself declares: the numbers below stand for these.
pub const BUILTIN_COUNT: u32 = 6;

/// Where a promise was made: the theory, the command in it, and the part of the command.
#[derive(Clone, Copy, PartialEq, Eq, PartialOrd, Ord, Debug)]
pub struct Label {
    pub theory: u32,
    pub command: u32,
    pub part: u32,
}

impl Model for Label {
    ghost use Rattle.pure_definitions.specs.Names as tree;
    ghost use Rattle.pure_definitions.specs.Models.Codes.{coded_label};

    ghost Value = { tree.Label };

    ghost coded = { coded_label };

    ghost view = { λ l. record { theory = l.theory; command = l.command; part = l.part } };

    ghost inverse = { λ l. record { theory = l.theory; command = l.command; part = l.part } };
}
