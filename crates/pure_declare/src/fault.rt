//! Faults of declarations as those of commands.
ghost use Rattle.std.specs.Prelude.{◌≡◌};
ghost use Rattle.pure_declare.specs.Changes as spec;

use pure_statements::{Failed, Reason};
use pure_theory::DeclFault;

/// The fault of a declaration as one of a command.
pub(crate) fn failed_declaration(fault: DeclFault) -> Failed
    ensures { result ≡ spec.failed_declaration fault }
{
    let reason = match fault {
        DeclFault::Duplicate => Reason::Duplicate,
        DeclFault::UnknownClass { .. } => Reason::UnknownClass,
        DeclFault::UnknownType { .. } => Reason::UnknownType,
        DeclFault::WrongCount { .. } => Reason::WrongCount,
        DeclFault::NotCoregular { con, c1, c2 } => Reason::NotCoregular { con, c1, c2 },
        DeclFault::NotClosed => Reason::NotClosed,
        DeclFault::ExtraType => Reason::ExtraTypeVariable,
        DeclFault::Memory => return Failed::Memory,
    };
    Failed::Refused { reason }
}
