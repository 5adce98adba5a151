//! Trees of terms and types elaborated, as steps of a command.
ghost use Rattle.std.specs.Prelude.{◌≡◌, IfOk};
ghost use Rattle.pure_definitions.specs.Types.Typ as tree;
ghost use Rattle.pure_definitions.specs.Terms.Bounds.{IsClosed};
ghost use Rattle.pure_definitions.specs.Declarations.Certified.{IsCertifiedTyp};
ghost use Rattle.pure_logic.specs.Content.{Content, IsCertifiedOf, IsProposition};
ghost use Rattle.pure_elab.specs.Sound.{IsSoundVocabulary};
ghost use Rattle.pure_elab.specs.Answers.{IsFixedTyp};
ghost use Rattle.pure_statements.specs.Chain.{Answers};
ghost use Rattle.pure_statements.specs.Elaborated as spec;
ghost use Rattle.pure_statements.specs.Elaborated.{IsTypedTerm, IsWrittenTyp};

use crate::reason::{Failed, Reason};
use pure_elab::{ElabFault, Language, elaborate, elaborate_at, elaborate_typ};
use pure_read::{Raw, RawTyp};
use pure_term::Term;
use pure_typ::Typ;
use std::alloc::Global;

/// A fault of elaboration as one of a command.
fn failed_elaboration(fault: ElabFault) -> Failed
    ensures { result ≡ spec.failed_elaboration fault }
{
    let reason = match fault {
        ElabFault::UnknownName { at } => Reason::UnknownNameAt { at },
        ElabFault::UnknownSort { at } => Reason::UnknownClassAt { at },
        ElabFault::WrongCount { at } => Reason::WrongCountAt { at },
        ElabFault::Schematic { at } => Reason::SchematicAt { at },
        ElabFault::IllTyped { at } => Reason::IllTyped { at },
        ElabFault::Big => Reason::TooLarge,
        ElabFault::Memory => return Failed::Memory,
    };
    Failed::Refused { reason }
}

/// The proposition that the tree says, or its fault.
pub(crate) fn elaborated<L: Language>(
    alloc: Global,
    language: &L,
    raw: &Raw,
) -> Result<Term, Failed>
    ensures answer { Answers (IsTypedTerm (L.vocabulary language.now) tree.prop raw.now) result }
    ensures closed { IfOk result IsClosed }
    ensures certified { IfOk result (λ t. (Q : Content) → IsSoundVocabulary Q.declarations (L.vocabulary language.now) → IsProposition Q t) }
{
    match elaborate(alloc, language, raw) {
        Ok(term) => Ok(term),
        Err(fault) => Err(failed_elaboration(fault)),
    }
}

/// The term that the tree says at a type, or its fault.
pub fn elaborated_at<L: Language>(
    alloc: Global,
    language: &L,
    raw: &Raw,
    typ: &Typ,
) -> Result<Term, Failed>
    requires { IsFixedTyp typ.now }
    ensures answer { Answers (IsTypedTerm (L.vocabulary language.now) typ.now raw.now) result }
    ensures closed { IfOk result IsClosed }
    ensures certified { IfOk result (λ t. (Q : Content) → IsSoundVocabulary Q.declarations (L.vocabulary language.now) → IsCertifiedTyp Q.declarations typ.now → IsCertifiedOf Q t typ.now) }
{
    match elaborate_at(alloc, language, raw, typ) {
        Ok(term) => Ok(term),
        Err(fault) => Err(failed_elaboration(fault)),
    }
}

/// The type that the tree says, or its fault.
pub fn elaborated_typ<L: Language>(alloc: Global, language: &L, raw: &RawTyp) -> Result<Typ, Failed>
    ensures answer { Answers (IsWrittenTyp (L.vocabulary language.now) raw.now) result }
    ensures fixed { IfOk result IsFixedTyp }
    ensures certified { IfOk result (λ t. (Q : Content) → IsSoundVocabulary Q.declarations (L.vocabulary language.now) → IsCertifiedTyp Q.declarations t) }
{
    match elaborate_typ(alloc, language, raw) {
        Ok(typ) => Ok(typ),
        Err(fault) => Err(failed_elaboration(fault)),
    }
}
