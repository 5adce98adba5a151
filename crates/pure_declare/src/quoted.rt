//! The texts of a command, over the vocabulary of its place.
ghost use Rattle.std.specs.Prelude.{IfOk};
ghost use Rattle.pure_definitions.specs.Terms.Bounds.{IsClosed};
ghost use Rattle.pure_definitions.specs.Declarations.Certified.{IsCertifiedTyp};
ghost use Rattle.pure_logic.specs.Content.{IsCertifiedOf, IsStatement};
ghost use Rattle.pure_script.specs.Seen.{span};
ghost use Rattle.pure_elab.specs.Answers.{IsFixedTyp};
ghost use Rattle.pure_statements.specs.Chain.{Answers};
ghost use Rattle.pure_statements.specs.Elaborated.{IsTypedTerm};
ghost use Rattle.pure_statements.specs.Quoted.{IsReadTerm};
ghost use Rattle.pure_statements.specs.Statement.{IsStated, IsStatedTyp};
ghost use Rattle.pure_declare.specs.Commands.{vocabulary};
ghost use Rattle.pure_declare.specs.Premises.{LiesIn};

use crate::place::Place;
use pure_read::Raw;
use pure_script::Span;
use pure_statements as statements;
use pure_statements::{Failed, Stated};
use pure_term::Term;
use pure_typ::Typ;
use std::alloc::Global;

/// What a quoted text states.
pub(crate) fn statement_of(alloc: Global, place: &Place<'_>, at: Span) -> Result<Stated, Failed>
    requires { LiesIn place.now.source (span at) }
    ensures answer { Answers (IsStated (vocabulary place.now) place.now.source (span at)) result }
    ensures statement { IfOk result (λ s. IsStatement place.now.content s.prop) }
{
    place.is_in_session();
    let _ = place.theory();
    let language = place.language();
    statements::statement_of(alloc, &language, place.source(), at)
}

/// The type that is written.
pub(crate) fn written_typ(alloc: Global, place: &Place<'_>, at: Span) -> Result<Typ, Failed>
    requires { LiesIn place.now.source (span at) }
    ensures answer { Answers (IsStatedTyp (vocabulary place.now) place.now.source (span at)) result }
    ensures fixed { IfOk result IsFixedTyp }
    ensures certified { IfOk result (IsCertifiedTyp place.now.content.declarations) }
{
    place.is_in_session();
    let _ = place.theory();
    let language = place.language();
    statements::written_typ(alloc, &language, place.source(), at)
}

/// The tree of a quoted text.
pub(crate) fn read_term(alloc: Global, place: &Place<'_>, at: Span) -> Result<Raw, Failed>
    requires { LiesIn place.now.source (span at) }
    ensures { Answers (IsReadTerm place.now.source (span at)) result }
{
    statements::read_term(alloc, place.source(), at)
}

/// The term that a tree says at a type.
pub(crate) fn typed_term(
    alloc: Global,
    place: &Place<'_>,
    raw: &Raw,
    typ: &Typ,
) -> Result<Term, Failed>
    requires fixed { IsFixedTyp typ.now }
    requires certified { IsCertifiedTyp place.now.content.declarations typ.now }
    ensures answer { Answers (IsTypedTerm (vocabulary place.now) typ.now raw.now) result }
    ensures closed { IfOk result IsClosed }
    ensures certified { IfOk result (λ t. IsCertifiedOf place.now.content t typ.now) }
{
    place.is_in_session();
    let _ = place.theory();
    let language = place.language();
    statements::elaborated_at(alloc, &language, raw, typ)
}
