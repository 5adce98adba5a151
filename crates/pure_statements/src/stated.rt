//! What quoted texts state.
ghost use Rattle.std.specs.Prelude.{◌<◌, ◌≤◌, length, IfOk};
ghost use Rattle.pure_definitions.specs.Terms.Bounds.{IsClosed};
ghost use Rattle.pure_definitions.specs.Declarations.Certified.{IsCertifiedTyp};
ghost use Rattle.pure_logic.specs.Content.{Content, IsContent, IsProposition, IsStatement};
ghost use Rattle.pure_script.specs.Seen.{span};
ghost use Rattle.pure_elab.specs.Sound.{IsSoundVocabulary};
ghost use Rattle.pure_elab.specs.Answers.{IsFixedTyp};
ghost use Rattle.pure_statements.specs.Chain.{Answers};
ghost use Rattle.pure_statements.specs.Statement.{IsStatedNormal, IsStatedTerm, IsStatedTree, IsStated, IsStatedTyp};

use crate::elaborated::{elaborated, elaborated_typ};
use crate::normal::{is_large, normal_form_of};
use crate::quoted::{read_term, read_typ};
use crate::reason::{Failed, Reason};
use crate::schematic::generalised;
use pure_elab::Language;
use pure_read::Raw;
use pure_script::Span;
use pure_term::Term;
use pure_typ::Typ;
use std::alloc::Global;

/// A statement in normal form, with its fixed variables, and generalised.
#[derive(Debug, Drop)]
pub struct Stated {
    pub fixed: Term,
    pub prop: Term,
}

/// The statement of this normal form, unless it is too large.
fn stated_normal(alloc: Global, fixed: Term) -> Result<Stated, Failed>
    ensures answer { Answers (IsStatedNormal fixed) result }
    ensures statement { IfOk result (λ s. (Q : Content) → IsContent Q → IsProposition Q fixed → IsStatement Q s.prop) }
{
    if is_large(&fixed) {
        return Err(Failed::Refused {
            reason: Reason::TooLarge,
        });
    }
    let prop = generalised(alloc, &fixed)?;
    Ok(Stated { fixed, prop })
}

/// What a proposition states.
fn stated_term(alloc: Global, term: Term) -> Result<Stated, Failed>
    requires { IsClosed term }
    ensures answer { Answers (IsStatedTerm term) result }
    ensures statement { IfOk result (λ s. (Q : Content) → IsContent Q → IsProposition Q term → IsStatement Q s.prop) }
{
    let fixed = normal_form_of(alloc, term)?;
    stated_normal(alloc, fixed)
}

/// What a tree states.
fn stated_tree<L: Language>(alloc: Global, language: &L, raw: &Raw) -> Result<Stated, Failed>
    ensures answer { Answers (IsStatedTree (L.vocabulary language.now) raw.now) result }
    ensures statement { IfOk result (λ s. (Q : Content) → IsContent Q → IsSoundVocabulary Q.declarations (L.vocabulary language.now) → IsStatement Q s.prop) }
{
    let term = elaborated(alloc, language, raw)?;
    stated_term(alloc, term)
}

/// What a quoted text states: it is read, elaborated as a proposition, brought to normal form, and limited in size; or the first of these that refuses.
pub fn statement_of<L: Language>(
    alloc: Global,
    language: &L,
    source: &[u8],
    at: Span,
) -> Result<Stated, Failed>
    requires small { length source.now < 4294967296 }
    requires order { at.from ≤ at.to }
    requires within { at.to ≤ length source.now }
    ensures answer { Answers (IsStated (L.vocabulary language.now) source.now (span at)) result }
    ensures statement { IfOk result (λ s. (Q : Content) → IsContent Q → IsSoundVocabulary Q.declarations (L.vocabulary language.now) → IsStatement Q s.prop) }
{
    let raw = read_term(alloc, source, at)?;
    stated_tree(alloc, language, &raw)
}

/// The type that is written; or why there is none.
pub fn written_typ<L: Language>(
    alloc: Global,
    language: &L,
    source: &[u8],
    at: Span,
) -> Result<Typ, Failed>
    requires small { length source.now < 4294967296 }
    requires order { at.from ≤ at.to }
    requires within { at.to ≤ length source.now }
    ensures answer { Answers (IsStatedTyp (L.vocabulary language.now) source.now (span at)) result }
    ensures fixed { IfOk result IsFixedTyp }
    ensures certified { IfOk result (λ t. (Q : Content) → IsSoundVocabulary Q.declarations (L.vocabulary language.now) → IsCertifiedTyp Q.declarations t) }
{
    let raw = read_typ(alloc, source, at)?;
    elaborated_typ(alloc, language, &raw)
}
