//! Types, terms and statements from their texts, over a theory.
ghost use Rattle.std.specs.Prelude.{◌≡◌, ◌↔◌, ◌<◌, ◌≤◌, length, IfOk, IsTrue};
ghost use Rattle.pure_definitions.specs.Types.Typ as tree;
ghost use Rattle.pure_definitions.specs.Terms.Bounds.{IsClosed};
ghost use Rattle.pure_definitions.specs.Declarations.Certified.{IsCertifiedTyp};
ghost use Rattle.pure_logic.specs.Content.{Content, IsCertifiedOf, IsProposition, IsStatement};
ghost use Rattle.pure_lookup.specs.Laws.{IsInSession};
ghost use Rattle.pure_elab.specs.Answers.{IsFixedTyp};
ghost use Rattle.pure_elab.specs.Found.{vocabulary_of};
ghost use Rattle.pure_elab.specs.Sound.{IsSoundVocabulary};
ghost use Rattle.pure_script.specs.Seen.{span};
ghost use Rattle.pure_statements.specs.Chain.{Answers};
ghost use Rattle.pure_statements.specs.Statement.{IsStated, IsStatedTyp};
ghost use Rattle.pure_theorem.specs.Facts.{IsTheoryContent};
ghost use Rattle.pure_kernel.specs.TheoryText.{whole, IsTooLong, IsTextAnswer, IsTermText};

use pure_declare::NamedTheory;
use pure_declare::theory::Theory;
use pure_elab::Language;
use pure_script::Span;
use pure_statements::{
    Failed, Reason, Stated, elaborated_at, read_term, statement_of, written_typ,
};
use pure_term::{Term, Typ};
use pure_theorem::prop_typ;
use pure_typ::NamesByBase;
use std::alloc::{AllocError, Global};

/// Why a text says nothing over a theory.
#[derive(Clone, Copy, Debug, PartialEq, Eq)]
pub enum TextFault {
    /// No name can be looked up: the text of the theory's own name, or that of an ancestor's, has a dot or is `Pure`.
    TheoryName,
    /// The text is refused for this reason. Its places are those of bytes in the text.
    Refused { reason: Reason },
    /// Memory was wanted.
    Memory,
}

impl From<AllocError> for TextFault {
    ghost use Rattle.std.specs.Prelude.{◌≡◌};
    ghost use Rattle.pure_kernel.specs.declared.theory_text.TextFault.TheVariants.{Memory};

    ghost from_gives = { λ _ fault. fault ≡ Memory };

    fn from(_error: AllocError) -> TextFault {
        TextFault::Memory
    }
}

impl From<Failed> for TextFault {
    ghost use Rattle.std.specs.Prelude.{◌≡◌};
    ghost use Rattle.pure_kernel.specs.TheoryText.{text_fault};

    ghost from_gives = { λ failed fault. fault ≡ text_fault failed };

    fn from(failed: Failed) -> TextFault {
        match failed {
            Failed::Refused { reason } => TextFault::Refused { reason },
            Failed::Memory => TextFault::Memory,
        }
    }
}

/// The content of the theory is one over which inferences are derivable.
pub fn has_theory_content(theory: &Theory)
    ensures { IsTheoryContent theory.now }
{
    theory.content_is_sound();
}

/// Whether the text is too long for its places to be numbers of 32 bits.
fn is_too_long(text: &[u8]) -> bool
    ensures { IsTrue result ↔ IsTooLong text.now }
{
    text.len() >= 4_294_967_296
}

/// The range of the whole text.
fn range_of(text: &[u8]) -> Span
    requires { ¬ IsTooLong text.now }
    ensures range { span result ≡ whole text.now }
    ensures order { result.from ≤ result.to }
    ensures within { result.to ≤ length text.now }
{
    Span {
        from: 0,
        to: text.len() as u32,
    }
}

/// The type that the text writes over the theory, as `nat => prop`. Its type variables are fixed.
pub fn typ_of_text(
    alloc: Global,
    theory: &Theory,
    names: &NamesByBase,
    text: &[u8],
) -> Result<Typ, TextFault>
    ensures answer { IsTextAnswer (IsInSession names.now theory.now) text.now (IsStatedTyp (vocabulary_of names.now theory.now) text.now (whole text.now)) result }
    ensures fixed { IfOk result IsFixedTyp }
    ensures certified { IfOk result (IsCertifiedTyp theory.now.declarations) }
{
    names.are_session_texts();
    if !theory.may_look_up(names) {
        return Err(TextFault::TheoryName);
    }
    if is_too_long(text) {
        return Err(TextFault::Refused {
            reason: Reason::TooLong,
        });
    }
    let at = range_of(text);
    theory.content_is_sound();
    let language = NamedTheory::make(theory, names);
    let typ = written_typ(alloc, &language, text, at)?;
    Ok(typ)
}

/// The term that a text says at a type.
fn term_in<L: Language>(
    alloc: Global,
    language: &L,
    text: &[u8],
    at: Span,
    typ: &Typ,
) -> Result<Term, Failed>
    requires fixed { IsFixedTyp typ.now }
    requires small { length text.now < 4294967296 }
    requires order { at.from ≤ at.to }
    requires within { at.to ≤ length text.now }
    requires range { span at ≡ whole text.now }
    ensures answer { Answers (IsTermText (L.vocabulary language.now) text.now typ.now) result }
    ensures closed { IfOk result IsClosed }
    ensures certified { IfOk result (λ t. (Q : Content) → IsSoundVocabulary Q.declarations (L.vocabulary language.now) → IsCertifiedTyp Q.declarations typ.now → IsCertifiedOf Q t typ.now) }
{
    let raw = read_term(alloc, text, at)?;
    elaborated_at(alloc, language, &raw, typ)
}

/// The term that the text says over the theory at this type, under a most general typing: its variables and type variables are
/// fixed.
pub fn term_of_text(
    alloc: Global,
    theory: &Theory,
    names: &NamesByBase,
    text: &[u8],
    typ: &Typ,
) -> Result<Term, TextFault>
    requires { IsFixedTyp typ.now }
    ensures answer { IsTextAnswer (IsInSession names.now theory.now) text.now (IsTermText (vocabulary_of names.now theory.now) text.now typ.now) result }
    ensures closed { IfOk result IsClosed }
    ensures certified { IfOk result (λ t. IsCertifiedTyp theory.now.declarations typ.now → IsCertifiedOf theory.now t typ.now) }
{
    names.are_session_texts();
    if !theory.may_look_up(names) {
        return Err(TextFault::TheoryName);
    }
    if is_too_long(text) {
        return Err(TextFault::Refused {
            reason: Reason::TooLong,
        });
    }
    let at = range_of(text);
    theory.content_is_sound();
    let language = NamedTheory::make(theory, names);
    let term = term_in(alloc, &language, text, at, typ)?;
    Ok(term)
}

/// The proposition that the text says over the theory: its variables and type variables are fixed.
pub fn proposition_of_text(
    alloc: Global,
    theory: &Theory,
    names: &NamesByBase,
    text: &[u8],
) -> Result<Term, TextFault>
    ensures answer { IsTextAnswer (IsInSession names.now theory.now) text.now (IsTermText (vocabulary_of names.now theory.now) text.now tree.prop) result }
    ensures closed { IfOk result IsClosed }
    ensures proposition { IfOk result (IsProposition theory.now) }
{
    theory.content_is_sound();
    let typ = prop_typ(alloc);
    let term = term_of_text(alloc, theory, names, text, &typ)?;
    Ok(term)
}

/// What the text states over the theory: the normal form of its proposition with fixed variables, and that with schematic ones,
/// which an axiom or a promise may state. One of more than `MAX_STATEMENT` nodes is too large.
pub fn statement_of_text(
    alloc: Global,
    theory: &Theory,
    names: &NamesByBase,
    text: &[u8],
) -> Result<Stated, TextFault>
    ensures answer { IsTextAnswer (IsInSession names.now theory.now) text.now (IsStated (vocabulary_of names.now theory.now) text.now (whole text.now)) result }
    ensures statement { IfOk result (λ s. IsStatement theory.now s.prop) }
{
    names.are_session_texts();
    if !theory.may_look_up(names) {
        return Err(TextFault::TheoryName);
    }
    if is_too_long(text) {
        return Err(TextFault::Refused {
            reason: Reason::TooLong,
        });
    }
    let at = range_of(text);
    theory.content_is_sound();
    let language = NamedTheory::make(theory, names);
    let stated = statement_of(alloc, &language, text, at)?;
    Ok(stated)
}
