//! Definitions.
ghost use Rattle.std.specs.Prelude.{◌≡◌, ◌⊎◌, ◌↔◌, ◌++◌, IsTrue, IfOk, IfErr, OnOk};
ghost use Rattle.pure_text.specs.Lists.{IsIn};
ghost use Rattle.pure_definitions.specs.Terms.Bounds.{IsClosed};
ghost use Rattle.pure_definitions.specs.Types.Typ as types;
ghost use Rattle.pure_definitions.specs.Terms.Term as terms;
ghost use Rattle.pure_definitions.specs.Declarations.Certified.{IsCertifiedTyp};
ghost use Rattle.pure_definitions.specs.Declarations.Decl.{AxiomDecl};
ghost use Rattle.pure_logic.specs.Content.{IsCertifiedOf, definition};
ghost use Rattle.pure_lookup.specs.Meaning.{constants, facts};
ghost use Rattle.pure_theory.specs.Stage.{with_declarations};
ghost use Rattle.pure_theory.specs.Definitions.{HasVariable, HasExtraTyp};
ghost use Rattle.pure_script.specs.Seen.{span};
ghost use Rattle.pure_elab.specs.Answers.{IsFixedTyp};
ghost use Rattle.pure_statements.specs.Chain.{Answers, FailsAs, Unless, Gives};
ghost use Rattle.pure_statements.specs.Statement.{IsLarge};
ghost use Rattle.pure_statements.specs.declared.reason.Reason.TheVariants.{TooLarge};
ghost use Rattle.pure_declare.specs.Commands.{IsTaken, IsNewDefinition, stating, defining, declaring_definition, IsBodyChange, IsTermChange, IsTypedChange, IsTreeChange, IsTextChange, IsNewDefinitionChange, IsDefinitionChange};
ghost use Rattle.pure_declare.specs.Premises.{LiesIn};

use crate::change::Change;
use crate::fault::failed_declaration;
use crate::place::Place;
use crate::quoted::{read_term, typed_term, written_typ};
use crate::tails::prop_tail;
use crate::taken::{is_const_taken, is_fact_taken};
use pure_read::Raw;
use pure_script::Span;
use pure_statements::{Failed, Reason, body_of, is_large, normalised};
use pure_term::Term;
use pure_text::Text;
use pure_theory::Theory;
use pure_typ::{Name, Typ};
use std::alloc::Global;

/// The names of a definition: its constant's and its fact's.
#[derive(Drop)]
pub(crate) struct Pair {
    pub(crate) constant: Name,
    pub(crate) fact: Name,
}

/// With a definition of new names, unless its body has a variable, or a type variable that its type lacks.
fn with_definition(
    place: &Place<'_>,
    names: &Pair,
    typ: &Typ,
    body: &Term,
) -> Result<Theory, Failed>
    requires new { IsNewDefinition place.now names.now.constant names.now.fact }
    requires certified { IsCertifiedOf place.now.content body.now typ.now }
    ensures ok { IfOk result (λ Q. Q ≡ with_declarations place.now.content (place.now.content.declarations ++ definition names.now.constant names.now.fact typ.now body.now)) }
    ensures closed { OnOk result ((¬ HasVariable body.now) × (¬ HasExtraTyp typ.now body.now)) }
    ensures failed { IfErr result (FailsAs (IsBodyChange place.now names.now.constant names.now.fact typ.now body.now)) }
{
    match place
        .theory()
        .declare_definition(names.constant, names.fact, typ, body)
    {
        Ok(next) => Ok(next),
        Err(fault) => Err(failed_declaration(fault)),
    }
}

/// What is said of the axiom of this name, unless it is too large.
fn axiom_tail(alloc: Global, place: &Place<'_>, fact: Name, next: &Theory) -> Result<Text, Failed>
    requires { (A : terms.Term) × IsIn (AxiomDecl fact A) next.now.declarations }
    ensures { (A : terms.Term) → IsIn (AxiomDecl fact A) next.now.declarations → Answers (Unless (IsLarge A) TooLarge (Gives (stating place.now A))) result }
{
    let Some(axiom) = next.axiom_prop(fact) else {
        unreachable!()
    };
    if is_large(axiom) {
        return Err(Failed::Refused {
            reason: Reason::TooLarge,
        });
    }
    let tail = prop_tail(alloc, place, axiom)?;
    Ok(tail)
}

/// A definition that is declared, unless its axiom is too large.
fn definition_made(
    alloc: Global,
    place: &Place<'_>,
    names: &Pair,
    next: Theory,
) -> Result<Change, Failed>
    requires { (T : types.Typ) × (b : terms.Term) × (next ≡ with_declarations place.now.content (place.now.content.declarations ++ definition names.now.constant names.now.fact T b)) }
    ensures { (T : types.Typ) (b : terms.Term) → next ≡ with_declarations place.now.content (place.now.content.declarations ++ definition names.now.constant names.now.fact T b)
        → Answers (Unless (IsLarge (defining names.now.constant T b)) TooLarge (Gives (declaring_definition place.now names.now.constant names.now.fact T b))) result }
{
    let tail = axiom_tail(alloc, place, names.fact, &next)?;
    Ok(Change::saying(tail, next))
}

/// A definition of new names by a body in normal form.
fn body_change(
    alloc: Global,
    place: &Place<'_>,
    names: &Pair,
    typ: &Typ,
    body: &Term,
) -> Result<Change, Failed>
    requires new { IsNewDefinition place.now names.now.constant names.now.fact }
    requires certified { IsCertifiedOf place.now.content body.now typ.now }
    ensures { Answers (IsBodyChange place.now names.now.constant names.now.fact typ.now body.now) result }
{
    let next = with_definition(place, names, typ, body)?;
    definition_made(alloc, place, names, next)
}

/// A definition of new names by a body that is typed.
fn term_change(
    alloc: Global,
    place: &Place<'_>,
    names: &Pair,
    typ: &Typ,
    term: &Term,
) -> Result<Change, Failed>
    requires new { IsNewDefinition place.now names.now.constant names.now.fact }
    requires closed { IsClosed term.now }
    requires certified { IsCertifiedOf place.now.content term.now typ.now }
    ensures { Answers (IsTermChange place.now names.now.constant names.now.fact typ.now term.now) result }
{
    let body = normalised(alloc, term)?;
    body_change(alloc, place, names, typ, &body)
}

/// A definition of new names by this tree.
fn typed_change(
    alloc: Global,
    place: &Place<'_>,
    names: &Pair,
    typ: &Typ,
    raw: &Raw,
) -> Result<Change, Failed>
    requires new { IsNewDefinition place.now names.now.constant names.now.fact }
    requires fixed { IsFixedTyp typ.now }
    requires certified { IsCertifiedTyp place.now.content.declarations typ.now }
    ensures { Answers (IsTypedChange place.now names.now.constant names.now.fact typ.now raw.now) result }
{
    let term = typed_term(alloc, place, raw, typ)?;
    term_change(alloc, place, names, typ, &term)
}

/// A definition of new names, whose text is read: it says that the constant of this base equals a term.
fn tree_change(
    alloc: Global,
    place: &Place<'_>,
    base: &[u8],
    names: &Pair,
    typ: &Typ,
    raw: &Raw,
) -> Result<Change, Failed>
    requires new { IsNewDefinition place.now names.now.constant names.now.fact }
    requires fixed { IsFixedTyp typ.now }
    requires certified { IsCertifiedTyp place.now.content.declarations typ.now }
    ensures { Answers (IsTreeChange place.now base.now names.now.constant names.now.fact typ.now raw.now) result }
{
    match body_of(base, raw) {
        None => Err(Failed::Refused {
            reason: Reason::NotDefinition,
        }),
        Some(body) => typed_change(alloc, place, names, typ, body),
    }
}

/// A definition of new names and of this type.
fn text_change(
    alloc: Global,
    place: &Place<'_>,
    base: &[u8],
    names: &Pair,
    text: Span,
    typ: &Typ,
) -> Result<Change, Failed>
    requires new { IsNewDefinition place.now names.now.constant names.now.fact }
    requires within { LiesIn place.now.source (span text) }
    requires fixed { IsFixedTyp typ.now }
    requires certified { IsCertifiedTyp place.now.content.declarations typ.now }
    ensures { Answers (IsTextChange place.now base.now names.now.constant names.now.fact (span text) typ.now) result }
{
    let raw = read_term(alloc, place, text)?;
    tree_change(alloc, place, base, names, typ, &raw)
}

/// A definition of new names.
fn new_definition(
    alloc: Global,
    place: &Place<'_>,
    base: &[u8],
    names: &Pair,
    typ: Span,
    text: Span,
) -> Result<Change, Failed>
    requires new { IsNewDefinition place.now names.now.constant names.now.fact }
    requires typ { LiesIn place.now.source (span typ) }
    requires text { LiesIn place.now.source (span text) }
    ensures { Answers (IsNewDefinitionChange place.now base.now names.now.constant names.now.fact (span typ) (span text)) result }
{
    let written = written_typ(alloc, place, typ)?;
    text_change(alloc, place, base, names, text, &written)
}

/// Whether something has the name of the constant or of the fact.
fn is_pair_taken(place: &Place<'_>, names: &Pair) -> bool
    ensures { IsTrue result ↔ (IsTaken place.now constants names.now.constant ⊎ IsTaken place.now facts names.now.fact) }
{
    is_const_taken(place, names.constant) || is_fact_taken(place, names.fact)
}

/// A definition.
pub(crate) fn definition_change(
    alloc: Global,
    place: &Place<'_>,
    base: &[u8],
    names: &Pair,
    typ: Span,
    text: Span,
) -> Result<Change, Failed>
    requires typ { LiesIn place.now.source (span typ) }
    requires text { LiesIn place.now.source (span text) }
    ensures { Answers (IsDefinitionChange place.now base.now names.now.constant names.now.fact (span typ) (span text)) result }
{
    if is_pair_taken(place, names) {
        return Err(Failed::Refused {
            reason: Reason::Duplicate,
        });
    }
    new_definition(alloc, place, base, names, typ, text)
}
