//! The faults of names: a walk in preorder that keeps the one that decides.
ghost use Rattle.std.specs.Prelude.{◌≡◌, IfOk, Some, None};
ghost use Rattle.pure_grammar.specs.Tokens.Token.{tail};
ghost use Rattle.pure_grammar.specs.Terms.RawTree.{raw_typs_of};
ghost use Rattle.pure_read.specs.RawView.{seen_annotation};
ghost use Rattle.pure_elab.specs.Faults as spec;
ghost use Rattle.pure_elab.specs.Drafts.{texts_of};
ghost use Rattle.pure_elab.specs.Scope.{binders_of};

use crate::fault::{FaultAt, NameFault};
use crate::language::Language;
use crate::meaning::Meaning;
use crate::names::meaning_of;
use crate::scope::Scope;
use pure_grammar::TokenKind;
use pure_read::{Raw, RawClass, RawNode, RawTyp, RawTypNode};
use pure_typ::{Name, Typ};
use std::alloc::AllocError;

/// A text without its mark.
pub(crate) fn behind_mark(text: &[u8]) -> &[u8]
    ensures { result.now ≡ tail text.now }
{
    if text.len() == 0 {
        return text;
    }
    &text[1..]
}

/// Of the fault found before and this one the one that decides.
fn sooner(best: Option<FaultAt>, at: u32, fault: NameFault) -> Option<FaultAt>
    ensures { result ≡ spec.kept best (record { at = at; fault = fault }) }
{
    match best {
        None => Some(FaultAt { at, fault }),
        Some(found) => {
            if at < found.at {
                Some(FaultAt { at, fault })
            } else {
                Some(found)
            }
        }
    }
}

/// The same, where nothing was found.
fn unless_found(
    best: Option<FaultAt>,
    at: u32,
    fault: NameFault,
    found: Option<Name>,
) -> Option<FaultAt>
    ensures { result ≡ spec.earliest best (spec.missing at fault found) }
{
    match found {
        None => sooner(best, at, fault),
        Some(_) => best,
    }
}

/// The same with the faults of a sort's classes.
fn with_classes<L: Language>(
    language: &L,
    classes: &[RawClass],
    best: Option<FaultAt>,
) -> Option<FaultAt>
    ensures { result ≡ spec.earliest best (spec.class_faults (L.vocabulary language.now) classes.now) }
{
    let mut found = best;
    for class in classes {
        let text = class.name.bytes();
        let name = language.find_class(text);
        found = unless_found(found, class.at, NameFault::UnknownSort, name);
    }
    found
}

/// The same with the fault of a type variable.
fn with_variable<L: Language>(
    language: &L,
    at: u32,
    kind: TokenKind,
    text: &[u8],
    best: Option<FaultAt>,
) -> Option<FaultAt>
    ensures { result ≡ spec.earliest best (spec.variable_faults (L.vocabulary language.now) at kind text.now) }
{
    match kind {
        TokenKind::TypeVar => {
            let found = language.find_name(behind_mark(text));
            unless_found(best, at, NameFault::UnknownName, found)
        }
        TokenKind::Word => sooner(best, at, NameFault::Schematic),
        TokenKind::Ident => sooner(best, at, NameFault::Schematic),
        TokenKind::Qualified => sooner(best, at, NameFault::Schematic),
        TokenKind::Schem => sooner(best, at, NameFault::Schematic),
        TokenKind::BoundName => sooner(best, at, NameFault::Schematic),
        TokenKind::Number => sooner(best, at, NameFault::Schematic),
        TokenKind::Quote => sooner(best, at, NameFault::Schematic),
        TokenKind::Symbol => sooner(best, at, NameFault::Schematic),
        TokenKind::End => sooner(best, at, NameFault::Schematic),
    }
}

/// The same with the fault of a constructor that takes so many arguments, where this many stand.
fn with_count(best: Option<FaultAt>, at: u32, params: Option<u32>, count: usize) -> Option<FaultAt>
    ensures { result ≡ spec.earliest best (spec.count_faults at params count) }
{
    match params {
        None => sooner(best, at, NameFault::UnknownName),
        Some(params) => {
            if params as usize == count {
                best
            } else {
                sooner(best, at, NameFault::WrongCount)
            }
        }
    }
}

/// The same with the fault of a constructor with so many arguments.
fn with_constructor<L: Language>(
    language: &L,
    at: u32,
    name: &[u8],
    count: usize,
    best: Option<FaultAt>,
) -> Option<FaultAt>
    ensures { result ≡ spec.earliest best (spec.constructor_faults (L.vocabulary language.now) at ((L.vocabulary language.now).constructor_written name.now) count) }
{
    match language.find_typ(name) {
        None => sooner(best, at, NameFault::UnknownName),
        Some(name) => with_count(best, at, language.typ_params(name), count),
    }
}

/// The same with the faults of a type.
#[tactic(auto, using(crate::proofs::EarliestLaws::earliest_append))]
#[cycle(typ_faults)]
pub(crate) fn with_typ<L: Language>(
    language: &L,
    raw: &RawTyp,
    best: Option<FaultAt>,
) -> Option<FaultAt>
    ensures { result ≡ spec.earliest best (spec.typ_faults (L.vocabulary language.now) raw.now) }
{
    match &raw.node {
        RawTypNode::Var {
            at,
            kind,
            text,
            sort,
        } => {
            let best = with_variable(language, *at, *kind, text.bytes(), best);
            with_classes(language, sort.as_slice(), best)
        }
        RawTypNode::Con { at, name, args } => {
            let args = args.as_slice();
            let text = name.bytes();
            let first = with_constructor(language, *at, text, args.len(), best);
            with_typs(language, args, first)
        }
    }
}

/// The same with the faults of types.
#[cycle(typ_faults)]
fn with_typs<L: Language>(language: &L, args: &[RawTyp], best: Option<FaultAt>) -> Option<FaultAt>
    ensures { result ≡ spec.earliest best (spec.typs_faults (L.vocabulary language.now) (raw_typs_of args.now)) }
{
    let mut found = best;
    for arg in args {
        found = with_typ(language, arg, found);
    }
    found
}

/// The same with the faults of the type of a binder, if one is written.
fn with_annotation<L: Language>(
    language: &L,
    typ: &Option<Box<RawTyp>>,
    best: Option<FaultAt>,
) -> Option<FaultAt>
    ensures { result ≡ spec.earliest best (spec.annotation_faults (L.vocabulary language.now) (seen_annotation typ.now)) }
{
    match typ {
        None => best,
        Some(typ) => with_typ(language, typ, best),
    }
}

/// The same with the fault of a name or variable of a term.
fn with_leaf(best: Option<FaultAt>, at: u32, meaning: Meaning) -> Option<FaultAt>
    ensures { result ≡ spec.earliest best (spec.leaf_faults at meaning) }
{
    match meaning {
        Meaning::Unknown => sooner(best, at, NameFault::UnknownName),
        Meaning::Schematic => sooner(best, at, NameFault::Schematic),
        Meaning::Constant { .. } => best,
        Meaning::Fixed { .. } => best,
        Meaning::Bound { .. } => best,
    }
}

/// The same with the faults of a term. The types of the binders play no part: each is the one that is handed in.
#[tactic(auto, using(crate::proofs::EarliestLaws::earliest_append))]
pub(crate) fn with_term<L: Language>(
    language: &L,
    typ: &Typ,
    scope: &Scope<'_, '_>,
    raw: &Raw,
    best: Option<FaultAt>,
) -> Result<Option<FaultAt>, AllocError>
    ensures { IfOk result (λ found. found ≡ spec.earliest best (spec.term_faults (L.vocabulary language.now) (texts_of (binders_of scope.now)) raw.now)) }
{
    match &raw.node {
        RawNode::Leaf { at, kind, text } => {
            let meaning = meaning_of(language, scope, *kind, text.bytes())?;
            Ok(with_leaf(best, *at, meaning))
        }
        RawNode::Abs {
            var,
            typ: annotation,
            body,
            ..
        } => {
            let best = with_annotation(language, annotation, best);
            let inner = Scope::Under(var, typ, &*scope);
            let found = with_term(language, typ, &inner, body, best)?;
            Ok(found)
        }
        RawNode::App { fun, arg, .. } => {
            let first = with_term(language, typ, scope, fun, best)?;
            let found = with_term(language, typ, scope, arg, first)?;
            Ok(found)
        }
        RawNode::Typed {
            term,
            typ: annotation,
            ..
        } => {
            let first = with_term(language, typ, scope, term, best)?;
            Ok(with_typ(language, annotation, first))
        }
    }
}
