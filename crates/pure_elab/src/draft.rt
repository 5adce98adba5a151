//! Drafts: written terms with unknown types, and the constraints on these.
ghost use Rattle.std.specs.Prelude.{◌≡◌, ◌+◌, ℕ, [], ◌∷◌, IfOk, OnOk};
ghost use Rattle.pure_definitions.specs.Types.Typ as tree;
ghost use Rattle.pure_definitions.specs.Terms.Term as term_tree;
ghost use Rattle.pure_read.specs.RawView.{seen_annotation};
ghost use Rattle.pure_elab.specs.Drafts as spec;
ghost use Rattle.pure_elab.specs.Drafts.{texts_of};
ghost use Rattle.pure_elab.specs.Written as written;
ghost use Rattle.pure_elab.specs.Faults.{typ_faults, annotation_faults, leaf_faults, term_faults};
ghost use Rattle.pure_elab.specs.Meant.{meant};
ghost use Rattle.pure_elab.specs.Scope.{binders_of};
ghost use Rattle.pure_elab.specs.Table.{sort_among};
ghost use Rattle.pure_elab.specs.Drafted.{AreAdded, IsDrafted};

use crate::faults::with_typ;
use crate::language::Language;
use crate::meaning::Meaning;
use crate::names::meaning_of;
use crate::nodes::{abstraction, application};
use crate::numbered::number_typ;
use crate::numbers::{Numbering, Numbers, further, next_number, restart};
use crate::scope::{Scope, bound_typ};
use crate::sorts::VariableSort;
use crate::written::written_typ;
use pure_grammar::TokenKind;
use pure_read::{Raw, RawNode, RawTyp, RawTypNode};
use pure_term::{Term, TermNode};
use pure_text::Text;
use pure_tunify::Equation;
use pure_typ::{Name, Sort, Typ, TypNode};
use std::alloc::{AllocError, Global};
use std::sync::Arc;

/// A term and its type, both with unknowns.
#[derive(Debug, Drop)]
pub struct Drafted {
    pub term: Arc<Term>,
    pub typ: Typ,
}

/// The constraints so far, with their places, the first number that no unknown has, and a table that is lent for the
/// unknowns of one constant after the other.
#[derive(Debug, Drop)]
pub struct Constraints {
    pub next: u32,
    pub pairs: Vec<Equation>,
    pub places: Vec<u32>,
    pub numbers: Numbers,
}

/// The unknown of this number.
fn unknown(_alloc: Global, number: u32) -> Typ
    ensures { result ≡ spec.unknown number }
{
    Typ {
        node: TypNode::TVar {
            name: Name(number),
            index: 0,
            sort: Sort::empty(),
        },
    }
}

/// The unknown type of the fixed variable of this name.
fn fixed_unknown(_alloc: Global, name: Name) -> Typ
    ensures { result ≡ spec.fixed_unknown name }
{
    Typ {
        node: TypNode::TVar {
            name,
            index: 1,
            sort: Sort::empty(),
        },
    }
}

/// The place of a term.
pub(crate) fn raw_place(raw: &Raw) -> u32
    ensures { result ≡ spec.raw_place raw.now }
{
    match &raw.node {
        RawNode::Leaf { at, .. } => *at,
        RawNode::Abs { at, .. } => *at,
        RawNode::App { at, .. } => *at,
        RawNode::Typed { at, .. } => *at,
    }
}

/// The place of a type.
fn raw_typ_place(raw: &RawTyp) -> u32
    ensures { result ≡ spec.raw_typ_place raw.now }
{
    match &raw.node {
        RawTypNode::Var { at, .. } => *at,
        RawTypNode::Con { at, .. } => *at,
    }
}

/// The type with unknowns of its own, from the next number on.
fn with_unknowns(
    alloc: Global,
    constraints: &mut Constraints,
    declared: &Typ,
) -> Result<Typ, AllocError>
    ensures typ { IfOk result (λ t. t ≡ (spec.constant_draft 0 declared.now constraints.old.next).typ) }
    ensures added { OnOk result (AreAdded [] (spec.constant_draft 0 declared.now constraints.old.next).next constraints.old constraints.new) }
{
    let first = constraints.next;
    let numbers = &mut constraints.numbers;
    restart(alloc, numbers);
    let typ = number_typ(alloc, Numbering::Unknowns, first, numbers, declared)?;
    let next = next_number(first, numbers)?;
    constraints.next = next;
    Ok(typ)
}

/// An occurrence of a constant of this declared type.
fn draft_constant(
    alloc: Global,
    constraints: &mut Constraints,
    name: Name,
    declared: &Typ,
) -> Result<Drafted, AllocError>
    ensures { IfOk result (λ d. IsDrafted (spec.constant_draft name declared.now constraints.old.next) constraints.old constraints.new d.term.value d.typ) }
{
    let typ = with_unknowns(alloc, constraints, declared)?;
    let copy = typ.copy(alloc)?;
    let node = TermNode::Const { name, typ: copy };
    let term = Arc::new(alloc, Term { node })?;
    Ok(Drafted { term, typ })
}

/// An occurrence of a fixed variable.
fn draft_fixed(alloc: Global, name: Name) -> Result<Drafted, AllocError>
    ensures { IfOk result (λ d. (d.term.value ≡ term_tree.Free name (spec.fixed_unknown name)) × (d.typ ≡ spec.fixed_unknown name)) }
{
    let typ = fixed_unknown(alloc, name);
    let node = TermNode::Free { name, typ };
    let term = Arc::new(alloc, Term { node })?;
    let typ = fixed_unknown(alloc, name);
    Ok(Drafted { term, typ })
}

/// An occurrence of a bound variable of this type.
fn draft_bound(alloc: Global, place: u32, typ: &Typ) -> Result<Drafted, AllocError>
    ensures { IfOk result (λ d. (d.term.value ≡ term_tree.Bound place) × (d.typ ≡ typ.now)) }
{
    let typ = typ.copy(alloc)?;
    let node = TermNode::Bound { place };
    let term = Arc::new(alloc, Term { node })?;
    Ok(Drafted { term, typ })
}

/// A name by what it means.
fn draft_meaning<L: Language>(
    alloc: Global,
    language: &L,
    constraints: &mut Constraints,
    scope: &Scope<'_, '_>,
    text: &[u8],
    meaning: Meaning,
) -> Result<Drafted, AllocError>
    ensures draft { IfOk result (λ d. IsDrafted (spec.leaf_draft (L.vocabulary language.now) (binders_of scope.now) text.now meaning constraints.old.next) constraints.old constraints.new d.term.value d.typ) }
    ensures sound { OnOk result ((at : ℕ) → leaf_faults at meaning ≡ []) }
{
    match meaning {
        Meaning::Constant { name } => match language.const_typ(name) {
            None => Err(AllocError),
            Some(declared) => draft_constant(alloc, constraints, name, declared),
        },
        Meaning::Fixed { name } => draft_fixed(alloc, name),
        Meaning::Bound { place } => match bound_typ(scope, text) {
            None => Err(AllocError),
            Some(typ) => draft_bound(alloc, place, typ),
        },
        Meaning::Schematic => Err(AllocError),
        Meaning::Unknown => Err(AllocError),
    }
}

/// A name or variable.
fn draft_leaf<L: Language>(
    alloc: Global,
    language: &L,
    constraints: &mut Constraints,
    scope: &Scope<'_, '_>,
    kind: TokenKind,
    text: &[u8],
) -> Result<Drafted, AllocError>
    ensures draft { IfOk result (λ d. IsDrafted (spec.leaf_draft (L.vocabulary language.now) (binders_of scope.now) text.now (meant (L.vocabulary language.now) (texts_of (binders_of scope.now)) kind text.now) constraints.old.next) constraints.old constraints.new d.term.value d.typ) }
    ensures sound { OnOk result ((at : ℕ) → leaf_faults at (meant (L.vocabulary language.now) (texts_of (binders_of scope.now)) kind text.now) ≡ []) }
{
    let meaning = meaning_of(language, scope, kind, text)?;
    let drafted = draft_meaning(alloc, language, constraints, scope, text, meaning)?;
    Ok(drafted)
}

/// Refuses a type with a fault of names, as if memory were wanted: the fault itself is looked for where a draft fails.
fn check_typ<L: Language>(language: &L, raw: &RawTyp) -> Result<(), AllocError>
    ensures { OnOk result (typ_faults (L.vocabulary language.now) raw.now ≡ []) }
{
    match with_typ(language, raw, None) {
        None => Ok(()),
        Some(_) => Err(AllocError),
    }
}

/// The type of a binder: the one that is written, or an unknown.
fn binder_typ<L: Language>(
    alloc: Global,
    language: &L,
    sorts: &[VariableSort],
    constraints: &mut Constraints,
    annotation: &Option<Box<RawTyp>>,
) -> Result<Typ, AllocError>
    ensures typ { IfOk result (λ t. t ≡ spec.binder_typ (L.vocabulary language.now) (sort_among sorts.now) (seen_annotation annotation.now) constraints.old.next) }
    ensures added { OnOk result (AreAdded [] (spec.behind_binder (seen_annotation annotation.now) constraints.old.next) constraints.old constraints.new) }
    ensures sound { OnOk result (annotation_faults (L.vocabulary language.now) (seen_annotation annotation.now) ≡ []) }
{
    match annotation {
        None => {
            let number = constraints.next;
            let next = further(number, 1)?;
            constraints.next = next;
            Ok(unknown(alloc, number))
        }
        Some(raw) => {
            check_typ(language, raw)?;
            let typ = written_typ(alloc, language, sorts, raw)?;
            Ok(typ)
        }
    }
}

/// Adds a constraint.
fn constrain(constraints: &mut Constraints, at: u32, equation: Equation) -> Result<(), AllocError>
    ensures { OnOk result (AreAdded (record { at = at; left = equation.left; right = equation.right } ∷ []) constraints.old.next constraints.old constraints.new) }
{
    constraints.places.push(at)?;
    constraints.pairs.push(equation)?;
    Ok(())
}

/// The constraint of an application, with its argument at this place; the unknown that is its type.
fn constrain_application(
    alloc: Global,
    constraints: &mut Constraints,
    at: u32,
    fun: Typ,
    arg: Typ,
) -> Result<Typ, AllocError>
    ensures typ { IfOk result (λ t. t ≡ spec.unknown constraints.old.next) }
    ensures added { OnOk result (AreAdded (record { at = at; left = fun; right = tree.arrow arg (spec.unknown constraints.old.next) } ∷ []) (constraints.old.next + 1) constraints.old constraints.new) }
{
    let number = constraints.next;
    let next = further(number, 1)?;
    constrain(constraints, at, Equation::applied(fun, arg, number))?;
    constraints.next = next;
    Ok(unknown(alloc, number))
}

/// An application, with its argument at this place.
fn draft_application(
    alloc: Global,
    constraints: &mut Constraints,
    at: u32,
    fun: Drafted,
    arg: Drafted,
) -> Result<Drafted, AllocError>
    ensures term { IfOk result (λ d. d.term.value ≡ term_tree.App fun.term.value arg.term.value) }
    ensures typ { IfOk result (λ d. d.typ ≡ spec.unknown constraints.old.next) }
    ensures added { OnOk result (AreAdded (record { at = at; left = fun.typ; right = tree.arrow arg.typ (spec.unknown constraints.old.next) } ∷ []) (constraints.old.next + 1) constraints.old constraints.new) }
{
    let typ = constrain_application(alloc, constraints, at, fun.typ, arg.typ)?;
    let term = application(alloc, fun.term, arg.term)?;
    Ok(Drafted { term, typ })
}

/// An abstraction over this type.
fn abstracted(alloc: Global, typ: Typ, body: Drafted) -> Result<Drafted, AllocError>
    ensures term { IfOk result (λ d. d.term.value ≡ term_tree.Abs typ body.term.value) }
    ensures typ { IfOk result (λ d. d.typ ≡ tree.arrow typ body.typ) }
{
    let copy = typ.copy(alloc)?;
    let arrow = Typ::arrow(alloc, copy, body.typ)?;
    let term = abstraction(alloc, typ, body.term)?;
    Ok(Drafted { term, typ: arrow })
}

/// Adds the constraint that what has the first type has the second.
pub(crate) fn constrain_to(
    alloc: Global,
    constraints: &mut Constraints,
    at: u32,
    typ: &Typ,
    wanted: Typ,
) -> Result<(), AllocError>
    ensures { OnOk result (AreAdded (record { at = at; left = typ.now; right = wanted } ∷ []) constraints.old.next constraints.old constraints.new) }
{
    let copy = typ.copy(alloc)?;
    constrain(constraints, at, Equation::same(copy, wanted))?;
    Ok(())
}

/// Adds the constraint that what has this type has the one that is written.
fn constrain_to_written<L: Language>(
    alloc: Global,
    language: &L,
    sorts: &[VariableSort],
    constraints: &mut Constraints,
    typ: &Typ,
    raw: &RawTyp,
) -> Result<(), AllocError>
    ensures added { OnOk result (AreAdded (record { at = spec.raw_typ_place raw.now; left = typ.now; right = written.written_typ (L.vocabulary language.now) (sort_among sorts.now) raw.now } ∷ []) constraints.old.next constraints.old constraints.new) }
    ensures sound { OnOk result (typ_faults (L.vocabulary language.now) raw.now ≡ []) }
{
    check_typ(language, raw)?;
    let written = written_typ(alloc, language, sorts, raw)?;
    constrain_to(alloc, constraints, raw_typ_place(raw), typ, written)?;
    Ok(())
}

/// The draft of a term under binders. Where a name is at fault there is none.
pub(crate) fn draft<L: Language>(
    alloc: Global,
    language: &L,
    sorts: &[VariableSort],
    constraints: &mut Constraints,
    scope: &Scope<'_, '_>,
    raw: &Raw,
) -> Result<Drafted, AllocError>
    ensures draft { IfOk result (λ d. IsDrafted (spec.draft (L.vocabulary language.now) (sort_among sorts.now) (binders_of scope.now) raw.now constraints.old.next) constraints.old constraints.new d.term.value d.typ) }
    ensures sound { OnOk result (term_faults (L.vocabulary language.now) (texts_of (binders_of scope.now)) raw.now ≡ []) }
{
    match &raw.node {
        RawNode::Leaf { kind, text, .. } => {
            let drafted = draft_leaf(alloc, language, constraints, scope, *kind, text.bytes())?;
            Ok(drafted)
        }
        RawNode::Abs { var, typ, body, .. } => {
            let typ = binder_typ(alloc, language, sorts, constraints, typ)?;
            let inner = Scope::Under(var, &typ, &*scope);
            let body = draft(alloc, language, sorts, constraints, &inner, body)?;
            let drafted = abstracted(alloc, typ, body)?;
            Ok(drafted)
        }
        RawNode::App { fun, arg, .. } => {
            let place = raw_place(arg);
            let function = draft(alloc, language, sorts, constraints, scope, fun)?;
            let argument = draft(alloc, language, sorts, constraints, scope, arg)?;
            let drafted = draft_application(alloc, constraints, place, function, argument)?;
            Ok(drafted)
        }
        RawNode::Typed { term, typ, .. } => {
            let drafted = draft(alloc, language, sorts, constraints, scope, term)?;
            constrain_to_written(alloc, language, sorts, constraints, &drafted.typ, typ)?;
            Ok(drafted)
        }
    }
}
