//! Classes, type constructors, constants and axioms.
ghost use Rattle.std.specs.Prelude.{◌≡◌, [], IfOk};
ghost use Rattle.pure_text.specs.Lists.{Each};
ghost use Rattle.pure_definitions.specs.Declarations.Decl.{ClassDecl, ConDecl, IsDeclaredClass};
ghost use Rattle.pure_definitions.specs.Declarations.Certified.{IsCertifiedTyp};
ghost use Rattle.pure_logic.specs.Content.{IsStatement};
ghost use Rattle.pure_lookup.specs.Meaning.{classes, constructors, constants, facts};
ghost use Rattle.pure_script.specs.Seen.{span};
ghost use Rattle.pure_statements.specs.Chain.{Answers, Then, Gives};
ghost use Rattle.pure_statements.specs.Statement.{IsStated};
ghost use Rattle.pure_declare.specs.Commands.{vocabulary, IsTaken, declaring, declaring_const, declaring_axiom, IsNewClassChange, IsClassChange, IsTypeChange, IsNewConstChange, IsConstChange, IsAxiomChange};
ghost use Rattle.pure_declare.specs.Premises.{LiesIn};

use crate::change::Change;
use crate::grown::{with_axiom, with_class, with_const, with_typ};
use crate::lookups::found_classes;
use crate::place::Place;
use crate::quoted::{statement_of, written_typ};
use crate::tails::{prop_tail, typ_tail};
use crate::taken::{is_class_taken, is_const_taken, is_fact_taken, is_typ_taken};
use pure_script::Span;
use pure_statements::{Failed, Reason, Stated, schematic_typ};
use pure_term::Term;
use pure_text::Text;
use pure_typ::{Name, Typ};
use std::alloc::{AllocError, Global};
use std::sync::Arc;

/// A class below those that are found.
fn class_made(
    alloc: Global,
    place: &Place<'_>,
    name: Name,
    above: &[Name],
) -> Result<Change, AllocError>
    requires new { IsTaken place.now classes name → ⊥ }
    requires known { Each (IsDeclaredClass place.now.content.declarations) above.now }
    ensures { IfOk result (λ c. c ≡ declaring place.now [] (ClassDecl (record { name = name; above = above.now }))) }
{
    let next = with_class(place, name, above)?;
    Ok(Change::quiet(alloc, next))
}

/// A class of a new name.
fn new_class(alloc: Global, place: &Place<'_>, name: Name, above: &[Text]) -> Result<Change, Failed>
    requires { IsTaken place.now classes name → ⊥ }
    ensures { Answers (IsNewClassChange place.now name above.now) result }
{
    place.is_in_session();
    let _ = place.theory();
    let found = found_classes(alloc, place, above)?;
    let change = class_made(alloc, place, name, found.as_slice())?;
    Ok(change)
}

/// A class.
pub(crate) fn class_change(
    alloc: Global,
    place: &Place<'_>,
    name: Name,
    above: &[Text],
) -> Result<Change, Failed>
    ensures { Answers (IsClassChange place.now name above.now) result }
{
    if is_class_taken(place, name) {
        return Err(Failed::Refused {
            reason: Reason::Duplicate,
        });
    }
    new_class(alloc, place, name, above)
}

/// A type constructor of a new name.
fn typ_made(alloc: Global, place: &Place<'_>, name: Name, params: u32) -> Result<Change, AllocError>
    requires { IsTaken place.now constructors name → ⊥ }
    ensures { IfOk result (λ c. c ≡ declaring place.now [] (ConDecl name params)) }
{
    let next = with_typ(place, name, params)?;
    Ok(Change::quiet(alloc, next))
}

/// A type constructor.
pub(crate) fn typ_change(
    alloc: Global,
    place: &Place<'_>,
    name: Name,
    params: u32,
) -> Result<Change, Failed>
    ensures { Answers (IsTypeChange place.now name params) result }
{
    if is_typ_taken(place, name) {
        return Err(Failed::Refused {
            reason: Reason::Duplicate,
        });
    }
    let change = typ_made(alloc, place, name, params)?;
    Ok(change)
}

/// A constant of a new name and of this type.
fn const_made(alloc: Global, place: &Place<'_>, name: Name, typ: &Typ) -> Result<Change, AllocError>
    requires new { IsTaken place.now constants name → ⊥ }
    requires certified { IsCertifiedTyp place.now.content.declarations typ.now }
    ensures { IfOk result (λ c. c ≡ declaring_const place.now name typ.now) }
{
    let schematic = schematic_typ(alloc, typ)?;
    let tail = typ_tail(alloc, place, &schematic)?;
    let next = with_const(place, name, &schematic)?;
    Ok(Change::saying(tail, next))
}

/// A constant of a new name.
fn new_const(alloc: Global, place: &Place<'_>, name: Name, at: Span) -> Result<Change, Failed>
    requires new { IsTaken place.now constants name → ⊥ }
    requires within { LiesIn place.now.source (span at) }
    ensures { Answers (IsNewConstChange place.now name (span at)) result }
{
    let typ = written_typ(alloc, place, at)?;
    let change = const_made(alloc, place, name, &typ)?;
    Ok(change)
}

/// A constant.
pub(crate) fn const_change(
    alloc: Global,
    place: &Place<'_>,
    name: Name,
    at: Span,
) -> Result<Change, Failed>
    requires { LiesIn place.now.source (span at) }
    ensures { Answers (IsConstChange place.now name (span at)) result }
{
    if is_const_taken(place, name) {
        return Err(Failed::Refused {
            reason: Reason::Duplicate,
        });
    }
    new_const(alloc, place, name, at)
}

/// The statement, generalised, to be shared. Apart, since what is left of the answer would be let go of at each `?` behind it.
pub(crate) fn shared_prop(place: &Place<'_>, stated: Stated) -> Result<Arc<Term>, AllocError>
    ensures { IfOk result (λ prop. prop.value ≡ stated.prop) }
{
    let Stated { prop, .. } = stated;
    place.theory().shared_prop(prop)
}

/// An axiom of a new name that states this.
fn axiom_made(
    alloc: Global,
    place: &Place<'_>,
    name: Name,
    stated: Stated,
) -> Result<Change, AllocError>
    requires new { IsTaken place.now facts name → ⊥ }
    requires statement { IsStatement place.now.content stated.prop }
    ensures { IfOk result (λ c. c ≡ declaring_axiom place.now name stated.prop) }
{
    let prop = shared_prop(place, stated)?;
    let tail = prop_tail(alloc, place, &prop)?;
    let next = with_axiom(place, name, prop)?;
    Ok(Change::saying(tail, next))
}

/// An axiom of a new name.
fn new_axiom(alloc: Global, place: &Place<'_>, name: Name, at: Span) -> Result<Change, Failed>
    requires new { IsTaken place.now facts name → ⊥ }
    requires within { LiesIn place.now.source (span at) }
    ensures { Answers (Then (IsStated (vocabulary place.now) place.now.source (span at)) (λ s. Gives (declaring_axiom place.now name s.prop))) result }
{
    let stated = statement_of(alloc, place, at)?;
    let change = axiom_made(alloc, place, name, stated)?;
    Ok(change)
}

/// An axiom.
pub(crate) fn axiom_change(
    alloc: Global,
    place: &Place<'_>,
    name: Name,
    at: Span,
) -> Result<Change, Failed>
    requires { LiesIn place.now.source (span at) }
    ensures { Answers (IsAxiomChange place.now name (span at)) result }
{
    if is_fact_taken(place, name) {
        return Err(Failed::Refused {
            reason: Reason::Duplicate,
        });
    }
    new_axiom(alloc, place, name, at)
}
