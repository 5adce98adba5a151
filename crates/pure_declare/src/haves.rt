//! Haves, which stand inside lemmas, and the lemma's own end behind them.
ghost use Rattle.std.specs.Prelude.{◌≡◌, ◌<◌, ◌++◌, ◌∷◌, ℕ, List, [], map, length, IfOk, OnOk, Ok};
ghost use Rattle.pure_text.specs.Lists.{Each};
ghost use Rattle.pure_grammar.specs.Theories.TheoryText as tree;
ghost use Rattle.pure_grammar.specs.Theories.Spans.{OfProp, cited_span};
ghost use Rattle.pure_logic.specs.Content.{IsStatement};
ghost use Rattle.pure_lookup.specs.Meaning.{facts, full_text, IsDeclaredIn};
ghost use Rattle.pure_script.specs.Seen.{span, seen_have, seen_steps};
ghost use Rattle.pure_statements.specs.Rows.{have_text};
ghost use Rattle.pure_statements.specs.Statement.{IsStated};
ghost use Rattle.pure_declare.specs.Fixing.{fixed_again};
ghost use Rattle.pure_declare.specs.Commands.{IsOwnText, IsNameOf, IsTaken, vocabulary};
ghost use Rattle.pure_declare.specs.Parts as spec;
ghost use Rattle.pure_declare.specs.Parts.{Within, End, binding, IsNameOfHave, IsHaveDeclaredAs, DeclaresPart};
ghost use Rattle.pure_declare.specs.Fold.{part_label, AreParts};
ghost use Rattle.pure_declare.specs.Changes.{AreHaves, IsBehindHaves};
ghost use Rattle.pure_declare.specs.Premises.{IsNamed, AreHavesNamed, LiesIn, IsGiven};
ghost use Rattle.pure_declare.specs.Seen.{seen_note, seen_notes, seen_outcome};

use crate::lemma::{bound_outcome, forked};
use crate::notes::{Declared, Note, PartOutcome};
use crate::place::Place;
use pure_script::{Have, Step};
use pure_statements::{Failed, Reason, Stated, refused_have};
use pure_theory::Stage;
use pure_typ::Name;
use std::alloc::{AllocError, Global};
use std::sync::Arc;

/// The name of a have with this name, in the lemma of that name.
fn name_of_have(place: &Place<'_>, lemma: Name, name: &[u8]) -> Name
    requires { (base : List ℕ) × IsNameOf place.now base lemma × IsNamed place.now.texts (have_text place.now.theory base name.now) }
    ensures { (base : List ℕ) → IsNameOf place.now base lemma → IsNameOfHave place.now base name.now result }
{
    let Some(text) = place.names().text(lemma) else {
        unreachable!()
    };
    match place.names().find_in(text, name) {
        Some(number) => number,
        None => unreachable!(),
    }
}

/// The row of a have that is refused, in the lemma with this base, and the same stage.
fn have_refused(
    alloc: Global,
    place: &Place<'_>,
    base: &[u8],
    have: &Have,
    reason: Reason,
) -> Result<PartOutcome, AllocError>
    ensures { IfOk result (λ d. seen_outcome d ≡ spec.have_refused place.now base.now (seen_have have.now) reason) }
{
    let row = refused_have(
        alloc,
        place.names(),
        place.source(),
        place.text(),
        base,
        have.name.bytes(),
        reason,
    )?;
    let stage = Arc::try_clone(place.stage())?;
    Ok(PartOutcome {
        stage,
        note: Note::Row { row },
    })
}

/// What comes of a have, in the lemma of this name and with this base.
fn have_declared(
    alloc: Global,
    place: &Place<'_>,
    lemma: Name,
    base: &[u8],
    have: &Have,
) -> Result<PartOutcome, AllocError>
    requires lemma { IsNameOf place.now base.now lemma }
    requires name { IsNamed place.now.texts (have_text place.now.theory base.now have.now.name) }
    requires within { LiesIn place.now.source (span have.now.prop) }
    ensures { IfOk result (λ d. IsHaveDeclaredAs place.now base.now (seen_have have.now) (seen_outcome d)) }
{
    let number = name_of_have(place, lemma, have.name.bytes());
    match bound_outcome(alloc, place, number, lemma, have.prop, &have.script) {
        Ok(outcome) => Ok(outcome),
        Err(Failed::Refused { reason }) => have_refused(alloc, place, base, have, reason),
        Err(Failed::Memory) => Err(AllocError),
    }
}

/// What comes of the have at this place, over the stage that those before it leave.
fn have_part(
    alloc: Global,
    place: &Place<'_>,
    lemma: Name,
    base: &[u8],
    have: &Have,
    stage: &Stage,
    part: u32,
) -> Result<PartOutcome, AllocError>
    requires own { IsOwnText place.now.texts stage.now.value place.now.theory }
    requires given { IsGiven place.now.texts place.now.source stage.now.value (part_label place.now.label part) }
    requires lemma { IsNameOf place.now base.now lemma }
    requires name { IsNamed place.now.texts (have_text place.now.theory base.now have.now.name) }
    requires within { LiesIn place.now.source (span have.now.prop) }
    ensures { IfOk result (λ d. DeclaresPart place.now.texts place.now.source (part_label place.now.label part) stage.now.value (Within base.now (seen_have have.now)) (seen_note d.note) d.stage.value) }
{
    let later = place.later(stage, place.part_label(part));
    let outcome = have_declared(alloc, &later, lemma, base, have)?;
    Ok(outcome)
}

/// Goes on by one have more.
fn have_next(
    alloc: Global,
    place: &Place<'_>,
    lemma: Name,
    base: &[u8],
    have: &Have,
    declared: &mut Declared,
) -> Result<(), AllocError>
    requires own { IsOwnText place.now.texts place.now.content place.now.theory }
    requires first { place.now.label.part ≡ 0 }
    requires lemma { IsNameOf place.now base.now lemma }
    requires name { IsNamed place.now.texts (have_text place.now.theory base.now have.now.name) }
    requires within { LiesIn place.now.source (span have.now.prop) }
    requires few { length declared.old.notes.items < 4294967296 }
    requires so_far { (done : List tree.Have) × AreHaves place.now base.now done (seen_notes declared.old.notes.items) declared.old.stage.value }
    ensures { OnOk result ((done : List tree.Have) → AreHaves place.now base.now done (seen_notes declared.old.notes.items) declared.old.stage.value
        → AreHaves place.now base.now (done ++ seen_have have.now ∷ []) (seen_notes declared.new.notes.items) declared.new.stage.value) }
{
    place.is_given();
    let part = declared.notes.len() as u32;
    let outcome = have_part(alloc, place, lemma, base, have, &declared.stage, part)?;
    declared.put(outcome)
}

/// What comes of the haves of a lemma, each over the stage that those before it leave.
fn haves_declared(
    alloc: Global,
    place: &Place<'_>,
    lemma: Name,
    base: &[u8],
    haves: &[Have],
) -> Result<Declared, AllocError>
    requires own { IsOwnText place.now.texts place.now.content place.now.theory }
    requires first { place.now.label.part ≡ 0 }
    requires lemma { IsNameOf place.now base.now lemma }
    requires names { AreHavesNamed place.now.texts (full_text place.now.theory base.now) (map seen_have haves.now) }
    requires ranges { Each (λ c. LiesIn place.now.source (cited_span c)) (map (λ (h : tree.Have). OfProp h.prop) (map seen_have haves.now)) }
    requires few { length haves.now < 4294967296 }
    ensures { IfOk result (λ d. AreHaves place.now base.now (map seen_have haves.now) (seen_notes d.notes.items) d.stage.value) }
{
    let mut declared = Declared::nothing(alloc, place.stage())?;
    for have in haves {
        have_next(alloc, place, lemma, base, have, &mut declared)?;
    }
    Ok(declared)
}

/// The duty of the lemma of this name, over the stage that its haves leave.
fn own_part(
    alloc: Global,
    place: &Place<'_>,
    lemma: Name,
    stated: Stated,
    script: &[Step],
    stage: &Stage,
    part: u32,
) -> Result<PartOutcome, AllocError>
    requires given { IsGiven place.now.texts place.now.source stage.now.value (part_label place.now.label part) }
    requires new { IsDeclaredIn facts stage.now.value.declarations lemma → ⊥ }
    requires statement { IsStatement stage.now.value stated.prop }
    requires fixed { fixed_again stated.prop ≡ stated.fixed }
    ensures { IfOk result (λ d. seen_outcome d ≡ binding (record { texts = place.now.texts; source = place.now.source; label = part_label place.now.label part; theory = place.now.theory; content = stage.now.value }) lemma lemma (seen_steps script.now) stated) }
{
    let later = place.later(stage, place.part_label(part));
    let outcome = forked(alloc, &later, lemma, lemma, stated, script)?;
    Ok(outcome)
}

/// The lemma's own end, behind what its haves left.
fn own_end(
    alloc: Global,
    place: &Place<'_>,
    lemma: Name,
    stated: Stated,
    script: &[Step],
    haves: Declared,
) -> Result<Declared, AllocError>
    requires own { IsOwnText place.now.texts place.now.content place.now.theory }
    requires first { place.now.label.part ≡ 0 }
    requires new { IsTaken place.now facts lemma → ⊥ }
    requires statement { IsStatement place.now.content stated.prop }
    requires fixed { fixed_again stated.prop ≡ stated.fixed }
    requires few { length haves.notes.items < 4294967296 }
    requires so_far { IsBehindHaves place.now lemma (seen_notes haves.notes.items) haves.stage.value }
    ensures { IfOk result (λ d. (base : List ℕ) (done : List tree.Have) (at : tree.Span) → IsNameOf place.now base lemma → AreHaves place.now base done (seen_notes haves.notes.items) haves.stage.value
        → IsStated (vocabulary place.now) place.now.source at (Ok stated)
        → AreParts place.now.texts place.now.source place.now.label 0 place.now.content (map (Within base) done ++ End base at (seen_steps script.now) ∷ []) (seen_notes d.notes.items) d.stage.value) }
{
    place.is_given();
    let mut declared = haves;
    let count = declared.notes.len() as u32;
    let outcome = own_part(alloc, place, lemma, stated, script, &declared.stage, count)?;
    declared.put(outcome)?;
    Ok(declared)
}

/// What comes of a lemma whose statement stands: of its haves, and then of itself.
pub(crate) fn parts_declared(
    alloc: Global,
    place: &Place<'_>,
    lemma: Name,
    base: &[u8],
    haves: &[Have],
    stated: Stated,
    script: &[Step],
) -> Result<Declared, AllocError>
    requires own { IsOwnText place.now.texts place.now.content place.now.theory }
    requires first { place.now.label.part ≡ 0 }
    requires lemma { IsNameOf place.now base.now lemma }
    requires names { AreHavesNamed place.now.texts (full_text place.now.theory base.now) (map seen_have haves.now) }
    requires ranges { Each (λ c. LiesIn place.now.source (cited_span c)) (map (λ (h : tree.Have). OfProp h.prop) (map seen_have haves.now)) }
    requires few { length haves.now < 4294967296 }
    requires new { IsTaken place.now facts lemma → ⊥ }
    requires statement { IsStatement place.now.content stated.prop }
    requires fixed { fixed_again stated.prop ≡ stated.fixed }
    ensures { IfOk result (λ d. (at : tree.Span) → IsStated (vocabulary place.now) place.now.source at (Ok stated)
        → AreParts place.now.texts place.now.source place.now.label 0 place.now.content (map (Within base.now) (map seen_have haves.now) ++ End base.now at (seen_steps script.now) ∷ []) (seen_notes d.notes.items) d.stage.value) }
{
    let declared = haves_declared(alloc, place, lemma, base, haves)?;
    let declared = own_end(alloc, place, lemma, stated, script, declared)?;
    Ok(declared)
}
