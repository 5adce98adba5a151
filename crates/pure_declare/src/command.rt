//! The call that declares.
ghost use Rattle.std.specs.Prelude.{◌≡◌, ◌<◌, ◌++◌, ℕ, List, map, length, IfOk, IfErr, Ok, Err};
ghost use Rattle.pure_text.specs.Lists.{Each};
ghost use Rattle.pure_grammar.specs.Theories.TheoryText as tree;
ghost use Rattle.pure_grammar.specs.Theories.Spans.{OfProp, cited_span};
ghost use Rattle.pure_lookup.specs.Meaning.{full_text};
ghost use Rattle.pure_script.specs.Seen.{span, seen_have, seen_command, seen_steps};
ghost use Rattle.pure_statements.specs.Chain.{Answers, FailsAs};
ghost use Rattle.pure_declare.specs.Changes.{IsCommandChange, IsNoLemma};
ghost use Rattle.pure_declare.specs.Commands as spec;
ghost use Rattle.pure_declare.specs.Commands.{IsNameOf, IsOwnText, IsSaid, IsOutcome};
ghost use Rattle.pure_declare.specs.First as first;
ghost use Rattle.pure_declare.specs.First.{IsDeclaredAs};
ghost use Rattle.pure_declare.specs.Fold.{Declares};
ghost use Rattle.pure_declare.specs.Premises.{IsNamed, AreHavesNamed, HasFullNames, HasNames, HasRanges, HasPartLabels, LiesIn, IsGiven};
ghost use Rattle.pure_declare.specs.Seen.{seen_notes, seen_outcome};

use crate::arity::arity_change;
use crate::change::Change;
use crate::definition::{Pair, definition_change};
use crate::haves::parts_declared;
use crate::lemma::new_statement;
use crate::notes::{Declared, Note, PartOutcome};
use crate::place::Place;
use crate::simple::{axiom_change, class_change, const_change, typ_change};
use pure_script::{Command, Have, Span, Step};
use pure_statements::{Failed, Reason, declared_row, refused_row};
use pure_text::Text;
use pure_theory::Stage;
use pure_theory_tables::shared;
use pure_typ::{Label, Name, NamesByBase};
use std::alloc::{AllocError, Global};
use std::sync::Arc;

/// The name of what has this base in the theory.
fn name_of(place: &Place<'_>, base: &[u8]) -> Name
    requires { IsNamed place.now.texts (full_text place.now.theory base.now) }
    ensures { IsNameOf place.now base.now result }
{
    match place.names().find_in(place.text(), base) {
        Some(name) => name,
        None => unreachable!(),
    }
}

/// The base of a definition's fact.
#[tactic(auto, unfolding(crate::specs::Commands::definition_end))]
pub(crate) fn fact_base(alloc: Global, base: &[u8]) -> Result<Text, AllocError>
    ensures { IfOk result (λ t. t ≡ spec.fact_base base.now) }
{
    let mut bytes = Vec::from_slice(alloc, base)?;
    bytes.extend_from_slice(b"_def")?;
    Ok(Text::from(bytes))
}

/// The names of a definition.
fn pair_of(alloc: Global, place: &Place<'_>, base: &[u8]) -> Result<Pair, AllocError>
    requires own { IsNamed place.now.texts (full_text place.now.theory base.now) }
    requires fact { IsNamed place.now.texts (full_text place.now.theory (spec.fact_base base.now)) }
    ensures own { IfOk result (λ p. IsNameOf place.now base.now p.constant) }
    ensures fact { IfOk result (λ p. IsNameOf place.now (spec.fact_base base.now) p.fact) }
{
    let constant = name_of(place, base);
    let fact = fact_base(alloc, base)?;
    let fact = name_of(place, fact.bytes());
    Ok(Pair { constant, fact })
}

/// A definition, by its base.
fn based_definition(
    alloc: Global,
    place: &Place<'_>,
    base: &[u8],
    typ: Span,
    text: Span,
) -> Result<Change, Failed>
    requires own { IsNamed place.now.texts (full_text place.now.theory base.now) }
    requires fact { IsNamed place.now.texts (full_text place.now.theory (spec.fact_base base.now)) }
    requires typ { LiesIn place.now.source (span typ) }
    requires text { LiesIn place.now.source (span text) }
    ensures { Answers (λ answer. (n : ℕ) × (f : ℕ) × IsNameOf place.now base.now n × IsNameOf place.now (spec.fact_base base.now) f × spec.IsDefinitionChange place.now base.now n f (span typ) (span text) answer) result }
{
    let names = pair_of(alloc, place, base)?;
    definition_change(alloc, place, base, &names, typ, text)
}

/// What a command that isn't a lemma declares.
fn change_of(alloc: Global, place: &Place<'_>, command: &Command) -> Result<Change, Failed>
    requires kind { IsNoLemma (seen_command command.now) }
    requires names { HasFullNames place.now.texts place.now.theory (seen_command command.now) }
    requires ranges { HasRanges place.now.source (seen_command command.now) }
    ensures { Answers (IsCommandChange place.now (seen_command command.now)) result }
{
    match command {
        Command::Class { name, above } => {
            let number = name_of(place, name.bytes());
            class_change(alloc, place, number, above)
        }
        Command::TypeDecl { name, params } => {
            let number = name_of(place, name.bytes());
            typ_change(alloc, place, number, *params)
        }
        Command::Arity { con, doms, class } => {
            arity_change(alloc, place, con.bytes(), doms, class.bytes())
        }
        Command::Const { name, typ } => {
            let number = name_of(place, name.bytes());
            const_change(alloc, place, number, *typ)
        }
        Command::Axiom { name, prop } => {
            let number = name_of(place, name.bytes());
            axiom_change(alloc, place, number, *prop)
        }
        Command::Definition { name, typ, prop } => {
            based_definition(alloc, place, name.bytes(), *typ, *prop)
        }
        Command::Lemma { .. } => unreachable!(),
    }
}

/// The row of a command that declares so, and the next stage.
fn saying(
    alloc: Global,
    place: &Place<'_>,
    command: &Command,
    change: Change,
) -> Result<PartOutcome, AllocError>
    ensures { IfOk result (λ d. seen_outcome d ≡ spec.saying place.now (seen_command command.now) change) }
{
    let (tail, next) = change.into_parts();
    let stage = shared(alloc, next)?;
    let row = declared_row(alloc, place.text(), command, tail)?;
    Ok(PartOutcome {
        stage,
        note: Note::Row { row },
    })
}

/// What comes of a command that isn't a lemma, where it isn't refused.
fn said(alloc: Global, place: &Place<'_>, command: &Command) -> Result<PartOutcome, Failed>
    requires kind { IsNoLemma (seen_command command.now) }
    requires names { HasFullNames place.now.texts place.now.theory (seen_command command.now) }
    requires ranges { HasRanges place.now.source (seen_command command.now) }
    ensures kind { IsNoLemma (seen_command command.now) }
    ensures ok { IfOk result (λ d. IsSaid place.now (seen_command command.now) (IsCommandChange place.now (seen_command command.now)) (Ok (seen_outcome d))) }
    ensures failed { IfErr result (FailsAs (IsSaid place.now (seen_command command.now) (IsCommandChange place.now (seen_command command.now)))) }
{
    let change = change_of(alloc, place, command)?;
    let declared = saying(alloc, place, command, change)?;
    Ok(declared)
}

/// The same, as what the command does.
fn outcome_of(alloc: Global, place: &Place<'_>, command: &Command) -> Result<PartOutcome, Failed>
    requires kind { IsNoLemma (seen_command command.now) }
    requires names { HasFullNames place.now.texts place.now.theory (seen_command command.now) }
    requires ranges { HasRanges place.now.source (seen_command command.now) }
    ensures ok { IfOk result (λ d. IsOutcome place.now (seen_command command.now) (Ok (seen_outcome d))) }
    ensures failed { IfErr result (FailsAs (IsOutcome place.now (seen_command command.now))) }
{
    said(alloc, place, command)
}

/// The row of a command that is refused, and the same stage.
fn refused(
    alloc: Global,
    place: &Place<'_>,
    command: &Command,
    reason: Reason,
) -> Result<PartOutcome, AllocError>
    ensures { IfOk result (λ d. seen_outcome d ≡ first.outcome_of place.now (seen_command command.now) (Err reason)) }
{
    let row = refused_row(
        alloc,
        place.names(),
        place.source(),
        place.text(),
        command,
        reason,
    )?;
    let stage = Arc::try_clone(place.stage())?;
    Ok(PartOutcome {
        stage,
        note: Note::Row { row },
    })
}

/// What comes of a command that isn't a lemma.
fn whole(alloc: Global, place: &Place<'_>, command: &Command) -> Result<PartOutcome, AllocError>
    requires kind { IsNoLemma (seen_command command.now) }
    requires names { HasFullNames place.now.texts place.now.theory (seen_command command.now) }
    requires ranges { HasRanges place.now.source (seen_command command.now) }
    ensures { IfOk result (λ d. IsDeclaredAs place.now (seen_command command.now) (seen_outcome d)) }
{
    match outcome_of(alloc, place, command) {
        Ok(outcome) => Ok(outcome),
        Err(Failed::Refused { reason }) => refused(alloc, place, command, reason),
        Err(Failed::Memory) => Err(AllocError),
    }
}

/// The same, as a command of one part.
fn whole_declared(
    alloc: Global,
    place: &Place<'_>,
    command: &Command,
) -> Result<Declared, AllocError>
    requires own { IsOwnText place.now.texts place.now.content place.now.theory }
    requires first { place.now.label.part ≡ 0 }
    requires kind { IsNoLemma (seen_command command.now) }
    requires names { HasFullNames place.now.texts place.now.theory (seen_command command.now) }
    requires ranges { HasRanges place.now.source (seen_command command.now) }
    ensures { IfOk result (λ d. Declares place.now.texts place.now.source place.now.label place.now.content (seen_command command.now) (seen_notes d.notes.items) d.stage.value) }
{
    let outcome = whole(alloc, place, command)?;
    let declared = outcome.alone(alloc)?;
    Ok(declared)
}

/// The row of a lemma that is refused, alone.
fn lemma_refused(
    alloc: Global,
    place: &Place<'_>,
    command: &Command,
    reason: Reason,
) -> Result<Declared, AllocError>
    requires own { IsOwnText place.now.texts place.now.content place.now.theory }
    requires first { place.now.label.part ≡ 0 }
    requires lemma { (base : List ℕ) × (at : tree.Span) × (haves : List tree.Have) × (script : List tree.Step) × (seen_command command.now ≡ tree.Lemma base at haves script) }
    requires refused { IsOutcome place.now (seen_command command.now) (Err reason) }
    ensures { IfOk result (λ d. Declares place.now.texts place.now.source place.now.label place.now.content (seen_command command.now) (seen_notes d.notes.items) d.stage.value) }
{
    let outcome = refused(alloc, place, command, reason)?;
    let declared = outcome.alone(alloc)?;
    Ok(declared)
}

/// What comes of a lemma, by its parts. Its own statement is tested first.
fn lemma_declared(
    alloc: Global,
    place: &Place<'_>,
    command: &Command,
    base: &[u8],
    at: Span,
    haves: &[Have],
    script: &[Step],
) -> Result<Declared, AllocError>
    requires own { IsOwnText place.now.texts place.now.content place.now.theory }
    requires first { place.now.label.part ≡ 0 }
    requires lemma { seen_command command.now ≡ tree.Lemma base.now (span at) (map seen_have haves.now) (seen_steps script.now) }
    requires name { IsNamed place.now.texts (full_text place.now.theory base.now) }
    requires within { LiesIn place.now.source (span at) }
    requires names { AreHavesNamed place.now.texts (full_text place.now.theory base.now) (map seen_have haves.now) }
    requires ranges { Each (λ c. LiesIn place.now.source (cited_span c)) (map (λ (h : tree.Have). OfProp h.prop) (map seen_have haves.now)) }
    requires few { length haves.now < 4294967296 }
    ensures { IfOk result (λ d. Declares place.now.texts place.now.source place.now.label place.now.content (seen_command command.now) (seen_notes d.notes.items) d.stage.value) }
{
    let number = name_of(place, base);
    match new_statement(alloc, place, number, at) {
        Ok(stated) => parts_declared(alloc, place, number, base, haves, stated, script),
        Err(Failed::Refused { reason }) => lemma_refused(alloc, place, command, reason),
        Err(Failed::Memory) => Err(AllocError),
    }
}

/// What comes of a command.
fn declared(alloc: Global, place: &Place<'_>, command: &Command) -> Result<Declared, AllocError>
    requires own { IsOwnText place.now.texts place.now.content place.now.theory }
    requires names { HasFullNames place.now.texts place.now.theory (seen_command command.now) }
    requires ranges { HasRanges place.now.source (seen_command command.now) }
    requires labels { HasPartLabels place.now.label (seen_command command.now) }
    ensures { IfOk result (λ d. Declares place.now.texts place.now.source place.now.label place.now.content (seen_command command.now) (seen_notes d.notes.items) d.stage.value) }
{
    match command {
        Command::Lemma {
            name,
            prop,
            haves,
            script,
        } => lemma_declared(alloc, place, command, name.bytes(), *prop, haves, script),
        _ => whole_declared(alloc, place, command),
    }
}

/// The text of the name of the stage's own theory.
fn own_text<'n>(stage: &Stage, names: &'n NamesByBase) -> &'n [u8]
    requires { (theory : List ℕ) × IsOwnText names.now stage.now.value theory }
    ensures { IsOwnText names.now stage.now.value result.now }
{
    let Some(name) = stage.name() else {
        unreachable!()
    };
    let Some(text) = names.names().text(name) else {
        unreachable!()
    };
    text
}

/// What comes of a command over the stage before it, part by part: for each its row, or the duty to prove it, in the order of the rows; and the next stage. A lemma's own statement is tested first, in the stage before it; where that is refused the lemma's row is all, and else its haves come before it, each over the stage that those before it leave. What is refused leaves the stage as it is
/// (Isabelle/Isar Implementation manual, chapter 2; the order of each command's tests is that of its definition). The label is that of the command's part 0.
///
/// # Errors
///
/// Want of memory alone: why something is refused stands in its row.
pub fn declare(
    alloc: Global,
    stage: &Stage,
    names: &NamesByBase,
    source: &[u8],
    command: &Command,
    label: Label,
) -> Result<Declared, AllocError>
    requires names { HasNames names.now stage.now.value (seen_command command.now) }
    requires ranges { HasRanges source.now (seen_command command.now) }
    requires given { IsGiven names.now source.now stage.now.value label }
    requires labels { HasPartLabels label (seen_command command.now) }
    ensures { IfOk result (λ d. Declares names.now source.now label stage.now.value (seen_command command.now) (seen_notes d.notes.items) d.stage.value) }
{
    let text = own_text(stage, names);
    let place = Place::make(stage, names, source, text, label);
    let declared = declared(alloc, &place, command)?;
    Ok(declared)
}
