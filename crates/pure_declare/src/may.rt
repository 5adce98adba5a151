//! Whether a command may be declared: what the call asks of its caller, decided.
ghost use Rattle.std.specs.Prelude.{◌≡◌, ◌↔◌, ◌<◌, ◌+◌, ℕ, List, Some, map, option_map, length, IfOk, IsTrue};
ghost use Rattle.pure_text.specs.Lists.{Each};
ghost use Rattle.pure_grammar.specs.Theories.TheoryText as tree;
ghost use Rattle.pure_grammar.specs.Theories.Spans.{OfProp, cited_span};
ghost use Rattle.pure_typ.specs.NameTexts.{HasText};
ghost use Rattle.pure_logic.specs.Content.{Content};
ghost use Rattle.pure_lookup.specs.Meaning.{full_text};
ghost use Rattle.pure_script.specs.Seen.{span, seen_have, seen_command};
ghost use Rattle.pure_theory.specs.Refusals.{IsBefore, IsLabelAbove};
ghost use Rattle.pure_declare.specs.Commands as commands;
ghost use Rattle.pure_declare.specs.Premises.{IsNamed, AreHavesNamed, HasFullNames, HasNames, LiesIn, HasRanges, haves_of, HasPartLabels, IsGiven, IsPassed, MayDeclare};

use crate::command::fact_base;
use pure_script::{Command, Have, Span};
use pure_theory::{Decl, Stage, Theory};
use pure_typ::{Label, Name, Names, NamesByBase};
use std::alloc::{AllocError, Global};

/// Whether the theory's text, a dot and the base are the text of a name.
fn is_named(names: &Names, theory: &[u8], base: &[u8]) -> bool
    ensures { IsTrue result ↔ IsNamed names.now (full_text theory.now base.now) }
{
    match names.find_in(theory, base) {
        Some(_) => true,
        None => false,
    }
}

/// Whether a definition's constant and its fact have names.
fn is_definition_named(
    alloc: Global,
    names: &Names,
    theory: &[u8],
    base: &[u8],
) -> Result<bool, AllocError>
    ensures { IfOk result (λ named. IsTrue named ↔ (IsNamed names.now (full_text theory.now base.now) × IsNamed names.now (full_text theory.now (commands.fact_base base.now)))) }
{
    if !is_named(names, theory, base) {
        return Ok(false);
    }
    let fact = fact_base(alloc, base)?;
    Ok(is_named(names, theory, fact.bytes()))
}

/// Whether the have has a name in the lemma with this full name.
fn is_have_named(names: &Names, lemma: &[u8], have: &Have) -> bool
    ensures { IsTrue result ↔ IsNamed names.now (full_text lemma.now have.now.name) }
{
    is_named(names, lemma, have.name.bytes())
}

/// Whether each have has a name in the lemma with this full name.
fn are_haves_named(names: &Names, lemma: &[u8], haves: &[Have]) -> bool
    ensures { IsTrue result ↔ AreHavesNamed names.now lemma.now (map seen_have haves.now) }
{
    for have in haves {
        if !is_have_named(names, lemma, have) {
            return false;
        }
    }
    true
}

/// Whether each have has a name in the lemma of this name.
fn are_named_in(names: &Names, lemma: Name, haves: &[Have]) -> bool
    ensures { (text : List ℕ) → HasText names.now lemma text → IsTrue result ↔ AreHavesNamed names.now text (map seen_have haves.now) }
{
    match names.text(lemma) {
        None => false,
        Some(text) => are_haves_named(names, text, haves),
    }
}

/// Whether the lemma with this base, and each of its haves, have names.
fn is_lemma_named(names: &Names, theory: &[u8], base: &[u8], haves: &[Have]) -> bool
    ensures { IsTrue result ↔ (IsNamed names.now (full_text theory.now base.now) × AreHavesNamed names.now (full_text theory.now base.now) (map seen_have haves.now)) }
{
    match names.find_in(theory, base) {
        None => false,
        Some(lemma) => are_named_in(names, lemma, haves),
    }
}

/// Whether what the command declares in the theory with this text has names.
fn has_full_names(
    alloc: Global,
    names: &Names,
    theory: &[u8],
    command: &Command,
) -> Result<bool, AllocError>
    ensures { IfOk result (λ has. IsTrue has ↔ HasFullNames names.now theory.now (seen_command command.now)) }
{
    match command {
        Command::Class { name, .. } => Ok(is_named(names, theory, name.bytes())),
        Command::TypeDecl { name, .. } => Ok(is_named(names, theory, name.bytes())),
        Command::Const { name, .. } => Ok(is_named(names, theory, name.bytes())),
        Command::Axiom { name, .. } => Ok(is_named(names, theory, name.bytes())),
        Command::Arity { .. } => Ok(true),
        Command::Definition { name, .. } => {
            let named = is_definition_named(alloc, names, theory, name.bytes())?;
            Ok(named)
        }
        Command::Lemma { name, haves, .. } => {
            Ok(is_lemma_named(names, theory, name.bytes(), haves.as_slice()))
        }
    }
}

/// Whether the theory of this name has a text, and what the command declares in it has names.
fn is_theory_named(
    alloc: Global,
    names: &Names,
    own: Name,
    command: &Command,
) -> Result<bool, AllocError>
    ensures { IfOk result (λ has. (Q : Content) → Some own ≡ option_map (λ t. t.name) Q.own → IsTrue has ↔ HasNames names.now Q (seen_command command.now)) }
{
    match names.text(own) {
        None => Ok(false),
        Some(theory) => {
            let has = has_full_names(alloc, names, theory, command)?;
            Ok(has)
        }
    }
}

/// Whether the stage's theory has a text, and what the command declares in it has names.
fn has_names(
    alloc: Global,
    stage: &Stage,
    names: &NamesByBase,
    command: &Command,
) -> Result<bool, AllocError>
    ensures { IfOk result (λ has. IsTrue has ↔ HasNames names.now stage.now.value (seen_command command.now)) }
{
    match stage.name() {
        None => Ok(false),
        Some(own) => {
            let has = is_theory_named(alloc, names.names(), own, command)?;
            Ok(has)
        }
    }
}

/// Whether the range lies in the source.
fn lies_in(source: &[u8], at: Span) -> bool
    ensures { IsTrue result ↔ LiesIn source.now (span at) }
{
    at.from <= at.to && at.to as usize <= source.len()
}

/// Whether the statements of the haves lie in the source.
fn do_haves_lie_in(source: &[u8], haves: &[Have]) -> bool
    ensures { IsTrue result ↔ Each (λ c. LiesIn source.now (cited_span c)) (map (λ (h : tree.Have). OfProp h.prop) (map seen_have haves.now)) }
{
    for have in haves {
        if !lies_in(source, have.prop) {
            return false;
        }
    }
    true
}

/// Whether the ranges of the command lie in the source.
fn has_ranges(source: &[u8], command: &Command) -> bool
    ensures { IsTrue result ↔ HasRanges source.now (seen_command command.now) }
{
    match command {
        Command::Class { .. } | Command::TypeDecl { .. } | Command::Arity { .. } => true,
        Command::Const { typ, .. } => lies_in(source, *typ),
        Command::Axiom { prop, .. } => lies_in(source, *prop),
        Command::Definition { typ, prop, .. } => lies_in(source, *typ) && lies_in(source, *prop),
        Command::Lemma { prop, haves, .. } => {
            lies_in(source, *prop) && do_haves_lie_in(source, haves.as_slice())
        }
    }
}

/// How many haves the command has.
fn have_count(command: &Command) -> usize
    ensures { result ≡ length (haves_of (seen_command command.now)) }
{
    match command {
        Command::Lemma { haves, .. } => haves.len(),
        _ => 0,
    }
}

/// Whether the label is that of part 0, and the command's parts have numbers below 2^32.
fn has_part_labels(label: Label, command: &Command) -> bool
    ensures { IsTrue result ↔ HasPartLabels label (seen_command command.now) }
{
    label.part == 0 && have_count(command) < 4_294_967_296
}

/// Whether the first label comes before the second.
fn is_before(first: Label, second: Label) -> bool
    ensures { IsTrue result ↔ IsBefore first second }
{
    if first.theory != second.theory {
        return first.theory < second.theory;
    }
    if first.command != second.command {
        return first.command < second.command;
    }
    first.part < second.part
}

/// Whether the label comes after that of the declaration, if this is a promise.
fn is_passed(decl: Decl, label: Label) -> bool
    ensures { IsTrue result ↔ IsPassed label decl }
{
    match decl {
        Decl::Promise { label: earlier, .. } => is_before(earlier, label),
        _ => true,
    }
}

/// The next place.
fn next_place(place: u32) -> Result<u32, AllocError>
    ensures { IfOk result (λ next. next ≡ place + 1) }
{
    place.checked_add(1).ok_or(AllocError)
}

/// Whether the label comes after that of each promise of the theory.
fn is_label_above(theory: &Theory, label: Label) -> Result<bool, AllocError>
    ensures { IfOk result (λ above. IsTrue above ↔ IsLabelAbove theory.now.declarations label) }
{
    let mut place: u32 = 0;
    'decls: loop {
        match theory.decl_at(place) {
            None => return Ok(true),
            Some(decl) => {
                if !is_passed(decl, label) {
                    return Ok(false);
                }
                place = next_place(place)?;
            }
        }
    }
}

/// Whether the source isn't too long.
fn is_small(source: &[u8]) -> bool
    ensures { IsTrue result ↔ (length source.now < 4294967295) }
{
    source.len() < 4_294_967_295
}

/// Whether names, source and label may be given to a call over the stage.
fn may_be_given(
    stage: &Stage,
    names: &NamesByBase,
    source: &[u8],
    label: Label,
) -> Result<bool, AllocError>
    ensures { IfOk result (λ given. IsTrue given ↔ IsGiven names.now source.now stage.now.value label) }
{
    names.are_session_texts();
    if !stage.may_look_up(names) {
        return Ok(false);
    }
    if !is_small(source) {
        return Ok(false);
    }
    let above = is_label_above(&**stage, label)?;
    Ok(above)
}

/// Whether the command may be declared over the stage, with these names, this source and this label: the names are a session's, and among them are the full names of what the command declares; its ranges lie in the source, which isn't too long; and the label is that of part 0, and comes after those of all promises.
///
/// # Errors
///
/// Want of memory alone.
pub fn may_declare(
    alloc: Global,
    stage: &Stage,
    names: &NamesByBase,
    source: &[u8],
    command: &Command,
    label: Label,
) -> Result<bool, AllocError>
    ensures { IfOk result (λ may. IsTrue may ↔ MayDeclare names.now source.now stage.now.value (seen_command command.now) label) }
{
    if !has_ranges(source, command) {
        return Ok(false);
    }
    if !has_part_labels(label, command) {
        return Ok(false);
    }
    let given = may_be_given(stage, names, source, label)?;
    if !given {
        return Ok(false);
    }
    let has = has_names(alloc, stage, names, command)?;
    Ok(has)
}
