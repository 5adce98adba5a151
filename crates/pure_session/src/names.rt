//! The names of a session.
ghost use Rattle.std.specs.Prelude.{◌≡◌, ◌≢◌, ◌↔◌, ◌≤◌, ◌∷◌, ◌++◌, ℕ, List, [], map, codes, slice_get, IfOk, OnOk, Some};
ghost use Rattle.std.specs.Thread.{IsSync};
ghost use Rattle.std.specs.List.Sorted.{IsStrictlySortedBy};
ghost use Rattle.std.specs.Ordering.{nat_cmp};
ghost use Rattle.std.specs.Cmp.Lexicographic.{slice_cmp};
ghost use Rattle.pure_text.specs.Lists.{IsIn, AnyOf};
ghost use Rattle.pure_script.specs.Seen.{seen_have, seen_command, seen_commands};
ghost use Rattle.pure_typ.specs.NameTexts.{builtin_texts};
ghost use Rattle.pure_graph.specs.Order as graph;
ghost use Rattle.pure_graph.specs.SessionNames.{full_name, have_names, full_names, IsGiven, AreNames};
ghost use Rattle.pure_session.specs.NameSets.{Gains};
ghost use Rattle.pure_session.specs.Plain.{ArePlain};
ghost use Rattle.pure_session.specs.Waiting.{seen_loaded, all_loaded};

use crate::near::Texts;
use crate::order::Loaded;
use crate::ordered::in_order;
use crate::reason::joined;
use crate::texts::put_source;
use pure_script::{Command, Have};
use pure_text::{Text, TextList};
use pure_typ::Names;
use std::alloc::{AllocError, Global};
use std::thread::{Threads, join};

/// Names are fewer than these.
const MOST_TEXTS: usize = 2_147_483_648;

/// The texts of theories whose sources have no more bytes than this together are put in order together.
const FEW_BYTES: usize = 262_144;

/// The full name of what a theory declares, or of what a lemma with a full name states inside.
fn full(alloc: Global, outer: &[u8], name: &[u8]) -> Result<Vec<u8>, AllocError>
    ensures { IfOk result (λ t. t.items ≡ full_name outer.now name.now) }
{
    let size = outer.len().saturating_add(name.len()).saturating_add(1);
    let mut text = Vec::with_capacity(alloc, size)?;
    text.extend_from_slice(outer)?;
    text.push(b'.')?;
    text.extend_from_slice(name)?;
    Ok(text)
}

/// Puts the full name of what a theory declares behind the others.
fn put_full(alloc: Global, texts: &mut Texts, theory: &Text, name: &[u8]) -> Result<(), AllocError>
    ensures { OnOk result (Gains texts.old texts.new (λ t. IsIn t (full_name theory.now name.now ∷ []))) }
{
    let text = full(alloc, theory.bytes(), name)?;
    texts.append(text.as_slice())?;
    Ok(())
}

/// Puts the full name of a definition and that of its fact behind the others.
fn put_definition(
    alloc: Global,
    texts: &mut Texts,
    theory: &Text,
    name: &Text,
) -> Result<(), AllocError>
    ensures { OnOk result (Gains texts.old texts.new (λ t. IsIn t (full_name theory.now name.now ∷ full_name theory.now (name.now ++ codes "_def") ∷ []))) }
{
    let fact = joined(alloc, name.bytes(), b"_def")?;
    put_full(alloc, texts, theory, name.bytes())?;
    put_full(alloc, texts, theory, fact.bytes())?;
    Ok(())
}

/// Puts the full names of a lemma's haves behind the lemma's own.
fn put_haves(
    alloc: Global,
    texts: &mut Texts,
    lemma: &Text,
    haves: &[Have],
) -> Result<(), AllocError>
    ensures { OnOk result (Gains texts.old texts.new (λ t. IsIn t (have_names lemma.now (map seen_have haves.now)))) }
{
    for inner in haves {
        put_full(alloc, texts, lemma, inner.name.bytes())?;
    }
    Ok(())
}

/// Puts the full names of a lemma and of its haves behind the others.
fn put_lemma(
    alloc: Global,
    texts: &mut Texts,
    theory: &Text,
    name: &Text,
    haves: &[Have],
) -> Result<(), AllocError>
    ensures { OnOk result (Gains texts.old texts.new (λ t. IsIn t (full_name theory.now name.now ∷ have_names (full_name theory.now name.now) (map seen_have haves.now)))) }
{
    let lemma = Text::from(full(alloc, theory.bytes(), name.bytes())?);
    texts.append(lemma.bytes())?;
    put_haves(alloc, texts, &lemma, haves)?;
    Ok(())
}

/// Puts the full names that a command declares behind the others.
fn put_command(
    alloc: Global,
    texts: &mut Texts,
    theory: &Text,
    command: &Command,
) -> Result<(), AllocError>
    ensures { OnOk result (Gains texts.old texts.new (λ t. IsIn t (full_names theory.now (seen_command command.now)))) }
{
    match command {
        Command::Class { name, .. } => put_full(alloc, texts, theory, name.bytes()),
        Command::TypeDecl { name, .. } => put_full(alloc, texts, theory, name.bytes()),
        Command::Arity { .. } => Ok(()),
        Command::Const { name, .. } => put_full(alloc, texts, theory, name.bytes()),
        Command::Axiom { name, .. } => put_full(alloc, texts, theory, name.bytes()),
        Command::Definition { name, .. } => put_definition(alloc, texts, theory, name),
        Command::Lemma { name, haves, .. } => {
            put_lemma(alloc, texts, theory, name, haves.as_slice())
        }
    }
}

/// Puts the full names that some commands declare behind the others.
fn put_commands(
    alloc: Global,
    texts: &mut Texts,
    theory: &Text,
    commands: &[Command],
) -> Result<(), AllocError>
    ensures { OnOk result (Gains texts.old texts.new (λ t. AnyOf (λ command. IsIn t (full_names theory.now command)) (seen_commands commands.now))) }
{
    for command in commands {
        put_command(alloc, texts, theory, command)?;
    }
    Ok(())
}

/// Puts the texts that a theory gives behind the others.
fn put_theory(alloc: Global, texts: &mut Texts, loaded: &Loaded) -> Result<(), AllocError>
    ensures { OnOk result (Gains texts.old texts.new (IsGiven (seen_loaded loaded.now))) }
{
    put_source(alloc, texts, loaded.source.bytes())?;
    put_commands(alloc, texts, &loaded.name, loaded.text.commands.as_slice())?;
    Ok(())
}

/// Puts the texts that theories give behind the others.
fn put_theories(alloc: Global, texts: &mut Texts, theories: &[Loaded]) -> Result<(), AllocError>
    ensures { OnOk result (Gains texts.old texts.new (λ t. AnyOf (λ loaded. IsGiven loaded t) (all_loaded theories.now))) }
{
    for loaded in theories {
        put_theory(alloc, texts, loaded)?;
    }
    Ok(())
}

/// The texts that theories give, in byte order.
fn given(alloc: Global, theories: &[Loaded]) -> Result<TextList, AllocError>
    ensures { IfOk result (λ texts. AreNames (all_loaded theories.now) texts) }
{
    let mut texts = Texts::empty(alloc)?;
    put_theories(alloc, &mut texts, theories)?;
    let list = in_order(alloc, texts.list())?;
    Ok(list)
}

/// Whether the sources of the theories have few bytes together.
fn are_short(theories: &[Loaded]) -> bool {
    let mut size: usize = 0;
    for loaded in theories {
        size = size.saturating_add(loaded.source.bytes().len());
    }
    size <= FEW_BYTES
}

/// The texts that the theories give, in byte order. Lists are united by halves, since one list of all texts, with those that come again, takes more memory.
fn texts_of(alloc: Global, theories: &[Loaded]) -> Result<TextList, AllocError>
    ensures { IfOk result (λ texts. AreNames (all_loaded theories.now) texts) }
{
    let count = theories.len();
    if count < 2 {
        return given(alloc, theories);
    }
    if are_short(theories) {
        return given(alloc, theories);
    }
    let (left, right) = theories.split_at(count / 2);
    let left = texts_of(alloc, left)?;
    let right = texts_of(alloc, right)?;
    let all = left.union(alloc, &right)?;
    Ok(all)
}

/// Lets go of what the other thread found where memory failed.
fn lost(_other: Result<TextList, AllocError>, error: AllocError) -> Result<TextList, AllocError>
    ensures { OnOk result ⊥ }
{
    Err(error)
}

/// The texts of both lists, in byte order.
fn both(alloc: Global, left: TextList, right: TextList) -> Result<TextList, AllocError>
    requires left { IsStrictlySortedBy (slice_cmp nat_cmp) left }
    requires right { IsStrictlySortedBy (slice_cmp nat_cmp) right }
    ensures { (first second : List graph.Loaded) → AreNames first left → AreNames second right → IfOk result (AreNames (first ++ second)) }
{
    let all = left.union(alloc, &right)?;
    Ok(all)
}

/// The texts of both, in byte order, if the other thread found some.
fn united(
    alloc: Global,
    left: TextList,
    right: Result<TextList, AllocError>,
) -> Result<TextList, AllocError>
    requires left { IsStrictlySortedBy (slice_cmp nat_cmp) left }
    requires right { IfOk right (IsStrictlySortedBy (slice_cmp nat_cmp)) }
    ensures { (first second : List graph.Loaded) → AreNames first left → IfOk right (AreNames second) → IfOk result (AreNames (first ++ second)) }
{
    match right {
        Err(error) => Err(error),
        Ok(right) => both(alloc, left, right),
    }
}

/// The texts that the theories give, in byte order, found in so many threads at most.
#[cycle(halves)]
fn texts_beside<T: Threads + Sync>(
    threads: &T,
    alloc: Global,
    number: usize,
    theories: &[Loaded],
) -> Result<TextList, AllocError>
    ensures { IfOk result (λ texts. AreNames (all_loaded theories.now) texts) }
{
    let count = theories.len();
    if number < 2 || count < 2 {
        return texts_of(alloc, theories);
    }
    let (left, right) = theories.split_at(count / 2);
    let half = number / 2;
    let first = move || -> Result<TextList, AllocError>
        requires { IsSync T.row }
        ensures { IfOk result (AreNames (all_loaded left.entry.now)) }
    { texts_beside(threads, alloc, half, left) };
    let second = move || -> Result<TextList, AllocError>
        requires { (half ≤ number) × IsSync T.row }
        ensures { IfOk result (AreNames (all_loaded right.entry.now)) }
    { texts_beside(threads, alloc, number - half, right) };
    let (left, right) = join(threads, first, second);
    match left {
        Err(error) => lost(right, error),
        Ok(left) => united(alloc, left, right),
    }
}

/// The same; where memory runs out beside others, it is asked for once more by one thread alone.
fn all_texts<T: Threads + Sync>(
    threads: &T,
    alloc: Global,
    number: usize,
    theories: &[Loaded],
) -> Result<TextList, AllocError>
    ensures { IfOk result (λ texts. AreNames (all_loaded theories.now) texts) }
{
    match texts_beside(threads, alloc, number, theories) {
        Ok(texts) => Ok(texts),
        Err(_) => texts_of(alloc, theories),
    }
}

/// The names with these texts, if they aren't too many; else memory fails.
fn named(texts: TextList) -> Result<Names, AllocError>
    requires ascend { IsStrictlySortedBy (slice_cmp nat_cmp) texts }
    requires others { (m n : ℕ) (text : List ℕ) → slice_get builtin_texts m ≡ Some text → slice_get texts n ≢ Some text }
    ensures { IfOk result (λ names. names ≡ texts) }
{
    if texts.len() >= MOST_TEXTS {
        return Err(AllocError);
    }
    Ok(Names::of_list(texts))
}

/// The names of the session of these theories, found in so many threads at most.
pub(crate) fn names_of<T: Threads + Sync>(
    threads: &T,
    alloc: Global,
    number: usize,
    theories: &[Loaded],
) -> Result<Names, AllocError>
    requires { ArePlain (all_loaded theories.now) }
    ensures { IfOk result (λ names. AreNames (all_loaded theories.now) names) }
{
    let texts = all_texts(threads, alloc, number, theories)?;
    let names = named(texts)?;
    Ok(names)
}
