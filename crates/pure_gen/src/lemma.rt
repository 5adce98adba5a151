//! The lines of generated lemmas.
ghost use Rattle.std.specs.Prelude.{◌≡◌, ◌<◌, ◌≤◌, ◌%◌, ◌*◌, ◌++◌, OnOk};
ghost use Rattle.std.specs.Fmt.{decimal};
ghost use Rattle.pure_gen.specs.Generated as spec;

use std::alloc::{AllocError, Global};

/// The number behind `x` in the sequence from which kinds are drawn.
pub fn next_number(x: u32) -> u32
    requires { x < 65537 }
    ensures is { result ≡ spec.next_number x }
    ensures low { result < 65537 }
{
    (75 * x + 74) % 65537
}

/// Adds a number in decimal.
fn push_number(alloc: Global, text: &mut Vec<u8>, number: u32) -> Result<(), AllocError>
    ensures { OnOk result (text.new.items ≡ text.old.items ++ decimal number) }
{
    let digits = number.to_string(alloc)?;
    text.extend_from_slice(digits.as_bytes())
}

/// Adds the name of a theory.
pub fn push_theory(text: &mut Vec<u8>, theory: u32) -> Result<(), AllocError>
    requires { theory < 64 }
    ensures { OnOk result (text.new.items ≡ text.old.items ++ spec.theory_name theory) }
{
    let name = [b'G', b'0' + (theory / 10) as u8, b'0' + (theory % 10) as u8];
    text.extend_from_slice(&name)
}

/// Adds the name of a lemma in its theory.
fn push_name(alloc: Global, text: &mut Vec<u8>, number: u32) -> Result<(), AllocError>
    ensures { OnOk result (text.new.items ≡ text.old.items ++ spec.lemma_name number) }
{
    text.extend_from_slice(b"l")?;
    push_number(alloc, text, number)?;
    Ok(())
}

/// Adds the full name of a lemma.
fn push_full_name(
    alloc: Global,
    text: &mut Vec<u8>,
    lemmas: u32,
    lemma: u32,
) -> Result<(), AllocError>
    requires some { 1 ≤ lemmas }
    requires low { lemma < 64 * lemmas }
    ensures { OnOk result (text.new.items ≡ text.old.items ++ spec.full_name lemmas lemma) }
{
    push_theory(text, lemma / lemmas)?;
    text.extend_from_slice(b".")?;
    push_name(alloc, text, lemma % lemmas)?;
    Ok(())
}

/// Adds the statement and the proof that cite the lemma made before.
#[tactic(auto, unfolding(crate::specs::Generated::by_itself, crate::specs::Generated::by_rule, crate::specs::Generated::rule_end))]
fn push_citing(alloc: Global, text: &mut Vec<u8>, lemmas: u32, lemma: u32) -> Result<(), AllocError>
    requires some { 1 ≤ lemmas }
    requires low { lemma < 64 * lemmas }
    ensures { OnOk result (text.new.items ≡ text.old.items ++ spec.citing_text lemmas lemma) }
{
    if lemma == 0 {
        text.extend_from_slice(b"\"A ==> A\" by assumption\n")?;
        return Ok(());
    }
    text.extend_from_slice(b"\"A ==> A\" by (rule ")?;
    push_full_name(alloc, text, lemmas, lemma - 1)?;
    text.extend_from_slice(b")\n")?;
    Ok(())
}

/// Adds a lemma's statement and proof, by its kind.
#[tactic(auto, unfolding(crate::specs::Generated::by_itself, crate::specs::Generated::by_another, crate::specs::Generated::by_reflexivity))]
fn push_statement(
    alloc: Global,
    text: &mut Vec<u8>,
    kind: u32,
    lemmas: u32,
    lemma: u32,
) -> Result<(), AllocError>
    requires kind { kind < 4 }
    requires some { 1 ≤ lemmas }
    requires low { lemma < 64 * lemmas }
    ensures { OnOk result (text.new.items ≡ text.old.items ++ spec.statement_text kind lemmas lemma) }
{
    match kind {
        0 => text.extend_from_slice(b"\"A ==> A\" by assumption\n"),
        1 => text.extend_from_slice(b"\"A ==> B\" by assumption\n"),
        2 => push_citing(alloc, text, lemmas, lemma),
        _ => text.extend_from_slice(b"\"x == x\" by (rule Pure.refl)\n"),
    }
}

/// Adds the line of a lemma whose number drawn is `x`.
#[tactic(auto, unfolding(crate::specs::Generated::lemma_text, crate::specs::Generated::colon_text))]
pub fn push_line(
    alloc: Global,
    text: &mut Vec<u8>,
    x: u32,
    lemmas: u32,
    lemma: u32,
) -> Result<(), AllocError>
    requires some { 1 ≤ lemmas }
    requires low { lemma < 64 * lemmas }
    ensures { OnOk result (text.new.items ≡ text.old.items ++ spec.drawn_line (x % 4) lemmas lemma) }
{
    text.extend_from_slice(b"lemma ")?;
    push_name(alloc, text, lemma % lemmas)?;
    text.extend_from_slice(b": ")?;
    push_statement(alloc, text, x % 4, lemmas, lemma)?;
    Ok(())
}
