//! The files of a generated library.
ghost use Rattle.std.specs.Prelude.{◌≡◌, ◌*◌, ◌<◌, ◌≤◌, ◌++◌, IfOk, OnOk};
ghost use Rattle.pure_gen.specs.Generated as spec;

use crate::lemma::{next_number, push_line, push_theory};
use pure_io::File;
use pure_text::Text;
use std::alloc::{AllocError, Global};

/// Adds the name of a theory's parent.
#[tactic(auto, unfolding(crate::specs::Generated::pure_text))]
fn push_parent(text: &mut Vec<u8>, theory: u32) -> Result<(), AllocError>
    requires { theory < 64 }
    ensures { OnOk result (text.new.items ≡ text.old.items ++ spec.parent_name theory) }
{
    if theory == 0 {
        text.extend_from_slice(b"Pure")
    } else {
        push_theory(text, theory - 1)
    }
}

/// Adds a theory's header.
#[tactic(auto, unfolding(crate::specs::Generated::theory_text, crate::specs::Generated::imports_text, crate::specs::Generated::begin_text))]
fn push_header(text: &mut Vec<u8>, theory: u32) -> Result<(), AllocError>
    requires { theory < 64 }
    ensures { OnOk result (text.new.items ≡ text.old.items ++ spec.header theory) }
{
    text.extend_from_slice(b"theory ")?;
    push_theory(text, theory)?;
    text.extend_from_slice(b" imports ")?;
    push_parent(text, theory)?;
    text.extend_from_slice(b" begin\n")?;
    Ok(())
}

/// Adds the lines of a theory's lemmas, before the first of which `x` was drawn, and gives the number drawn last.
fn push_lines(
    alloc: Global,
    text: &mut Vec<u8>,
    x: u32,
    lemmas: u32,
    theory: u32,
) -> Result<u32, AllocError>
    requires drawn { x < 65537 }
    requires theory { theory < 64 }
    requires lemmas { lemmas ≤ 512 }
    ensures low { IfOk result (λ last. last < 65537) }
    ensures lines { IfOk result (spec.AddsLines text.old.items text.new.items x lemmas theory) }
{
    let mut last = x;
    for i in 0..lemmas {
        last = next_number(last);
        push_line(alloc, text, last, lemmas, theory * lemmas + i)?;
    }
    Ok(last)
}

/// The name of a theory's file.
#[tactic(auto, unfolding(crate::specs::Generated::ending))]
fn file_name(alloc: Global, theory: u32) -> Result<Text, AllocError>
    requires { theory < 64 }
    ensures { IfOk result (λ name. name ≡ spec.theory_name theory ++ spec.ending) }
{
    let mut name = Vec::new(alloc);
    push_theory(&mut name, theory)?;
    name.extend_from_slice(b".thy")?;
    Ok(Text::from(name))
}

/// The files of theories in a row, each with so many lemmas, whose kinds are drawn from the sequence that begins with `start`.
pub fn generate(
    alloc: Global,
    start: u32,
    theories: u32,
    lemmas: u32,
) -> Result<Vec<File>, AllocError>
    requires start { start ≤ 65536 }
    requires theories { theories ≤ 64 }
    requires lemmas { lemmas ≤ 512 }
    ensures { IfOk result (λ files. files.items ≡ spec.files_of start theories lemmas) }
{
    let mut files = Vec::with_capacity(alloc, theories as usize)?;
    let mut drawn = start;
    for theory in 0..theories {
        let mut text = Vec::new(alloc);
        push_header(&mut text, theory)?;
        drawn = push_lines(alloc, &mut text, drawn, lemmas, theory)?;
        text.extend_from_slice(b"end\n")?;
        let name = file_name(alloc, theory)?;
        let text = Text::from(text);
        files.push(File { name, text })?;
    }
    Ok(files)
}
