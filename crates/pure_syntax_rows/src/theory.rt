//! Trees of theories, written down.
use crate::say::{say, say_number};
use pure_script::{Command, Have, Span, Step, TextList, TheoryText};
use pure_text::Text;
use std::alloc::{AllocError, Global};

/// Writes a text behind a blank.
fn say_text(shown: &mut Vec<u8>, text: &Text) -> Result<(), AllocError> {
    say(shown, " ")?;
    shown.extend_from_slice(text.bytes())
}

/// Writes the bytes of a range of the source behind a blank.
fn say_span(shown: &mut Vec<u8>, source: &[u8], span: Span) -> Result<(), AllocError> {
    say(shown, " ")?;
    match source.get(span.from as usize..span.to as usize) {
        Some(bytes) => shown.extend_from_slice(bytes),
        None => say(shown, "out of range"),
    }
}

/// Writes a name, and the bytes of a range of the source.
fn say_named(
    shown: &mut Vec<u8>,
    source: &[u8],
    name: &Text,
    span: Span,
) -> Result<(), AllocError> {
    say_text(shown, name)?;
    say_span(shown, source, span)
}

/// Writes each text behind a blank.
fn say_texts(shown: &mut Vec<u8>, texts: &[Text]) -> Result<(), AllocError> {
    for text in texts {
        say_text(shown, text)?;
    }
    Ok(())
}

/// Writes each fact behind a blank.
fn say_facts(shown: &mut Vec<u8>, facts: &TextList) -> Result<(), AllocError> {
    for place in 0..facts.len() {
        say(shown, " ")?;
        shown.extend_from_slice(facts.at(place))?;
    }
    Ok(())
}

/// Writes a number behind a blank.
fn say_count(alloc: Global, shown: &mut Vec<u8>, number: u32) -> Result<(), AllocError> {
    say(shown, " ")?;
    say_number(alloc, shown, number)
}

/// Writes a method and its fact.
fn say_method(shown: &mut Vec<u8>, method: &str, fact: &Text) -> Result<(), AllocError> {
    say(shown, method)?;
    say_text(shown, fact)
}

/// Writes a step of a proof.
fn say_step(alloc: Global, shown: &mut Vec<u8>, step: &Step) -> Result<(), AllocError> {
    match step {
        Step::Rule { fact } => say_method(shown, " rule", fact),
        Step::Erule { fact } => say_method(shown, " erule", fact),
        Step::Drule { fact } => say_method(shown, " drule", fact),
        Step::Assumption => say(shown, " assumption"),
        Step::Unfold { facts } => {
            say(shown, " unfold")?;
            say_facts(shown, facts)
        }
        Step::Prefer { n } => {
            say(shown, " prefer")?;
            say_count(alloc, shown, *n)
        }
        Step::Defer => say(shown, " defer"),
        Step::Close => say(shown, " close"),
        Step::Done => say(shown, " done"),
    }
}

/// Writes a copy of each step of a proof.
fn say_script(alloc: Global, shown: &mut Vec<u8>, script: &[Step]) -> Result<(), AllocError> {
    for step in script {
        say_step(alloc, shown, &step.copy(alloc)?)?;
    }
    Ok(())
}

/// Writes each have in brackets.
fn say_haves(
    alloc: Global,
    shown: &mut Vec<u8>,
    source: &[u8],
    haves: &[Have],
) -> Result<(), AllocError> {
    for have in haves {
        say(shown, " [have")?;
        say_named(shown, source, &have.name, have.prop)?;
        say_script(alloc, shown, &have.script)?;
        say(shown, "]")?;
    }
    Ok(())
}

/// Writes the classes of each sort in brackets.
fn say_sorts(shown: &mut Vec<u8>, sorts: &[Vec<Text>]) -> Result<(), AllocError> {
    for sort in sorts {
        say(shown, " [")?;
        let mut first = true;
        for class in sort {
            if !first {
                say(shown, " ")?;
            }
            first = false;
            shown.extend_from_slice(class.bytes())?;
        }
        say(shown, "]")?;
    }
    Ok(())
}

/// Writes the word of a command.
fn say_word(shown: &mut Vec<u8>, command: &Command) -> Result<(), AllocError> {
    match command {
        Command::Class { .. } => say(shown, " class"),
        Command::TypeDecl { .. } => say(shown, " typedecl"),
        Command::Arity { .. } => say(shown, " arity"),
        Command::Const { .. } => say(shown, " const"),
        Command::Axiom { .. } => say(shown, " axiom"),
        Command::Definition { .. } => say(shown, " definition"),
        Command::Lemma { .. } => say(shown, " lemma"),
    }
}

/// Writes what stands behind the word of a command.
fn say_parts(
    alloc: Global,
    shown: &mut Vec<u8>,
    source: &[u8],
    command: &Command,
) -> Result<(), AllocError> {
    match command {
        Command::Class { name, above } => {
            say_text(shown, name)?;
            say(shown, " <")?;
            say_texts(shown, above)
        }
        Command::TypeDecl { name, params } => {
            say_text(shown, name)?;
            say_count(alloc, shown, *params)
        }
        Command::Arity { con, doms, class } => {
            say_text(shown, con)?;
            say_sorts(shown, doms)?;
            say_text(shown, class)
        }
        Command::Const { name, typ } => say_named(shown, source, name, *typ),
        Command::Axiom { name, prop } => say_named(shown, source, name, *prop),
        Command::Definition { name, typ, prop } => {
            say_named(shown, source, name, *typ)?;
            say_span(shown, source, *prop)
        }
        Command::Lemma {
            name,
            prop,
            haves,
            script,
        } => {
            say_named(shown, source, name, *prop)?;
            say_haves(alloc, shown, source, haves)?;
            say_script(alloc, shown, script)
        }
    }
}

/// Writes the version of a theory, if it isn't 1.
fn say_version(alloc: Global, shown: &mut Vec<u8>, version: u32) -> Result<(), AllocError> {
    if version == 1 {
        return Ok(());
    }
    say(shown, "version")?;
    say_count(alloc, shown, version)?;
    say(shown, " ")
}

/// Writes a theory's tree.
pub(crate) fn say_theory(
    alloc: Global,
    shown: &mut Vec<u8>,
    source: &[u8],
    theory: &TheoryText,
) -> Result<(), AllocError> {
    say_version(alloc, shown, theory.version)?;
    shown.extend_from_slice(theory.name.bytes())?;
    say(shown, ":")?;
    say_texts(shown, &theory.imports)?;
    say(shown, ";")?;
    for command in &theory.commands {
        say_word(shown, command)?;
        say_parts(alloc, shown, source, command)?;
        say(shown, ";")?;
    }
    Ok(())
}
