//! The rows of commands.
ghost use Rattle.std.specs.Prelude.{◌≡◌, ◌<◌, ◌-◌, ◌^◌, ◌++◌, ◌∷◌, length, IfOk};
ghost use Rattle.pure_lookup.specs.Meaning.{full_text};
ghost use Rattle.pure_script.specs.Seen.{seen_command};
ghost use Rattle.pure_statements.specs.ReasonText.{reason_text};
ghost use Rattle.pure_statements.specs.Rows as spec;

use crate::reason::Reason;
use crate::reason_text::push_reason;
use pure_print::{Row, RowStatus};
use pure_script::Command;
use pure_text::Text;
use pure_typ::Names;
use std::alloc::{AllocError, Global};

/// A kind, then a theory and a base with a dot between them.
fn named(alloc: Global, kind: &[u8], theory: &[u8], base: &[u8]) -> Result<Text, AllocError>
    ensures { IfOk result (λ t. t ≡ kind.now ++ full_text theory.now base.now) }
{
    let mut text = Vec::from_slice(alloc, kind)?;
    text.extend_from_slice(theory)?;
    text.push(b'.')?;
    text.extend_from_slice(base)?;
    Ok(Text::from(text))
}

/// The head of an arity: the theory, then the constructor and the class as they are written.
#[tactic(auto, unfolding(crate::specs::Rows::arity_word, crate::specs::Rows::colon))]
fn arity_head(alloc: Global, theory: &[u8], con: &[u8], class: &[u8]) -> Result<Text, AllocError>
    ensures { IfOk result (λ t. t ≡ spec.arity_word ++ (theory.now ++ (spec.colon ++ (con.now ++ (32 ∷ class.now))))) }
{
    let mut text = Vec::from_slice(alloc, b"arity ")?;
    text.extend_from_slice(theory)?;
    text.extend_from_slice(b": ")?;
    text.extend_from_slice(con)?;
    text.push(b' ')?;
    text.extend_from_slice(class)?;
    Ok(Text::from(text))
}

/// What a command is about.
#[tactic(auto, unfolding(crate::specs::Rows::class_word, crate::specs::Rows::type_word, crate::specs::Rows::const_word, crate::specs::Rows::axiom_word, crate::specs::Rows::definition_word, crate::specs::Rows::lemma_word))]
pub fn head_of(alloc: Global, theory: &[u8], command: &Command) -> Result<Text, AllocError>
    ensures { IfOk result (λ t. t ≡ spec.head_text theory.now (seen_command command.now)) }
{
    match command {
        Command::Class { name, .. } => named(alloc, b"class ", theory, name.bytes()),
        Command::TypeDecl { name, .. } => named(alloc, b"type ", theory, name.bytes()),
        Command::Arity { con, class, .. } => arity_head(alloc, theory, con.bytes(), class.bytes()),
        Command::Const { name, .. } => named(alloc, b"const ", theory, name.bytes()),
        Command::Axiom { name, .. } => named(alloc, b"axiom ", theory, name.bytes()),
        Command::Definition { name, .. } => named(alloc, b"definition ", theory, name.bytes()),
        Command::Lemma { name, .. } => named(alloc, b"lemma ", theory, name.bytes()),
    }
}

/// The row of a command that declares, with what is said behind its head.
pub fn declared_row(
    alloc: Global,
    theory: &[u8],
    command: &Command,
    tail: Text,
) -> Result<Row, AllocError>
    ensures { IfOk result (λ row. row ≡ spec.declared_row theory.now (seen_command command.now) tail) }
{
    let head = head_of(alloc, theory, command)?;
    Ok(Row {
        status: RowStatus::Declared,
        head,
        tail,
    })
}

/// A colon and the text of the reason.
#[tactic(auto, unfolding(crate::specs::Rows::colon))]
fn reason_tail(
    alloc: Global,
    names: &Names,
    source: &[u8],
    reason: Reason,
) -> Result<Text, AllocError>
    requires { length source.now < 2 ^ 32 - 1 }
    ensures { IfOk result (λ t. t ≡ spec.colon ++ reason_text names.now source.now reason) }
{
    let mut text = Vec::from_slice(alloc, b": ")?;
    push_reason(alloc, &mut text, names, source, &reason)?;
    Ok(Text::from(text))
}

/// The row of a command that is refused.
pub fn refused_row(
    alloc: Global,
    names: &Names,
    source: &[u8],
    theory: &[u8],
    command: &Command,
    reason: Reason,
) -> Result<Row, AllocError>
    requires { length source.now < 2 ^ 32 - 1 }
    ensures { IfOk result (λ row. row ≡ spec.refused_row names.now source.now theory.now (seen_command command.now) reason) }
{
    let tail = reason_tail(alloc, names, source, reason)?;
    let head = head_of(alloc, theory, command)?;
    Ok(Row {
        status: RowStatus::Refused,
        head,
        tail,
    })
}

/// What a have is about: its full name, in the lemma with this base.
#[tactic(auto, unfolding(crate::specs::Rows::have_word))]
fn have_head(alloc: Global, theory: &[u8], lemma: &[u8], name: &[u8]) -> Result<Text, AllocError>
    ensures { IfOk result (λ t. t ≡ spec.have_word ++ spec.have_text theory.now lemma.now name.now) }
{
    let mut text = Vec::from_slice(alloc, b"have ")?;
    text.extend_from_slice(theory)?;
    text.push(b'.')?;
    text.extend_from_slice(lemma)?;
    text.push(b'.')?;
    text.extend_from_slice(name)?;
    Ok(Text::from(text))
}

/// The row of a have that is refused, in the lemma with this base.
pub fn refused_have(
    alloc: Global,
    names: &Names,
    source: &[u8],
    theory: &[u8],
    lemma: &[u8],
    name: &[u8],
    reason: Reason,
) -> Result<Row, AllocError>
    requires { length source.now < 2 ^ 32 - 1 }
    ensures { IfOk result (λ row. row ≡ spec.refused_have names.now source.now theory.now lemma.now name.now reason) }
{
    let tail = reason_tail(alloc, names, source, reason)?;
    let head = have_head(alloc, theory, lemma, name)?;
    Ok(Row {
        status: RowStatus::Refused,
        head,
        tail,
    })
}
