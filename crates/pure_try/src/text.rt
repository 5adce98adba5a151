//! The line that is written of a lemma.
ghost use Rattle.std.specs.Prelude.{◌≡◌, ◌++◌, OnOk, IfOk};
ghost use Rattle.pure_try.specs.Answers as spec;

use crate::answer::Answer;
use crate::method::Method;
use pure_text::Text;
use std::alloc::{AllocError, Global};

/// Adds a method as it is written behind `by`.
fn push_method(text: &mut Vec<u8>, method: &Method) -> Result<(), AllocError>
    ensures { OnOk result (text.new.items ≡ text.old.items ++ spec.method_text method.now) }
{
    match method {
        Method::Assumption => text.extend_from_slice(b"assumption"),
        Method::Rule { fact } => {
            text.extend_from_slice(b"(rule ")?;
            text.extend_from_slice(fact.bytes())?;
            text.extend_from_slice(b")")
        }
    }
}

/// Adds the proof by a method, or that there is none.
fn push_first(text: &mut Vec<u8>, first: &Option<Method>) -> Result<(), AllocError>
    ensures { OnOk result (text.new.items ≡ text.old.items ++ spec.first_text first.now) }
{
    match first {
        None => text.extend_from_slice(b"none"),
        Some(method) => {
            text.extend_from_slice(b"by ")?;
            push_method(text, method)
        }
    }
}

/// The line: `no lemma`; or the name, a colon, and the proof in one step or `none`.
pub fn line(alloc: Global, name: &[u8], answer: &Answer) -> Result<Text, AllocError>
    ensures { IfOk result (λ text. text ≡ spec.line_of name.now answer.now) }
{
    let mut text = Vec::new(alloc);
    match answer {
        Answer::NoLemma => text.extend_from_slice(b"no lemma")?,
        Answer::Tried { first } => {
            text.extend_from_slice(name)?;
            text.extend_from_slice(b": ")?;
            push_first(&mut text, first)?;
        }
    }
    text.push(b'\n')?;
    Ok(Text::from(text))
}

/// Whether a proof in one step was found.
pub fn is_found(answer: &Answer) -> bool
    ensures { result ≡ spec.is_found answer.now }
{
    match answer {
        Answer::NoLemma => false,
        Answer::Tried { first } => first.is_some(),
    }
}
