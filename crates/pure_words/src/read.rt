//! Words as a job.
ghost use Rattle.std.specs.Prelude.{◌≡◌, ◌∷◌, List, ℕ, IfOk, IfSome, IsErrOf, Some, map};
ghost use Rattle.pure_words.specs.Reader.{job_in};
ghost use Rattle.pure_words.specs.Words.{IsCommand, IsJob};

use crate::given::{given_by, nothing};
use crate::job::Job;
use crate::{command, line};
use pure_text::Text;
use std::alloc::{AllocError, Global};
use thiserror::Error;

/// Why words give no job.
#[derive(Clone, Copy, Debug, PartialEq, Eq, Error)]
pub enum WordsFault {
    /// They aren't those of a command.
    #[error("usage")]
    Usage,
    /// Memory ran out.
    #[error("out of memory")]
    Memory,
}

/// The job of the words, or None where they aren't those of a command.
fn job(alloc: Global, words: &[Text]) -> Result<Option<Job>, AllocError>
    ensures { IfOk result (λ found. found ≡ job_in words.now) }
{
    if words.is_empty() {
        return command::job(alloc, b"check", &nothing(alloc));
    }
    match given_by(alloc, &words[1..])? {
        Some(given) => command::job(alloc, words[0].bytes(), &given),
        None => Ok(None),
    }
}

/// The words as `str`s, or None where one isn't UTF-8, which no word of a command is.
fn texts_of<'a>(alloc: Global, words: &'a [Text]) -> Result<Option<Vec<&'a str>>, AllocError>
    ensures { IfOk result (λ found. IfSome found (λ list. map (λ s. s.now) list.items ≡ words.now)) }
{
    let mut list = Vec::new(alloc);
    for word in words {
        match std::str::from_utf8(word.bytes()) {
            Ok(text) => list.push(text)?,
            Err(_) => return Ok(None),
        }
    }
    Ok(Some(list))
}

/// The job that `clap` finds among the texts.
fn job_of_texts(alloc: Global, texts: &[&str]) -> Result<Option<Job>, WordsFault>
    ensures { (name : List ℕ) (rest : List (List ℕ)) (job : _) → map (λ s. s.now) texts.now ≡ name ∷ rest → IsCommand name rest job
        → IfOk result (λ found. found ≡ Some job) }
{
    let Ok(matches) = line::matches_of(alloc, texts) else {
        return Err(WordsFault::Memory);
    };
    match line::job_in(alloc, &matches) {
        Ok(found) => Ok(found),
        Err(_) => Err(WordsFault::Memory),
    }
}

/// The job that `clap` finds among the words.
fn job_of_words(alloc: Global, words: &[Text]) -> Result<Option<Job>, WordsFault>
    ensures { (name : List ℕ) (rest : List (List ℕ)) (job : _) → words.now ≡ name ∷ rest → IsCommand name rest job
        → IfOk result (λ found. found ≡ Some job) }
{
    match texts_of(alloc, words) {
        Ok(Some(texts)) => job_of_texts(alloc, texts.as_slice()),
        _ => Err(WordsFault::Memory),
    }
}

/// The job of words that were found to be this one: no words are it at once, others are read by `clap`.
fn read_again(alloc: Global, words: &[Text], job: Job) -> Result<Job, WordsFault>
    ensures ok { IsJob words.now job → IfOk result (λ found. found ≡ job) }
    ensures usage { IsJob words.now job → ¬ IsErrOf result WordsFault.Usage }
{
    if words.is_empty() {
        return Ok(job);
    }
    match job_of_words(alloc, words) {
        Ok(Some(found)) => Ok(found),
        Ok(None) => Err(WordsFault::Usage),
        Err(_) => Err(WordsFault::Memory),
    }
}

/// Reads the words as a command: Usage comes exactly where they aren't one, as for a request for help.
pub fn read_words(alloc: Global, words: &[Text]) -> Result<Job, WordsFault>
    ensures ok { IfOk result (λ job. IsJob words.now job) }
    ensures usage { IsErrOf result WordsFault.Usage → (job : Job) → ¬ IsJob words.now job }
{
    match job(alloc, words) {
        Ok(Some(job)) => read_again(alloc, words, job),
        Ok(None) => Err(WordsFault::Usage),
        Err(_) => Err(WordsFault::Memory),
    }
}
