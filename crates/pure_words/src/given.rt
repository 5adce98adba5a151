//! What stands among the words: values of options, flags and arguments.
ghost use Rattle.std.specs.Prelude.{◌≡◌, [], ◌∷◌, ◌++◌, IfOk, OnOk};
ghost use Rattle.pure_words.specs.Words.{no_given, with_value, with_fail_fast, with_argument};
ghost use Rattle.pure_words.specs.Reader as spec;

use pure_text::Text;
use std::alloc::{AllocError, Global};
use std::marker::Model;

/// The options that take a value.
#[derive(Clone, Copy, Debug, PartialEq, Eq)]
pub(crate) enum Key {
    Jobs,
    Cancel,
}

/// Texts in the order in which they came.
#[derive(Drop)]
pub(crate) struct Values {
    list: Vec<Text>,
}

impl Model for Values {
    ghost use Rattle.std.specs.Prelude.{List, ℕ};

    ghost Value = { List (List ℕ) };

    ghost view = { λ v. v.list.items };
}

impl Values {
    /// No texts.
    pub(crate) fn none(alloc: Global) -> Values
        ensures { result ≡ [] }
    {
        Values {
            list: Vec::new(alloc),
        }
    }

    /// The texts.
    pub(crate) fn list(&self) -> &[Text]
        ensures { result.now ≡ self.now }
    {
        self.list.as_slice()
    }

    /// Adds a text behind the others.
    pub(crate) fn add(&mut self, alloc: Global, value: &[u8]) -> Result<(), AllocError>
        ensures { OnOk result (self.new ≡ self.old ++ value.now ∷ []) }
    {
        let text = Text::make(alloc, value)?;
        self.list.push(text)?;
        Ok(())
    }
}

/// The values of each option, the flags and the arguments.
#[derive(Drop)]
pub(crate) struct Given {
    pub(crate) jobs: Values,
    pub(crate) cancels: Values,
    pub(crate) fail_fast: Values,
    pub(crate) arguments: Values,
}

/// Whether the words so far were refused, are whole, or end with an option that waits for its value.
#[derive(Clone, Copy)]
pub(crate) enum Turn {
    Refused,
    Idle,
    Waits { key: Key },
}

/// Nothing.
pub(crate) fn nothing(alloc: Global) -> Given
    ensures { result ≡ no_given }
{
    Given {
        jobs: Values::none(alloc),
        cancels: Values::none(alloc),
        fail_fast: Values::none(alloc),
        arguments: Values::none(alloc),
    }
}

/// Adds the value of an option.
fn add_value(alloc: Global, given: &mut Given, key: Key, value: &[u8]) -> Result<(), AllocError>
    ensures { OnOk result (given.new ≡ with_value key value.now given.old) }
{
    match key {
        Key::Jobs => given.jobs.add(alloc, value),
        Key::Cancel => given.cancels.add(alloc, value),
    }
}

/// Takes a word that is an option with its value, or an argument.
#[tactic(auto, unfolding(crate::specs::Reader::met_joined))]
fn meet_joined(alloc: Global, given: &mut Given, word: &[u8]) -> Result<Turn, AllocError>
    ensures { IfOk result (λ turn. spec.seen turn given.new ≡ spec.met_joined given.old word.now) }
{
    if let Some(value) = word.strip_prefix(b"--jobs=") {
        add_value(alloc, given, Key::Jobs, value)?;
        return Ok(Turn::Idle);
    }
    if let Some(value) = word.strip_prefix(b"--cancel=") {
        add_value(alloc, given, Key::Cancel, value)?;
        return Ok(Turn::Idle);
    }
    if let Some(value) = word.strip_prefix(b"-j") {
        add_value(alloc, given, Key::Jobs, value)?;
        return Ok(Turn::Idle);
    }
    if word.starts_with(b"-") {
        return Ok(Turn::Refused);
    }
    given.arguments.add(alloc, word)?;
    Ok(Turn::Idle)
}

/// Takes a word that isn't the value of the option before it.
#[tactic(auto, unfolding(crate::specs::Reader::met))]
fn meet(alloc: Global, given: &mut Given, word: &[u8]) -> Result<Turn, AllocError>
    ensures { IfOk result (λ turn. spec.seen turn given.new ≡ spec.met given.old word.now) }
{
    if word == b"--jobs".as_slice() || word == b"-j".as_slice() {
        return Ok(Turn::Waits { key: Key::Jobs });
    }
    if word == b"--cancel".as_slice() {
        return Ok(Turn::Waits { key: Key::Cancel });
    }
    if word == b"--fail-fast".as_slice() {
        given.fail_fast.add(alloc, word)?;
        return Ok(Turn::Idle);
    }
    meet_joined(alloc, given, word)
}

/// Takes one more word.
fn step(alloc: Global, given: &mut Given, turn: Turn, word: &[u8]) -> Result<Turn, AllocError>
    ensures { IfOk result (λ next. spec.seen next given.new ≡ spec.step (spec.seen turn given.old) word.now) }
{
    match turn {
        Turn::Refused => Ok(Turn::Refused),
        Turn::Idle => meet(alloc, given, word),
        Turn::Waits { key } => {
            add_value(alloc, given, key, word)?;
            Ok(Turn::Idle)
        }
    }
}

/// What the words give, or None where they aren't options with their values, flags and arguments.
pub(crate) fn given_by(alloc: Global, words: &[Text]) -> Result<Option<Given>, AllocError>
    ensures { IfOk result (λ found. found ≡ spec.read words.now) }
{
    let mut given = nothing(alloc);
    let mut turn = Turn::Idle;
    for word in words {
        turn = step(alloc, &mut given, turn, word.bytes())?;
    }
    match turn {
        Turn::Idle => Ok(Some(given)),
        _ => Ok(None),
    }
}
