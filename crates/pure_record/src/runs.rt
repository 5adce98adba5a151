//! Runs of tokens between the tokens `|`.
ghost use Rattle.std.specs.Prelude.{◌≡◌, ◌≤◌, ◌<◌, ◌+◌, true, false, length};
ghost use Rattle.pure_grammar.specs.Tokens.Spelling.{IsSlice, AreSlices};
ghost use Rattle.pure_record.specs.Spelled as spec;

use crate::lexing::{bytes_of, equals};
use pure_grammar::{Token, TokenKind};

/// How many tokens may stand in a row without a `|`.
pub const MAX_RUN: u32 = 1000;

/// Whether the token is `|`.
fn is_bar(source: &[u8], token: Token) -> bool
    requires { IsSlice source.now token }
    ensures { result ≡ spec.is_bar source.now token }
{
    let bytes = bytes_of(source, token);
    match token.kind {
        TokenKind::Symbol => equals(bytes, b"|"),
        _ => false,
    }
}

/// The tokens of a run that were read so far: the place of the first of them, and how many there are.
#[derive(Clone, Copy)]
struct Run {
    start: u32,
    count: u32,
}

/// The run behind one token more, which is `|` or has this place.
fn run_behind(run: Run, is_bar: bool, from: u32) -> Run
    requires { run.count ≤ 1000 }
    ensures bar { is_bar ≡ true → result.count ≡ 0 }
    ensures first { is_bar ≡ false → run.count ≡ 0 → (result.start ≡ from) × (result.count ≡ 1) }
    ensures more { is_bar ≡ false → 0 < run.count → (result.start ≡ run.start) × (result.count ≡ run.count + 1) }
{
    if is_bar {
        return Run { start: 0, count: 0 };
    }
    if run.count == 0 {
        return Run {
            start: from,
            count: 1,
        };
    }
    Run {
        start: run.start,
        count: run.count + 1,
    }
}

/// The place of the first token of the first run of more than 1,000 tokens, if there is one.
pub(crate) fn long_run(source: &[u8], tokens: &[Token]) -> Option<u32>
    requires { AreSlices source.now 0 (length source.now) tokens.now }
    ensures { result ≡ spec.first_long (spec.runs_of source.now tokens.now) }
{
    let mut run = Run { start: 0, count: 0 };
    for token in tokens {
        let bar = is_bar(source, *token);
        run = run_behind(run, bar, token.from);
        if run.count > MAX_RUN {
            return Some(run.start);
        }
    }
    None
}
