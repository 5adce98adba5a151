//! The tree of a theory's tokens.
ghost use Rattle.std.specs.Prelude.{◌≡◌, ◌<◌, length, IfOk, IfErr, [], ◌∷◌};
ghost use Rattle.pure_grammar.specs.Theories.Lexeme.{Ends, lexemes};
ghost use Rattle.pure_grammar.specs.Theories.Outer.{SpellsTheory};
ghost use Rattle.pure_grammar.specs.Theories.Reader.{AtStart, run};
ghost use Rattle.pure_grammar.specs.Tokens.Spelling.{AreSlices};
ghost use Rattle.pure_script.specs.Seen.{seen_theory};
ghost use Rattle.pure_script.specs.States.{seen_state};
ghost use Rattle.pure_script.specs.Faults.{IsFaultOf};

use crate::lexeme::lexeme_of;
use crate::state::{Front, State, discard_state, ended, expected, goes_on};
use crate::theory::{ScriptFault, TheoryText};
use pure_grammar::Token;
use std::alloc::Global;

/// Reads the tokens one after another: from the start of a text to the state behind them, or to the first with which no text
/// goes on. The state is lent, so that no error has to drop it here.
fn read_all(
    alloc: Global,
    source: &[u8],
    tokens: &[Token],
    state: &mut State,
) -> Result<(), ScriptFault>
    requires slices { AreSlices source.now 0 (length source.now) tokens.now }
    requires start { seen_state state.old ≡ AtStart }
    ensures ok { IfOk result (λ _. run AtStart (lexemes source.now tokens.now) ≡ run (seen_state state.new) (Ends ∷ [])) }
    ensures fault { IfErr result (IsFaultOf source.now tokens.now) }
{
    for token in tokens {
        let lexeme = lexeme_of(source, *token)?;
        let kind = expected(state);
        if !goes_on(alloc, state, lexeme)? {
            return Err(ScriptFault::Syntax {
                at: token.from,
                expected: kind,
            });
        }
    }
    Ok(())
}

/// The tree that the tokens of the source spell, or the first fault: where the tokens, or the end, go wrong, and a kind
/// that may stand there.
pub fn read_theory(
    alloc: Global,
    source: &[u8],
    tokens: &[Token],
) -> Result<TheoryText, ScriptFault>
    requires small { length source.now < 4294967296 }
    requires slices { AreSlices source.now 0 (length source.now) tokens.now }
    ensures ok { IfOk result (λ theory. SpellsTheory source.now tokens.now (seen_theory theory)) }
    ensures fault { IfErr result (IsFaultOf source.now tokens.now) }
{
    let mut state = State::InFront {
        front: Front::AtStart,
    };
    match read_all(alloc, source, tokens, &mut state) {
        Err(fault) => {
            discard_state(state);
            Err(fault)
        }
        Ok(()) => {
            let kind = expected(&state);
            match ended(state) {
                None => Err(ScriptFault::Syntax {
                    at: source.len() as u32,
                    expected: kind,
                }),
                Some(theory) => Ok(theory),
            }
        }
    }
}
