//! Laws of tokens. Each function has no body: its contract is the law.
ghost use Rattle.pure_grammar.specs.Tokens.Spelling.{SomeReading};

/// Each text has a list of tokens, or a first fault.
pub fn some_reading()
    ensures { SomeReading }
{}
