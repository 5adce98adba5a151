//! Laws of the definitions. Each function has no body: its contract is the law.
ghost use Rattle.pure_grammar.specs.Terms.Inner.{OneTerm, OneType};
ghost use Rattle.pure_grammar.specs.Theories.Outer.{OneTheory};
ghost use Rattle.pure_grammar.specs.Theories.Spans.{SpansInOrder, EachSpanIsCited};
ghost use Rattle.pure_grammar.specs.Theories.Versions.{ReadAsFirst, FaultsAsFirst};
ghost use Rattle.pure_grammar.specs.Terms.RawTexts.{TermIsWritten, TypeIsWritten};
ghost use Rattle.pure_grammar.specs.Tokens.Spelling.{OneList, ListOrFault, OneFault, QuoteHasMarks, TokensAreSlices};

/// No source is spelled by two lists of tokens.
pub fn one_list()
    ensures { OneList }
{}

/// No source has both a list of tokens and a fault.
pub fn list_or_fault()
    ensures { ListOrFault }
{}

/// No source has two first faults.
pub fn one_fault()
    ensures { OneFault }
{}

/// The tokens that spell a range of a source are slices of it, one behind another.
pub fn tokens_are_slices()
    ensures { TokensAreSlices }
{}

/// A quoted text has its two marks, so that there is a range between them.
pub fn quote_has_marks()
    ensures { QuoteHasMarks }
{}

/// No tokens of a source spell two trees of a theory.
pub fn one_theory()
    ensures { OneTheory }
{}

/// The ranges of types and propositions in the tree of a theory lie in its source, one behind another, each with a token of
/// its own.
pub fn spans_in_order()
    ensures { SpansInOrder }
{}

/// Each range of each command of a theory lies in the source, and is the inside of a quoted text, or, of a type, one token.
pub fn each_span_is_cited()
    ensures { EachSpanIsCited }
{}

/// No tokens of a source spell two trees of a term.
pub fn one_term()
    ensures { OneTerm }
{}

/// No tokens of a source spell two trees of a type.
pub fn one_type()
    ensures { OneType }
{}

/// Each name and variable in the tree of a term is the text of a token of its kind, but for the constants of the notation.
pub fn term_is_written()
    ensures { TermIsWritten }
{}

/// Each name and variable in the tree of a type is the text of a token of its kind, but for the name of functions.
pub fn type_is_written()
    ensures { TypeIsWritten }
{}

/// Tokens without the word `version` spell the trees that the grammar of version 1 gives them.
pub fn read_as_first()
    ensures { ReadAsFirst }
{}

/// The first fault of tokens without the word `version` is that of the grammar of version 1.
pub fn faults_as_first()
    ensures { FaultsAsFirst }
{}
