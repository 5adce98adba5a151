//! Laws of the definitions. What each function ensures is the law.
ghost use Rattle.pure_find.specs.Laws.{MatchIsInstance, NoMatchIsFinal, FoundOnce, BuiltAreNamed};

/// A fact that matches has the lemma's statement as an instance.
pub fn match_is_instance()
    ensures { MatchIsInstance }
{}

/// Of a fact that doesn't match the statement is no instance.
pub fn no_match_is_final()
    ensures { NoMatchIsFinal }
{}

/// A lemma has one answer.
pub fn found_once()
    ensures { FoundOnce }
{}

/// The built facts have the names that find them.
pub fn built_are_named()
    ensures { BuiltAreNamed }
{}
