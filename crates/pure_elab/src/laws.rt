//! What the definitions mean: laws, each carried by the contract of a function that does nothing.
ghost use Rattle.pure_elab.specs.Laws.{OneNameFault, OneElabAnswer, OneElabTypAnswer, DraftIsTyped, AnswerIsMostGeneral, AnswerIsCertified, VocabularyIsSound, ContentHasVocabulary, IllTypedAtFirstFailure, BigIsBeyondLimits};

/// One fault of names decides at most.
pub fn one_name_fault()
    ensures { OneNameFault }
{}

/// A text has one answer at most, beside want of memory.
pub fn one_answer()
    ensures term { OneElabAnswer }
    ensures typ { OneElabTypAnswer }
{}

/// Under each solution of its constraints a draft has its type.
pub fn draft_is_typed()
    ensures { DraftIsTyped }
{}

/// The answer is the text's draft under a most general typing, and has the type that it has to have.
pub fn answer_is_most_general()
    ensures { AnswerIsMostGeneral }
{}

/// Typing fails at the first constraint such that it and those before have no common solution.
pub fn ill_typed_at_first_failure()
    ensures { IllTypedAtFirstFailure }
{}

/// A text that is too large has a typing or a term beyond the limits, before any constraint without a solution.
pub fn big_is_beyond_limits()
    ensures { BigIsBeyondLimits }
{}

/// Over a sound vocabulary the answer is certified.
pub fn answer_is_certified()
    ensures { AnswerIsCertified }
{}

/// The vocabulary of a content above Pure's whose declarations are certified is sound.
pub fn vocabulary_is_sound()
    ensures { VocabularyIsSound }
{}

/// In a session each content has a vocabulary, computed from its declarations and the texts of names.
pub fn content_has_vocabulary()
    ensures { ContentHasVocabulary }
{}
