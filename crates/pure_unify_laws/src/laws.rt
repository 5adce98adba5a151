//! Laws of the search for a unifier: each is the contract of a function that does nothing.
ghost use Rattle.pure_unify_laws.specs.Condition.{AllSettingsRespect, AllSettingsEquate};
ghost use Rattle.pure_unify_laws.specs.Laws.{SearchHasOneAnswer};
ghost use Rattle.pure_unify_laws.specs.Reached.{UnifierIsReached, SettingsRespectSorts, SettingsRespect, SettingsEquate};

/// The search has one answer at most.
pub fn search_has_one_answer()
    ensures { SearchHasOneAnswer }
{}

/// Each unifier is that of a success.
pub fn unifier_is_reached()
    ensures { UnifierIsReached }
{}

/// The settings on its path respect the content, where those of type variables do; and after them the sides of the given
/// pairs are equated modulo the flex-flex pairs.
pub fn settings_equate()
    ensures sorts { SettingsRespectSorts }
    ensures respect { SettingsRespect }
    ensures equate { SettingsEquate }
{}

/// Over a content of declared classes alone all settings respect the content, and equate the sides of the given pairs.
pub fn all_settings_equate()
    ensures respect { AllSettingsRespect }
    ensures equate { AllSettingsEquate }
{}
