//! Laws of the definitions. Each function has no body: its contract is the law.
ghost use Rattle.pure_record.specs.Laws.{OneRecord};

/// No tokens of a source spell two records.
pub fn one_record()
    ensures { OneRecord }
{}
