//! Laws of the definitions. Each function has no body: its contract is the law.
ghost use Rattle.pure_places.specs.Laws.{AsManyCommands, FindsParts};

/// Among tokens that spell a theory just its parts are found, each at its place.
pub fn finds_parts()
    ensures { FindsParts }
{}

/// There are as many commands as the tree of the theory has.
pub fn as_many_commands()
    ensures { AsManyCommands }
{}
