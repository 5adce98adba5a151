//! Laws of statements: each is the contract of a function that does nothing.
ghost use Rattle.pure_statements.specs.Laws.{SchematicIsGeneralised};

/// The variables of a statement are made schematic as those of a theorem are.
pub fn schematic_is_generalised()
    ensures { SchematicIsGeneralised }
{}
