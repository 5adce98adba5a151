//! Laws of the definitions. Each function has no body: its contract is the law.
ghost use Rattle.std.specs.Prelude.{List, ℕ};
ghost use Rattle.pure_print.specs.Laws.{OneTypText, OneText, PrintsExample};

/// Readable types that print alike have one tree.
pub fn one_typ_text()
    ensures { OneTypText }
{}

/// Readable terms that print alike have one tree, types aside.
pub fn one_text()
    ensures { OneText }
{}

/// A term that is readable, and its text.
pub fn prints_example()
    ensures { (texts : List (List ℕ)) → PrintsExample texts }
{}
