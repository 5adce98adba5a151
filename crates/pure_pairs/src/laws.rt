//! Laws of equality modulo pairs: each is the contract of a function that does nothing.
ghost use Rattle.pure_pairs.specs.Laws.{EqualOrDiffers, NotBoth, OnePlace, EqualModuloIsEquated};

/// Two terms are equal modulo pairs, or differ at one place.
pub fn equal_or_differs()
    ensures one { EqualOrDiffers }
    ensures not_both { NotBoth }
    ensures place { OnePlace }
{}

/// Terms that are equal modulo pairs are equated modulo them.
pub fn equal_modulo_is_equated()
    ensures { EqualModuloIsEquated }
{}
