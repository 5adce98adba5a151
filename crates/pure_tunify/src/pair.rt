//! Pairs of types that are to be made equal.
use pure_typ::Typ;

/// Two types that are to be made equal.
#[derive(Debug, Drop)]
pub struct TypPair {
    pub left: Typ,
    pub right: Typ,
}
