//! Calls whose conditions are tested first.
use pure_order::Order;
use pure_tunify::{TypFault, TypPair, index_above, unify, unify_from};
use pure_typ::TypMap;
use std::alloc::Global;

/// The unifier of the pairs; none where it may not be asked for.
pub(crate) fn unifier(
    alloc: Global,
    order: &Order,
    pairs: &[TypPair],
) -> Option<Result<TypMap, TypFault>> {
    if index_above(pairs) == u32::MAX {
        return None;
    }
    Some(unify(alloc, order, pairs))
}

/// The unifier of the pairs, with fresh variables whose names are counted from the given one; none where it may not be
/// asked for.
pub(crate) fn unifier_from(
    alloc: Global,
    order: &Order,
    pairs: &[TypPair],
    from: u32,
) -> Option<Result<(TypMap, u32), TypFault>> {
    let index = index_above(pairs);
    if index == u32::MAX {
        return None;
    }
    Some(unify_from(alloc, order, pairs, index, from))
}
