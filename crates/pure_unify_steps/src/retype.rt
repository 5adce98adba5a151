//! Steps on types: two types are unified, and the unifier is put into a node.
ghost use Rattle.std.specs.Prelude.{◌≡◌, ◌+◌, ◌<◌, ◌^◌, ◌∷◌, [], List, IfOk, IfSome, MatchBool};
ghost use Rattle.pure_text.specs.Lists.{Each};
ghost use Rattle.pure_definitions.specs.Types.Typ.{typs_of};
ghost use Rattle.pure_definitions.specs.Terms.Subst.{TypBind};
ghost use Rattle.pure_tunify.specs.Steps as typs_steps;
ghost use Rattle.pure_tunify.specs.Working.{IsWrittenInOrder};
ghost use Rattle.pure_unify_definitions.specs.LongSides.{AllLong, AreLong};
ghost use Rattle.pure_unify_definitions.specs.Node as node;
ghost use Rattle.pure_unify_steps.specs.Held.{IsPath};
ghost use Rattle.pure_unify_nodes.specs.Long.{IsLongPair};
ghost use Rattle.pure_unify_steps.specs.Old.{HasNoFresh, HaveNoFresh};
ghost use Rattle.pure_unify_steps.specs.Retyped.{IsTyping, IsPutAnswer, ArePut, IsApartAnswer, IsRetypingAnswer};

use crate::gather::makes_same;
use crate::node::{Path, Setting};
use crate::put::put_pairs;
use pure_norm::NormFault;
use pure_order::Order;
use pure_term::{Typ, TypMap, TypNode, index_above_of_typ};
use pure_theorem::Pair;
use pure_tunify::{TypFault, TypPair, unify_from};
use std::alloc::{AllocError, Global};

/// What becomes of a node whose types are unified: the type map, the pairs with it put in, and the first name that isn't used.
#[derive(Drop)]
pub struct Retyping {
    pub setting: Setting,
    pub pairs: Vec<Pair>,
    pub next: u32,
}

/// Whether the type has no fresh variables. Where it has no index as high as theirs, it needs no walk.
#[cycle(is_old)]
fn is_old(t: &Typ, index: u32, from: u32) -> bool
    ensures { MatchBool result (HasNoFresh index from t.now) (¬ HasNoFresh index from t.now) }
{
    if index_above_of_typ(t) <= u64::from(index) {
        return true;
    }
    match &t.node {
        TypNode::TFree { .. } => true,
        TypNode::TVar {
            name,
            index: own,
            ..
        } => *own != index || name.0 < from,
        TypNode::Con { args, .. } => are_old(args.as_slice(), index, from),
    }
}

/// Whether the types have no fresh variables.
#[cycle(is_old)]
fn are_old(types: &[Typ], index: u32, from: u32) -> bool
    ensures { MatchBool result (HaveNoFresh index from (typs_of types.now)) (¬ HaveNoFresh index from (typs_of types.now)) }
{
    for typ in types {
        if !is_old(typ, index, from) {
            return false;
        }
    }
    true
}

/// A list with the pair of the types.
fn typ_pair(alloc: Global, left: &Typ, right: &Typ) -> Result<Vec<TypPair>, AllocError>
    ensures { IfOk result (λ pairs. pairs.items ≡ typs_steps.pair left.now right.now ∷ []) }
{
    let mut pairs = Vec::new(alloc);
    let left = left.copy(alloc)?;
    let right = right.copy(alloc)?;
    pairs.push(TypPair { left, right })?;
    Ok(pairs)
}

/// The unifier of two types, where there is one. Fresh variables never occur in them, since names are counted along the path; where one does, memory is wanted.
fn unified(
    alloc: Global,
    order: &Order,
    left: &Typ,
    right: &Typ,
    index: u32,
    from: u32,
) -> Result<Option<(TypMap, u32)>, NormFault>
    ensures { IsTyping order.now index from left.now right.now result }
{
    if !is_old(left, index, from) {
        return Err(NormFault::Memory);
    }
    if !is_old(right, index, from) {
        return Err(NormFault::Memory);
    }
    let pairs = match typ_pair(alloc, left, right) {
        Ok(pairs) => pairs,
        Err(_) => return Err(NormFault::Memory),
    };
    match unify_from(alloc, order, &pairs, index, from) {
        Ok(found) => Ok(Some(found)),
        Err(TypFault::NoTyping { .. }) => Ok(None),
        Err(TypFault::Big { .. }) => Err(NormFault::Big),
        Err(TypFault::Memory) => Err(NormFault::Memory),
    }
}

/// The pairs with the map put in.
fn put_map(alloc: Global, pairs: &[Pair], map: TypMap, next: u32) -> Result<Retyping, NormFault>
    requires { Each IsLongPair pairs.now }
    ensures answer { (sets : List TypBind) → IsWrittenInOrder sets map → IsPutAnswer pairs.now sets next result }
    ensures long { IfOk result (λ r. Each IsLongPair r.pairs.items) }
{
    let setting = Setting::OfTyps(map);
    match put_pairs(alloc, &setting, pairs) {
        Ok(made) => Ok(Retyping {
            setting,
            pairs: made,
            next,
        }),
        Err(fault) => Err(fault),
    }
}

/// What comes of a node with a type map that unifies two types: it fails where two of its variables become the same.
fn put_apart(
    alloc: Global,
    pairs: &[Pair],
    path: &Path,
    map: TypMap,
    next: u32,
) -> Result<Option<Retyping>, NormFault>
    requires { Each IsLongPair pairs.now }
    ensures answer { (n : node.Node) → pairs.now ≡ n.pairs → IsPath path.now n.path → (sets : List TypBind) → IsWrittenInOrder sets map → IsApartAnswer n sets next result }
    ensures put { (sets : List TypBind) → IsWrittenInOrder sets map → IfOk result (λ o. IfSome o (λ r. AreLong (node.with_setting_put (node.Typs sets) pairs.now) (AllLong r.pairs.items))) }
    ensures long { IfOk result (λ o. IfSome o (λ r. Each IsLongPair r.pairs.items)) }
{
    match makes_same(alloc, &map, pairs, &path.settings) {
        Ok(true) => Ok(None),
        Ok(false) => match put_map(alloc, pairs, map, next) {
            Ok(made) => Ok(Some(made)),
            Err(fault) => Err(fault),
        },
        Err(_) => Err(NormFault::Memory),
    }
}

/// What comes of a node with these pairs and this path when two types are unified.
pub fn retype_pairs(
    alloc: Global,
    order: &Order,
    maxidx: u32,
    pairs: &[Pair],
    path: &Path,
    typs: &(Typ, Typ),
) -> Result<Option<Retyping>, NormFault>
    requires long { Each IsLongPair pairs.now }
    requires room { maxidx + 66 < 2 ^ 32 }
    ensures answer { (n : node.Node) → pairs.now ≡ n.pairs → IsPath path.now n.path → IsRetypingAnswer order.now maxidx n typs.now.0 typs.now.1 result }
    ensures put { IfOk result (λ o. IfSome o (λ r. ArePut order.now (maxidx + 65) path.now.fresh typs.now.0 typs.now.1 pairs.now r.pairs.items)) }
    ensures long { IfOk result (λ o. IfSome o (λ r. Each IsLongPair r.pairs.items)) }
{
    match unified(alloc, order, &typs.0, &typs.1, maxidx + 65, path.fresh) {
        Ok(Some((map, next))) => put_apart(alloc, pairs, path, map, next),
        Ok(None) => Ok(None),
        Err(fault) => Err(fault),
    }
}
