//! The types of a pair are unified, and the unifier is put into all pairs.
ghost use Rattle.std.specs.Prelude.{◌≡◌, ◌+◌, ◌<◌, ◌^◌, ◌∷◌, ◌++◌, List, reverse, IfOk, IfSome};
ghost use Rattle.pure_text.specs.Lists.{Each};
ghost use Rattle.pure_definitions.specs.Terms.Subst as subst;
ghost use Rattle.pure_unify_definitions.specs.Node as node;
ghost use Rattle.pure_unify_steps.specs.Held.{IsSetting, IsPath};
ghost use Rattle.pure_unify_nodes.specs.Long.{IsLongPair};
ghost use Rattle.pure_unify_steps.specs.Retyped.{ArePut};
ghost use Rattle.pure_unify_visits.specs.Scanned.{IsAt, IsReady, IsRetypedNode};

use crate::scan::{Scan, move_back, put_behind};
use crate::settings::further;
use pure_norm::NormFault;
use pure_order::Order;
use pure_term::Typ;
use pure_theorem::Pair;
use pure_unify_steps::{Node, Path, Retyping, retype_pairs};
use std::alloc::{AllocError, Global};

/// The node of a step on types, with this path before it.
fn node_with(path: Path, retyping: Retyping) -> Result<Node, AllocError>
    ensures path { (p : node.Path) (sets : List subst.TypBind) → IsPath path p → IsSetting retyping.setting (node.Typs sets)
        → IfOk result (λ held. IsPath held.path (record (node.further p (node.Typs sets)) { fresh = retyping.next })) }
    ensures pairs { IfOk result (λ held. held.pairs.items ≡ retyping.pairs.items) }
{
    let Retyping {
        setting,
        pairs,
        next,
    } = retyping;
    let Path {
        settings,
        choices,
        ..
    } = path;
    let path = Path {
        settings,
        choices,
        fresh: next,
    };
    let path = further(path, setting)?;
    Ok(Node { pairs, path })
}

/// All pairs in order, with this one between those that were passed and those still to come.
fn with_pair(passed: Vec<Pair>, pair: Pair, rest: Vec<Pair>) -> Result<Vec<Pair>, AllocError>
    ensures { IfOk result (λ pairs. pairs.items ≡ passed.items ++ pair ∷ reverse rest.items) }
{
    let mut pairs = passed;
    put_behind(&mut pairs, pair)?;
    move_back(rest, &mut pairs)?;
    Ok(pairs)
}

/// What comes of the node when two types are unified: none where it fails.
pub fn retyped_node(
    alloc: Global,
    order: &Order,
    maxidx: u32,
    scan: Scan,
    pair: Pair,
    typs: &(Typ, Typ),
) -> Result<Option<Node>, NormFault>
    requires room { maxidx + 66 < 2 ^ 32 }
    requires ready { IsReady scan }
    requires long { IsLongPair pair }
    ensures answer { (n : node.Node) → IsAt scan pair n → IsRetypedNode order.now maxidx n typs.now.0 typs.now.1 result }
    ensures put { IfOk result (λ o. IfSome o (λ held. ArePut order.now (maxidx + 65) scan.path.fresh typs.now.0 typs.now.1 (scan.passed.items ++ pair ∷ reverse scan.rest.items) held.pairs.items)) }
    ensures long { IfOk result (λ o. IfSome o (λ held. Each IsLongPair held.pairs.items)) }
{
    let Scan { passed, rest, path } = scan;
    let pairs = with_pair(passed, pair, rest)?;
    match retype_pairs(alloc, order, maxidx, &pairs, &path, typs) {
        Ok(Some(retyping)) => Ok(Some(node_with(path, retyping)?)),
        Ok(None) => Ok(None),
        Err(fault) => Err(fault),
    }
}
