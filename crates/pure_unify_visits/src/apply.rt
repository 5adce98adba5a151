//! The rules of simplification: what comes of a node when one is applied.
ghost use Rattle.std.specs.Prelude.{ℕ, ◌+◌, ◌<◌, ◌^◌, IfOk};
ghost use Rattle.pure_definitions.specs.Types.Order.{Algebra};
ghost use Rattle.pure_unify_definitions.specs.Node as node;
ghost use Rattle.pure_unify_definitions.specs.Treatment as rules;
ghost use Rattle.pure_unify_nodes.specs.Long.{IsLongPair};
ghost use Rattle.pure_unify_steps.specs.Treated.{seen};
ghost use Rattle.pure_unify_visits.specs.Scanned.{IsScan, IsAt, IsReady, IsTurned, IsReadyTurn};

use crate::retypes::retyped_node;
use crate::scan::{Scan, Turn, Visited, discard, put_behind, scan_of};
use crate::settings::put;
use crate::splits::{split, split_at};
use pure_norm::NormFault;
use pure_order::Order;
use pure_term::Typ;
use pure_theorem::Pair;
use pure_unify_steps::{Node, Treatment, direct_entry, treatment_of};
use std::alloc::Global;

/// The pair is passed: no rule applies to it.
fn pass(scan: Scan, pair: Pair) -> Result<Turn, NormFault>
    requires ready { IsReady scan }
    requires long { IsLongPair pair }
    requires treated { rules.IsTreatment pair.left pair.right rules.Leave }
    ensures answer { (A : Algebra) (maxidx : ℕ) (n : node.Node) → IsAt scan pair n → IsTurned A maxidx n result }
    ensures ready { IfOk result IsReadyTurn }
{
    let mut scan = scan;
    put_behind(&mut scan.passed, pair)?;
    Ok(Turn::Onward(scan))
}

/// What comes of a pair whose sides' types differ: they are unified.
fn differ(
    alloc: Global,
    order: &Order,
    maxidx: u32,
    scan: Scan,
    pair: Pair,
    typs: &(Typ, Typ),
) -> Result<Turn, NormFault>
    requires room { maxidx + 66 < 2 ^ 32 }
    requires ready { IsReady scan }
    requires long { IsLongPair pair }
    requires treated { rules.IsTreatment pair.left pair.right (rules.Differ typs.now.0 typs.now.1) }
    ensures answer { (n : node.Node) → IsAt scan pair n → IsTurned order.now maxidx n result }
    ensures ready { IfOk result IsReadyTurn }
{
    match retyped_node(alloc, order, maxidx, scan, pair, typs) {
        Ok(Some(node)) => Ok(Turn::Onward(scan_of(alloc, node))),
        Ok(None) => Ok(Turn::Ends(Visited::Failed)),
        Err(fault) => Err(fault),
    }
}

/// What comes of a pair with constants of one name as heads: their types are unified, and it is split then.
fn unify(
    alloc: Global,
    order: &Order,
    maxidx: u32,
    scan: Scan,
    pair: Pair,
    typs: &(Typ, Typ),
) -> Result<Turn, NormFault>
    requires room { maxidx + 66 < 2 ^ 32 }
    requires ready { IsReady scan }
    requires long { IsLongPair pair }
    requires treated { rules.IsTreatment pair.left pair.right (rules.Unify typs.now.0 typs.now.1) }
    ensures answer { (n : node.Node) → IsAt scan pair n → IsTurned order.now maxidx n result }
    ensures ready { IfOk result IsReadyTurn }
{
    let count = scan.passed.len();
    match retyped_node(alloc, order, maxidx, scan, pair, typs) {
        Ok(Some(node)) => Ok(Turn::Onward(split_at(alloc, node, count)?)),
        Ok(None) => Ok(Turn::Ends(Visited::Failed)),
        Err(fault) => Err(fault),
    }
}

/// Lets go of types.
fn discard_typs(_typs: (Typ, Typ)) {}

/// What comes of a node when this pair is treated so.
fn apply(
    alloc: Global,
    order: &Order,
    maxidx: u32,
    scan: Scan,
    pair: Pair,
    how: Treatment,
) -> Result<Turn, NormFault>
    requires room { maxidx + 66 < 2 ^ 32 }
    requires ready { IsReady scan }
    requires long { IsLongPair pair }
    requires treated { rules.IsTreatment pair.left pair.right (seen how) }
    ensures answer { (n : node.Node) → IsAt scan pair n → IsTurned order.now maxidx n result }
    ensures ready { IfOk result IsReadyTurn }
{
    match how {
        Treatment::Leave => pass(scan, pair),
        Treatment::Split => split(alloc, scan, pair),
        Treatment::Dropped => {
            discard(pair);
            Ok(Turn::Onward(scan))
        }
        Treatment::Fail => {
            discard(pair);
            Ok(Turn::Ends(Visited::Failed))
        }
        Treatment::Put(bind) => {
            discard(pair);
            put(alloc, scan, bind)
        }
        Treatment::Differ(typs) => {
            let turn = differ(alloc, order, maxidx, scan, pair, &typs);
            discard_typs(typs);
            turn
        }
        Treatment::Unify(typs) => {
            let turn = unify(alloc, order, maxidx, scan, pair, &typs);
            discard_typs(typs);
            turn
        }
    }
}

/// What comes of a node when this pair is treated by the first rule that applies, or passed.
fn treat_otherwise(
    alloc: Global,
    order: &Order,
    maxidx: u32,
    scan: Scan,
    pair: Pair,
) -> Result<Turn, NormFault>
    requires room { maxidx + 66 < 2 ^ 32 }
    requires ready { IsReady scan }
    requires long { IsLongPair pair }
    ensures answer { (n : node.Node) → IsAt scan pair n → IsTurned order.now maxidx n result }
    ensures ready { IfOk result IsReadyTurn }
{
    match treatment_of(alloc, &pair.left, &pair.right) {
        Ok(how) => apply(alloc, order, maxidx, scan, pair, how),
        Err(_) => {
            discard(pair);
            Err(NormFault::Memory)
        }
    }
}

/// The same, but a variable that is set to the other side as it stands takes that side.
fn treat(
    alloc: Global,
    order: &Order,
    maxidx: u32,
    scan: Scan,
    pair: Pair,
) -> Result<Turn, NormFault>
    requires room { maxidx + 66 < 2 ^ 32 }
    requires ready { IsReady scan }
    requires long { IsLongPair pair }
    ensures answer { (n : node.Node) → IsAt scan pair n → IsTurned order.now maxidx n result }
    ensures ready { IfOk result IsReadyTurn }
{
    match direct_entry(pair) {
        Ok(bind) => put(alloc, scan, bind),
        Err(pair) => treat_otherwise(alloc, order, maxidx, scan, pair),
    }
}

/// One turn: the first pair still to come is treated by the first rule that applies, or it is passed; where none is left the node is simple.
pub fn take_turn(alloc: Global, order: &Order, maxidx: u32, scan: Scan) -> Result<Turn, NormFault>
    requires room { maxidx + 66 < 2 ^ 32 }
    requires ready { IsReady scan }
    ensures answer { (n : node.Node) → IsScan scan n → IsTurned order.now maxidx n result }
    ensures ready { IfOk result IsReadyTurn }
{
    let Scan {
        passed,
        mut rest,
        path,
    } = scan;
    match rest.pop() {
        Some(pair) => {
            let scan = Scan { passed, rest, path };
            treat(alloc, order, maxidx, scan, pair)
        }
        None => {
            let node = Node {
                pairs: passed,
                path,
            };
            Ok(Turn::Ends(Visited::Simple(node)))
        }
    }
}
