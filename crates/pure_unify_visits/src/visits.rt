//! A node is visited: its sides are brought to long form, and it is simplified.
ghost use Rattle.std.specs.Prelude.{◌≡◌, ◌+◌, ◌<◌, ◌^◌, IfOk};
ghost use Rattle.pure_text.specs.Lists.{Each};
ghost use Rattle.pure_unify_definitions.specs.Node as nodes;
ghost use Rattle.pure_unify_nodes.specs.SideAnswer.{AreSidesTyped};
ghost use Rattle.pure_unify_steps.specs.Held.{IsPath, IsNode};
ghost use Rattle.pure_unify_nodes.specs.Long.{IsLongPair};
ghost use Rattle.pure_unify_visits.specs.Scanned.{IsScan, IsReady};
ghost use Rattle.pure_unify_visits.specs.Visited.{IsSimplified, IsVisitAnswer, IsLongVisit};

use crate::apply::take_turn;
use crate::scan::{Scan, Turn, Visited, scan_of};
use pure_norm::NormFault;
use pure_order::Order;
use pure_theorem::Pair;
use pure_unify_nodes::long_pairs;
use pure_unify_steps::{Node, Path};
use std::alloc::Global;

/// The rules are applied as long as one applies to some pair.
fn simplify(alloc: Global, order: &Order, maxidx: u32, scan: Scan) -> Result<Visited, NormFault>
    requires room { maxidx + 66 < 2 ^ 32 }
    requires ready { IsReady scan }
    ensures answer { (n : nodes.Node) → IsScan scan n → IsSimplified order.now maxidx n result }
    ensures long { IfOk result IsLongVisit }
{
    let mut scan = scan;
    for _ in 0..u64::MAX {
        match take_turn(alloc, order, maxidx, scan) {
            Ok(Turn::Onward(next)) => scan = next,
            Ok(Turn::Ends(visited)) => return Ok(visited),
            Err(fault) => return Err(fault),
        }
    }
    Err(NormFault::Memory)
}

/// What a node with these pairs and this path comes to, whose sides are in long form already.
pub fn visit_long(
    alloc: Global,
    order: &Order,
    maxidx: u32,
    pairs: Vec<Pair>,
    path: Path,
) -> Result<Visited, NormFault>
    requires long { Each IsLongPair pairs.items }
    requires room { maxidx + 66 < 2 ^ 32 }
    ensures answer { (n : nodes.Node) → pairs.items ≡ n.pairs → IsPath path n.path → IsSimplified order.now maxidx n result }
    ensures long { IfOk result IsLongVisit }
{
    let scan = scan_of(alloc, Node { pairs, path });
    simplify(alloc, order, maxidx, scan)
}

/// What a node comes to: the sides of its pairs are brought to long form, and as long as a rule applies to some pair, the
/// first pair to which one applies is treated by the first that applies (SIMPL of Huet, A Unification Algorithm for Typed
/// Lambda-Calculus, 1975). `Steps` and `Big` are what stops the search: the normaliser at a side, or a long form or a
/// unifier of types beyond the limits.
pub fn visit(alloc: Global, order: &Order, maxidx: u32, node: Node) -> Result<Visited, NormFault>
    requires typed { Each AreSidesTyped node.pairs.items }
    requires room { maxidx + 66 < 2 ^ 32 }
    ensures answer { (n : nodes.Node) → IsNode node n → IsVisitAnswer order.now maxidx n result }
    ensures long { IfOk result IsLongVisit }
{
    let Node { pairs, path } = node;
    match long_pairs(alloc, &pairs) {
        Ok(long) => visit_long(alloc, order, maxidx, long, path),
        Err(fault) => Err(fault),
    }
}
