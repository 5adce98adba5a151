//! A pair is replaced in its place by the pairs of its arguments.
ghost use Rattle.std.specs.Prelude.{◌≡◌, ℕ, ◌++◌, List, length, reverse, IfOk, OnOk};
ghost use Rattle.pure_text.specs.Lists.{Each};
ghost use Rattle.pure_definitions.specs.Types.Order.{Algebra};
ghost use Rattle.pure_logic.specs.Derivable as logic;
ghost use Rattle.pure_unify_definitions.specs.Fronts.{argument_pairs};
ghost use Rattle.pure_unify_definitions.specs.Node as nodes;
ghost use Rattle.pure_unify_definitions.specs.Simplification.{IsSplitAt};
ghost use Rattle.pure_unify_definitions.specs.Treatment as rules;
ghost use Rattle.pure_unify_steps.specs.Held.{IsNode};
ghost use Rattle.pure_unify_nodes.specs.Long.{IsLongPair};
ghost use Rattle.pure_unify_visits.specs.Scanned.{IsScan, IsAt, IsReady, IsTurned, IsReadyTurn, HasAsMany, HasAsManyAt, ArePairsSplit};

use crate::scan::{Scan, Turn, move_back};
use pure_norm::NormFault;
use pure_theorem::Pair;
use pure_unify_sides::push_argument_pairs;
use pure_unify_steps::Node;
use std::alloc::{AllocError, Global};

/// The pairs of the arguments of a pair that goes.
fn parted(alloc: Global, pair: Pair) -> Result<Vec<Pair>, AllocError>
    requires { HasAsMany pair }
    ensures { IfOk result (λ made. made.items ≡ argument_pairs pair.left pair.right) }
{
    let Pair { left, right } = pair;
    let mut made = Vec::new(alloc);
    push_argument_pairs(alloc, &mut made, &left, &right)?;
    Ok(made)
}

/// Puts the pairs of the arguments of the pair before those still to come.
fn split_into(alloc: Global, rest: &mut Vec<Pair>, pair: Pair) -> Result<(), AllocError>
    requires { HasAsMany pair }
    ensures { OnOk result (rest.new.items ≡ rest.old.items ++ reverse (argument_pairs pair.left pair.right)) }
{
    let made = parted(alloc, pair)?;
    move_back(made, rest)?;
    Ok(())
}

/// What comes of a pair with rigid sides and one head.
pub fn split(alloc: Global, scan: Scan, pair: Pair) -> Result<Turn, NormFault>
    requires ready { IsReady scan }
    requires long { IsLongPair pair }
    requires treated { rules.IsTreatment pair.left pair.right rules.Split }
    ensures answer { (A : Algebra) (maxidx : ℕ) (n : nodes.Node) → IsAt scan pair n → IsTurned A maxidx n result }
    ensures ready { IfOk result IsReadyTurn }
{
    let mut scan = scan;
    split_into(alloc, &mut scan.rest, pair)?;
    Ok(Turn::Onward(scan))
}

/// Takes so many pairs from the front of those still to come.
fn take_pairs(alloc: Global, rest: &mut Vec<Pair>, count: usize) -> Result<Vec<Pair>, AllocError>
    ensures { IfOk result (λ taken. (taken.items ++ reverse rest.new.items ≡ reverse rest.old.items) × (length taken.items ≡ count)) }
{
    let mut taken = Vec::with_capacity(alloc, count)?;
    for _ in 0..count {
        let Some(pair) = rest.pop() else {
            return Err(AllocError);
        };
        taken.push(pair)?;
    }
    Ok(taken)
}

/// Replaces the pair behind so many others by the pairs of its arguments.
fn split_pairs(alloc: Global, rest: &mut Vec<Pair>, count: usize) -> Result<(), AllocError>
    requires { HasAsManyAt (reverse rest.old.items) count }
    ensures { OnOk result (ArePairsSplit count (reverse rest.old.items) (reverse rest.new.items)) }
{
    let before = take_pairs(alloc, rest, count)?;
    let Some(pair) = rest.pop() else {
        return Err(AllocError);
    };
    split_into(alloc, rest, pair)?;
    move_back(before, rest)?;
    Ok(())
}

/// A scan of the node from the front, with the pair behind so many others replaced by the pairs of its arguments.
pub fn split_at(alloc: Global, node: Node, count: usize) -> Result<Scan, AllocError>
    requires long { Each IsLongPair node.pairs.items }
    requires many { HasAsManyAt node.pairs.items count }
    ensures node { (front : List logic.Pair) (m : nodes.Node) → length front ≡ count → IsNode node m → IfOk result (λ scan. (split : nodes.Node) × IsScan scan split × IsSplitAt front m split) }
    ensures ready { IfOk result IsReady }
{
    let Node { mut pairs, path } = node;
    pairs.reverse();
    split_pairs(alloc, &mut pairs, count)?;
    Ok(Scan {
        passed: Vec::new(alloc),
        rest: pairs,
        path,
    })
}
