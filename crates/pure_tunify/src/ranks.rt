//! Ranks of classes of nodes: the classes of a constructor's arguments have lesser ones than its own, where there is no circle.
ghost use Rattle.std.specs.Prelude.{◌≡◌, ◌≢◌, ◌<◌, ℕ, map, slice_get, Some, MatchBool};
ghost use Rattle.std.specs.Bool.{OnTrue};
ghost use Rattle.pure_text.specs.Lists.{Each};
ghost use Rattle.pure_definitions.specs.Types.Order.{Algebra};
ghost use Rattle.pure_tunify.specs.Graphs.{AreRanked};
ghost use Rattle.pure_tunify.specs.GraphCode.{part_of, root_at, shape_at, rank_at, IsRankedAt, HasUnranked, HasStuckKid, AreNeverMet};

use crate::classes::number_at;
use crate::graph::Node;
use std::alloc::{AllocError, Global};

/// Of each class how many arguments wait for a rank, and the classes whose shapes have it as an argument; the classes that
/// wait for none; and the ranks so far, with 0 for none.
#[derive(Drop)]
struct Ranking {
    waits: Vec<usize>,
    users: Vec<Vec<usize>>,
    ready: Vec<usize>,
    ranks: Vec<usize>,
}

/// The rank of a class.
fn rank_of(ranks: &[usize], class: usize) -> usize
    ensures { result ≡ rank_at ranks.now class }
{
    match ranks.get(class) {
        None => 0,
        Some(rank) => *rank,
    }
}

/// Keeps that one class uses another.
fn use_kid(ranking: &mut Ranking, kid: usize, user: usize) -> Result<(), AllocError> {
    if kid < ranking.users.len() {
        ranking.users[kid].push(user)?;
    }
    Ok(())
}

/// Begins with a class: what its shape uses. One that isn't its own root is passed over.
fn begin_class(
    ranking: &mut Ranking,
    nodes: &[Node],
    roots: &[usize],
    shapes: &[usize],
    class: usize,
) -> Result<(), AllocError> {
    if number_at(roots, class) != class {
        ranking.waits.push(0)?;
        ranking.ranks.push(1)?;
        return Ok(());
    }
    ranking.ranks.push(0)?;
    let shape = number_at(shapes, class);
    if let Some(Node::Made { kids, .. }) = nodes.get(shape) {
        let kids = kids.as_slice();
        for kid in kids {
            use_kid(ranking, number_at(roots, *kid), class)?;
        }
        ranking.waits.push(kids.len())?;
        if kids.is_empty() {
            ranking.ready.push(class)?;
        }
        return Ok(());
    }
    ranking.waits.push(0)?;
    ranking.ready.push(class)?;
    Ok(())
}

/// One argument of the class has its rank.
fn wait_less(
    waits: &mut Vec<usize>,
    ready: &mut Vec<usize>,
    class: usize,
) -> Result<(), AllocError> {
    if class < waits.len() {
        let left = waits[class];
        if left > 0 {
            waits[class] = left - 1;
        }
        if left == 1 {
            ready.push(class)?;
        }
    }
    Ok(())
}

/// Gives a class its rank.
fn give_rank(ranking: &mut Ranking, class: usize, rank: usize) -> Result<(), AllocError> {
    if class < ranking.ranks.len() {
        ranking.ranks[class] = rank;
    }
    let (waits, ready) = (&mut ranking.waits, &mut ranking.ready);
    if let Some(users) = ranking.users.as_slice().get(class) {
        for user in users.as_slice() {
            wait_less(waits, ready, *user)?;
        }
    }
    Ok(())
}

/// Nothing is ranked yet.
fn start_ranking(
    alloc: Global,
    nodes: &[Node],
    roots: &[usize],
    shapes: &[usize],
) -> Result<Ranking, AllocError> {
    let mut users = Vec::new(alloc);
    for _ in 0..nodes.len() {
        users.push(Vec::new(alloc))?;
    }
    let mut ranking = Ranking {
        waits: Vec::new(alloc),
        users,
        ready: Vec::new(alloc),
        ranks: Vec::new(alloc),
    };
    for class in 0..nodes.len() {
        begin_class(&mut ranking, nodes, roots, shapes, class)?;
    }
    Ok(ranking)
}

/// The ranks of the classes; 0 where there is none.
pub fn ranks_of(
    alloc: Global,
    nodes: &[Node],
    roots: &[usize],
    shapes: &[usize],
) -> Result<Vec<usize>, AllocError> {
    let mut ranking = start_ranking(alloc, nodes, roots, shapes)?;
    for rank in 1..usize::MAX {
        let Some(class) = ranking.ready.pop() else {
            let Ranking { ranks, .. } = ranking;
            return Ok(ranks);
        };
        give_rank(&mut ranking, class, rank)?;
    }
    Err(AllocError)
}

/// Gives each node the rank of its class.
pub fn spread_ranks(ranks: &mut Vec<usize>, roots: &[usize]) {
    for class in 0..ranks.len() {
        ranks[class] = rank_of(ranks.as_slice(), number_at(roots, class));
    }
}

/// Whether the arguments have lesser ranks.
fn are_below(kids: &[usize], roots: &[usize], ranks: &[usize], most: usize) -> bool
    ensures { OnTrue result (Each (λ kid. rank_at ranks.now (root_at roots.now kid) < most) kids.now) }
{
    for kid in kids {
        if rank_of(ranks, number_at(roots, *kid)) >= most {
            return false;
        }
    }
    true
}

/// Whether the arguments of the class's shape have lesser ranks.
fn is_ranked(
    nodes: &[Node],
    roots: &[usize],
    shapes: &[usize],
    ranks: &[usize],
    class: usize,
) -> bool
    ensures { OnTrue result (IsRankedAt (map part_of nodes.now) roots.now shapes.now ranks.now class) }
{
    match nodes.get(number_at(shapes, class)) {
        None => true,
        Some(Node::Fixed { .. }) => true,
        Some(Node::Variable { .. }) => true,
        Some(Node::Made { kids, .. }) => {
            are_below(kids.as_slice(), roots, ranks, rank_of(ranks, class))
        }
    }
}

/// Whether the arguments of each shape have lesser ranks.
pub fn are_ranked(nodes: &[Node], roots: &[usize], shapes: &[usize], ranks: &[usize]) -> bool
    ensures { OnTrue result (AreRanked (root_at roots.now) (shape_at (map part_of nodes.now) shapes.now) (rank_at ranks.now)) }
{
    if shapes.len() < nodes.len() {
        return false;
    }
    for class in 0..shapes.len() {
        if !is_ranked(nodes, roots, shapes, ranks, class) {
            return false;
        }
    }
    true
}

/// Whether the class has no rank.
fn is_unranked(ranks: &[usize], class: usize) -> bool
    ensures { MatchBool result (slice_get ranks.now class ≡ Some 0) (slice_get ranks.now class ≢ Some 0) }
{
    match ranks.get(class) {
        None => false,
        Some(rank) => *rank == 0,
    }
}

/// Whether an argument is of a class without a rank.
fn has_unranked(kids: &[usize], roots: &[usize], ranks: &[usize]) -> bool
    ensures { OnTrue result (HasUnranked roots.now ranks.now kids.now) }
{
    for kid in kids {
        let root = number_at(roots, *kid);
        if is_unranked(ranks, root) {
            return true;
        }
    }
    false
}

/// Whether the class's shape has an argument of a class without a rank.
fn is_stuck(
    nodes: &[Node],
    roots: &[usize],
    shapes: &[usize],
    ranks: &[usize],
    class: usize,
) -> bool
    ensures { OnTrue result (HasStuckKid (map part_of nodes.now) roots.now shapes.now ranks.now class) }
{
    match nodes.get(number_at(shapes, class)) {
        None => false,
        Some(Node::Fixed { .. }) => false,
        Some(Node::Variable { .. }) => false,
        Some(Node::Made { kids, .. }) => has_unranked(kids.as_slice(), roots, ranks),
    }
}

/// Whether the class has a rank, or is stuck.
fn is_ranked_or_stuck(
    nodes: &[Node],
    roots: &[usize],
    shapes: &[usize],
    ranks: &[usize],
    class: usize,
) -> bool
    ensures { OnTrue result (slice_get ranks.now class ≡ Some 0 → HasStuckKid (map part_of nodes.now) roots.now shapes.now ranks.now class) }
{
    if !is_unranked(ranks, class) {
        return true;
    }
    if !is_stuck(nodes, roots, shapes, ranks, class) {
        return false;
    }
    true
}

/// Whether each class has a rank, or is stuck.
fn all_ranked_or_stuck(nodes: &[Node], roots: &[usize], shapes: &[usize], ranks: &[usize]) -> bool
    ensures { OnTrue result ((r : ℕ) → slice_get ranks.now r ≡ Some 0 → HasStuckKid (map part_of nodes.now) roots.now shapes.now ranks.now r) }
{
    for class in 0..ranks.len() {
        if !is_ranked_or_stuck(nodes, roots, shapes, ranks, class) {
            return false;
        }
    }
    true
}

/// Whether some class has no rank.
fn some_unranked(ranks: &[usize]) -> bool
    ensures { OnTrue result ((r : ℕ) × (slice_get ranks.now r ≡ Some 0)) }
{
    for class in 0..ranks.len() {
        if is_unranked(ranks, class) {
            return true;
        }
    }
    false
}

/// Whether some class has no rank, and each such one has an argument of such a one: then the nodes never have values.
pub fn are_circular(nodes: &[Node], roots: &[usize], shapes: &[usize], ranks: &[usize]) -> bool
    ensures { OnTrue result ((A : Algebra) → AreNeverMet A (map part_of nodes.now) roots.now shapes.now) }
{
    if !all_ranked_or_stuck(nodes, roots, shapes, ranks) {
        return false;
    }
    if !some_unranked(ranks) {
        return false;
    }
    true
}
