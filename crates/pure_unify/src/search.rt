//! The search: the nodes to come, and one turn.
ghost use Rattle.std.specs.Prelude.{◌≡◌, ◌+◌, ◌<◌, ◌^◌, ◌∷◌, ◌++◌, [], List, ℕ, IfOk, IfSome, OnOk};
ghost use Rattle.pure_text.specs.Lists.{Each};
ghost use Rattle.pure_definitions.specs.Types.Order.{Algebra};
ghost use Rattle.pure_definitions.specs.Terms.Typing.{HasType};
ghost use Rattle.pure_unify_definitions.specs.Children.{child};
ghost use Rattle.pure_unify_definitions.specs.Node as nodes;
ghost use Rattle.pure_unify_definitions.specs.Search as answers;
ghost use Rattle.pure_unify_steps.specs.Held.{IsNode};
ghost use Rattle.pure_unify.specs.Later.{IsSingle};
ghost use Rattle.pure_unify.specs.Resolved.{HasPairs};
ghost use Rattle.pure_unify.specs.Unified.{IsToldAs};
ghost use Rattle.pure_unify.specs.Frames.{IsSimpleHeld, IsSimpleVisit, IsFrame, HoldNodes, IsReady, CanGoOn, IsStep, IsStopOf, IsAfterVisit, IsAfterSimple, IsSuccess, AreLeftOver};

use crate::branch::{Branch, Chosen, chosen_at, next_image};
use crate::child::visit_child;
use crate::fault::UnifyFault;
use crate::sharing::shared_node;
use crate::unifier::{Unifier, unifier_of};
use pure_norm::NormFault;
use pure_order::Order;
use pure_term::{Grow, Term};
use pure_unify_steps::Node;
use pure_unify_visits::Visited;
use std::alloc::{AllocError, Global};

/// How many nodes are visited.
pub const MAX_NODES: u32 = 10_000;

/// A node that was visited, and the images that are still to be tried: its children to come.
#[derive(Drop)]
pub struct Frame {
    pub node: Node,
    pub branch: Branch,
}

/// The search as it stands: the nodes to come, those of the last frame first; how many were visited; and whether one of these was cut.
#[derive(Drop)]
pub struct Search {
    pub frames: Vec<Frame>,
    pub visited: u32,
    pub cut: bool,
}

/// Puts the frame behind the others.
fn put_frame(search: &mut Search, frame: Frame) -> Result<(), AllocError>
    ensures frames { OnOk result (search.new.frames.items ≡ search.old.frames.items ++ frame ∷ []) }
    ensures visited { search.new.visited ≡ search.old.visited }
    ensures cut { search.new.cut ≡ search.old.cut }
{
    search.frames.push(frame)?;
    Ok(())
}

/// The unifier of a success as the answer.
fn succeed(alloc: Global, node: Node) -> Result<Option<Unifier>, UnifyFault>
    requires singles { Each IsSingle node.path.settings.items }
    ensures answer { (m : nodes.Node) → IsNode node m → IsSuccess m result }
    ensures pairs { IfOk result (λ o. IfSome o (HasPairs node.pairs.items)) }
{
    match unifier_of(alloc, node) {
        Ok(unifier) => Ok(Some(unifier)),
        Err(Grow::Big) => Err(UnifyFault::Big),
        Err(Grow::Memory) => Err(UnifyFault::Memory),
    }
}

/// What becomes of the search at a simple node: it is a success; or it is cut; or its children come next.
fn settle(
    alloc: Global,
    maxidx: u32,
    search: &mut Search,
    node: Node,
) -> Result<Option<Unifier>, UnifyFault>
    requires room { maxidx + 66 < 2 ^ 32 }
    requires go { CanGoOn search.old }
    requires simple { IsSimpleHeld node }
    ensures answer { IsAfterSimple maxidx search.old search.new node result }
    ensures go { IfOk result (λ o. CanGoOn search.new) }
    ensures left { IfOk result AreLeftOver }
{
    match chosen_at(alloc, maxidx, &node.pairs, node.path.choices) {
        Ok(Chosen::Nothing) => succeed(alloc, node),
        Ok(Chosen::Cut) => {
            search.cut = true;
            Ok(None)
        }
        Ok(Chosen::At(branch)) => {
            put_frame(search, Frame { node, branch })?;
            Ok(None)
        }
        Err(_) => Err(UnifyFault::Memory),
    }
}

/// The same, with the node's equal arguments shared before it is kept.
fn settle_shared(
    alloc: Global,
    maxidx: u32,
    search: &mut Search,
    node: Node,
) -> Result<Option<Unifier>, UnifyFault>
    requires room { maxidx + 66 < 2 ^ 32 }
    requires go { CanGoOn search.old }
    requires simple { IsSimpleHeld node }
    ensures answer { IsAfterSimple maxidx search.old search.new node result }
    ensures go { IfOk result (λ o. CanGoOn search.new) }
    ensures left { IfOk result AreLeftOver }
{
    match shared_node(alloc, node) {
        Ok(shared) => settle(alloc, maxidx, search, shared),
        Err(_) => Err(UnifyFault::Memory),
    }
}

/// The answer where a node stops the search.
fn stop_of(fault: NormFault) -> UnifyFault
    ensures { IsStopOf fault result }
{
    match fault {
        NormFault::Steps => UnifyFault::Steps,
        NormFault::Big => UnifyFault::Big,
        NormFault::Memory => UnifyFault::Memory,
    }
}

/// What becomes of the search when the node that was counted last comes to this.
pub fn after_visit(
    alloc: Global,
    maxidx: u32,
    search: &mut Search,
    outcome: Result<Visited, NormFault>,
) -> Result<Option<Unifier>, UnifyFault>
    requires room { maxidx + 66 < 2 ^ 32 }
    requires go { CanGoOn search.old }
    requires simple { IfOk outcome IsSimpleVisit }
    ensures answer { IsAfterVisit maxidx search.old search.new outcome result }
    ensures go { IfOk result (λ o. CanGoOn search.new) }
    ensures left { IfOk result AreLeftOver }
{
    match outcome {
        Ok(Visited::Simple(node)) => settle_shared(alloc, maxidx, search, node),
        Ok(Visited::Failed) => Ok(None),
        Err(fault) => Err(stop_of(fault)),
    }
}

/// The child of the frame's node that sets its variable to the image is counted and visited.
fn enter(
    alloc: Global,
    order: &Order,
    maxidx: u32,
    search: &mut Search,
    frame: Frame,
    image: Term,
) -> Result<Option<Unifier>, UnifyFault>
    requires room { maxidx + 66 < 2 ^ 32 }
    requires go { CanGoOn search.old }
    requires ready { IsReady frame }
    requires typed { HasType [] image frame.branch.typ }
    ensures answer { (n : nodes.Node) (mine ns : List nodes.Node) → IsNode frame.node n → IsFrame frame mine → HoldNodes search.old.frames.items ns
        → IsStep order.now maxidx (answers.Searches order.now maxidx search.old.visited search.old.cut (child n frame.branch.name frame.branch.index frame.branch.typ image ∷ (mine ++ ns))) search.new result }
    ensures go { IfOk result (λ o. CanGoOn search.new) }
    ensures left { IfOk result AreLeftOver }
{
    if search.visited >= MAX_NODES {
        return Err(UnifyFault::SearchBound);
    }
    search.visited += 1;
    let outcome = visit_child(alloc, order, maxidx, &frame, image);
    put_frame(search, frame)?;
    after_visit(alloc, maxidx, search, outcome)
}

/// The next child of the frame's node is visited, where one is left.
fn explore(
    alloc: Global,
    order: &Order,
    maxidx: u32,
    search: &mut Search,
    frame: Frame,
) -> Result<Option<Unifier>, UnifyFault>
    requires room { maxidx + 66 < 2 ^ 32 }
    requires go { CanGoOn search.old }
    requires ready { IsReady frame }
    ensures answer { (mine ns : List nodes.Node) → IsFrame frame mine → HoldNodes search.old.frames.items ns
        → IsStep order.now maxidx (answers.Searches order.now maxidx search.old.visited search.old.cut (mine ++ ns)) search.new result }
    ensures go { IfOk result (λ o. CanGoOn search.new) }
    ensures left { IfOk result AreLeftOver }
{
    let mut frame = frame;
    match next_image(alloc, &frame.branch) {
        Ok(Some(taken)) => {
            frame.branch.next = taken.next;
            enter(alloc, order, maxidx, search, frame, taken.image)
        }
        Ok(None) => Ok(None),
        Err(_) => Err(UnifyFault::Memory),
    }
}

/// The answer where no node is left.
fn over(cut: bool) -> UnifyFault
    ensures { (A : Algebra) (maxidx k : ℕ) → IsToldAs (answers.Searches A maxidx k cut []) (Err result) }
{
    if cut {
        return UnifyFault::SearchBound;
    }
    UnifyFault::NoUnifier
}

/// One turn of the search: the next node to come is visited, or the last frame goes, which has none.
pub fn take_turn(
    alloc: Global,
    order: &Order,
    maxidx: u32,
    search: &mut Search,
) -> Result<Option<Unifier>, UnifyFault>
    requires room { maxidx + 66 < 2 ^ 32 }
    requires go { CanGoOn search.old }
    ensures answer { (ns : List nodes.Node) → HoldNodes search.old.frames.items ns → IsStep order.now maxidx (answers.Searches order.now maxidx search.old.visited search.old.cut ns) search.new result }
    ensures go { IfOk result (λ o. CanGoOn search.new) }
    ensures left { IfOk result AreLeftOver }
{
    match search.frames.pop() {
        Some(frame) => explore(alloc, order, maxidx, search, frame),
        None => Err(over(search.cut)),
    }
}
