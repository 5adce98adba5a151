//! What lines conclude, one after the other.
ghost use Rattle.std.specs.Prelude.{◌≡◌, ◌≤◌, ◌+◌, ◌<◌, IsTrue, [], ◌∷◌, ◌++◌, MatchOption, OnOk, None, Some, slice_get};
ghost use Rattle.pure_text.specs.Lists.{Each};
ghost use Rattle.pure_logic.specs.Content.{IsContent, IsBelow};
ghost use Rattle.pure_logic.specs.PureContent.{pure_content};
ghost use Rattle.pure_definitions.specs.Terms.Term.{term_size};
ghost use Rattle.pure_definitions.specs.Terms.Bounds.{IsClosed};
ghost use Rattle.pure_record.specs.Seen.{seen_node, seen_lines};
ghost use Rattle.pure_replay.specs.Step.{plain_content, IsStep};
ghost use Rattle.pure_replay.specs.Figures.{GivesAllIntro, GivesAllElim, GivesImpliesIntro, GivesImpliesElim};
ghost use Rattle.pure_replay.specs.Lines.{terms_size, conclusion_size, most_size};
ghost use Rattle.pure_definitions.specs.Terms.Term as tree;
ghost use Rattle.pure_logic.specs.Connectives.{imp};
ghost use Rattle.pure_replay.specs.Conclusion as conclusion;
ghost use Rattle.pure_replay.specs.Known.{AreNumbered};
ghost use Rattle.pure_replay.specs.Inferred.{HasAt, Infers};
ghost use Rattle.pure_replay.specs.Replayed.{IsConcluded};
ghost use Rattle.pure_replay.specs.Table.{HasRoom, IsPut, IsStepped, AreConcluded, IsLast, fault_of};

use crate::conclusion::Conclusion;
use crate::equality::{beta, ext, iff, refl, subst};
use crate::fault::{NodeFault, ReplayFault};
use crate::implication::{assume, implies_elim, implies_intro};
use crate::instance::axiom;
use crate::items::cut_place;
use crate::known::Known;
use crate::quantification::{all_elim, all_intro};
use crate::tables::Declared;
use pure_record::Node;
use pure_term::{Term, is_within, whole_size};
use std::alloc::{AllocError, Global};

/// The most that the sizes of the conclusions and hypotheses of all lines sum to.
const MOST_SIZE: u64 = 2_000_000;

/// What the line with this number concludes; none exactly where there is no such line.
fn conclusion_at(earlier: &[Conclusion], line: u32) -> Option<&Conclusion>
    ensures { MatchOption result (slice_get earlier.now line ≡ None) (λ c. slice_get earlier.now line ≡ Some c.now) }
{
    earlier.get(line as usize)
}

/// The quantification of what the line concludes.
fn all_intro_of(
    alloc: Global,
    declared: &Declared,
    earlier: &[Conclusion],
    x: &Term,
    line: u32,
) -> Result<Conclusion, NodeFault>
    requires { Each (λ c. IsClosed c.prop) earlier.now }
    ensures { IsStep (λ c. HasAt earlier.now line (λ e. GivesAllIntro (plain_content declared.now) x.now e c)) result }
{
    match conclusion_at(earlier, line) {
        None => Err(NodeFault::Wrong),
        Some(above) => all_intro(alloc, declared, x, above),
    }
}

/// An instance of what the line concludes.
fn all_elim_of(
    alloc: Global,
    declared: &Declared,
    earlier: &[Conclusion],
    t: &Term,
    line: u32,
) -> Result<Conclusion, NodeFault>
    ensures { IsStep (λ c. HasAt earlier.now line (λ e. GivesAllElim (plain_content declared.now) t.now e c)) result }
{
    match conclusion_at(earlier, line) {
        None => Err(NodeFault::Wrong),
        Some(above) => all_elim(alloc, declared, t, above),
    }
}

/// The implication of what the line concludes.
fn implies_intro_of(
    alloc: Global,
    declared: &Declared,
    earlier: &[Conclusion],
    a: &Term,
    line: u32,
) -> Result<Conclusion, NodeFault>
    ensures { IsStep (λ c. HasAt earlier.now line (λ e. GivesImpliesIntro (plain_content declared.now) a.now e c)) result }
{
    match conclusion_at(earlier, line) {
        None => Err(NodeFault::Wrong),
        Some(above) => implies_intro(alloc, declared, a, above),
    }
}

/// What follows from an implication and what the line concludes.
fn implies_elim_by(
    alloc: Global,
    earlier: &[Conclusion],
    implication: &Conclusion,
    line: u32,
    is_known: bool,
) -> Result<Conclusion, NodeFault>
    requires { IsTrue is_known → (f : conclusion.Conclusion) → slice_get earlier.now line ≡ Some f → (A C : tree.Term) → implication.now.prop ≡ imp A C → A ≡ f.prop }
    ensures { IsStep (λ c. HasAt earlier.now line (λ f. GivesImpliesElim implication.now f c)) result }
{
    match conclusion_at(earlier, line) {
        None => Err(NodeFault::Wrong),
        Some(premise) => implies_elim(alloc, implication, premise, is_known),
    }
}

/// What follows from what the two lines conclude.
fn implies_elim_of(
    alloc: Global,
    earlier: &[Conclusion],
    known: &Known,
    implication: u32,
    premise: u32,
) -> Result<Conclusion, NodeFault>
    requires { AreNumbered known.now.terms.items earlier.now known.now.lines.items }
    ensures { IsStep (λ c. HasAt earlier.now implication (λ e. HasAt earlier.now premise (λ f. GivesImpliesElim e f c))) result }
{
    let is_known = known.are_same(implication, premise);
    match conclusion_at(earlier, implication) {
        None => Err(NodeFault::Wrong),
        Some(above) => implies_elim_by(alloc, earlier, above, premise, is_known),
    }
}

/// What the node concludes behind the earlier lines.
fn concluded(
    alloc: Global,
    declared: &Declared,
    earlier: &[Conclusion],
    known: &Known,
    node: &Node,
) -> Result<Conclusion, NodeFault>
    requires closed { Each (λ c. IsClosed c.prop) earlier.now }
    requires numbered { AreNumbered known.now.terms.items earlier.now known.now.lines.items }
    ensures { IsStep (Infers (plain_content declared.now) earlier.now (seen_node node.now)) result }
{
    match node {
        Node::Axiom { name, typs, terms } => axiom(alloc, declared, *name, typs, terms),
        Node::Assume { prop } => assume(alloc, declared, prop),
        Node::AllIntro { var, line } => all_intro_of(alloc, declared, earlier, var, *line),
        Node::AllElim { term, line } => all_elim_of(alloc, declared, earlier, term, *line),
        Node::ImpIntro { prop, line } => implies_intro_of(alloc, declared, earlier, prop, *line),
        Node::ImpElim { imp, prem } => implies_elim_of(alloc, earlier, known, *imp, *prem),
        Node::Beta { term } => beta(alloc, declared, term),
        Node::Refl { term } => refl(alloc, declared, term),
        Node::Subst { p, x, y } => subst(alloc, declared, p, x, y),
        Node::Ext { f, g } => ext(alloc, declared, f, g),
        Node::Iff { a, b } => iff(alloc, declared, a, b),
    }
}

/// What is left of the room when the term is put in.
fn term_leaves(left: u64, t: &Term) -> Option<u64>
    requires { left ≤ most_size }
    ensures { MatchOption result (left < term_size t.now) (λ rest. rest + term_size t.now ≡ left) }
{
    let size = whole_size(t);
    if size > left { None } else { Some(left - size) }
}

/// What is left of the room when the terms are put in.
fn terms_leave(left: u64, terms: &[Term]) -> Option<u64>
    requires { left ≤ most_size }
    ensures { MatchOption result (left < terms_size terms.now) (λ rest. rest + terms_size terms.now ≡ left) }
{
    let mut rest = left;
    for t in terms {
        let Some(less) = term_leaves(rest, t) else {
            return None;
        };
        rest = less;
    }
    Some(rest)
}

/// What is left of the room when the conclusion is put in.
fn conclusion_leaves(left: u64, conclusion: &Conclusion) -> Option<u64>
    requires { left ≤ most_size }
    ensures { MatchOption result (left < conclusion_size conclusion.now) (λ rest. rest + conclusion_size conclusion.now ≡ left) }
{
    let Some(rest) = term_leaves(left, &conclusion.prop) else {
        return None;
    };
    terms_leave(rest, &conclusion.hyps)
}

/// What is left of the room when the conclusion is put in; none exactly where it doesn't fit.
fn fitting(left: u64, conclusion: &Conclusion) -> Option<u64>
    requires { left ≤ most_size }
    ensures { MatchOption result (¬ HasRoom left conclusion.now) (λ rest. HasRoom left conclusion.now × (rest + conclusion_size conclusion.now ≡ left)) }
{
    if !is_within(&conclusion.prop) {
        return None;
    }
    conclusion_leaves(left, conclusion)
}

/// What the lines so far conclude, and what they leave of the room for sizes.
#[derive(Drop)]
struct Table {
    conclusions: Vec<Conclusion>,
    left: u64,
    known: Known,
}

/// The fault of the line at the place.
fn fault_at(fault: NodeFault, place: usize) -> ReplayFault
    ensures { result ≡ fault_of fault place }
{
    match fault {
        NodeFault::Wrong => ReplayFault::Line {
            line: cut_place(place),
        },
        NodeFault::Big => ReplayFault::Big {
            line: cut_place(place),
        },
        NodeFault::Memory => ReplayFault::Memory,
    }
}

/// Puts the conclusion behind the others.
fn append(conclusions: &mut Vec<Conclusion>, last: Conclusion) -> Result<(), AllocError>
    ensures { OnOk result (conclusions.new.items ≡ conclusions.old.items ++ last ∷ []) }
{
    conclusions.push(last)?;
    Ok(())
}

/// Puts the conclusion behind those of the lines before it.
fn push(alloc: Global, table: &mut Table, last: Conclusion, place: usize) -> Result<(), ReplayFault>
    requires { table.old.left ≤ most_size }
    ensures numbered { AreNumbered table.old.known.terms.items table.old.conclusions.items table.old.known.lines.items → OnOk result (AreNumbered table.new.known.terms.items table.new.conclusions.items table.new.known.lines.items) }
    ensures put { IsPut table.old.conclusions.items table.old.left table.new.conclusions.items table.new.left last place result }
{
    let Some(left) = fitting(table.left, &last) else {
        return Err(ReplayFault::Big {
            line: cut_place(place),
        });
    };
    table.known.add_line(alloc, &last.prop)?;
    append(&mut table.conclusions, last)?;
    table.left = left;
    Ok(())
}

/// Puts what the node at the place concludes behind the conclusions of the lines before it.
fn step(
    alloc: Global,
    declared: &Declared,
    table: &mut Table,
    node: &Node,
    place: usize,
) -> Result<(), ReplayFault>
    requires closed { Each (λ c. IsClosed c.prop) table.old.conclusions.items }
    requires room { table.old.left ≤ most_size }
    requires numbered { AreNumbered table.old.known.terms.items table.old.conclusions.items table.old.known.lines.items }
    ensures numbered { OnOk result (AreNumbered table.new.known.terms.items table.new.conclusions.items table.new.known.lines.items) }
    ensures stepped { IsStepped (plain_content declared.now) (seen_node node.now) place table.old.conclusions.items table.old.left table.new.conclusions.items table.new.left result }
{
    match concluded(
        alloc,
        declared,
        table.conclusions.as_slice(),
        &table.known,
        node,
    ) {
        Err(fault) => Err(fault_at(fault, place)),
        Ok(last) => push(alloc, table, last, place),
    }
}

/// What the lines of the nodes conclude.
fn conclusions(
    alloc: Global,
    declared: &Declared,
    nodes: &[Node],
) -> Result<Vec<Conclusion>, ReplayFault>
    requires content { IsContent (plain_content declared.now) }
    requires above { IsBelow pure_content (plain_content declared.now) }
    ensures { AreConcluded (λ cs. cs.items) (plain_content declared.now) (seen_lines nodes.now) result }
{
    let mut table = Table {
        conclusions: Vec::new(alloc),
        left: MOST_SIZE,
        known: Known::empty(alloc),
    };
    for (place, node) in nodes.iter().enumerate() {
        match step(alloc, declared, &mut table, node, place) {
            Ok(()) => {}
            Err(fault) => return Err(fault),
        }
    }
    Ok(table.conclusions)
}

/// The proposition of the last line, where it has no hypothesis.
fn last_of(alloc: Global, conclusions: &[Conclusion]) -> Result<Term, ReplayFault>
    ensures { IsLast conclusions.now result }
{
    let count = conclusions.len();
    if count == 0 {
        return Err(ReplayFault::Empty);
    }
    let last = &conclusions[count - 1];
    if last.hyps.len() != 0 {
        return Err(ReplayFault::Open);
    }
    Ok(last.prop.copy(alloc)?)
}

/// The proposition of the last of the lines of the nodes, where it has no hypothesis.
pub(crate) fn last_proposition(
    alloc: Global,
    declared: &Declared,
    nodes: &[Node],
) -> Result<Term, ReplayFault>
    requires content { IsContent (plain_content declared.now) }
    requires above { IsBelow pure_content (plain_content declared.now) }
    ensures { IsConcluded (plain_content declared.now) (seen_lines nodes.now) result }
{
    match conclusions(alloc, declared, nodes) {
        Ok(concluded) => last_of(alloc, &concluded),
        Err(fault) => Err(fault),
    }
}
