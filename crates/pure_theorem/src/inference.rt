//! Theorems that inferences give, within the limits.
ghost use Rattle.std.specs.Prelude.{◌≡◌, [], ◌++◌, IfOk};
ghost use Rattle.pure_definitions.specs.Terms.Term as tree;
ghost use Rattle.pure_logic.specs.Derivable.{Theorem};
ghost use Rattle.pure_definitions.specs.Models.Comparison.{term_cmp};
ghost use Rattle.pure_theorem.specs.Made.{IsMade};
ghost use Rattle.pure_theorem.specs.Sets.{label_cmp, IsTermSet, IsLabelSet, IsSetOf};
ghost use Rattle.pure_theorem.specs.Answer.{IsAnswer, NoRefusal, IsJoined};

use crate::fault::RuleFault;
use crate::lists::{copied_pairs, copied_terms, extend_pairs};
use crate::sets::{united_labels, united_terms};
use crate::theorem::{Pair, Thm};
use pure_term::{Grow, Label, Term};
use std::alloc::{AllocError, Global};

/// What a theorem holds under: its hypotheses, its pairs and its promises.
#[derive(Drop)]
struct Under {
    hyps: Vec<Term>,
    pairs: Vec<Pair>,
    rests: Vec<Label>,
}

/// Drops the theorem. Apart, since each function that drops one itself pays for all that it holds.
fn discard(_th: Thm) {}

/// Drops the proposition. Apart, as the other `discard`.
fn discard_prop(_prop: Term) {}

/// The theorem itself, where it is within the limits.
pub fn within_limits(th: Thm) -> Result<Thm, RuleFault>
    ensures { IsAnswer (λ made. made ≡ th) NoRefusal result }
{
    if th.is_within() {
        return Ok(th);
    }
    discard(th);
    Err(RuleFault::Big)
}

/// The theorem of the proposition alone.
fn unconditional(alloc: Global, prop: Term) -> Thm
    ensures { result ≡ record { hyps = []; pairs = []; prop = prop; rests = [] } }
{
    let hyps = Vec::new(alloc);
    let pairs = Vec::new(alloc);
    let rests = Vec::new(alloc);
    Thm {
        hyps,
        pairs,
        prop,
        rests,
    }
}

/// The theorem of this proposition without hypotheses, pairs and promises.
pub fn alone(alloc: Global, prop: Result<Term, Grow>) -> Result<Thm, RuleFault>
    ensures { (B : tree.Term) → IsMade B prop → IsAnswer (λ made. made ≡ record { hyps = []; pairs = []; prop = B; rests = [] }) NoRefusal result }
{
    match prop {
        Ok(prop) => within_limits(unconditional(alloc, prop)),
        Err(Grow::Big) => Err(RuleFault::Big),
        Err(Grow::Memory) => Err(RuleFault::Memory),
    }
}

/// What the theorem holds under.
fn copied_under(alloc: Global, th: &Thm) -> Result<Under, AllocError>
    ensures hyps { IfOk result (λ under. under.hyps.items ≡ th.now.hyps) }
    ensures pairs { IfOk result (λ under. under.pairs.items ≡ th.now.pairs) }
    ensures rests { IfOk result (λ under. under.rests.items ≡ th.now.rests) }
    ensures ascend { IsTermSet th.now.hyps × IsLabelSet th.now.rests }
{
    let hyps = copied_terms(alloc, &th.hyps)?;
    let pairs = copied_pairs(alloc, &th.pairs)?;
    let rests = Vec::from_slice(alloc, &th.rests)?;
    Ok(Under { hyps, pairs, rests })
}

/// The theorem with this proposition in place of its own.
fn replaced(alloc: Global, th: &Thm, prop: Term) -> Result<Thm, AllocError>
    ensures { IfOk result (λ made. made ≡ record th.now { prop = prop }) }
{
    match copied_under(alloc, th) {
        Err(fault) => {
            discard_prop(prop);
            Err(fault)
        }
        Ok(under) => {
            let Under { hyps, pairs, rests } = under;
            Ok(Thm {
                hyps,
                pairs,
                prop,
                rests,
            })
        }
    }
}

/// What follows from one theorem: this proposition, in place of the theorem's own.
pub fn from_one(alloc: Global, th: &Thm, prop: Result<Term, Grow>) -> Result<Thm, RuleFault>
    ensures { (B : tree.Term) → IsMade B prop → IsAnswer (λ made. made ≡ record th.now { prop = B }) NoRefusal result }
{
    match prop {
        Ok(prop) => within_limits(replaced(alloc, th, prop)?),
        Err(Grow::Big) => Err(RuleFault::Big),
        Err(Grow::Memory) => Err(RuleFault::Memory),
    }
}

/// The pairs of both, the left theorem's first.
fn joined_pairs(alloc: Global, left: &[Pair], right: &[Pair]) -> Result<Vec<Pair>, AllocError>
    ensures { IfOk result (λ pairs. pairs.items ≡ left.now ++ right.now) }
{
    let mut pairs = copied_pairs(alloc, left)?;
    extend_pairs(alloc, &mut pairs, right)?;
    Ok(pairs)
}

/// What the two hold under.
fn joined_under(alloc: Global, left: &Thm, right: &Thm) -> Result<Under, AllocError>
    ensures hyps { IfOk result (λ under. IsSetOf term_cmp (left.now.hyps ++ right.now.hyps) under.hyps.items) }
    ensures pairs { IfOk result (λ under. under.pairs.items ≡ left.now.pairs ++ right.now.pairs) }
    ensures rests { IfOk result (λ under. IsSetOf label_cmp (left.now.rests ++ right.now.rests) under.rests.items) }
{
    let hyps = united_terms(alloc, &left.hyps, &right.hyps)?;
    let pairs = joined_pairs(alloc, &left.pairs, &right.pairs)?;
    let rests = united_labels(alloc, &left.rests, &right.rests)?;
    Ok(Under { hyps, pairs, rests })
}

/// The theorem of this proposition, under what the two hold under.
fn joined(alloc: Global, left: &Thm, right: &Thm, prop: Term) -> Result<Thm, AllocError>
    ensures { IfOk result (IsJoined left.now right.now prop) }
{
    match joined_under(alloc, left, right) {
        Err(fault) => {
            discard_prop(prop);
            Err(fault)
        }
        Ok(under) => {
            let Under { hyps, pairs, rests } = under;
            Ok(Thm {
                hyps,
                pairs,
                prop,
                rests,
            })
        }
    }
}

/// What follows from two theorems: this proposition, under what the two hold under.
pub fn from_two(alloc: Global, left: &Thm, right: &Thm, prop: Term) -> Result<Thm, RuleFault>
    ensures { IsAnswer (IsJoined left.now right.now prop) NoRefusal result }
{
    within_limits(joined(alloc, left, right, prop)?)
}
