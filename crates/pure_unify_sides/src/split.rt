//! The pairs of the arguments of two sides.
ghost use Rattle.std.specs.Prelude.{◌≡◌, ◌++◌, length, IfOk, OnOk};
ghost use Rattle.pure_unify_definitions.specs.Fronts as fronts;

use crate::fronts::term_body;
use pure_term::{Term, TermNode};
use pure_theorem::Pair;
use std::alloc::{AllocError, Global};
use std::sync::Arc;

/// The part below the abstractions of the side: where there are none, the same part.
fn block_below(alloc: Global, side: &Term, part: &Arc<Term>) -> Result<Arc<Term>, AllocError>
    ensures { IfOk result (λ t. t.value ≡ fronts.below (fronts.abstractions side.now) part.now.value) }
{
    match &side.node {
        TermNode::Abs { typ, body, .. } => {
            let typ = typ.copy(alloc)?;
            let body = block_below(alloc, body, part)?;
            Ok(Arc::new(alloc, Term::abs(typ, body))?)
        }
        _ => Arc::try_clone(part),
    }
}

/// The part below the abstractions of the side.
fn below_abstractions(alloc: Global, side: &Term, part: &Arc<Term>) -> Result<Term, AllocError>
    ensures { IfOk result (λ t. t ≡ fronts.below (fronts.abstractions side.now) part.now.value) }
{
    let whole = block_below(alloc, side, part)?;
    Ok(whole.copy(alloc)?)
}

/// The pair of an argument of each side, below the abstractions.
fn argument_pair(
    alloc: Global,
    l: &Term,
    r: &Term,
    a: &Arc<Term>,
    b: &Arc<Term>,
) -> Result<Pair, AllocError>
    ensures { IfOk result (λ p. p ≡ fronts.pair (fronts.below (fronts.abstractions l.now) a.now.value) (fronts.below (fronts.abstractions r.now) b.now.value)) }
{
    let left = below_abstractions(alloc, l, a)?;
    let right = below_abstractions(alloc, r, b)?;
    Ok(Pair { left, right })
}

/// Puts the pairs of the arguments of two applications, which have as many, behind those of the list.
fn push_pairs(
    alloc: Global,
    pairs: &mut Vec<Pair>,
    l: &Term,
    r: &Term,
    f: &Term,
    g: &Term,
) -> Result<(), AllocError>
    requires { length (fronts.arguments f.now) ≡ length (fronts.arguments g.now) }
    ensures { OnOk result (pairs.new.items ≡ pairs.old.items ++ fronts.pairs_below (fronts.abstractions l.now) (fronts.abstractions r.now) (fronts.arguments f.now) (fronts.arguments g.now)) }
{
    match (&f.node, &g.node) {
        (
            TermNode::App { fun, arg, .. },
            TermNode::App {
                fun: other,
                arg: second,
                ..
            },
        ) => {
            push_pairs(alloc, pairs, l, r, fun, other)?;
            pairs.push(argument_pair(alloc, l, r, arg, second)?)?;
            Ok(())
        }
        _ => Ok(()),
    }
}

/// Puts the pairs of the arguments of two sides, whose heads have as many, behind those of the list.
pub fn push_argument_pairs(
    alloc: Global,
    pairs: &mut Vec<Pair>,
    l: &Term,
    r: &Term,
) -> Result<(), AllocError>
    requires { length (fronts.arguments (fronts.term_body l.now)) ≡ length (fronts.arguments (fronts.term_body r.now)) }
    ensures { OnOk result (pairs.new.items ≡ pairs.old.items ++ fronts.argument_pairs l.now r.now) }
{
    push_pairs(alloc, pairs, l, r, term_body(l), term_body(r))?;
    Ok(())
}
