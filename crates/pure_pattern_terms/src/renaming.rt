//! Bound variables renamed at once.
ghost use Rattle.std.specs.Prelude.{◌≡◌, ◌+◌, ◌<◌, ◌^◌, IfOk};
ghost use Rattle.pure_text.specs.Lists.{Each};
ghost use Rattle.pure_definitions.specs.Terms.Term as tree;
ghost use Rattle.pure_definitions.specs.Terms.Term.{term_depth};
ghost use Rattle.pure_pattern_laws.specs.Putting as putting;
ghost use Rattle.pure_pattern_terms.specs.Room.{HaveRoom};

use pure_term::{Term, TermNode, loose_above_of};
use std::alloc::{AllocError, Global};
use std::sync::Arc;

/// What bound variable p becomes under so many binders of a term that is renamed.
fn renamed_place(under: u32, places: &[u32], p: u32) -> u32
    requires places { Each (λ w. w + under < 2 ^ 32) places.now }
    ensures { tree.Bound result ≡ putting.renamed under places.now (tree.Bound p) }
{
    if p < under {
        return p;
    }
    let at = (p - under) as usize;
    if at < places.len() {
        return under + places[at];
    }
    p - places.len() as u32
}

/// A part, under binders of the term, with the bound variables above them renamed by the list. A part in which none is loose is handed back as it is.
pub fn renamed(
    alloc: Global,
    t: &Arc<Term>,
    under: u32,
    places: &[u32],
) -> Result<Arc<Term>, AllocError>
    requires room { HaveRoom (under + term_depth t.now.value) places.now }
    ensures { IfOk result (λ u. u.value ≡ putting.renamed under places.now t.now.value) }
{
    let whole: &Term = t;
    if loose_above_of(whole) <= u64::from(under) {
        return Arc::try_clone(t);
    }
    match &whole.node {
        TermNode::Bound { place } => {
            let place = renamed_place(under, places, *place);
            let node = TermNode::Bound { place };
            Ok(Arc::new(alloc, Term { node })?)
        }
        TermNode::Abs { typ, body, .. } => {
            let typ = typ.copy(alloc)?;
            let body = renamed(alloc, body, under + 1, places)?;
            Ok(Arc::new(alloc, Term::abs(typ, body))?)
        }
        TermNode::App { fun, arg, .. } => {
            let fun = renamed(alloc, fun, under, places)?;
            let arg = renamed(alloc, arg, under, places)?;
            Ok(Arc::new(alloc, Term::app(fun, arg))?)
        }
        _ => Arc::try_clone(t),
    }
}
