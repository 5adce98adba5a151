//! Terms, their copies and their order.
ghost use Rattle.std.specs.Prelude.{◌≡◌, IfOk, refl};
ghost use Rattle.std.specs.Cmp.{partial_equiv_from_equiv, po};
ghost use Rattle.std.specs.Ordering.{as_partial_cmp};
ghost use Rattle.pure_definitions.specs.Terms.Term.{Abs, App, term_eq};
ghost use Rattle.pure_definitions.specs.Models.Equality.{term_eq-equiv};
ghost use Rattle.pure_definitions.specs.Models.Comparison.{term_rank, term_cmp, term_cmp-total, term_cmp-ties};

use crate::measure::{abs_measures, app_measures};
use pure_typ::{Name, Typ};
use std::alloc::{AllocError, Global};
use std::cmp::Ordering;
use std::marker::Model;
use std::sync::Arc;

/// A term.
#[cycle(term)]
#[derive(Debug, Drop)]
pub struct Term {
    pub node: TermNode,
}

/// A constant, a fixed variable or a schematic one, each with its type; a bound variable; an abstraction; or an application. The last two share their parts, and keep their measures.
#[cycle(term)]
#[derive(Debug, Drop)]
pub enum TermNode {
    Const {
        name: Name,
        typ: Typ,
    },
    Free {
        name: Name,
        typ: Typ,
    },
    Var {
        name: Name,
        index: u32,
        typ: Typ,
    },
    Bound {
        place: u32,
    },
    Abs {
        kept: Kept,
        typ: Typ,
        body: Arc<Term>,
    },
    App {
        kept: Kept,
        fun: Arc<Term>,
        arg: Arc<Term>,
    },
}

/// The measures of a term: its size; one above the greatest index of a schematic variable, those of types among them, or 0; its depth; and one above the greatest loose bound variable, or 0. Each is cut off at the greatest number of its type, and then tells no more than that. They stand before a node's parts, where they take the least room.
#[derive(Clone, Copy, Debug)]
pub struct Kept {
    pub size: u32,
    pub above: u32,
    pub depth: u16,
    pub loose: u16,
}

impl Model for Term {
    ghost use Rattle.pure_definitions.specs.Terms.Term as tree;
    ghost use Rattle.pure_definitions.specs.Models.Codes.{coded_term};

    ghost Value = { tree.Term };

    ghost coded = { coded_term };

    ghost use Rattle.pure_term.specs.TermView.{view_term};
    ghost use Rattle.pure_term.specs.TermKept.{IsNodeMeasured};

    ghost view = { λ t. view_term t.node };

    ghost invariant = { λ t. IsNodeMeasured t.node };

    ghost size = { tree.term_depth };

    ghost use Rattle.pure_term.specs.TermFalls.{depth_le-term_depth};

    ghost size_decreases = { λ t h. depth_le-term_depth t.node };
}

impl Term {
    /// An abstraction.
    pub fn abs(typ: Typ, body: Arc<Term>) -> Term
        ensures { result ≡ Abs typ body.value }
    {
        let kept = abs_measures(&typ, &body);
        Term {
            node: TermNode::Abs { kept, typ, body },
        }
    }

    /// An application.
    pub fn app(fun: Arc<Term>, arg: Arc<Term>) -> Term
        ensures { result ≡ App fun.value arg.value }
    {
        let kept = app_measures(&fun, &arg);
        Term {
            node: TermNode::App { kept, fun, arg },
        }
    }

    /// An equal term, whose parts are the same ones.
    pub fn copy(&self, alloc: Global) -> Result<Term, AllocError>
        ensures { IfOk result (λ t. t ≡ self.now) }
    {
        match &self.node {
            TermNode::Const { name, typ } => {
                let typ = typ.copy(alloc)?;
                Ok(Term {
                    node: TermNode::Const { name: *name, typ },
                })
            }
            TermNode::Free { name, typ } => {
                let typ = typ.copy(alloc)?;
                Ok(Term {
                    node: TermNode::Free { name: *name, typ },
                })
            }
            TermNode::Var { name, index, typ } => {
                let typ = typ.copy(alloc)?;
                Ok(Term {
                    node: TermNode::Var {
                        name: *name,
                        index: *index,
                        typ,
                    },
                })
            }
            TermNode::Bound { place } => Ok(Term {
                node: TermNode::Bound { place: *place },
            }),
            TermNode::Abs { kept, typ, body } => {
                let typ = typ.copy(alloc)?;
                let (kept, body) = (*kept, Arc::try_clone(body)?);
                Ok(Term {
                    node: TermNode::Abs { kept, typ, body },
                })
            }
            TermNode::App { kept, fun, arg } => {
                let fun = Arc::try_clone(fun)?;
                let (kept, arg) = (*kept, Arc::try_clone(arg)?);
                Ok(Term {
                    node: TermNode::App { kept, fun, arg },
                })
            }
        }
    }
}

/// An equal term, whose parts are the same ones, in a block of its own.
pub fn copied(alloc: Global, t: &Term) -> Result<Arc<Term>, AllocError>
    ensures { IfOk result (λ u. u.value ≡ t.now) }
{
    Ok(Arc::new(alloc, t.copy(alloc)?)?)
}

/// The place of the term's kind among the kinds.
fn term_rank_of(t: &Term) -> u8
    ensures { result ≡ term_rank t.now }
{
    match &t.node {
        TermNode::Const { .. } => 0,
        TermNode::Free { .. } => 1,
        TermNode::Var { .. } => 2,
        TermNode::Bound { .. } => 3,
        TermNode::Abs { .. } => 4,
        TermNode::App { .. } => 5,
    }
}

/// The order of two terms: by their kinds, and then by their parts, from the left.
fn compare_terms(t: &Term, u: &Term) -> Ordering
    ensures { result ≡ term_cmp t.now u.now }
{
    match (&t.node, &u.node) {
        (TermNode::Const { name: c, typ: t }, TermNode::Const { name: d, typ: u }) => c
            .cmp(d)
            .then(t.cmp(u)),
        (TermNode::Free { name: x, typ: t }, TermNode::Free { name: y, typ: u }) => x
            .cmp(y)
            .then(t.cmp(u)),
        (
            TermNode::Var {
                name: x,
                index: i,
                typ: t,
            },
            TermNode::Var {
                name: y,
                index: j,
                typ: u,
            },
        ) => x.cmp(y).then(i.cmp(j).then(t.cmp(u))),
        (TermNode::Bound { place: m }, TermNode::Bound { place: n }) => m.cmp(n),
        (
            TermNode::Abs {
                typ: t,
                body: b,
                ..
            },
            TermNode::Abs {
                typ: u,
                body: c,
                ..
            },
        ) => match t.cmp(u) {
            Ordering::Less => Ordering::Less,
            Ordering::Greater => Ordering::Greater,
            Ordering::Equal => compare_terms(b, c),
        },
        (TermNode::App { fun: f, arg: a, .. }, TermNode::App { fun: g, arg: b, .. }) =>
            match compare_terms(f, g) {
                Ordering::Less => Ordering::Less,
                Ordering::Greater => Ordering::Greater,
                Ordering::Equal => compare_terms(a, b),
            },
        _ => term_rank_of(t).cmp(&term_rank_of(u)),
    }
}

impl Ord for Term {
    ghost cmp = { term_cmp };

    ghost total = { term_cmp-total };

    ghost matches_partial_cmp = { λ x y. refl };

    ghost matches_eq = { term_cmp-ties };

    fn cmp(&self, other: &Term) -> Ordering {
        compare_terms(self, other)
    }
}

impl PartialOrd for Term {
    ghost partial_cmp = { as_partial_cmp term_cmp };

    ghost laws = { po term_cmp-total term_cmp-ties };

    fn partial_cmp(&self, other: &Term) -> Option<Ordering> {
        Some(self.cmp(other))
    }
}

impl PartialEq for Term {
    ghost eq = { term_eq };

    ghost laws = { partial_equiv_from_equiv term_eq-equiv };

    fn eq(&self, other: &Term) -> bool {
        compare_terms(self, other).is_eq()
    }
}

impl Eq for Term {
    ghost laws = { term_eq-equiv };
}
