//! Types, their copies and their order.
ghost use Rattle.std.specs.Prelude.{◌≡◌, ℕ, IfOk, refl, MatchOption};
ghost use Rattle.std.specs.Cmp.{partial_equiv_from_equiv, po};
ghost use Rattle.std.specs.Ordering.{as_partial_cmp};
ghost use Rattle.pure_definitions.specs.Types.Typ.{Con, typ_eq, typs_of, arrow, IsNoArrow};
ghost use Rattle.pure_definitions.specs.Models.Equality.{typ_eq-equiv};
ghost use Rattle.pure_definitions.specs.Models.Comparison.{typ_rank, typ_cmp, typs_cmp, typ_cmp-total, typ_cmp-ties};

use crate::name::Name;
use crate::sort::Sort;
use std::alloc::{AllocError, Global};
use std::cmp::Ordering;
use std::marker::Model;
use std::sync::Arc;

/// A type.
#[cycle(typ)]
#[derive(Debug, Drop)]
pub struct Typ {
    pub node: TypNode,
}

/// A fixed type variable, a schematic one, or a constructor applied to types.
#[cycle(typ)]
#[derive(Debug, Drop)]
pub enum TypNode {
    TFree { name: Name, sort: Sort },
    TVar { name: Name, index: u32, sort: Sort },
    Con { name: Name, args: Args },
}

/// What a constructor is applied to: nothing, or types that are shared.
#[cycle(typ)]
#[derive(Debug, Drop)]
pub enum Args {
    Nullary,
    Shared(Arc<ArgList>),
}

/// Types with their measures.
#[cycle(typ)]
#[derive(Debug, Drop)]
pub struct ArgList {
    pub types: Vec<Typ>,
    pub kept: ArgsKept,
}

/// The measures of types: their size, the greatest depth, one above the greatest index, or 0, and whether all are ground. Size and depth are cut off at `u64::MAX`.
#[derive(Clone, Copy, Debug)]
pub struct ArgsKept {
    pub size: u64,
    pub depth: u64,
    pub above: u64,
    pub ground: bool,
}

impl Model for Typ {
    ghost use Rattle.pure_definitions.specs.Types.Typ as tree;
    ghost use Rattle.pure_definitions.specs.Models.Codes.{coded_typ};

    ghost Value = { tree.Typ };

    ghost coded = { coded_typ };

    ghost use Rattle.pure_typ.specs.TypView.{view_typ};
    ghost use Rattle.pure_typ.specs.TypKept.{IsNodeMeasured};

    ghost view = { λ t. view_typ t.node };

    ghost invariant = { λ t. IsNodeMeasured t.node };

    ghost size = { tree.typ_depth };

    ghost use Rattle.pure_typ.specs.TypFalls.{depth_le-typ_depth};

    ghost size_decreases = { λ t h. depth_le-typ_depth t.node };
}

impl Typ {
    /// A constructor applied to types.
    pub fn constructed(alloc: Global, name: Name, types: Vec<Typ>) -> Result<Typ, AllocError>
        ensures { IfOk result (λ t. t ≡ Con name (typs_of types.items)) }
    {
        let args = Args::make(alloc, types)?;
        Ok(Typ {
            node: TypNode::Con { name, args },
        })
    }

    /// The type of functions from one type to another.
    pub fn arrow(alloc: Global, domain: Typ, range: Typ) -> Result<Typ, AllocError>
        ensures { IfOk result (λ t. t ≡ arrow domain range) }
    {
        let mut types = Vec::with_capacity(alloc, 2)?;
        types.push(domain)?;
        types.push(range)?;
        Typ::constructed(alloc, Name::FUN, types)
    }

    /// The domain and the range of a type of functions; none exactly where the type isn't one.
    pub fn as_arrow(&self) -> Option<(&Typ, &Typ)>
        ensures { MatchOption result (IsNoArrow self.now) (λ parts. self.now ≡ arrow parts.0.now parts.1.now) }
    {
        let TypNode::Con { name, args } = &self.node else {
            return None;
        };
        let args = args.as_slice();
        if *name != Name::FUN {
            return None;
        }
        if args.len() != 2 {
            return None;
        }
        Some((&args[0], &args[1]))
    }

    /// An equal type, whose arguments are the same ones.
    pub fn copy(&self, alloc: Global) -> Result<Typ, AllocError>
        ensures { IfOk result (λ t. t ≡ self.now) }
    {
        match &self.node {
            TypNode::TFree { name, sort } => {
                let sort = sort.copy(alloc)?;
                Ok(Typ {
                    node: TypNode::TFree { name: *name, sort },
                })
            }
            TypNode::TVar { name, index, sort } => {
                let sort = sort.copy(alloc)?;
                Ok(Typ {
                    node: TypNode::TVar {
                        name: *name,
                        index: *index,
                        sort,
                    },
                })
            }
            TypNode::Con { name, args } => {
                let args = args.copy()?;
                Ok(Typ {
                    node: TypNode::Con { name: *name, args },
                })
            }
        }
    }
}

/// The place of the type's kind among the kinds.
fn typ_rank_of(t: &Typ) -> u8
    ensures { result ≡ typ_rank t.now }
{
    match &t.node {
        TypNode::TFree { .. } => 0,
        TypNode::TVar { .. } => 1,
        TypNode::Con { .. } => 2,
    }
}

/// The order of two types.
#[cycle(compare_typ)]
fn compare_typs(t: &Typ, u: &Typ) -> Ordering
    ensures { result ≡ typ_cmp t.now u.now }
{
    match (&t.node, &u.node) {
        (TypNode::TFree { name: x, sort: s }, TypNode::TFree { name: y, sort: r }) => {
            match x.cmp(y) {
                Ordering::Less => Ordering::Less,
                Ordering::Greater => Ordering::Greater,
                Ordering::Equal => s.cmp(r),
            }
        }
        (
            TypNode::TVar {
                name: x,
                index: i,
                sort: s,
            },
            TypNode::TVar {
                name: y,
                index: j,
                sort: r,
            },
        ) => match x.cmp(y) {
            Ordering::Less => Ordering::Less,
            Ordering::Greater => Ordering::Greater,
            Ordering::Equal => match i.cmp(j) {
                Ordering::Less => Ordering::Less,
                Ordering::Greater => Ordering::Greater,
                Ordering::Equal => s.cmp(r),
            },
        },
        (TypNode::Con { name: k, args: ts }, TypNode::Con { name: m, args: us }) => match k.cmp(m) {
            Ordering::Less => Ordering::Less,
            Ordering::Greater => Ordering::Greater,
            Ordering::Equal => compare_args(ts.as_slice(), us.as_slice()),
        },
        _ => typ_rank_of(t).cmp(&typ_rank_of(u)),
    }
}

/// The order of two lists of types.
#[cycle(compare_typ)]
fn compare_args(ts: &[Typ], us: &[Typ]) -> Ordering
    ensures { result ≡ typs_cmp (typs_of ts.now) (typs_of us.now) }
{
    for (i, t) in ts.iter().enumerate() {
        let Some(u) = us.get(i) else {
            return Ordering::Greater;
        };
        match compare_typs(t, u) {
            Ordering::Less => return Ordering::Less,
            Ordering::Greater => return Ordering::Greater,
            Ordering::Equal => {}
        }
    }
    if ts.len() < us.len() {
        Ordering::Less
    } else {
        Ordering::Equal
    }
}

impl Ord for Typ {
    ghost cmp = { typ_cmp };

    ghost total = { typ_cmp-total };

    ghost matches_partial_cmp = { λ x y. refl };

    ghost matches_eq = { typ_cmp-ties };

    fn cmp(&self, other: &Typ) -> Ordering {
        compare_typs(self, other)
    }
}

impl PartialOrd for Typ {
    ghost partial_cmp = { as_partial_cmp typ_cmp };

    ghost laws = { po typ_cmp-total typ_cmp-ties };

    fn partial_cmp(&self, other: &Typ) -> Option<Ordering> {
        Some(self.cmp(other))
    }
}

impl PartialEq for Typ {
    ghost eq = { typ_eq };

    ghost laws = { partial_equiv_from_equiv typ_eq-equiv };

    fn eq(&self, other: &Typ) -> bool {
        compare_typs(self, other).is_eq()
    }
}

impl Eq for Typ {
    ghost laws = { typ_eq-equiv };
}
