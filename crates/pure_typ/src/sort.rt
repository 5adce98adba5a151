//! Sorts, whose classes are shared.
ghost use Rattle.std.specs.Prelude.{◌≡◌, [], IfOk, refl, Some, true};
ghost use Rattle.std.specs.Ordering.{nat_cmp};
ghost use Rattle.std.specs.Cmp.Lexicographic.{slice_cmp, nat_list_eq_equiv, nat_list_cmp_total, texts_ties, texts_po};
ghost use Rattle.std.specs.Cmp.{partial_equiv_from_equiv};
ghost use Rattle.std.specs.List.Sorted.{IsStrictlyIncreasing};
ghost use Rattle.std.specs.Set.{sorted_merge};
ghost use Rattle.pure_definitions.specs.Types.Typ.{sort_eq};
ghost use Rattle.pure_typ.specs.SortUnion.{IsSortUnion};
ghost use Rattle.pure_typ.specs.SortView.{classes_list};

use crate::name::Name;
use std::alloc::{AllocError, Global};
use std::cmp::Ordering;
use std::marker::Model;
use std::sync::Arc;

/// A sort, the intersection of its classes, whose names ascend strictly.
#[derive(Debug, Drop)]
pub struct Sort {
    classes: Classes,
}

/// The classes of a sort: none, which take no memory, or a list that is shared.
#[derive(Debug, Drop)]
pub enum Classes {
    Empty,
    Shared(Arc<Vec<Name>>),
}

impl Model for Sort {
    ghost use Rattle.std.specs.Prelude.{List, ℕ};
    ghost use Rattle.std.specs.List.Sorted.{IsStrictlyIncreasing};

    ghost Value = { List ℕ };

    ghost use Rattle.pure_typ.specs.SortView.{classes_list};

    ghost view = { λ s. classes_list s.classes };

    ghost invariant = { λ s. IsStrictlyIncreasing (classes_list s.classes) };
}

impl Sort {
    /// The sort without classes.
    pub fn empty() -> Sort
        ensures { result ≡ [] }
    {
        Sort {
            classes: Classes::Empty,
        }
    }

    /// The sort of these classes.
    pub fn make(alloc: Global, classes: Vec<Name>) -> Result<Sort, AllocError>
        requires { IsStrictlyIncreasing classes.items }
        ensures { IfOk result (λ s. s ≡ classes.items) }
    {
        if classes.is_empty() {
            return Ok(Sort::empty());
        }
        let list = Arc::new(alloc, classes)?;
        Ok(Sort {
            classes: Classes::Shared(list),
        })
    }

    /// The classes, in ascending order.
    pub fn classes(&self) -> &[Name]
        ensures are { result.now ≡ self.now }
        ensures ascend { IsStrictlyIncreasing self.now }
    {
        match &self.classes {
            Classes::Empty => &[],
            Classes::Shared(list) => list.as_slice(),
        }
    }

    /// The sort of the classes of both.
    pub fn union(&self, alloc: Global, other: &Sort) -> Result<Sort, AllocError>
        ensures { IfOk result (λ s. IsSortUnion self.now other.now s) }
    {
        let (own, others) = (self.classes(), other.classes());
        if others.is_empty() {
            let left = self.copy(alloc)?;
            return Ok(left);
        }
        if own.is_empty() {
            let right = other.copy(alloc)?;
            return Ok(right);
        }
        let classes = merged(alloc, own, others)?;
        let union = Sort::make(alloc, classes)?;
        Ok(union)
    }

    /// The same sort once more.
    pub fn copy(&self, _alloc: Global) -> Result<Sort, AllocError>
        ensures { IfOk result (λ s. s ≡ self.now) }
    {
        match &self.classes {
            Classes::Empty => Ok(Sort::empty()),
            Classes::Shared(list) => Ok(Sort {
                classes: Classes::Shared(Arc::try_clone(list)?),
            }),
        }
    }
}

/// Two ascending lists of classes, merged.
fn merged(alloc: Global, left: &[Name], right: &[Name]) -> Result<Vec<Name>, AllocError>
    ensures { IfOk result (λ classes. classes.items ≡ sorted_merge nat_cmp true left.now right.now) }
{
    let mut classes = Vec::new(alloc);
    let (mut i, mut j) = (0, 0);
    while i < left.len() && j < right.len() {
        let (first, second) = (left[i], right[j]);
        match first.cmp(&second) {
            Ordering::Less => {
                classes.push(first)?;
                i += 1;
            }
            Ordering::Greater => {
                classes.push(second)?;
                j += 1;
            }
            Ordering::Equal => {
                classes.push(first)?;
                i += 1;
                j += 1;
            }
        }
    }
    classes.extend_from_slice(&left[i..])?;
    classes.extend_from_slice(&right[j..])?;
    Ok(classes)
}

impl PartialEq for Sort {
    ghost eq = { sort_eq };

    ghost laws = { partial_equiv_from_equiv nat_list_eq_equiv };

    fn eq(&self, other: &Sort) -> bool {
        self.classes() == other.classes()
    }
}

impl Eq for Sort {
    ghost laws = { nat_list_eq_equiv };
}

impl Ord for Sort {
    ghost cmp = { slice_cmp nat_cmp };

    ghost total = { nat_list_cmp_total };

    ghost matches_partial_cmp = { λ x y. refl };

    ghost matches_eq = { texts_ties };

    fn cmp(&self, other: &Sort) -> Ordering {
        self.classes().cmp(other.classes())
    }
}

impl PartialOrd for Sort {
    ghost partial_cmp = { λ x y. Some (slice_cmp nat_cmp x y) };

    ghost laws = { texts_po };

    fn partial_cmp(&self, other: &Sort) -> Option<Ordering> {
        Some(self.cmp(other))
    }
}
