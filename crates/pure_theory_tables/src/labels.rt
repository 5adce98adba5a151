//! The names of promises by their labels.
ghost use Rattle.std.specs.Prelude.{◌≡◌, ℕ, [], ◌∷◌, ◌++◌, IfOk, MatchOption, None, Some};
ghost use Rattle.std.specs.FinMap.{get};
ghost use Rattle.pure_definitions.specs.Names as tree;
ghost use Rattle.pure_theory_tables.specs.Keys.{label_key};
ghost use Rattle.pure_theory_tables.specs.Kept.{IsKept};
ghost use Rattle.pure_theory_tables.specs.Same.{label_eq};

use crate::shelves::put;
use pure_shared_maps::Shelf;
use pure_term::{Label, Name};
use std::alloc::{AllocError, Global};
use std::sync::Arc;

/// The names of promises by the numbers of their labels, or, where another promise has the number, among the rest.
#[derive(Drop)]
pub struct Labels {
    by_key: Shelf<Name>,
    rest: Arc<Vec<Name>>,
}

/// The number of a label.
fn key_of(label: Label) -> u32
    ensures { result ≡ label_key label }
{
    let sum = label.theory as u64 * 2097152 + label.command as u64 * 2048 + label.part as u64;
    (sum % 4294967296) as u32
}

/// Whether the labels are the same.
pub(crate) fn is_same_label(first: Label, second: Label) -> bool
    ensures { result ≡ label_eq first second }
{
    first.theory == second.theory && first.command == second.command && first.part == second.part
}

impl Labels {
    /// No promises.
    pub(crate) fn empty(alloc: Global) -> Result<Labels, AllocError> {
        let rest = Arc::new(alloc, Vec::new(alloc))?;
        Ok(Labels {
            by_key: Shelf::empty(alloc),
            rest,
        })
    }

    /// The same names, which are shared.
    pub(crate) fn share(&self) -> Result<Labels, AllocError>
        ensures { IfOk result (λ same. (name : ℕ) (label : tree.Label) → IsKept self.now name label → IsKept same name label) }
    {
        let by_key = self.by_key.share()?;
        let rest = Arc::try_clone(&self.rest)?;
        Ok(Labels { by_key, rest })
    }

    /// The rest, with one name more.
    fn crowded(&self, alloc: Global, name: Name) -> Result<Arc<Vec<Name>>, AllocError>
        ensures { IfOk result (λ rest. rest.value.items ≡ self.now.rest.value.items ++ name ∷ []) }
    {
        let mut rest = Vec::from_slice(alloc, self.rest.as_slice())?;
        rest.push(name)?;
        let rest = Arc::new(alloc, rest)?;
        Ok(rest)
    }

    /// The names, with that of a promise with this label.
    pub(crate) fn with(&self, alloc: Global, name: Name, label: Label) -> Result<Labels, AllocError>
        ensures new { IfOk result (λ more. IsKept more name label) }
        ensures kept { IfOk result (λ more. (n : ℕ) (l : tree.Label) → IsKept self.now n l → IsKept more n l) }
    {
        let key = key_of(label);
        match self.by_key.get(key) {
            None => {
                let name = Arc::new(alloc, name)?;
                let by_key = put(&self.by_key, key, name)?;
                let rest = Arc::try_clone(&self.rest)?;
                Ok(Labels { by_key, rest })
            }
            Some(_) => {
                let rest = self.crowded(alloc, name)?;
                let by_key = self.by_key.share()?;
                Ok(Labels { by_key, rest })
            }
        }
    }

    /// The name that stands under the label's number.
    pub(crate) fn first(&self, label: Label) -> Option<&Name>
        ensures { MatchOption result (get self.now.by_key (label_key label) ≡ None) (λ name. get self.now.by_key (label_key label) ≡ Some name.now) }
    {
        self.by_key.get(key_of(label))
    }

    /// The rest of the names.
    pub(crate) fn rest(&self) -> &[Name]
        ensures { result.now ≡ self.now.rest.value.items }
    {
        self.rest.as_slice()
    }
}
