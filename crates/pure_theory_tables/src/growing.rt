//! A list with what another has beside it.
ghost use Rattle.std.specs.Prelude.{◌≡◌, ◌⊎◌, [], ◌∷◌, ◌++◌, IfOk};
ghost use Rattle.pure_text.specs.Lists.{IsIn, AreDistinct};
ghost use Rattle.pure_definitions.specs.Declarations.Decl.{Decl};
ghost use Rattle.pure_order_tables.specs.Others.{AreWithOthers};
ghost use Rattle.pure_logic.specs.Content.{AreNamedAlike};
ghost use Rattle.pure_theory_tables.specs.View.{decl_of};
ghost use Rattle.pure_theory_tables.specs.Named.{AreNamedOnce};

use crate::declarations::Declarations;
use crate::entry::Entry;
use crate::numbers::with_number;
use crate::shelves::put;
use std::alloc::AllocError;
use std::sync::Arc;

impl Declarations {
    /// The list with the entry's declaration more, which shares the entry.
    fn with_entry(self, entry: &Arc<Entry>) -> Result<Declarations, AllocError>
        requires { (e : Decl) → IsIn e self → ¬ AreNamedAlike (decl_of entry.now.value) e }
        ensures { IfOk result (λ more. more ≡ self ++ decl_of entry.now.value ∷ []) }
    {
        let Declarations {
            alloc,
            list,
            index,
            numbered,
        } = self;
        let indexed = index.with_entry(alloc, &**entry)?;
        let by_number = with_number(&numbered, entry)?;
        let same = Arc::try_clone(entry)?;
        let more = put(&list, list.count(), same)?;
        Ok(Declarations {
            alloc,
            list: more,
            index: indexed,
            numbered: by_number,
        })
    }

    /// The list with the entry's declaration more, if it hasn't it yet, which is told at once where it stands at this place.
    fn with_new(self, place: u32, entry: &Arc<Entry>) -> Result<Declarations, AllocError>
        requires { (e : Decl) → IsIn e self → AreNamedAlike (decl_of entry.now.value) e → decl_of entry.now.value ≡ e }
        ensures { IfOk result (λ more. (IsIn (decl_of entry.now.value) self × (more ≡ self)) ⊎ ((¬ IsIn (decl_of entry.now.value) self) × (more ≡ self ++ decl_of entry.now.value ∷ []))) }
    {
        if self.holds(place, &**entry) {
            Ok(self)
        } else {
            self.with_entry(entry)
        }
    }

    /// The list with what the other has beside it, in the order of the other.
    pub fn with_all(&self, other: &Declarations) -> Result<Declarations, AllocError>
        requires named { AreNamedOnce (self.now ++ other.now) }
        requires distinct { AreDistinct other.now }
        ensures { IfOk result (λ more. AreWithOthers self.now other.now more) }
    {
        let mut more = self.share()?;
        for place in 0..other.count() {
            let Some(entry) = other.pointer_at(place) else {
                return Ok(more);
            };
            more = more.with_new(place, entry)?;
        }
        Ok(more)
    }
}
