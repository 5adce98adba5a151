//! Classes and arities by their numbers.
ghost use Rattle.std.specs.Prelude.{◌≡◌, List, [], ◌∷◌, ◌++◌, IfOk, Some};
ghost use Rattle.pure_definitions.specs.Declarations.Decl as tree;
ghost use Rattle.pure_theory_tables.specs.Keys as keys;
ghost use Rattle.pure_theory_tables.specs.Numbered.{AreNumbered};
ghost use Rattle.pure_theory_tables.specs.View.{decl_of};

use crate::entry::Entry;
use crate::shelves::put;
use pure_shared_maps::Shelf;
use pure_term::Name;
use std::alloc::AllocError;
use std::sync::Arc;

/// The number of an arity.
pub(crate) fn arity_key(con: Name, class: Name) -> u32
    ensures { result ≡ keys.arity_key con class }
{
    let sum = con.0 as u64 * 65_599 + class.0 as u64;
    (sum % 4_294_967_296) as u32
}

/// The number of a class or an arity.
fn number_key(entry: &Entry) -> Option<u32>
    ensures { result ≡ keys.number_key (decl_of entry.now) }
{
    match entry {
        Entry::Class { name, .. } => Some(name.0),
        Entry::Arity { con, class, .. } => Some(arity_key(*con, *class)),
        _ => None,
    }
}

/// The entries by their numbers, with this one, if its number has none yet.
fn with_key(
    numbered: &Shelf<Entry>,
    key: u32,
    entry: &Arc<Entry>,
) -> Result<Shelf<Entry>, AllocError>
    ensures { IfOk result (λ more. (ds : List tree.Decl) → keys.number_key (decl_of entry.now.value) ≡ Some key → AreNumbered numbered.now ds → AreNumbered more (ds ++ decl_of entry.now.value ∷ [])) }
{
    match numbered.get(key) {
        None => {
            let entry = Arc::try_clone(entry)?;
            let more = put(numbered, key, entry)?;
            Ok(more)
        }
        Some(_) => {
            let same = numbered.share()?;
            Ok(same)
        }
    }
}

/// The entries by their numbers, with this one, which stands behind the others, if it has a number that none has yet.
pub(crate) fn with_number(
    numbered: &Shelf<Entry>,
    entry: &Arc<Entry>,
) -> Result<Shelf<Entry>, AllocError>
    ensures { IfOk result (λ more. (ds : List tree.Decl) → AreNumbered numbered.now ds → AreNumbered more (ds ++ decl_of entry.now.value ∷ [])) }
{
    match number_key(&**entry) {
        None => {
            let same = numbered.share()?;
            Ok(same)
        }
        Some(key) => {
            let more = with_key(numbered, key, entry)?;
            Ok(more)
        }
    }
}
