//! The sorts of the type variables of a text.
ghost use Rattle.std.specs.Prelude.{◌≡◌, ◌↔◌, ℕ, List, [], ◌∷◌, ◌++◌, IfOk, OnOk, IsTrue};
ghost use Rattle.pure_elab.specs.Written.{classes_at, IsReducedSort, AreSorts, term_classes, typ_classes};
ghost use Rattle.pure_elab.specs.Table.{sort_among, HasVariable, AreEntries, IsSortOf};

use crate::classes::{WrittenClass, add_term, add_typ};
use crate::language::Language;
use pure_order::Order;
use pure_read::{Raw, RawTyp};
use pure_typ::{Name, Sort};
use std::alloc::{AllocError, Global};

/// The sort of a type variable.
#[derive(Debug, Drop)]
pub struct VariableSort {
    pub name: Name,
    pub sort: Sort,
}

/// An equal copy of the sort that the table has of the variable; the empty one where it has none.
pub(crate) fn sort_of(alloc: Global, table: &[VariableSort], name: Name) -> Result<Sort, AllocError>
    ensures { IfOk result (λ s. s ≡ sort_among table.now name) }
{
    for entry in table {
        if entry.name.0 == name.0 {
            let sort = entry.sort.copy(alloc)?;
            return Ok(sort);
        }
    }
    Ok(Sort::empty())
}

/// Whether the table has the variable.
fn has_variable(table: &[VariableSort], name: Name) -> bool
    ensures { IsTrue result ↔ HasVariable table.now name }
{
    for entry in table {
        if entry.name.0 == name.0 {
            return true;
        }
    }
    false
}

/// The sort of this class.
fn single(alloc: Global, class: Name) -> Result<Sort, AllocError>
    ensures { IfOk result (λ s. s ≡ class ∷ []) }
{
    let mut classes = Vec::new(alloc);
    classes.push(class)?;
    Sort::make(alloc, classes)
}

/// The sort with the class, where it is written at this variable.
fn with_class(
    alloc: Global,
    sort: Sort,
    entry: WrittenClass,
    name: Name,
) -> Result<Sort, AllocError>
    ensures { IfOk result (λ s. (cs : List ℕ) → IsSortOf cs sort → IsSortOf (cs ++ classes_at (entry ∷ []) name) s) }
{
    if entry.variable.0 != name.0 {
        return Ok(sort);
    }
    let more = single(alloc, entry.class)?;
    let union = sort.union(alloc, &more)?;
    Ok(union)
}

/// The sort of the classes of this variable.
fn union_at(alloc: Global, written: &[WrittenClass], name: Name) -> Result<Sort, AllocError>
    ensures { IfOk result (IsSortOf (classes_at written.now name)) }
{
    let mut sort = Sort::empty();
    for entry in written {
        sort = with_class(alloc, sort, *entry, name)?;
    }
    Ok(sort)
}

/// The reduced sort of the classes of this variable.
fn reduced_at(
    alloc: Global,
    order: &Order,
    written: &[WrittenClass],
    name: Name,
) -> Result<Sort, AllocError>
    ensures { IfOk result (IsReducedSort order.now (classes_at written.now name)) }
{
    let union = union_at(alloc, written, name)?;
    let sort = order.reduce(alloc, &union)?;
    let _ = sort.classes();
    Ok(sort)
}

/// Adds an entry for the variable to the table, if it has none yet.
fn put_variable(
    alloc: Global,
    order: &Order,
    written: &[WrittenClass],
    table: &mut Vec<VariableSort>,
    name: Name,
) -> Result<(), AllocError>
    ensures entries { OnOk result (AreEntries order.now written.now table.old.items → AreEntries order.now written.now table.new.items) }
    ensures kept { OnOk result ((x : ℕ) → HasVariable table.old.items x → HasVariable table.new.items x) }
    ensures new { OnOk result (HasVariable table.new.items name) }
{
    if has_variable(table.as_slice(), name) {
        return Ok(());
    }
    let sort = reduced_at(alloc, order, written, name)?;
    table.push(VariableSort { name, sort })?;
    Ok(())
}

/// The table of the sorts of all variables that have classes.
fn table_of(
    alloc: Global,
    order: &Order,
    written: &[WrittenClass],
) -> Result<Vec<VariableSort>, AllocError>
    ensures { IfOk result (λ table. AreSorts order.now written.now (sort_among table.items)) }
{
    let mut table = Vec::new(alloc);
    for entry in written {
        put_variable(alloc, order, written, &mut table, entry.variable)?;
    }
    Ok(table)
}

/// The sorts of the type variables in a term.
pub(crate) fn sorts_of_term<L: Language>(
    alloc: Global,
    language: &L,
    raw: &Raw,
) -> Result<Vec<VariableSort>, AllocError>
    ensures { IfOk result (λ table. AreSorts (L.vocabulary language.now).algebra (term_classes (L.vocabulary language.now) raw.now) (sort_among table.items)) }
{
    let mut written = Vec::new(alloc);
    add_term(language, raw, &mut written)?;
    let table = table_of(alloc, language.order(), written.as_slice())?;
    Ok(table)
}

/// The sorts of the type variables in a type.
pub(crate) fn sorts_of_typ<L: Language>(
    alloc: Global,
    language: &L,
    raw: &RawTyp,
) -> Result<Vec<VariableSort>, AllocError>
    ensures { IfOk result (λ table. AreSorts (L.vocabulary language.now).algebra (typ_classes (L.vocabulary language.now) raw.now) (sort_among table.items)) }
{
    let mut written = Vec::new(alloc);
    add_typ(language, raw, &mut written)?;
    let table = table_of(alloc, language.order(), written.as_slice())?;
    Ok(table)
}
