//! Written names of classes and type constructors, looked up.
ghost use Rattle.std.specs.Prelude.{◌≡◌, [], ◌∷◌, ◌++◌, OnOk, IfOk, IfErr};
ghost use Rattle.pure_text.specs.Lists.{EachTwo};
ghost use Rattle.pure_script.specs.Seen.{sorts};
ghost use Rattle.pure_typ.specs.SortUnion.{IsSortUnion};
ghost use Rattle.pure_elab.specs.Table.{IsSortOf};
ghost use Rattle.pure_statements.specs.Chain.{Answers, FailsAs, Found};
ghost use Rattle.pure_statements.specs.declared.reason.Reason.TheVariants.{UnknownClass, UnknownType};
ghost use Rattle.pure_declare.specs.Commands.{vocabulary};
ghost use Rattle.pure_declare.specs.Lookups.{AreWritten, AreWrittenClasses, IsWrittenSort, AreWrittenSorts};

use crate::place::Place;
use pure_elab::Language;
use pure_statements::{Failed, Reason};
use pure_text::Text;
use pure_typ::{Name, Sort};
use std::alloc::{AllocError, Global};

/// The class that is written so.
pub(crate) fn found_class(place: &Place<'_>, written: &[u8]) -> Result<Name, Failed>
    ensures { Answers (Found ((vocabulary place.now).class_written written.now) UnknownClass) result }
{
    let language = place.language();
    match language.find_class(written) {
        Some(class) => Ok(class),
        None => Err(Failed::Refused {
            reason: Reason::UnknownClass,
        }),
    }
}

/// The type constructor that is written so.
pub(crate) fn found_typ(place: &Place<'_>, written: &[u8]) -> Result<Name, Failed>
    ensures { Answers (Found ((vocabulary place.now).constructor_written written.now) UnknownType) result }
{
    let language = place.language();
    match language.find_typ(written) {
        Some(con) => Ok(con),
        None => Err(Failed::Refused {
            reason: Reason::UnknownType,
        }),
    }
}

/// Appends the class.
fn put_class(classes: &mut Vec<Name>, class: Name) -> Result<(), AllocError>
    ensures { OnOk result (classes.new.items ≡ classes.old.items ++ class ∷ []) }
{
    classes.push(class)?;
    Ok(())
}

/// The classes that are written so.
pub(crate) fn found_classes(
    alloc: Global,
    place: &Place<'_>,
    written: &[Text],
) -> Result<Vec<Name>, Failed>
    ensures ok { IfOk result (λ cs. AreWritten (vocabulary place.now) written.now cs.items) }
    ensures failed { IfErr result (FailsAs (AreWrittenClasses (vocabulary place.now) written.now)) }
{
    let mut classes = Vec::new(alloc);
    for text in written {
        let class = found_class(place, text.bytes())?;
        put_class(&mut classes, class)?;
    }
    Ok(classes)
}

/// The sort of this class.
fn single(alloc: Global, class: Name) -> Result<Sort, AllocError>
    ensures { IfOk result (λ s. s ≡ class ∷ []) }
{
    let mut classes = Vec::new(alloc);
    classes.push(class)?;
    Sort::make(alloc, classes)
}

/// The sort with the class.
fn with_class(alloc: Global, sort: Sort, class: Name) -> Result<Sort, AllocError>
    ensures { IfOk result (IsSortUnion sort (class ∷ [])) }
{
    let more = single(alloc, class)?;
    let union = sort.union(alloc, &more)?;
    Ok(union)
}

/// The sort of these classes.
fn sort_of(alloc: Global, classes: &[Name]) -> Result<Sort, AllocError>
    ensures { IfOk result (IsSortOf classes.now) }
{
    let mut sort = Sort::empty();
    for class in classes {
        sort = with_class(alloc, sort, *class)?;
    }
    Ok(sort)
}

/// The sort of the classes that are written so.
fn found_sort(alloc: Global, place: &Place<'_>, written: &[Text]) -> Result<Sort, Failed>
    ensures ok { IfOk result (IsWrittenSort (vocabulary place.now) written.now) }
    ensures failed { IfErr result (FailsAs (AreWrittenClasses (vocabulary place.now) written.now)) }
{
    let classes = found_classes(alloc, place, written)?;
    let sort = sort_of(alloc, classes.as_slice())?;
    Ok(sort)
}

/// Appends the sort.
fn put_sort(sorts: &mut Vec<Sort>, sort: Sort) -> Result<(), AllocError>
    ensures { OnOk result (sorts.new.items ≡ sorts.old.items ++ sort ∷ []) }
{
    sorts.push(sort)?;
    Ok(())
}

/// The sorts of the classes that are written so.
pub(crate) fn found_sorts(
    alloc: Global,
    place: &Place<'_>,
    written: &[Vec<Text>],
) -> Result<Vec<Sort>, Failed>
    ensures ok { IfOk result (λ ss. EachTwo (IsWrittenSort (vocabulary place.now)) (sorts written.now) ss.items) }
    ensures failed { IfErr result (FailsAs (AreWrittenSorts (vocabulary place.now) (sorts written.now))) }
{
    let mut found = Vec::new(alloc);
    for classes in written {
        let sort = found_sort(alloc, place, classes.as_slice())?;
        put_sort(&mut found, sort)?;
    }
    Ok(found)
}
