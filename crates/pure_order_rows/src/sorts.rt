//! Names and sorts. A name is a byte: classes are small letters, constructors capital ones.
ghost use Rattle.std.specs.Prelude.{IsTrue};
ghost use Rattle.std.specs.List.Sorted.{IsStrictlyIncreasing};

use pure_rows::Fault;
use pure_typ::{Name, Sort};
use std::alloc::Global;

/// The class of the small letter.
pub(crate) fn class(letter: u8) -> Result<Name, Fault> {
    if letter.is_ascii_lowercase() {
        Ok(Name(u32::from(letter)))
    } else {
        Err(Fault::Unreadable)
    }
}

/// The constructor of the capital letter.
pub(crate) fn constructor(letter: u8) -> Result<Name, Fault> {
    if letter.is_ascii_uppercase() {
        Ok(Name(u32::from(letter)))
    } else {
        Err(Fault::Unreadable)
    }
}

/// The classes of the letters, in their order.
pub(crate) fn classes(alloc: Global, letters: &[u8]) -> Result<Vec<Name>, Fault> {
    let mut classes = Vec::new(alloc);
    for letter in letters {
        classes.push(class(*letter)?)?;
    }
    Ok(classes)
}

/// Whether the names ascend strictly.
fn is_ascending(names: &[Name]) -> bool
    ensures { IsTrue result → IsStrictlyIncreasing names.now }
{
    for i in 1..names.len() {
        if names[i - 1] >= names[i] {
            return false;
        }
    }
    true
}

/// The sort of the classes, which have to ascend.
pub(crate) fn sort_of(alloc: Global, classes: Vec<Name>) -> Result<Sort, Fault> {
    if is_ascending(classes.as_slice()) {
        Ok(Sort::make(alloc, classes)?)
    } else {
        Err(Fault::Unreadable)
    }
}

/// The sort of the letters.
pub(crate) fn sort(alloc: Global, letters: &[u8]) -> Result<Sort, Fault> {
    sort_of(alloc, classes(alloc, letters)?)
}
