//! Names that ascend, and the lesser of names.
ghost use Rattle.std.specs.Prelude.{◌≡◌, ◌↔◌, ◌⊎◌, ◌<◌, ◌≤◌, ℕ, IsTrue, OnOk, MatchBool, MatchOption};
ghost use Rattle.std.specs.List.Sorted.{IsStrictlyIncreasing};
ghost use Rattle.pure_text.specs.Lists.{IsIn};
ghost use Rattle.pure_order_tables.specs.Checks.{IsNotAfter};

use pure_typ::Name;
use std::alloc::AllocError;

/// The lesser of the name and the least so far.
pub(crate) fn lesser(least: Option<Name>, name: Name) -> Name
    ensures within { result ≤ name }
    ensures one { MatchOption least (result ≡ name) (λ other. (result ≤ other) × ((result ≡ other) ⊎ (result ≡ name))) }
{
    match least {
        Some(other) if other < name => other,
        _ => name,
    }
}

/// Whether the first names come before the second.
fn is_before(first: &(Name, Name, Name), second: &(Name, Name, Name)) -> bool
    ensures { MatchBool result (IsNotAfter first.now.0 first.now.1 first.now.2 second.now.0 second.now.1 second.now.2) (IsNotAfter second.now.0 second.now.1 second.now.2 first.now.0 first.now.1 first.now.2) }
{
    if first.0 != second.0 {
        return first.0 < second.0;
    }
    if first.1 != second.1 {
        return first.1 < second.1;
    }
    first.2 < second.2
}

/// Of these names and the least so far those that come first.
pub(crate) fn lesser_names(
    least: Option<(Name, Name, Name)>,
    names: (Name, Name, Name),
) -> (Name, Name, Name)
    ensures within { IsNotAfter result.0 result.1 result.2 names.0 names.1 names.2 }
    ensures one { MatchOption least (result ≡ names) (λ other. IsNotAfter result.0 result.1 result.2 other.0 other.1 other.2 × ((result ≡ other) ⊎ (result ≡ names))) }
{
    match least {
        None => names,
        Some(other) => {
            if is_before(&other, &names) {
                other
            } else {
                names
            }
        }
    }
}

/// Whether the name is among these, which ascend.
pub(crate) fn has(names: &[Name], name: Name) -> bool
    requires { IsStrictlyIncreasing names.now }
    ensures { IsTrue result ↔ IsIn name names.now }
{
    names.binary_search(&name).is_ok()
}

/// Puts the name among these, which ascend, where it is not there.
pub(crate) fn put(names: &mut Vec<Name>, name: Name) -> Result<(), AllocError>
    requires { IsStrictlyIncreasing names.old.items }
    ensures ascend { IsStrictlyIncreasing names.new.items }
    ensures has { OnOk result ((x : ℕ) → IsIn x names.new.items ↔ ((x ≡ name) ⊎ IsIn x names.old.items)) }
{
    match names.binary_search(&name) {
        Ok(_) => {}
        Err(place) => names.insert(place, name)?,
    }
    Ok(())
}
