//! Look-ups of written names.
ghost use Rattle.std.specs.Prelude.{◌≡◌, ◌↔◌, ◌<◌, ◌≤◌, ◌-◌, ℕ, IsTrue, MatchOption, get_or, length};
ghost use Rattle.pure_text.specs.Lists.{IsIn};
ghost use Rattle.pure_definitions.specs.Names.{builtin_count};
ghost use Rattle.pure_typ.specs.NameTexts.{HasText, NameHasBase, IsFound, name_texts};
ghost use Rattle.pure_lookup.specs.Meaning.{Declared, IsWritable, IsMeantInFull, IsMeantByBase, IsMeant};
ghost use Rattle.pure_lookup.specs.Laws.{IsInSession};
ghost use Rattle.pure_lookup.specs.Places.{IsPlaceOf, IsLaterPlaceOf, IsTheoryIn, IsBest};

use crate::scope::Scope;
use pure_typ::{BUILTIN_COUNT, Name, Names, NamesByBase};

/// What stands in front of the text's first dot; none where it has no dot.
pub fn theory_in(text: &[u8]) -> Option<&[u8]>
    ensures { MatchOption result (¬ IsIn 46 text.now) (λ theory. IsTheoryIn text.now theory.now) }
{
    for (at, byte) in text.iter().enumerate() {
        if *byte == b'.' {
            return Some(&text[..at]);
        }
    }
    None
}

/// Whether the text of the name begins so.
fn begins(names: &Names, name: Name, front: &[u8]) -> bool {
    match names.text(name) {
        Some(text) => text.starts_with(front),
        None => false,
    }
}

/// The first up to this name whose text begins so, as long as they ascend.
fn first_beginning(names: &Names, name: Name, front: &[u8]) -> Name {
    let mut low = 0;
    let mut high = name.0;
    while low < high {
        let middle = low + (high - low) / 2;
        if begins(names, Name(middle), front) {
            high = middle;
        } else {
            low = middle + 1;
        }
    }
    Name(low)
}

/// Whether the name has this text.
fn has_text(names: &Names, name: Name, text: &[u8]) -> bool {
    match names.text(name) {
        Some(own) => own == text,
        None => false,
    }
}

/// The name with the text of a theory that stands in front of the text of this name, as a guess: the one so far before it, or the first that begins so.
fn guessed(names: &Names, name: Name, theory: &[u8], gap: u32) -> Name {
    let near = Name(name.0.saturating_sub(gap));
    if has_text(names, near, theory) {
        return near;
    }
    first_beginning(names, name, theory)
}

/// The name with the text of a theory that stands in front of the text of this name. It is mostly as far before it as in the theory that was looked for last, or the first that begins so; where it isn't, all are searched.
fn theory_named(names: &Names, name: Name, theory: &[u8], gap: &mut u32) -> Option<Name>
    ensures { IsFound (name_texts names.now) theory.now result }
{
    let first = guessed(names, name, theory, *gap);
    if let Some(text) = names.text(first) {
        if text == theory {
            *gap = name.0.saturating_sub(first.0);
            return Some(first);
        }
    }
    names.find(theory)
}

/// The place in load order of the theory whose text stands in front of the first dot: that of Pure is 0.
fn place_in_theory<S: Scope>(
    scope: &S,
    names: &Names,
    name: Name,
    text: &[u8],
    gap: &mut u32,
) -> Option<u64>
    requires { IsInSession names.now (S.content scope.now) }
    ensures { (n : ℕ) → HasText names.now n text.now → builtin_count ≤ n → IsWritable (S.content scope.now) (S.space scope.now) n → IsPlaceOf names.now (S.content scope.now) (S.space scope.now) n result }
{
    let Some(theory) = theory_in(text) else {
        return None;
    };
    let Some(found) = theory_named(names, name, theory, gap) else {
        return None;
    };
    match scope.index_of(found) {
        None => None,
        Some(index) => Some(index as u64 + 1),
    }
}

/// The place in load order at which the name is visible, if it is declared and may be written.
fn place_if_writable<S: Scope>(scope: &S, names: &Names, name: Name, gap: &mut u32) -> Option<u64>
    requires { IsInSession names.now (S.content scope.now) }
    ensures { IsWritable (S.content scope.now) (S.space scope.now) name → IsPlaceOf names.now (S.content scope.now) (S.space scope.now) name result }
{
    if name.0 < BUILTIN_COUNT {
        return Some(0);
    }
    let Some(text) = names.text(name) else {
        return None;
    };
    place_in_theory(scope, names, name, text, gap)
}

/// Whether the name is declared and may be written.
fn is_writable<S: Scope>(scope: &S, name: Name) -> bool
    ensures { IsTrue result ↔ IsWritable (S.content scope.now) (S.space scope.now) name }
{
    if name == Name::PROTECT {
        return false;
    }
    scope.is_declared(name)
}

/// The place in load order at which the name is visible, if it isn't before this one.
fn later_place<S: Scope>(
    scope: &S,
    names: &Names,
    name: Name,
    last: u64,
    gap: &mut u32,
) -> Option<u64>
    requires { IsInSession names.now (S.content scope.now) }
    ensures { IsLaterPlaceOf names.now (S.content scope.now) (S.space scope.now) name last result }
{
    let Some(place) = place_if_writable(scope, names, name, gap) else {
        return None;
    };
    if place < last {
        return None;
    }
    if is_writable(scope, name) {
        Some(place)
    } else {
        None
    }
}

/// The name of the name space that is visible under just this full name.
fn find_in_full<S: Scope>(scope: &S, names: &Names, written: &[u8]) -> Option<Name>
    requires { IsInSession names.now (S.content scope.now) }
    ensures { MatchOption result
        ((n : ℕ) → ¬ IsMeantInFull names.now (S.content scope.now) (S.space scope.now) written.now (Declared n))
        (λ n. IsMeantInFull names.now (S.content scope.now) (S.space scope.now) written.now (Declared n)) }
{
    let Some(name) = names.find(written) else {
        return None;
    };
    let Some(base) = names.base(name) else {
        return None;
    };
    if let Some(_) = theory_in(base) {
        return None;
    }
    let mut gap = 0;
    match later_place(scope, names, name, 0, &mut gap) {
        None => None,
        Some(_) => Some(name),
    }
}

/// The name so far before the last.
fn from_end(names: &[Name], back: usize) -> Name
    requires { back < length names.now }
    ensures { result ≡ get_or names.now (length names.now - 1 - back) result }
{
    names[names.len() - 1 - back]
}

/// Of these names, whose texts have the base, one that is visible last in load order. The last is mostly in the theory loaded last: of those before it then only the place is asked.
fn last_of<S: Scope>(scope: &S, names: &Names, written: &[u8], candidates: &[Name]) -> Option<Name>
    requires session { IsInSession names.now (S.content scope.now) }
    requires bases { (n : ℕ) → IsIn n candidates.now → NameHasBase names.now written.now n }
    ensures { (last : ℕ) × IsBest names.now (S.content scope.now) (S.space scope.now) written.now candidates.now result last }
{
    let mut best = None;
    let mut last: u64 = 0;
    let mut gap: u32 = 0;
    for back in 0..candidates.len() {
        let name = from_end(candidates, back);
        if let Some(place) = later_place(scope, names, name, last, &mut gap) {
            best = Some(name);
            last = place;
        }
    }
    best
}

/// The name that is declared in the name space and is written so; none where the written name means no name. It takes no memory.
pub fn find_name<S: Scope>(scope: &S, names: &NamesByBase, written: &[u8]) -> Option<Name>
    requires { IsInSession names.now (S.content scope.now) }
    ensures { MatchOption result
        ((n : ℕ) → ¬ IsMeant names.now (S.content scope.now) (S.space scope.now) written.now (Declared n))
        (λ n. IsMeant names.now (S.content scope.now) (S.space scope.now) written.now (Declared n)) }
{
    match theory_in(written) {
        Some(_) => find_in_full(scope, names.names(), written),
        None => last_of(scope, names.names(), written, names.with_base(written)),
    }
}
