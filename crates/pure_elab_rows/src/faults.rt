//! Faults by their words.
use crate::read::Wanted;
use pure_elab::ElabFault;
use pure_rows::{Outcome, Row};

/// A kind of faults.
#[derive(Clone, Copy)]
enum Kind {
    Name,
    Class,
    Count,
    Schematic,
    Typing,
    Large,
}

/// The kinds by their words.
static KINDS: [(&[u8], Kind); 6] = [
    (b"name", Kind::Name),
    (b"class", Kind::Class),
    (b"count", Kind::Count),
    (b"schematic", Kind::Schematic),
    (b"typing", Kind::Typing),
    (b"large", Kind::Large),
];

/// The kind of the word.
fn kind_of(word: &[u8]) -> Option<Kind> {
    for (text, kind) in KINDS {
        if word == text {
            return Some(kind);
        }
    }
    None
}

/// The fault of this kind at this place, which is 0 for what is beyond the limits.
fn fault_at(kind: Kind, at: u32) -> Option<ElabFault> {
    match kind {
        Kind::Name => Some(ElabFault::UnknownName { at }),
        Kind::Class => Some(ElabFault::UnknownSort { at }),
        Kind::Count => Some(ElabFault::WrongCount { at }),
        Kind::Schematic => Some(ElabFault::Schematic { at }),
        Kind::Typing => Some(ElabFault::IllTyped { at }),
        Kind::Large if at == 0 => Some(ElabFault::Big),
        Kind::Large => None,
    }
}

/// The fault that the row says: its kind in this field, and where it stands in the next.
fn fault_of(row: &Row, field: usize) -> Option<ElabFault> {
    let kind = kind_of(row.field(field))?;
    fault_at(kind, row.number(field.saturating_add(1))?)
}

/// The fault that the row says, as what it wants.
pub(crate) fn fault_wanted<T>(row: &Row, field: usize) -> Wanted<T> {
    match fault_of(row, field) {
        Some(fault) => Ok(Err(fault)),
        None => Err(Outcome::Unreadable),
    }
}
