//! The notation for declarations and refusals, which the head of `theories.rows` explains.
ghost use Rattle.std.specs.Prelude.{◌≡◌, IfOk, IsTrue};
ghost use Rattle.std.specs.List.Sorted.{IsStrictlyIncreasing};
ghost use Rattle.pure_definitions.specs.Types.Typ.{prop};
ghost use Rattle.pure_logic.specs.PureContent.{proposition_variable};

use crate::stop::{Refusal, Stop};
use pure_rows::{Row, number_of};
use pure_term::{Name, Sort, Term, TermNode, Typ};
use pure_theorem::prop_typ;
use pure_theory::{DeclFault, Theory};
use std::alloc::{AllocError, Global};
use std::sync::Arc;

/// What a row says of an answer: none, or why there is none.
pub(crate) type Answer = Option<Refusal>;

/// The field, where `-` stands for nothing.
pub(crate) fn given(row: &Row, place: usize) -> &[u8] {
    let field = row.field(place);
    if field == b"-".as_slice() { b"" } else { field }
}

/// What the table has for the text.
pub(crate) fn entry_of<T: Copy + Drop>(table: &[(&[u8], T)], text: &[u8]) -> Result<T, Stop> {
    for (own, entry) in table {
        if *own == text {
            return Ok(*entry);
        }
    }
    Err(Stop::Unreadable)
}

/// The answers to a question.
static ANSWERS: [(&[u8], bool); 2] = [(b"yes", true), (b"no", false)];

/// Whether the field says yes.
pub(crate) fn yes_or_no(field: &[u8]) -> Result<bool, Stop> {
    entry_of(&ANSWERS, field)
}

/// The number of the field.
pub(crate) fn number(row: &Row, place: usize) -> Result<u32, Stop> {
    match row.number(place) {
        Some(number) => Ok(number),
        None => Err(Stop::Unreadable),
    }
}

/// The name that the byte stands for.
pub(crate) fn name(byte: u8) -> Name {
    Name(u32::from(byte))
}

/// The name of a field of one byte.
pub(crate) fn name_of(field: &[u8]) -> Result<Name, Stop> {
    match field {
        [byte] => Ok(name(*byte)),
        _ => Err(Stop::Unreadable),
    }
}

/// The names of the bytes, in order.
fn names(alloc: Global, text: &[u8]) -> Result<Vec<Name>, AllocError> {
    let mut names = Vec::new(alloc);
    for byte in text {
        names.push(name(*byte))?;
    }
    Ok(names)
}

/// Whether the names ascend strictly.
fn is_ascending(names: &[Name]) -> bool
    ensures { IsTrue result → IsStrictlyIncreasing names.now }
{
    for i in 1..names.len() {
        if names[i - 1] >= names[i] {
            return false;
        }
    }
    true
}

/// The sort of these classes, which have to ascend.
fn sort_of(alloc: Global, text: &[u8]) -> Result<Sort, Stop> {
    let classes = names(alloc, text)?;
    if is_ascending(classes.as_slice()) {
        Ok(Sort::make(alloc, classes)?)
    } else {
        Err(Stop::Unreadable)
    }
}

/// The domains of an arity, with a stroke behind each.
fn domains_of(alloc: Global, text: &[u8]) -> Result<Vec<Sort>, Stop> {
    let mut domains = Vec::new(alloc);
    match text.split_last() {
        None => Ok(domains),
        Some((b'/', front)) => {
            for part in front.split(|byte| *byte == b'/') {
                let domain = sort_of(alloc, part)?;
                domains.push(domain)?;
            }
            Ok(domains)
        }
        _ => Err(Stop::Unreadable),
    }
}

/// The type of propositions.
pub(crate) fn prop(alloc: Global) -> Typ
    ensures { result ≡ prop }
{
    prop_typ(alloc)
}

/// The statement `?A`.
pub(crate) fn variable(alloc: Global) -> Term
    ensures { result ≡ proposition_variable 0 }
{
    let node = TermNode::Var {
        name: Name(0),
        index: 0,
        typ: prop(alloc),
    };
    Term { node }
}

/// The statement `?A`, to be shared.
pub(crate) fn shared_variable(alloc: Global) -> Result<Arc<Term>, AllocError>
    ensures { IfOk result (λ prop. prop.value ≡ proposition_variable 0) }
{
    let prop = Arc::new(alloc, variable(alloc))?;
    Ok(prop)
}

/// Pure itself.
pub(crate) fn pure(alloc: Global) -> Result<Theory, Stop> {
    Theory::pure(alloc).map_err(Stop::from)
}

/// Declares a constant of type prop.
pub(crate) fn declare_const(
    alloc: Global,
    theory: &Theory,
    name: Name,
) -> Result<Theory, DeclFault> {
    theory.content_is_sound();
    let typ = prop(alloc);
    theory.declare_const(name, &typ)
}

/// Declares an axiom that states `?A`.
pub(crate) fn declare_axiom(
    alloc: Global,
    theory: &Theory,
    name: Name,
) -> Result<Theory, DeclFault> {
    theory.content_is_sound();
    let prop = shared_variable(alloc)?;
    theory.declare_axiom(name, prop)
}

/// Declares a class.
fn declare_class(alloc: Global, theory: &Theory, name: Name, text: &[u8]) -> Result<Theory, Stop> {
    let above = names(alloc, text)?;
    theory
        .declare_class(name, above.as_slice())
        .map_err(Stop::of)
}

/// Declares a type constructor.
fn declare_typ(theory: &Theory, name: Name, text: &[u8]) -> Result<Theory, Stop> {
    match number_of(text) {
        Some(count) => theory.declare_typ(name, count).map_err(Stop::of),
        None => Err(Stop::Unreadable),
    }
}

/// Declares an arity of the constructor.
fn declare_arity(alloc: Global, theory: &Theory, con: Name, text: &[u8]) -> Result<Theory, Stop> {
    let [front @ .., b'=', class] = text else {
        return Err(Stop::Unreadable);
    };
    let domains = domains_of(alloc, front)?;
    theory
        .declare_arity(con, domains.as_slice(), name(*class))
        .map_err(Stop::of)
}

/// Makes one declaration.
pub(crate) fn declare(alloc: Global, theory: &Theory, word: &[u8]) -> Result<Theory, Stop> {
    let [first, kind, rest @ ..] = word else {
        return Err(Stop::Unreadable);
    };
    let first = name(*first);
    match *kind {
        b'<' => declare_class(alloc, theory, first, rest),
        b'/' => declare_typ(theory, first, rest),
        b':' => declare_arity(alloc, theory, first, rest),
        b'.' if rest.is_empty() => declare_const(alloc, theory, first).map_err(Stop::of),
        b'!' if rest.is_empty() => declare_axiom(alloc, theory, first).map_err(Stop::of),
        _ => Err(Stop::Unreadable),
    }
}

/// The refusal of this letter and these names.
fn fault_with(letter: u8, names: &[u8]) -> Option<Refusal> {
    match (letter, names) {
        (b'D', []) => Some(Refusal::Duplicate),
        (b'V', []) => Some(Refusal::NotClosed),
        (b'X', []) => Some(Refusal::ExtraType),
        (b'C', [class]) => Some(Refusal::UnknownClass(u32::from(*class))),
        (b'T', [other]) => Some(Refusal::UnknownType(u32::from(*other))),
        (b'W', [other]) => Some(Refusal::WrongCount(u32::from(*other))),
        (b'N', [con, first, second]) => Some(Refusal::NotCoregular(
            u32::from(*con),
            u32::from(*first),
            u32::from(*second),
        )),
        _ => None,
    }
}

/// The refusal that is written so.
pub(crate) fn fault_of(text: &[u8]) -> Result<Refusal, Stop> {
    let [letter, names @ ..] = text else {
        return Err(Stop::Unreadable);
    };
    match fault_with(*letter, names) {
        Some(refusal) => Ok(refusal),
        None => Err(Stop::Unreadable),
    }
}

/// The answer that is written so: `ok`, or a refusal.
pub(crate) fn answer_of(text: &[u8]) -> Result<Answer, Stop> {
    if text == b"ok".as_slice() {
        return Ok(None);
    }
    Ok(Some(fault_of(text)?))
}
