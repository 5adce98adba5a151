//! A theory for the rows.
ghost use Rattle.std.specs.Prelude.{◌≡◌, option_map};
ghost use Rattle.pure_elab_rows.specs.Theory.{name_among, count_among, typ_among};

use pure_elab::Language;
use pure_notation::{NotationFault, read_typ};
use pure_order::{Order, OrderFault};
use pure_typ::{Name, Sort, Text, Typ};
use std::alloc::{AllocError, Global};
use std::mem;
use std::test::Fail;

// Names are the notation's. The theory A declares the classes A.c and A.d, this one below the other; the types A.i, with
// an arity for A.c, and A.k, with one argument and an arity for A.d from one of A.d; the constants A.P and A.f, which are
// polymorphic, and A.i, A.d and A.k of the types A.i, A.i A.k and prop. Pure's are declared too. Before the arity of A.i
// all but that is declared.

/// How a name is written.
#[derive(Drop)]
pub struct Written {
    pub text: Text,
    pub name: Name,
}

/// A constructor with the count of its arguments.
#[derive(Clone, Copy)]
pub struct Counted {
    pub name: Name,
    pub count: u32,
}

/// A constant with its type.
#[derive(Drop)]
pub struct Constant {
    pub name: Name,
    pub typ: Typ,
}

/// The rows' theory, as tables.
#[derive(Drop)]
pub(crate) struct Theory {
    classes: Vec<Written>,
    cons: Vec<Written>,
    consts: Vec<Written>,
    names: Vec<Written>,
    counts: Vec<Counted>,
    typs: Vec<Constant>,
    order: Order,
}

static CLASSES: [(&[u8], u32); 4] = [(b"c", 8), (b"A.c", 8), (b"d", 9), (b"A.d", 9)];

static CONS: [(&[u8], u32); 8] = [
    (b"fun", 0),
    (b"Pure.fun", 0),
    (b"prop", 1),
    (b"Pure.prop", 1),
    (b"i", 11),
    (b"A.i", 11),
    (b"k", 12),
    (b"A.k", 12),
];

static CONSTS: [(&[u8], u32); 16] = [
    (b"all", 2),
    (b"Pure.all", 2),
    (b"imp", 3),
    (b"Pure.imp", 3),
    (b"eq", 4),
    (b"Pure.eq", 4),
    (b"P", 7),
    (b"A.P", 7),
    (b"f", 10),
    (b"A.f", 10),
    (b"i", 11),
    (b"A.i", 11),
    (b"d", 9),
    (b"A.d", 9),
    (b"k", 12),
    (b"A.k", 12),
];

/// The names that fixed variables and type variables of the rows have.
static NAMES: [(&[u8], u32); 7] = [
    (b"a", 14),
    (b"b", 15),
    (b"p", 24),
    (b"v", 27),
    (b"x", 29),
    (b"y'", 30),
    (b"c", 16),
];

static COUNTS: [(u32, u32); 4] = [(0, 2), (1, 0), (11, 0), (12, 1)];

static TYPS: [(u32, &[u8]); 8] = [
    (2, b"> > ?'a Pure.prop Pure.prop"),
    (3, b"> Pure.prop > Pure.prop Pure.prop"),
    (4, b"> ?'a > ?'a Pure.prop"),
    (7, b"> ?'a Pure.prop"),
    (10, b"> ?'a:A.c A.i"),
    (11, b"A.i"),
    (9, b"A.k/1 A.i"),
    (12, b"Pure.prop"),
];

/// How many names the notation has.
const FRESH: u32 = 31;

/// The name that is written so.
fn find_written(entries: &[Written], text: &[u8]) -> Option<Name>
    ensures { result ≡ name_among entries.now text.now }
{
    for entry in entries {
        let same = entry.text.bytes() == text;
        if same {
            return Some(entry.name);
        }
    }
    None
}

/// The count of the constructor.
fn find_count(entries: &[Counted], name: Name) -> Option<u32>
    ensures { result ≡ count_among entries.now name }
{
    for entry in entries {
        let same = entry.name == name;
        if same {
            return Some(entry.count);
        }
    }
    None
}

/// The type of the constant.
fn find_typ(entries: &[Constant], name: Name) -> Option<&Typ>
    ensures { option_map (λ t. t.now) result ≡ typ_among entries.now name }
{
    for entry in entries {
        let same = entry.name == name;
        if same {
            return Some(&entry.typ);
        }
    }
    None
}

/// The domains with one sort, of one class.
fn domain(alloc: Global, class: Name) -> Result<Vec<Sort>, AllocError> {
    let sort = Sort::make(alloc, vec![in alloc; class]?)?;
    Ok(vec![in alloc; sort]?)
}

/// Adds the classes and arities without that of A.i.
fn put_early(alloc: Global, order: &mut Order) -> Result<(), OrderFault> {
    let (lower, upper) = (Name(9), Name(8));
    let domains = domain(alloc, lower)?;
    order.add_class(alloc, upper, &[])?;
    order.add_class(alloc, lower, &[upper])?;
    order.add_arity(alloc, Name(12), domains, lower)
}

/// Adds the entries of the rows.
fn put_written(
    alloc: Global,
    entries: &mut Vec<Written>,
    rows: &[(&[u8], u32)],
) -> Result<(), AllocError> {
    for (text, name) in rows {
        let text = Text::make(alloc, text)?;
        let name = Name(*name);
        entries.push(Written { text, name })?;
    }
    Ok(())
}

/// Adds the counts.
fn put_counts(entries: &mut Vec<Counted>) -> Result<(), AllocError> {
    for (name, count) in COUNTS {
        let name = Name(name);
        entries.push(Counted { name, count })?;
    }
    Ok(())
}

/// Adds the types.
fn put_typs(alloc: Global, entries: &mut Vec<Constant>) -> Result<(), NotationFault> {
    for (name, text) in TYPS {
        let typ = read_typ(alloc, text)?;
        let name = Name(name);
        entries.push(Constant { name, typ })?;
    }
    Ok(())
}

/// Fills the tables, and the order but for the arity of A.i.
fn fill(alloc: Global, theory: &mut Theory) -> Result<(), Fail> {
    put_written(alloc, &mut theory.classes, &CLASSES)?;
    put_written(alloc, &mut theory.cons, &CONS)?;
    put_written(alloc, &mut theory.consts, &CONSTS)?;
    put_written(alloc, &mut theory.names, &NAMES)?;
    put_counts(&mut theory.counts)?;
    put_typs(alloc, &mut theory.typs)?;
    put_early(alloc, &mut theory.order)?;
    Ok(())
}

/// The theory without entries.
fn empty_theory(alloc: Global) -> Theory {
    Theory {
        classes: Vec::new(alloc),
        cons: Vec::new(alloc),
        consts: Vec::new(alloc),
        names: Vec::new(alloc),
        counts: Vec::new(alloc),
        typs: Vec::new(alloc),
        order: Order::empty(alloc),
    }
}

/// The theory before the arity of A.i.
pub(crate) fn make_early_theory(alloc: Global) -> Result<Theory, Fail> {
    let mut theory = empty_theory(alloc);
    match fill(alloc, &mut theory) {
        Ok(()) => Ok(theory),
        Err(fail) => {
            mem::forget(theory);
            Err(fail)
        }
    }
}

/// The theory.
pub(crate) fn make_theory(alloc: Global) -> Result<Theory, Fail> {
    let mut theory = make_early_theory(alloc)?;
    match theory
        .order
        .add_arity(alloc, Name(11), Vec::new(alloc), Name(8))
    {
        Ok(()) => Ok(theory),
        Err(fault) => {
            mem::forget(theory);
            Err(fault.into())
        }
    }
}

impl Language for Theory {
    ghost use Rattle.pure_elab_rows.specs.Theory.{vocabulary_of};

    ghost vocabulary = { λ t. vocabulary_of t.classes.items t.cons.items t.consts.items t.names.items t.counts.items t.typs.items t.order 31 };

    fn find_class(&self, written: &[u8]) -> Option<Name> {
        find_written(self.classes.as_slice(), written)
    }

    fn find_typ(&self, written: &[u8]) -> Option<Name> {
        find_written(self.cons.as_slice(), written)
    }

    fn find_const(&self, written: &[u8]) -> Option<Name> {
        find_written(self.consts.as_slice(), written)
    }

    fn find_name(&self, text: &[u8]) -> Option<Name> {
        find_written(self.names.as_slice(), text)
    }

    fn typ_params(&self, name: Name) -> Option<u32> {
        find_count(self.counts.as_slice(), name)
    }

    fn const_typ(&self, name: Name) -> Option<&Typ> {
        find_typ(self.typs.as_slice(), name)
    }

    fn order(&self) -> &Order {
        &self.order
    }

    fn first_fresh(&self) -> u32 {
        FRESH
    }
}
