//! The theory of groups, declared by calls.
use crate::stop::Stop;
use pure_kernel::{
    Name, NamesByBase, Stage, Theory, constant_typ_of_text, name_table, statement_of_text,
};
use std::alloc::{AllocError, Global};
use std::mem;
use std::sync::Arc;

/// The texts of all names: those of the theory, and of variables.
const TEXTS: [&[u8]; 32] = [
    b"Group",
    b"Group.g",
    b"Group.one",
    b"Group.mul",
    b"Group.inv",
    b"Group.assoc",
    b"Group.left_one",
    b"Group.left_inverse",
    b"x",
    b"y",
    b"z",
    b"A",
    b"B",
    b"C",
    b"D",
    b"E",
    b"F",
    b"G",
    b"H",
    b"I",
    b"J",
    b"K",
    b"L",
    b"M",
    b"N",
    b"O",
    b"P",
    b"Q",
    b"R",
    b"S",
    b"T",
    b"U",
];

/// The table of the names.
pub(crate) fn group_names(alloc: Global) -> Result<NamesByBase, AllocError> {
    name_table(alloc, &TEXTS)
}

/// The name of this text.
pub(crate) fn name_of(names: &NamesByBase, text: &[u8]) -> Result<Name, Stop> {
    match names.names().find(text) {
        Some(name) => Ok(name),
        None => Err(Stop::Missing),
    }
}

/// Pure, to be a parent.
fn pure_stage(alloc: Global) -> Result<Stage, Stop> {
    let thy = Theory::pure(alloc)?;
    match Arc::new(alloc, thy) {
        Ok(stage) => Ok(stage),
        Err(failed) => {
            mem::forget(failed);
            Err(Stop::Memory)
        }
    }
}

/// A theory of this name over the parents, before anything is declared in it.
fn begun_over(alloc: Global, name: Name, parents: &[Stage]) -> Result<Theory, Stop> {
    if !Theory::may_begin(alloc, 1, name, parents)? {
        return Err(Stop::Missing);
    }
    let thy = Theory::begin(alloc, 1, name, parents)?;
    Ok(thy)
}

/// The theory before anything is declared in it.
fn begun(alloc: Global, names: &NamesByBase) -> Result<Theory, Stop> {
    let name = name_of(names, b"Group")?;
    let parents = [pure_stage(alloc)?];
    let begun = begun_over(alloc, name, &parents);
    mem::forget(parents);
    begun
}

/// The theory with a type of elements.
fn with_typ(thy: &Theory, names: &NamesByBase, name: &[u8]) -> Result<Theory, Stop> {
    let name = name_of(names, name)?;
    let more = thy.declare_typ(name, 0)?;
    Ok(more)
}

/// The theory with a constant of this type.
fn with_const(
    alloc: Global,
    thy: &Theory,
    names: &NamesByBase,
    name: &[u8],
    typ: &[u8],
) -> Result<Theory, Stop> {
    let name = name_of(names, name)?;
    let typ = constant_typ_of_text(alloc, thy, names, typ)?;
    let more = thy.declare_const(name, &typ)?;
    Ok(more)
}

/// The theory with an axiom that states this.
fn with_axiom(
    alloc: Global,
    thy: &Theory,
    names: &NamesByBase,
    name: &[u8],
    prop: &[u8],
) -> Result<Theory, Stop> {
    let name = name_of(names, name)?;
    let stated = statement_of_text(alloc, thy, names, prop)?;
    let prop = thy.shared_prop(stated.prop)?;
    let more = thy.declare_axiom(name, prop)?;
    Ok(more)
}

/// What follows a theory, which isn't let go of: to prove that of all its tables anew is dear.
fn after(thy: Theory, more: Result<Theory, Stop>) -> Result<Theory, Stop> {
    mem::forget(thy);
    more
}

/// The theory with the constants of groups.
fn with_constants(alloc: Global, names: &NamesByBase) -> Result<Theory, Stop> {
    let thy = begun(alloc, names)?;
    let more = with_typ(&thy, names, b"Group.g");
    let thy = after(thy, more)?;
    let more = with_const(alloc, &thy, names, b"Group.one", b"g");
    let thy = after(thy, more)?;
    let more = with_const(alloc, &thy, names, b"Group.mul", b"g => g => g");
    let thy = after(thy, more)?;
    let more = with_const(alloc, &thy, names, b"Group.inv", b"g => g");
    after(thy, more)
}

/// The theory of groups: the operation is associative, `one` is its left unit, and `inv x` a left inverse of x.
pub(crate) fn group_theory(alloc: Global, names: &NamesByBase) -> Result<Theory, Stop> {
    let thy = with_constants(alloc, names)?;
    let prop = b"mul (mul x y) z == mul x (mul y z)";
    let more = with_axiom(alloc, &thy, names, b"Group.assoc", prop);
    let thy = after(thy, more)?;
    let more = with_axiom(alloc, &thy, names, b"Group.left_one", b"mul one x == x");
    let thy = after(thy, more)?;
    let prop = b"mul (inv x) x == one";
    let more = with_axiom(alloc, &thy, names, b"Group.left_inverse", prop);
    after(thy, more)
}
