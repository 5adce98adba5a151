//! Tables of type variables that have numbers.
ghost use Rattle.std.specs.Prelude.{◌≡◌, ◌+◌, ℕ, List, [], ◌∷◌, ◌++◌, length, true, false, IfOk, OnOk, OnErr};
ghost use Rattle.pure_definitions.specs.Types.Typ as tree;
ghost use Rattle.pure_definitions.specs.Types.Typ.{typ_eq};
ghost use Rattle.pure_definitions.specs.Terms.Subst.{typ_image};
ghost use Rattle.pure_elab.specs.Numbered as spec;
ghost use Rattle.pure_elab.specs.Numbering.{image_of};
ghost use Rattle.pure_elab.specs.Numbers.{entries, IsPlaceAmong, IsImageIn};

use pure_typ::{Name, Sort, Typ, TypBind, TypMap, TypNode};
use std::alloc::{AllocError, Global};

/// How many variables are looked at one after the other.
const FEW: usize = 8;

/// What numbered variables become: unknowns, or fixed type variables.
#[derive(Clone, Copy, Debug)]
pub enum Numbering {
    Unknowns,
    Fixed,
}

/// A schematic type variable.
#[derive(Debug, Drop)]
pub struct Variable {
    pub name: Name,
    pub index: u32,
    pub sort: Sort,
}

/// The variables that have numbers, in the order of these: the first few, and entries for further ones.
#[derive(Debug, Drop)]
pub struct Numbers {
    pub few: Vec<Variable>,
    pub many: TypMap,
}

/// The table without variables. It takes no memory.
pub(crate) fn no_numbers(alloc: Global) -> Numbers
    ensures few { result.few.items ≡ [] }
    ensures many { result.many ≡ [] }
{
    Numbers {
        few: Vec::new(alloc),
        many: TypMap::empty(alloc),
    }
}

/// Leaves no variables in the table, and the room of its list.
pub(crate) fn restart(alloc: Global, numbers: &mut Numbers)
    ensures few { numbers.new.few.items ≡ [] }
    ensures many { numbers.new.many ≡ [] }
{
    numbers.few.clear();
    numbers.many = TypMap::empty(alloc);
}

/// The number and so many further ones.
pub(crate) fn further(number: u32, count: usize) -> Result<u32, AllocError>
    ensures { IfOk result (λ n. n ≡ number + count) }
{
    if count > u32::MAX as usize {
        return Err(AllocError);
    }
    match number.checked_add(count as u32) {
        Some(next) => Ok(next),
        None => Err(AllocError),
    }
}

/// The first number that none of the variables has.
pub(crate) fn next_number(first: u32, numbers: &Numbers) -> Result<u32, AllocError>
    ensures { IfOk result (λ n. (image : ℕ → List ℕ → tree.Typ) → n ≡ first + length (entries image first numbers.now)) }
{
    let behind = further(first, numbers.few.len())?;
    let number = further(behind, numbers.many.binds().len())?;
    Ok(number)
}

/// The image of the variable with this number and sort.
fn image(numbering: Numbering, number: u32, sort: Sort) -> Typ
    ensures { result ≡ image_of numbering number sort }
{
    let name = Name(number);
    match numbering {
        Numbering::Unknowns => Typ {
            node: TypNode::TVar {
                name,
                index: 0,
                sort,
            },
        },
        Numbering::Fixed => Typ {
            node: TypNode::TFree { name, sort },
        },
    }
}

/// Whether this is the variable.
fn is_variable(variable: &Variable, name: Name, index: u32, sort: &Sort) -> bool
    ensures { result ≡ typ_eq (tree.TVar variable.now.name variable.now.index variable.now.sort) (tree.TVar name index sort.now) }
{
    variable.name == name && variable.index == index && variable.sort == *sort
}

/// The place of the variable among these.
fn place_among(few: &[Variable], name: Name, index: u32, sort: &Sort) -> Option<usize>
    ensures { (image : ℕ → List ℕ → tree.Typ) (first : ℕ) → IsPlaceAmong image first few.now name index sort.now result }
{
    for i in 0..few.len() {
        if is_variable(&few[i], name, index, sort) {
            return Some(i);
        }
    }
    None
}

/// An entry for the variable with this number.
fn entry(
    alloc: Global,
    numbering: Numbering,
    number: u32,
    name: Name,
    index: u32,
    sort: &Sort,
) -> Result<TypBind, AllocError>
    ensures { IfOk result (λ b. b ≡ record { name = name; index = index; sort = sort.now; image = image_of numbering number sort.now }) }
{
    let copy = sort.copy(alloc)?;
    let sort = sort.copy(alloc)?;
    let image = image(numbering, number, copy);
    Ok(TypBind {
        name,
        index,
        sort,
        image,
    })
}

/// Adds an entry for a variable, if it has none yet.
fn add_entry(
    alloc: Global,
    numbering: Numbering,
    first: u32,
    binds: &mut TypMap,
    name: Name,
    index: u32,
    sort: &Sort,
) -> Result<(), AllocError>
    ensures { OnOk result (binds.new ≡ spec.with_entry (image_of numbering) first binds.old (tree.TVar name index sort.now)) }
{
    match binds.find(name, index, sort) {
        Some(_) => Ok(()),
        None => {
            let number = further(first, binds.binds().len())?;
            let entry = entry(alloc, numbering, number, name, index, sort)?;
            binds.push(entry)?;
            Ok(())
        }
    }
}

/// The image that an entry has for the variable.
fn found_image(
    alloc: Global,
    binds: &TypMap,
    name: Name,
    index: u32,
    sort: &Sort,
) -> Result<Typ, AllocError>
    ensures image { IfOk result (λ t. t ≡ typ_image binds.now (tree.TVar name index sort.now)) }
    ensures has { OnOk result (spec.has_entry binds.now (tree.TVar name index sort.now) ≡ true) }
{
    match binds.find(name, index, sort) {
        Some(image) => {
            let typ = image.copy(alloc)?;
            Ok(typ)
        }
        None => Err(AllocError),
    }
}

/// The image of a variable that isn't among the first few.
fn further_image(
    alloc: Global,
    numbering: Numbering,
    first: u32,
    numbers: &mut Numbers,
    name: Name,
    index: u32,
    sort: &Sort,
) -> Result<Typ, AllocError>
    ensures few { OnOk result (numbers.new.few.items ≡ numbers.old.few.items) }
    ensures many { OnOk result (numbers.new.many ≡ spec.with_entry (image_of numbering) (first + length numbers.old.few.items) numbers.old.many (tree.TVar name index sort.now)) }
    ensures image { IfOk result (λ t. t ≡ typ_image numbers.new.many (tree.TVar name index sort.now)) }
    ensures has { OnOk result (spec.has_entry numbers.new.many (tree.TVar name index sort.now) ≡ true) }
{
    let behind = further(first, numbers.few.len())?;
    add_entry(
        alloc,
        numbering,
        behind,
        &mut numbers.many,
        name,
        index,
        sort,
    )?;
    let typ = found_image(alloc, &numbers.many, name, index, sort)?;
    Ok(typ)
}

/// The image of the variable that has the next place among the first few.
fn next_image(
    alloc: Global,
    numbering: Numbering,
    first: u32,
    few: &mut Vec<Variable>,
    name: Name,
    index: u32,
    sort: Sort,
) -> Result<Typ, AllocError>
    ensures few { OnOk result (few.new.items ≡ few.old.items ++ record { name = name; index = index; sort = sort } ∷ []) }
    ensures image { IfOk result (λ t. t ≡ image_of numbering (first + length few.old.items) sort) }
{
    let number = further(first, few.len())?;
    let copy = sort.copy(alloc)?;
    few.push(Variable {
        name,
        index,
        sort: copy,
    })?;
    Ok(image(numbering, number, sort))
}

/// The image of the variable at this place among the first few.
fn image_at(numbering: Numbering, first: u32, place: usize, sort: Sort) -> Result<Typ, AllocError>
    ensures { IfOk result (λ t. t ≡ image_of numbering (first + place) sort) }
{
    let number = further(first, place)?;
    Ok(image(numbering, number, sort))
}

/// The image of the variable, which has the next number if it has none yet.
pub(crate) fn image_in(
    alloc: Global,
    numbering: Numbering,
    first: u32,
    numbers: &mut Numbers,
    name: Name,
    index: u32,
    sort: Sort,
) -> Result<Typ, AllocError>
    ensures { IfOk result (IsImageIn (image_of numbering) first (entries (image_of numbering) first numbers.old) (entries (image_of numbering) first numbers.new) (tree.TVar name index sort)) }
{
    match place_among(numbers.few.as_slice(), name, index, &sort) {
        Some(place) => {
            let typ = image_at(numbering, first, place, sort)?;
            Ok(typ)
        }
        None => {
            if numbers.few.len() < FEW && numbers.many.binds().len() == 0 {
                let typ = next_image(alloc, numbering, first, &mut numbers.few, name, index, sort)?;
                return Ok(typ);
            }
            let typ = further_image(alloc, numbering, first, numbers, name, index, &sort)?;
            Ok(typ)
        }
    }
}
