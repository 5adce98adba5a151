//! Where the nodes of a name stand: of each name its last place, and of each place the one before it of its name.
ghost use Rattle.std.specs.Prelude.{◌≡◌, ◌≢◌, ◌↔◌, ◌<◌, ◌≤◌, ◌+◌, ◌*◌, ℕ, suc, IfOk, OnOk, get_or, length};
ghost use Rattle.pure_text.specs.Lists.{EachTwo};
ghost use Rattle.pure_order_tables.specs.Rows.{Holds};
ghost use Rattle.pure_promise_fates.specs.Reach.{IsAt};
ghost use Rattle.pure_citations.specs.Cited.{IsBefore};
ghost use Rattle.pure_citations.specs.Index.{IsCode, IsLast, AreBefore, AreLast, IsIndex, IsNodeAt};
ghost use Rattle.pure_citations.specs.Reached.{Gains};

use crate::nodes::Node;
use crate::rows::{holds, put};
use pure_typ::{Name, Names};
use std::alloc::{AllocError, Global};

/// Of each code the last place of a node with it, and one more; and of each place the last one of its code before it, and
/// one more. 0 says that there is none.
#[derive(Drop)]
pub(crate) struct Index {
    pub(crate) last: Vec<usize>,
    pub(crate) before: Vec<usize>,
}

/// The number of a name, and one more.
fn code_by(name: Name) -> usize
    ensures { result ≡ suc name }
{
    name.0 as usize + 1
}

/// The code of the node.
fn code_of(names: &Names, node: &Node) -> usize
    ensures { IsCode names.now node.now result }
{
    match names.find(node.name.bytes()) {
        Some(name) => code_by(name),
        None => 0,
    }
}

/// The codes of the nodes.
pub(crate) fn codes(alloc: Global, names: &Names, nodes: &[Node]) -> Result<Vec<usize>, AllocError>
    ensures { IfOk result (λ codes. EachTwo (IsCode names.now) nodes.now codes.items) }
{
    let mut codes = Vec::with_capacity(alloc, nodes.len())?;
    for node in nodes {
        codes.push(code_of(names, node))?;
    }
    Ok(codes)
}

/// What stands at the place, and 0 behind the end.
fn at(list: &[usize], place: usize) -> usize
    ensures { result ≡ get_or list.now place 0 }
{
    if place < list.len() { list[place] } else { 0 }
}

/// The next number.
fn after(number: usize) -> Result<usize, AllocError>
    ensures { IfOk result (λ next. next ≡ suc number) }
{
    number.checked_add(1).ok_or(AllocError)
}

/// The number of the bit of the word.
fn number_at(word: usize, bit: usize) -> Result<usize, AllocError>
    ensures { IfOk result (λ number. number ≡ word * 64 + bit) }
{
    let first = word.checked_mul(64).ok_or(AllocError)?;
    first.checked_add(bit).ok_or(AllocError)
}

/// Makes the list so long at least.
fn widen(list: &mut Vec<usize>, count: usize) -> Result<(), AllocError>
    ensures same { OnOk result ((k : ℕ) → get_or list.new.items k 0 ≡ get_or list.old.items k 0) }
    ensures long { OnOk result (count ≤ length list.new.items) }
{
    for _at in list.len()..count {
        list.push(0)?;
    }
    Ok(())
}

/// Puts the value at the place.
fn put_at(list: &mut Vec<usize>, place: usize, value: usize) -> Result<(), AllocError>
    ensures here { OnOk result (get_or list.new.items place 0 ≡ value) }
    ensures others { OnOk result ((k : ℕ) → k ≢ place → get_or list.new.items k 0 ≡ get_or list.old.items k 0) }
{
    widen(list, after(place)?)?;
    list[place] = value;
    Ok(())
}

/// Takes one place more into the index.
fn add(codes: &[usize], place: usize, index: &mut Index) -> Result<(), AllocError>
    requires within { place < length codes.now }
    requires long { length index.old.before.items ≡ place }
    requires lasts { AreLast codes.now index.old.last.items place }
    requires befores { AreBefore codes.now index.old.before.items place }
    ensures long { OnOk result (length index.new.before.items ≡ place + 1) }
    ensures lasts { OnOk result (AreLast codes.now index.new.last.items (place + 1)) }
    ensures befores { OnOk result (AreBefore codes.now index.new.before.items (place + 1)) }
{
    let code = codes[place];
    let last = at(index.last.as_slice(), code);
    index.before.push(last)?;
    put_at(&mut index.last, code, place + 1)?;
    Ok(())
}

/// The index of nodes with these codes.
pub(crate) fn index_of(alloc: Global, codes: &[usize]) -> Result<Index, AllocError>
    ensures { IfOk result (λ index. IsIndex codes.now index.last.items index.before.items) }
{
    let mut index = Index {
        last: Vec::new(alloc),
        before: Vec::new(alloc),
    };
    for place in 0..codes.len() {
        add(codes, place, &mut index)?;
    }
    Ok(index)
}

/// Puts in the places before the bound of the nodes with the code, of which this is the last, and one more.
fn put_from(
    codes: &[usize],
    before: &[usize],
    code: usize,
    bound: usize,
    last: usize,
    held: &mut Vec<u64>,
) -> Result<(), AllocError>
    requires within { bound ≤ length codes.now }
    requires befores { AreBefore codes.now before.now (length codes.now) }
    requires last { IsLast codes.now bound code last }
    ensures { OnOk result (Gains (λ q. (q < bound) × IsAt codes.now q code) held.old.items held.new.items) }
{
    if last == 0 {
        return Ok(());
    }
    let place = last - 1;
    put(held, place)?;
    put_from(codes, before, code, place, at(before, place), held)
}

/// Puts in the places of the nodes whose name has the number, where the set holds it.
fn put_number(
    codes: &[usize],
    index: &Index,
    named: &[u64],
    number: usize,
    held: &mut Vec<u64>,
) -> Result<(), AllocError>
    requires { IsIndex codes.now index.now.last.items index.now.before.items }
    ensures { OnOk result (Gains (λ q. Holds named.now number × IsNodeAt codes.now number q) held.old.items held.new.items) }
{
    if holds(named, number) {
        let code = after(number)?;
        let last = at(index.last.as_slice(), code);
        put_from(
            codes,
            index.before.as_slice(),
            code,
            codes.len(),
            last,
            held,
        )?;
        return Ok(());
    }
    Ok(())
}

/// The same of 64 numbers.
fn put_word(
    codes: &[usize],
    index: &Index,
    named: &[u64],
    word: usize,
    held: &mut Vec<u64>,
) -> Result<(), AllocError>
    requires index { IsIndex codes.now index.now.last.items index.now.before.items }
    requires within { word < length named.now }
    ensures { OnOk result (Gains (λ q. IsBefore (λ b. Holds named.now (word * 64 + b) × IsNodeAt codes.now (word * 64 + b) q) 64) held.old.items held.new.items) }
{
    if named[word] == 0 {
        return Ok(());
    }
    for bit in 0..64 {
        put_number(codes, index, named, number_at(word, bit)?, held)?;
    }
    Ok(())
}

/// Puts in the places of the nodes whose names the set holds.
pub(crate) fn put_places(
    codes: &[usize],
    index: &Index,
    named: &[u64],
    held: &mut Vec<u64>,
) -> Result<(), AllocError>
    requires { IsIndex codes.now index.now.last.items index.now.before.items }
    ensures { OnOk result (Gains (λ q. (number : ℕ) × Holds named.now number × IsNodeAt codes.now number q) held.old.items held.new.items) }
{
    for word in 0..named.len() {
        put_word(codes, index, named, word, held)?;
    }
    Ok(())
}
