//! Lists and maps that grow past their fronts, two ways, and by keys that come again.
use pure_shared_maps::{Entry, GrownList, GrownMap};
use std::alloc::{AllocError, Global};
use std::sync::Arc;

/// The value at a number.
fn square(number: u32) -> u32 {
    number.wrapping_mul(number)
}

/// A list of the squares of the numbers below this one.
fn squares(alloc: Global, count: u32) -> Result<GrownList<u32>, AllocError> {
    let mut list = GrownList::empty(alloc);
    for number in 0..count {
        list.push(alloc, Arc::new(alloc, square(number))?)?;
    }
    Ok(list)
}

/// Puts the squares of the numbers from the first to the end into the map.
fn put_squares(
    alloc: Global,
    map: &mut GrownMap<u32>,
    first: u32,
    end: u32,
) -> Result<(), AllocError> {
    for number in first..end {
        map.put(alloc, number, Arc::new(alloc, square(number))?)?;
    }
    Ok(())
}

/// Whether the list has this value at the place.
fn is_at(list: &GrownList<u32>, place: usize, value: u32) -> bool {
    place < list.len() && *list.get(place) == value
}

/// Whether the list has a square at each of these places, and no more.
fn is_of_squares(list: &GrownList<u32>, count: u32) -> bool {
    for number in 0..count {
        if !is_at(list, number as usize, square(number)) {
            return false;
        }
    }
    list.len() == count as usize
}

/// Whether the map has this value at the key.
fn has(map: &GrownMap<u32>, key: u32, value: u32) -> bool {
    map.get(key).copied() == Some(value)
}

/// Whether the map has the squares from the first number to the end.
fn has_squares(map: &GrownMap<u32>, first: u32, end: u32) -> bool {
    for number in first..end {
        if !has(map, number, square(number)) {
            return false;
        }
    }
    map.get(end).is_none()
}

/// Whether a list that grows to the count has its elements, and one that shares them.
pub(crate) fn list_grows(alloc: Global, count: u32) -> Result<bool, AllocError> {
    let list = squares(alloc, count)?;
    let same = list.share(alloc)?;
    Ok(is_of_squares(&list, count) && is_of_squares(&same, count))
}

/// Whether lists that grow from one of so many elements in two ways have each their own last element.
pub(crate) fn list_grows_in_two_ways(alloc: Global, count: u32) -> Result<bool, AllocError> {
    let mut first = squares(alloc, count)?;
    let mut second = first.share(alloc)?;
    first.push(alloc, Arc::new(alloc, 70)?)?;
    second.push(alloc, Arc::new(alloc, 71)?)?;
    let place = count as usize;
    let is_each = is_at(&first, place, 70) && is_at(&second, place, 71);
    Ok(is_each && first.len() == second.len())
}

/// Whether a map that grows to the count has its pairs, and maps that grow from it in two ways have each their own value.
pub(crate) fn map_grows_in_two_ways(alloc: Global, count: u32) -> Result<bool, AllocError> {
    let mut map = GrownMap::empty(alloc);
    put_squares(alloc, &mut map, 0, count)?;
    let is_whole = has_squares(&map, 0, count);
    let mut other = map.share(alloc)?;
    map.put(alloc, count, Arc::new(alloc, 70)?)?;
    other.put(alloc, count, Arc::new(alloc, 71)?)?;
    Ok(is_whole && has(&map, count, 70) && has(&other, count, 71))
}

/// Whether a key that comes again behind so many pairs, with so many behind it, has its later value, and the others theirs.
pub(crate) fn map_has_key_again(
    alloc: Global,
    before: u32,
    behind: u32,
) -> Result<bool, AllocError> {
    let mut map = GrownMap::empty(alloc);
    put_squares(alloc, &mut map, 0, before)?;
    let value = Arc::new(alloc, 70)?;
    let entries = vec![in alloc; Entry { key: 0, value }]?;
    map.put_all(alloc, entries)?;
    let end = behind.wrapping_add(100);
    put_squares(alloc, &mut map, 100, end)?;
    Ok(has(&map, 0, 70) && has_squares(&map, 1, before) && has_squares(&map, 100, end))
}
