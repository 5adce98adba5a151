//! Lists of texts put in order.
ghost use Rattle.std.specs.Prelude.{◌≡◌, ◌↔◌, ℕ, List, map, IfOk};
ghost use Rattle.std.specs.List.Sorted.{IsStrictlySortedBy};
ghost use Rattle.std.specs.Ordering.{nat_cmp};
ghost use Rattle.std.specs.Cmp.Lexicographic.{slice_cmp};
ghost use Rattle.pure_text.specs.Lists.{IsIn};

use pure_text::TextList;
use std::alloc::{AllocError, Global};

/// The texts of the list, lent.
fn lent(alloc: Global, list: &TextList) -> Result<Vec<&[u8]>, AllocError>
    ensures { IfOk result (λ texts. map (λ text. text.now) texts.items ≡ list.now) }
{
    let mut texts = Vec::with_capacity(alloc, list.len())?;
    for place in 0..list.len() {
        texts.push(list.at(place))?;
    }
    Ok(texts)
}

/// Puts texts in byte order, each once.
fn put_in_order(texts: &mut Vec<&[u8]>)
    ensures ascend { IsStrictlySortedBy (slice_cmp nat_cmp) (map (λ text. text.now) texts.new.items) }
    ensures same { (t : List ℕ) → IsIn t (map (λ text. text.now) texts.new.items) ↔ IsIn t (map (λ text. text.now) texts.old.items) }
{
    texts.sort_unstable();
    texts.dedup();
}

/// These texts as one list.
fn listed<'t>(alloc: Global, texts: &'t [&'t [u8]]) -> Result<TextList, AllocError>
    ensures { IfOk result (λ list. list ≡ map (λ text. text.now) texts.now) }
{
    let mut list = TextList::empty(alloc);
    let mut rest = texts;
    while let [text, more @ ..] = rest {
        list.push(text)?;
        rest = more;
    }
    Ok(list)
}

/// The texts of the list in byte order, each once.
pub(crate) fn in_order(alloc: Global, list: &TextList) -> Result<TextList, AllocError>
    ensures ascend { IfOk result (IsStrictlySortedBy (slice_cmp nat_cmp)) }
    ensures same { IfOk result (λ all. (t : List ℕ) → IsIn t all ↔ IsIn t list.now) }
{
    let mut texts = lent(alloc, list)?;
    put_in_order(&mut texts);
    let all = listed(alloc, texts.as_slice())?;
    Ok(all)
}
