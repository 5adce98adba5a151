//! Tables of names from texts.
ghost use Rattle.std.specs.Prelude.{◌≡◌, ◌↔◌, ◌∷◌, [], ◌≢◌, ℕ, List, map, slice_get, IfOk, IsTrue, Some};
ghost use Rattle.std.specs.List.Sorted.{IsStrictlySortedBy};
ghost use Rattle.std.specs.Ordering.{nat_cmp};
ghost use Rattle.std.specs.Cmp.Lexicographic.{slice_cmp};
ghost use Rattle.pure_text.specs.Lists.{IsIn};
ghost use Rattle.pure_typ.specs.NameTexts.{builtin_texts};
ghost use Rattle.pure_kernel.specs.NameTable.{AreNamesOf};

use pure_text::TextList;
use pure_typ::{Names, NamesByBase};
use std::alloc::{AllocError, Global};

/// Names are fewer than these.
const MOST_TEXTS: usize = 2_147_483_648;

/// Whether the text is that of a name that Pure itself declares. These are the only names.
fn is_builtin(own: &Names, text: &[u8]) -> bool
    requires { own.now ≡ [] }
    ensures { IsTrue result ↔ IsIn text.now builtin_texts }
{
    own.find(text).is_some()
}

/// The list of the text, or of none where it is that of a name of Pure.
fn single(alloc: Global, own: &Names, text: &[u8]) -> Result<TextList, AllocError>
    requires { own.now ≡ [] }
    ensures ascend { IfOk result (λ list. IsStrictlySortedBy (slice_cmp nat_cmp) list) }
    ensures texts { IfOk result (AreNamesOf (text.now ∷ [])) }
{
    if is_builtin(own, text) {
        return Ok(TextList::empty(alloc));
    }
    let mut list = TextList::empty(alloc);
    list.push(text)?;
    Ok(list)
}

/// The texts, but for those of Pure's names, each once, in byte order.
fn listed(alloc: Global, own: &Names, texts: &[&[u8]]) -> Result<TextList, AllocError>
    requires { own.now ≡ [] }
    ensures ascend { IfOk result (λ list. IsStrictlySortedBy (slice_cmp nat_cmp) list) }
    ensures texts { IfOk result (AreNamesOf (map (λ t. t.now) texts.now)) }
{
    let count = texts.len();
    if count == 0 {
        return Ok(TextList::empty(alloc));
    }
    if count == 1 {
        let list = single(alloc, own, texts[0])?;
        return Ok(list);
    }
    let (left, right) = texts.split_at(count / 2);
    let left = listed(alloc, own, left)?;
    let right = listed(alloc, own, right)?;
    let all = left.union(alloc, &right)?;
    Ok(all)
}

/// The names with these texts, if they aren't too many; else memory fails.
fn named(texts: TextList) -> Result<Names, AllocError>
    requires ascend { IsStrictlySortedBy (slice_cmp nat_cmp) texts }
    requires others { (text : List ℕ) → IsIn text texts → ¬ IsIn text builtin_texts }
    ensures { IfOk result (λ names. names ≡ texts) }
{
    if texts.len() >= MOST_TEXTS {
        return Err(AllocError);
    }
    Ok(Names::of_list(texts))
}

/// The table of the names that have these texts: the texts of theories' names, as `Group`; those of what is to be declared, as
/// `Group.times`; and those of variables, as `x`. They may come in any order and more than once; those of Pure's own names are
/// in each table. More than 2^31 texts are want of memory.
pub fn name_table(alloc: Global, texts: &[&[u8]]) -> Result<NamesByBase, AllocError>
    ensures { IfOk result (AreNamesOf (map (λ t. t.now) texts.now)) }
{
    let own = Names::of_list(TextList::empty(alloc));
    let list = listed(alloc, &own, texts)?;
    let names = named(list)?;
    let table = NamesByBase::make(alloc, names)?;
    Ok(table)
}
