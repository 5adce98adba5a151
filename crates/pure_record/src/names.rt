//! The names of a record.
ghost use Rattle.std.specs.Prelude.{◌≡◌, ◌≢◌, ◌∷◌, ◌++◌, [], ℕ, List, true, length, slice_get, option_map, IfOk, Some};
ghost use Rattle.std.specs.List.Sorted.{IsStrictlySortedBy};
ghost use Rattle.std.specs.Ordering.{nat_cmp};
ghost use Rattle.std.specs.Cmp.Lexicographic.{slice_cmp};
ghost use Rattle.pure_text.specs.Lists.{IsIn};
ghost use Rattle.pure_grammar.specs.declared.token.Token as grammar;
ghost use Rattle.pure_grammar.specs.Tokens.Spelling.{AreSlices};
ghost use Rattle.pure_typ.specs.NameTexts.{builtin_texts};
ghost use Rattle.pure_record.specs.Spelled.{AreNamesOf, only};

use crate::lexing::{bytes_within, equals, spelling_of};
use pure_grammar::Token;
use pure_term::Names;
use pure_text::TextList;
use std::alloc::{AllocError, Global};

/// Names are fewer than these.
const MOST_TEXTS: usize = 2_147_483_648;

/// So many tokens have their names looked for one after another.
const FEW: usize = 32;

/// The text, if there is one, as a list.
fn listed(alloc: Global, text: Option<&[u8]>) -> Result<TextList, AllocError>
    ensures { IfOk result (λ list. list ≡ only (option_map (λ text. text.now) text.entry)) }
{
    let mut list = TextList::empty(alloc);
    if let Some(found) = text {
        list.push(found)?;
    }
    Ok(list)
}

/// The text that a token of the source gives, if it gives one, as a list.
fn given(alloc: Global, source: &[u8], token: Token) -> Result<TextList, AllocError>
    ensures { IfOk result (λ texts. AreNamesOf source.now (token ∷ []) texts) }
{
    match bytes_within(source, token) {
        None => Err(AllocError),
        Some(bytes) => {
            let texts = listed(alloc, spelling_of(token.kind, bytes))?;
            Ok(texts)
        }
    }
}

/// Whether the text stands in the list.
fn has(list: &TextList, text: &[u8]) -> bool
    ensures { result ≡ true → IsIn text.now list.now }
{
    for place in 0..list.len() {
        if equals(list.at(place), text) {
            return true;
        }
    }
    false
}

/// The names of the tokens before, and of one token more.
fn with_token(
    alloc: Global,
    source: &[u8],
    texts: TextList,
    token: Token,
) -> Result<TextList, AllocError>
    requires { IsStrictlySortedBy (slice_cmp nat_cmp) texts }
    ensures { IfOk result (λ all. (before : List grammar.Token) → AreNamesOf source.now before texts → AreNamesOf source.now (before ++ token ∷ []) all) }
{
    let Some(bytes) = bytes_within(source, token) else {
        return Err(AllocError);
    };
    let Some(text) = spelling_of(token.kind, bytes) else {
        return Ok(texts);
    };
    if has(&texts, text) {
        return Ok(texts);
    }
    let one = given(alloc, source, token)?;
    let all = texts.union(alloc, &one)?;
    Ok(all)
}

/// The texts that some tokens of the source give, in byte order, where many of them may give the same.
fn texts_of_few(alloc: Global, source: &[u8], tokens: &[Token]) -> Result<TextList, AllocError>
    ensures { IfOk result (λ texts. AreNamesOf source.now tokens.now texts) }
{
    let mut texts = TextList::empty(alloc);
    for token in tokens {
        texts = with_token(alloc, source, texts, *token)?;
    }
    Ok(texts)
}

/// The texts that tokens of the source give, in byte order.
fn texts_of(alloc: Global, source: &[u8], tokens: &[Token]) -> Result<TextList, AllocError>
    ensures { IfOk result (λ texts. AreNamesOf source.now tokens.now texts) }
{
    let count = tokens.len();
    if count <= FEW {
        return texts_of_few(alloc, source, tokens);
    }
    let (left, right) = tokens.split_at(count / 2);
    let left = texts_of(alloc, source, left)?;
    let right = texts_of(alloc, source, right)?;
    let all = left.union(alloc, &right)?;
    Ok(all)
}

/// The names with these texts, if they aren't too many; else memory fails.
fn named(texts: TextList) -> Result<Names, AllocError>
    requires ascend { IsStrictlySortedBy (slice_cmp nat_cmp) texts }
    requires others { (m n : ℕ) (text : List ℕ) → slice_get builtin_texts m ≡ Some text → slice_get texts n ≢ Some text }
    ensures { IfOk result (λ names. names ≡ texts) }
{
    if texts.len() >= MOST_TEXTS {
        return Err(AllocError);
    }
    Ok(Names::of_list(texts))
}

/// The names of the record that the tokens of the source spell.
pub(crate) fn names_of(alloc: Global, source: &[u8], tokens: &[Token]) -> Result<Names, AllocError>
    requires { AreSlices source.now 0 (length source.now) tokens.now }
    ensures { IfOk result (λ names. AreNamesOf source.now tokens.now names) }
{
    let texts = texts_of(alloc, source, tokens)?;
    let names = named(texts)?;
    Ok(names)
}
