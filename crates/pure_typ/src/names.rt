//! The texts of names.
ghost use Rattle.std.specs.Prelude.{◌≡◌, ◌<◌, ◌∷◌, ◌++◌, ℕ, List, length, MatchOption, IfOk, IfSome, option_map, slice_get, Some, None};
ghost use Rattle.std.specs.Ordering.{nat_cmp};
ghost use Rattle.std.specs.Cmp.Lexicographic.{slice_cmp};
ghost use Rattle.pure_definitions.specs.Names.{builtin_count};
ghost use Rattle.pure_typ.specs.NameTexts.{builtin_texts, name_texts, HasText, DoAscend, AreSessionTexts, IsFound, NameHasBase};
ghost use Rattle.pure_typ.specs.NameBases.{base_of, name_base};

use crate::name::{BUILTIN_COUNT, Name};
use pure_text::{Text, TextList};
use std::alloc::{AllocError, Global};
use std::cmp::Ordering;
use std::marker::Model;

/// How often the fewest notes, 64, are doubled at most.
const MOST_DOUBLINGS: u32 = 12;

/// The texts of a session's names, in byte order. Of most names it may be noted by what their texts come to which they are, so that they are found without a search.
#[derive(Debug, Drop)]
pub struct Names {
    texts: TextList,
    notes: Option<Vec<u32>>,
}

impl Model for Names {
    ghost use Rattle.std.specs.Prelude.{List, ℕ};
    ghost use Rattle.pure_typ.specs.NameTexts.{AreSessionTexts};

    ghost Value = { List (List ℕ) };

    ghost view = { λ n. n.texts };

    ghost invariant = { λ n. AreSessionTexts n.texts };
}

impl Names {
    /// The names with these texts.
    pub fn make(alloc: Global, texts: Vec<Text>) -> Result<Names, AllocError>
        requires { AreSessionTexts texts.items }
        ensures { IfOk result (λ names. names ≡ texts.items) }
    {
        let list = listed(alloc, texts.as_slice())?;
        Ok(Names::of_list(list))
    }

    /// The names with the texts of the list. It takes no memory.
    pub fn of_list(texts: TextList) -> Names
        requires { AreSessionTexts texts }
        ensures { result ≡ texts }
    {
        Names { texts, notes: None }
    }

    /// The name with this text.
    pub fn find(&self, text: &[u8]) -> Option<Name>
        ensures { IsFound (name_texts self.now) text.now result }
    {
        self.find_joined(text, b"", b"")
    }

    /// The name with the text `theory.base`.
    pub fn find_in(&self, theory: &[u8], base: &[u8]) -> Option<Name>
        ensures { IsFound (name_texts self.now) (theory.now ++ 46 ∷ base.now) result }
    {
        self.find_joined(theory, b".", base)
    }

    /// The text of the name; a name of a fresh variable has none.
    pub fn text(&self, name: Name) -> Option<&[u8]>
        ensures { MatchOption result (slice_get (name_texts self.now) name ≡ None) (λ text. HasText self.now name text.now) }
    {
        let number = name.0;
        if number < BUILTIN_COUNT {
            return Some(builtin(number));
        }
        let place = (number - BUILTIN_COUNT) as usize;
        if place < self.texts.len() {
            return Some(self.texts.at(place));
        }
        None
    }

    /// The texts are those of a session: they ascend, none is a text of Pure, and there are fewer than 2^31.
    pub fn are_session_texts(&self)
        ensures { AreSessionTexts self.now }
    {
        let _ = &self.texts;
    }

    /// The first number that has no text: the names of fresh variables begin there.
    pub fn first_fresh(&self) -> u32
        ensures { result ≡ length (name_texts self.now) }
    {
        self.texts.len() as u32 + BUILTIN_COUNT
    }

    /// The base of the name's text: what stands behind its first dot.
    pub fn base(&self, name: Name) -> Option<&[u8]>
        ensures value { option_map (λ base. base.now) result ≡ name_base self.now name }
        ensures base { MatchOption result
            ((other : List ℕ) → ¬ NameHasBase self.now other name)
            (λ base. NameHasBase self.now base.now name) }
    {
        match self.text(name) {
            Some(text) => base_in(text),
            None => None,
        }
    }

    /// Equal names.
    pub fn copy(&self, alloc: Global) -> Result<Names, AllocError>
        ensures { IfOk result (λ names. names ≡ self.now) }
    {
        let texts = self.texts.copy(alloc)?;
        Ok(Names { texts, notes: None })
    }

    /// The same names, with notes of where they stand.
    pub(crate) fn noted(self, alloc: Global) -> Result<Names, AllocError>
        ensures { IfOk result (λ names. names ≡ self) }
    {
        let notes = notes_of(alloc, &self)?;
        let Names { texts, .. } = self;
        Ok(Names {
            texts,
            notes: Some(notes),
        })
    }

    /// The name with the three texts, one after another.
    fn find_joined(&self, a: &[u8], b: &[u8], c: &[u8]) -> Option<Name>
        ensures { IsFound (name_texts self.now) (a.now ++ (b.now ++ c.now)) result }
    {
        if let Some(name) = self.find_noted(a, b, c) {
            return Some(name);
        }
        self.search(a, b, c)
    }

    /// The name that is noted for the three texts, one after another, if it has them.
    fn find_noted(&self, a: &[u8], b: &[u8], c: &[u8]) -> Option<Name>
        ensures { IfSome result (λ name. HasText self.now name (a.now ++ (b.now ++ c.now))) }
    {
        let name = note_at(&self.notes, a, b, c);
        let Some(text) = self.text(name) else {
            return None;
        };
        if compare_joined(text, a, b, c).is_eq() {
            return Some(name);
        }
        None
    }

    /// The name with the three texts, one after another, which is searched for.
    fn search(&self, a: &[u8], b: &[u8], c: &[u8]) -> Option<Name>
        ensures { IsFound (name_texts self.now) (a.now ++ (b.now ++ c.now)) result }
    {
        if let Some(number) = find_builtin(a, b, c) {
            return Some(Name(number));
        }
        match find_text(&self.texts, a, b, c) {
            Some(index) => Some(Name(index as u32 + BUILTIN_COUNT)),
            None => None,
        }
    }
}

/// What the bytes of a text come to behind others.
fn mixed(sum: usize, text: &[u8]) -> usize {
    let mut mixed = sum;
    for byte in text {
        mixed = mixed.wrapping_mul(31).wrapping_add(usize::from(*byte));
    }
    mixed
}

/// Which of so many notes the three texts have, one after another.
fn note_for(count: usize, a: &[u8], b: &[u8], c: &[u8]) -> usize {
    let sum = mixed(mixed(mixed(0, a), b), c);
    sum & count.wrapping_sub(1)
}

/// The name that is noted for the three texts, one after another; where there are no notes, some name.
fn note_at(notes: &Option<Vec<u32>>, a: &[u8], b: &[u8], c: &[u8]) -> Name {
    match notes {
        None => Name(u32::MAX),
        Some(notes) => match notes.get(note_for(notes.len(), a, b, c)) {
            None => Name(u32::MAX),
            Some(number) => Name(*number),
        },
    }
}

/// How many notes there are for so many names: a power of two.
fn note_count(names: usize) -> usize {
    let mut count: usize = 64;
    for _ in 0..MOST_DOUBLINGS {
        if count < names {
            count = count.saturating_mul(2);
        }
    }
    count
}

/// Notes the name for its text.
fn keep(notes: &mut Vec<u32>, names: &Names, number: u32) {
    if let Some(text) = names.text(Name(number)) {
        let note = note_for(notes.len(), text, b"", b"");
        if note < notes.len() {
            notes[note] = number;
        }
    }
}

/// Notes of where the names stand.
fn notes_of(alloc: Global, names: &Names) -> Result<Vec<u32>, AllocError> {
    let count = names.first_fresh();
    let mut notes = Vec::from_elem(
        alloc,
        u32::MAX,
        note_count((count as usize).saturating_mul(4)),
    )?;
    for number in 0..count {
        keep(&mut notes, names, number);
    }
    Ok(notes)
}

/// These texts as one list.
fn listed(alloc: Global, texts: &[Text]) -> Result<TextList, AllocError>
    ensures { IfOk result (λ list. list ≡ texts.now) }
{
    let mut list = TextList::empty(alloc);
    for text in texts {
        list.push(text.bytes())?;
    }
    Ok(list)
}

/// The text of a name that Pure itself declares.
#[tactic(auto, unfolding(crate::specs::NameTexts::builtin_texts))]
fn builtin(number: u32) -> &'static [u8]
    requires { number < builtin_count }
    ensures { slice_get builtin_texts number ≡ Some result.now }
{
    match number {
        0 => b"Pure.fun",
        1 => b"Pure.prop",
        2 => b"Pure.all",
        3 => b"Pure.imp",
        4 => b"Pure.eq",
        5 => b"Pure.protect",
        _ => unreachable!(),
    }
}

/// What stands behind the text's first dot.
fn base_in(text: &[u8]) -> Option<&[u8]>
    ensures { option_map (λ base. base.now) result ≡ base_of text.now }
{
    for (at, byte) in text.iter().enumerate() {
        if *byte == b'.' {
            return Some(&text[at + 1..]);
        }
    }
    None
}

/// The number of the name of Pure with the three texts, one after another.
fn find_builtin(a: &[u8], b: &[u8], c: &[u8]) -> Option<u32>
    ensures { IsFound builtin_texts (a.now ++ (b.now ++ c.now)) result }
{
    for number in 0..BUILTIN_COUNT {
        if compare_joined(builtin(number), a, b, c).is_eq() {
            return Some(number);
        }
    }
    None
}

/// The place of the three texts, one after another, among texts that ascend.
fn find_text(texts: &TextList, a: &[u8], b: &[u8], c: &[u8]) -> Option<usize>
    requires { DoAscend texts.now }
    ensures { IsFound texts.now (a.now ++ (b.now ++ c.now)) result }
{
    let mut low = 0;
    let mut high = texts.len();
    while low < high {
        let middle = low + (high - low) / 2;
        match compare_joined(texts.at(middle), a, b, c) {
            Ordering::Less => low = middle + 1,
            Ordering::Greater => high = middle,
            Ordering::Equal => return Some(middle),
        }
    }
    None
}

/// The byte at this place of three texts, one after another.
fn byte_at(a: &[u8], b: &[u8], c: &[u8], at: usize) -> Option<u8>
    ensures { result ≡ slice_get (a.now ++ (b.now ++ c.now)) at }
{
    if at < a.len() {
        return Some(a[at]);
    }
    let at = at - a.len();
    if at < b.len() {
        return Some(b[at]);
    }
    c.get(at - b.len()).copied()
}

/// The order of a text and three texts, one after another.
fn compare_joined(text: &[u8], a: &[u8], b: &[u8], c: &[u8]) -> Ordering
    ensures { result ≡ slice_cmp nat_cmp text.now (a.now ++ (b.now ++ c.now)) }
{
    for (at, byte) in text.iter().enumerate() {
        let Some(other) = byte_at(a, b, c, at) else {
            return Ordering::Greater;
        };
        match byte.cmp(&other) {
            Ordering::Less => return Ordering::Less,
            Ordering::Greater => return Ordering::Greater,
            Ordering::Equal => {}
        }
    }
    match byte_at(a, b, c, text.len()) {
        Some(_) => Ordering::Less,
        None => Ordering::Equal,
    }
}
