//! Whether look-ups in a theory may go by the texts of names.
ghost use Rattle.std.specs.Prelude.{◌≡◌, ◌↔◌, IsTrue, Some};
ghost use Rattle.pure_text.specs.Lists.{IsIn, Each};
ghost use Rattle.pure_typ.specs.NameTexts.{AreSessionTexts};
ghost use Rattle.pure_logic.specs.Content.{TheoryId};
ghost use Rattle.pure_lookup.specs.Laws.{IsInSession};
ghost use Rattle.pure_theory.specs.Plain.{IsPlain, IsPlainlyNamed};

use crate::theory::Theory;
use crate::theory_id::Known;
use pure_typ::{Names, NamesByBase};

/// Whether a dot is in the text.
fn has_dot(text: &[u8]) -> bool
    ensures { IsTrue result ↔ IsIn 46 text.now }
{
    for byte in text {
        if *byte == b'.' {
            return true;
        }
    }
    false
}

/// Whether the texts are the same.
fn are_same_texts(text: &[u8], other: &[u8]) -> bool
    ensures { IsTrue result ↔ (text.now ≡ other.now) }
{
    text == other
}

/// Whether the text has no dot, and isn't that of Pure.
fn is_plain(text: &[u8]) -> bool
    ensures { IsTrue result ↔ IsPlain text.now }
{
    if has_dot(text) {
        return false;
    }
    if are_same_texts(text, b"Pure") {
        return false;
    }
    true
}

/// Whether the text of the theory's name, if it has one, is plain.
fn is_plainly_named(names: &Names, theory: Known) -> bool
    ensures { IsTrue result ↔ IsPlainlyNamed names.now theory }
{
    match names.text(theory.name) {
        None => true,
        Some(text) => is_plain(text),
    }
}

/// Whether the texts of the theories' names are plain.
fn are_plainly_named(names: &Names, theories: &[Known]) -> bool
    ensures { IsTrue result ↔ Each (IsPlainlyNamed names.now) theories.now }
{
    for theory in theories {
        if !is_plainly_named(names, *theory) {
            return false;
        }
    }
    true
}

/// Whether the text of the theory's name is plain, where there is a theory.
fn is_plain_if_any(names: &Names, theory: Option<Known>) -> bool
    ensures { IsTrue result ↔ ((t : TheoryId) → theory ≡ Some t → IsPlainlyNamed names.now t) }
{
    match theory {
        None => true,
        Some(own) => is_plainly_named(names, own),
    }
}

impl Theory {
    /// Whether look-ups in the theory may go by these names: no theory that it knows has a text with a dot, or that of Pure.
    pub fn may_look_up(&self, names: &NamesByBase) -> bool
        requires { AreSessionTexts names.now }
        ensures { IsTrue result ↔ IsInSession names.now self.now }
    {
        self.content_is_sound();
        let names = names.names();
        is_plain_if_any(names, self.own_theory()) && are_plainly_named(names, self.ancestor_list())
    }
}
