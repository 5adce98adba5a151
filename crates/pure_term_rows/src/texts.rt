//! Whether texts are those of a session, so that names may be made of them.
ghost use Rattle.std.specs.Prelude.{◌≡◌, [], IsTrue};
ghost use Rattle.pure_text.specs.Lists.{Each};
ghost use Rattle.pure_typ.specs.NameTexts.{AreSessionTexts, DoAscend};
ghost use Rattle.pure_term_rows.specs.Texts.{IsBelow, IsOther};

use pure_term::{Names, Text};

/// Whether the second text is below the first.
#[tactic(auto, using(crate::proofs::TextLemmas::below_true))]
fn is_below(text: &Text, lower: &Text) -> bool
    ensures { IsTrue result → IsBelow text.now lower.now }
{
    lower.cmp(text).is_lt()
}

/// Whether each of the texts is below this one.
fn are_below(texts: &[Text], text: &Text) -> bool
    ensures { IsTrue result → Each (IsBelow text.now) texts.now }
{
    for lower in texts {
        if !is_below(text, lower) {
            return false;
        }
    }
    true
}

/// Whether each text is below those after it.
#[tactic(auto, using(crate::proofs::TextLemmas::ascend_more))]
fn ascend(texts: &[Text]) -> bool
    ensures { IsTrue result → DoAscend texts.now }
{
    for place in 0..texts.len() {
        let lower = &texts[..place];
        let text = &texts[place];
        if !are_below(lower, text) {
            return false;
        }
    }
    true
}

/// Whether the text is that of no name of Pure, which are the names of a session without texts.
#[tactic(auto, using(crate::proofs::TextLemmas::other_unfound))]
fn is_other(text: &Text, own: &Names) -> bool
    requires { own.now ≡ [] }
    ensures { IsTrue result → IsOther text.now }
{
    let found = own.find(text.bytes());
    found.is_none()
}

/// Whether none of the texts is that of a name of Pure.
fn are_others(texts: &[Text], own: &Names) -> bool
    requires { own.now ≡ [] }
    ensures { IsTrue result → Each IsOther texts.now }
{
    for text in texts {
        if !is_other(text, own) {
            return false;
        }
    }
    true
}

/// Whether the texts are those of a session. The names are those of a session without texts.
#[tactic(auto, using(crate::proofs::TextLemmas::session_texts))]
pub(crate) fn are_session_texts(texts: &[Text], own: &Names) -> bool
    requires { own.now ≡ [] }
    ensures { IsTrue result → AreSessionTexts texts.now }
{
    texts.len() < 2147483648 && ascend(texts) && are_others(texts, own)
}
