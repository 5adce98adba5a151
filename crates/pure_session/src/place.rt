//! The places of texts among others.
ghost use Rattle.std.specs.Prelude.{◌≡◌};
ghost use Rattle.std.specs.List.Sorted.{IsStrictlySortedBy};
ghost use Rattle.std.specs.Ordering.{nat_cmp};
ghost use Rattle.std.specs.Cmp.Lexicographic.{slice_cmp};
ghost use Rattle.pure_session.specs.Places.{place_in};

use pure_text::Text;

/// The place of the text among these, which ascend; their number where it isn't among them.
pub(crate) fn place_of(texts: &[Text], text: &Text) -> usize
    requires { IsStrictlySortedBy (slice_cmp nat_cmp) texts.now }
    ensures { result ≡ place_in texts.now text.now }
{
    match texts.binary_search(text) {
        Ok(place) => place,
        Err(_) => texts.len(),
    }
}
