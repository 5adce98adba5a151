//! Numbers among the words.
ghost use Rattle.std.specs.Prelude.{◌≡◌};
ghost use Rattle.pure_words.specs.Values as spec;

/// How many digits a number may have.
const MOST_DIGITS: usize = 9;

/// The number that the text is, or None where it isn't one to nine digits.
#[tactic(auto, unfolding(pure_grammar::specs::Tokens::Bytes::is_digit))]
pub(crate) fn number(text: &[u8]) -> Option<u32>
    ensures { result ≡ spec.number_of text.now }
{
    if text.is_empty() || text.len() > MOST_DIGITS {
        return None;
    }
    let mut value: u32 = 0;
    for digit in text {
        if !digit.is_ascii_digit() {
            return None;
        }
        value = value * 10 + u32::from(*digit - b'0');
    }
    Some(value)
}

/// The number that the text is, where it is at least `low` and at most `high`.
pub(crate) fn number_within(low: u32, high: u32, text: &[u8]) -> Option<u32>
    ensures { result ≡ spec.within low high (spec.number_of text.now) }
{
    match number(text) {
        Some(value) => {
            if low <= value && value <= high {
                Some(value)
            } else {
                None
            }
        }
        None => None,
    }
}
