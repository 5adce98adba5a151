//! The quoted texts of a source.
use pure_rows::Fault;
use pure_script::Span;

/// What stands before the first quotation mark of the text, and behind it; none where there is no mark.
fn cut(text: &[u8]) -> Option<(&[u8], &[u8])> {
    match text.iter().position(|byte| *byte == b'"') {
        Some(at) => Some((&text[..at], &text[at + 1..])),
        None => None,
    }
}

/// The place in a source, as ranges have it.
fn place_of(place: usize) -> Result<u32, Fault> {
    match u32::try_from(place) {
        Ok(place) => Ok(place),
        Err(_) => Err(Fault::Unreadable),
    }
}

/// The quoted texts of a source that aren't taken yet: how long the source is, and what is left of it.
#[derive(Clone, Copy)]
pub(crate) struct Quotes<'s> {
    length: usize,
    left: &'s [u8],
}

impl<'s> Quotes<'s> {
    /// Those of the source from this place on.
    pub(crate) fn of(source: &'s [u8], place: usize) -> Quotes<'s> {
        Quotes {
            length: source.len(),
            left: &source[place.min(source.len())..],
        }
    }

    /// The place from which those that are left stand.
    pub(crate) fn place(&self) -> usize {
        self.length.saturating_sub(self.left.len())
    }

    /// The range of the next of them, without its marks.
    pub(crate) fn take(&mut self) -> Result<Span, Fault> {
        let Some((_, opened)) = cut(self.left) else {
            return Err(Fault::Unreadable);
        };
        let Some((quoted, behind)) = cut(opened) else {
            return Err(Fault::Unreadable);
        };
        let from = self.length.saturating_sub(opened.len());
        let to = from.saturating_add(quoted.len());
        self.left = behind;
        Ok(Span {
            from: place_of(from)?,
            to: place_of(to)?,
        })
    }
}
