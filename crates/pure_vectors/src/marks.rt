//! Bytes that part texts.

/// Whether the byte ends a line.
pub(crate) fn is_line_feed(byte: &u8) -> bool {
    *byte == b'\n'
}

/// Whether it parts words.
pub(crate) fn is_blank(byte: &u8) -> bool {
    *byte == b' '
}

/// Whether it parts numbers, and cancellations.
pub(crate) fn is_comma(byte: &u8) -> bool {
    *byte == b','
}

/// Whether it parts a group from a number.
pub(crate) fn is_colon(byte: &u8) -> bool {
    *byte == b':'
}

/// Whether it parts the words of runs.
pub(crate) fn is_semicolon(byte: &u8) -> bool {
    *byte == b';'
}

/// Whether it parts pieces that take turns, and a line of a session.
pub(crate) fn is_bar(byte: &u8) -> bool {
    *byte == b'|'
}

/// Whether it parts a text that is written short.
pub(crate) fn is_at(byte: &u8) -> bool {
    *byte == b'@'
}

/// Whether it parts a theory's name from a lemma's.
pub(crate) fn is_dot(byte: &u8) -> bool {
    *byte == b'.'
}
