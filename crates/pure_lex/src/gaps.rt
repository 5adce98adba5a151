//! Blanks and comments.
ghost use Rattle.std.specs.Prelude.{◌≡◌, MatchOption, true};
ghost use Rattle.pure_grammar.specs.Tokens.Comment.{opens_comment, is_opening, is_closing};
ghost use Rattle.pure_lex.specs.Fronts.{IsComment, HasNoComment, IsGap};

use crate::bytes::{byte_at, is_blank, rest_from};

/// `(*`.
fn is_opening(b: u8, c: u8) -> bool
    ensures { result ≡ is_opening b c }
{
    b == b'(' && c == b'*'
}

/// `*)`.
fn is_closing(b: u8, c: u8) -> bool
    ensures { result ≡ is_closing b c }
{
    b == b'*' && c == b')'
}

/// Whether the text begins with the mark that opens a comment.
pub fn opens_comment(text: &[u8]) -> bool
    ensures { result ≡ opens_comment text.now }
{
    is_opening(byte_at(text, 0), byte_at(text, 1))
}

/// The length of the comment that begins here, if it is closed.
fn comment_length(text: &[u8]) -> Option<usize>
    requires { opens_comment text.now ≡ true }
    ensures { MatchOption result (HasNoComment text.now) (IsComment text.now) }
{
    let mut depth: usize = 1;
    let mut at = 2;
    while at + 1 < text.len() {
        if is_opening(text[at], text[at + 1]) {
            depth += 1;
            at += 2;
        } else if is_closing(text[at], text[at + 1]) {
            if depth == 1 {
                return Some(at + 2);
            }
            depth -= 1;
            at += 2;
        } else {
            at += 1;
        }
    }
    None
}

/// The length of the blanks and comments at the front.
pub fn gap_length(text: &[u8]) -> usize
    ensures { IsGap text.now result }
{
    let mut at = 0;
    while at < text.len() {
        if is_blank(text[at]) {
            at += 1;
        } else {
            let rest = rest_from(text, at);
            if !opens_comment(rest) {
                return at;
            }
            match comment_length(rest) {
                Some(len) => at += len,
                None => return at,
            }
        }
    }
    at
}
