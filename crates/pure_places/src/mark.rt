//! What a token is to the search for a theory's parts.
ghost use Rattle.std.specs.Prelude.{◌≡◌, ◌≤◌, length};
ghost use Rattle.pure_grammar.specs.Theories.Lexeme as lexeme;
ghost use Rattle.pure_grammar.specs.Tokens.Spelling.{IsSlice};
ghost use Rattle.pure_places.specs.Marks as spec;
ghost use Rattle.pure_places.specs.Proofs as proofs;
ghost use Rattle.pure_places.specs.Found.{token_mark, token_ident};
ghost use Rattle.pure_places.specs.Idents.{seen_text};

use pure_grammar::{Token, TokenKind};

/// A token by what the search tells apart: `class` and `typedecl` are a kind's words, `lemma` and `theorem` a lemma's, `prefer`
/// and `defer` move subgoals; a comma may be an opening parenthesis, and a colon a double one.
#[derive(Clone, Copy)]
pub(crate) enum Mark {
    Kind,
    Lemma,
    Have,
    Version,
    Begin,
    Apply,
    By,
    Move,
    Done,
    Word,
    Comma,
    Colon,
    Ident,
    Full,
    Rest,
}

/// What stands before a token: the word of a class or a type whose name is still to come, the word of a lemma or of a have, or
/// something else.
#[derive(Clone, Copy)]
pub(crate) enum Before {
    Kind,
    Lemma,
    Have,
    Other,
}

/// Whether these are the same bytes.
fn equals(bytes: &[u8], text: &[u8]) -> bool
    ensures { result ≡ lexeme.same bytes.now text.now }
{
    bytes == text
}

/// The mark of these bytes, which are a sign.
#[tactic(auto, unfolding(pure_grammar::specs::Theories::Lexeme::symbol_lexeme))]
fn symbol_mark(text: &[u8]) -> Mark
    ensures { result ≡ spec.mark_of (lexeme.symbol_lexeme text.now) }
{
    if equals(text, b"<") {
        return Mark::Rest;
    }
    if equals(text, b",") {
        return Mark::Comma;
    }
    if equals(text, b":") {
        return Mark::Colon;
    }
    if equals(text, b"::") {
        return Mark::Colon;
    }
    if equals(text, b"(") {
        return Mark::Comma;
    }
    if equals(text, b")") {
        return Mark::Rest;
    }
    if equals(text, b"{") {
        return Mark::Rest;
    }
    if equals(text, b"}") {
        return Mark::Rest;
    }
    Mark::Rest
}

/// The mark of these bytes, which are a keyword.
#[tactic(auto, unfolding(pure_grammar::specs::Theories::Lexeme::word_lexeme))]
fn word_mark(text: &[u8]) -> Mark
    ensures { result ≡ spec.mark_of (lexeme.word_lexeme text.now) }
{
    if equals(text, b"theory") {
        return Mark::Word;
    }
    if equals(text, b"imports") {
        return Mark::Word;
    }
    if equals(text, b"begin") {
        return Mark::Begin;
    }
    if equals(text, b"end") {
        return Mark::Word;
    }
    if equals(text, b"version") {
        return Mark::Version;
    }
    command_mark(text)
}

/// The mark of these bytes, which are a keyword of a command or a proof.
#[tactic(auto, unfolding(pure_grammar::specs::Theories::Lexeme::command_lexeme))]
fn command_mark(text: &[u8]) -> Mark
    ensures { result ≡ spec.mark_of (lexeme.command_lexeme text.now) }
{
    if equals(text, b"class") {
        return Mark::Kind;
    }
    if equals(text, b"typedecl") {
        return Mark::Kind;
    }
    if equals(text, b"arities") {
        return Mark::Word;
    }
    if equals(text, b"consts") {
        return Mark::Word;
    }
    if equals(text, b"axiomatization") {
        return Mark::Word;
    }
    if equals(text, b"where") {
        return Mark::Word;
    }
    if equals(text, b"and") {
        return Mark::Word;
    }
    if equals(text, b"definition") {
        return Mark::Word;
    }
    if equals(text, b"lemma") {
        return Mark::Lemma;
    }
    if equals(text, b"theorem") {
        return Mark::Lemma;
    }
    proof_mark(text)
}

/// The mark of these bytes, which are a keyword of a proof.
#[tactic(auto, unfolding(pure_grammar::specs::Theories::Lexeme::proof_lexeme))]
fn proof_mark(text: &[u8]) -> Mark
    ensures { result ≡ spec.mark_of (lexeme.proof_lexeme text.now) }
{
    if equals(text, b"apply") {
        return Mark::Apply;
    }
    if equals(text, b"done") {
        return Mark::Done;
    }
    if equals(text, b"by") {
        return Mark::By;
    }
    if equals(text, b"prefer") {
        return Mark::Move;
    }
    if equals(text, b"defer") {
        return Mark::Move;
    }
    if equals(text, b"have") {
        return Mark::Have;
    }
    Mark::Rest
}

/// The mark of a token.
pub(crate) fn mark_of(source: &[u8], token: Token) -> Mark
    requires { IsSlice source.now token }
    ensures { result ≡ token_mark source.now token }
{
    let text = &source[token.from as usize..token.to as usize];
    match token.kind {
        TokenKind::Word => word_mark(text),
        TokenKind::Ident => Mark::Ident,
        TokenKind::Qualified => Mark::Full,
        TokenKind::TypeVar => Mark::Rest,
        TokenKind::Schem => Mark::Rest,
        TokenKind::BoundName => Mark::Rest,
        TokenKind::Number => Mark::Rest,
        TokenKind::Quote => Mark::Rest,
        TokenKind::Symbol => symbol_mark(text),
        TokenKind::End => Mark::Rest,
    }
}

/// The text of a token that is an identifier.
pub(crate) fn ident<'s>(source: &'s [u8], token: Token) -> Option<&'s [u8]>
    requires { IsSlice source.now token }
    ensures { seen_text result ≡ token_ident source.now token }
{
    match token.kind {
        TokenKind::Ident => Some(&source[token.from as usize..token.to as usize]),
        TokenKind::Word => None,
        TokenKind::Qualified => None,
        TokenKind::TypeVar => None,
        TokenKind::Schem => None,
        TokenKind::BoundName => None,
        TokenKind::Number => None,
        TokenKind::Quote => None,
        TokenKind::Symbol => None,
        TokenKind::End => None,
    }
}

fn is_colon(next: Mark) -> bool
    ensures { result ≡ spec.is_colon next }
{
    match next {
        Mark::Colon => true,
        _ => false,
    }
}

/// Whether a token is a command's name, by what stands before and behind it.
pub(crate) fn is_name(before: Before, mark: Mark, next: Mark) -> bool
    ensures { result ≡ spec.is_name before mark next }
{
    match before {
        Before::Kind => match mark {
            Mark::Ident => true,
            _ => false,
        },
        Before::Lemma => match mark {
            Mark::Ident => is_colon(next),
            _ => false,
        },
        Before::Have => false,
        Before::Other => match mark {
            Mark::Ident => is_colon(next),
            Mark::Full => is_colon(next),
            _ => false,
        },
    }
}

/// What stands before the token behind one that is no command's name.
pub(crate) fn behind(before: Before, mark: Mark) -> Before
    ensures { result ≡ spec.behind before mark }
{
    match before {
        Before::Kind => Before::Kind,
        Before::Lemma => newly(mark),
        Before::Have => newly(mark),
        Before::Other => newly(mark),
    }
}

/// What stands before the token behind this one.
fn newly(mark: Mark) -> Before
    ensures { result ≡ spec.newly mark }
{
    match mark {
        Mark::Kind => Before::Kind,
        Mark::Lemma => Before::Lemma,
        Mark::Have => Before::Have,
        _ => Before::Other,
    }
}

/// Whether the token is `have`.
pub(crate) fn is_have(mark: Mark) -> bool
    ensures { result ≡ proofs.is_have mark }
{
    match mark {
        Mark::Have => true,
        _ => false,
    }
}

/// Whether the token is `version`.
pub(crate) fn is_version(mark: Mark) -> bool
    ensures { result ≡ spec.is_version mark }
{
    match mark {
        Mark::Version => true,
        _ => false,
    }
}

/// Whether the token stands behind a proof.
pub(crate) fn is_behind_proof(mark: Mark) -> bool
    ensures { result ≡ proofs.is_behind_proof mark }
{
    match mark {
        Mark::Word => true,
        Mark::Version => true,
        Mark::Begin => true,
        Mark::Kind => true,
        Mark::Lemma => true,
        _ => false,
    }
}

/// Whether the token begins a step or ends a proof.
pub(crate) fn begins_step(mark: Mark) -> bool
    ensures { result ≡ proofs.begins_step mark }
{
    match mark {
        Mark::Apply => true,
        Mark::By => true,
        Mark::Move => true,
        Mark::Done => true,
        _ => false,
    }
}

/// Whether a method's word may stand behind the token, as behind a comma.
pub(crate) fn calls_method(mark: Mark) -> bool
    ensures { result ≡ proofs.calls_method mark }
{
    match mark {
        Mark::Comma => true,
        _ => false,
    }
}

/// Whether the token is an identifier.
pub(crate) fn is_ident(mark: Mark) -> bool
    ensures { result ≡ proofs.is_ident mark }
{
    match mark {
        Mark::Ident => true,
        _ => false,
    }
}

/// Whether the token is `begin`.
pub(crate) fn is_begin(mark: Mark) -> bool
    ensures { result ≡ spec.is_begin mark }
{
    match mark {
        Mark::Begin => true,
        _ => false,
    }
}
