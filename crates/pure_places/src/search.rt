//! The search for a theory's parts among its tokens.
ghost use Rattle.std.specs.Prelude.{◌≡◌, ◌++◌, ◌+◌, ◌∷◌, [], ◌<◌, ◌≤◌, List, ℕ, IfOk, drop, length, map};
ghost use Rattle.pure_text.specs.Lists.{Each};
ghost use Rattle.pure_grammar.specs.Tokens.Spelling.{IsSlice, AreSlices};
ghost use Rattle.pure_grammar.specs.Theories.Outer.{place_of};
ghost use Rattle.pure_places.specs.Marks.{first_mark, proofs_of};
ghost use Rattle.pure_places.specs.Found as spec;
ghost use Rattle.pure_places.specs.Found.{found_commands, found_imports, token_mark, token_place};
ghost use Rattle.pure_places.specs.Seen.{seen_command, seen_import, seen_places, found_with, ArePlaces};
ghost use Rattle.pure_places.specs.Stages.{seen_proofs};

use crate::laws::finds_parts;
use crate::mark::{Before, Mark, behind, ident, is_begin, is_name, is_version, mark_of};
use crate::parts::{CommandParts, Import, Part, Places};
use crate::steps::{Proofs, no_proofs, put_proofs};
use pure_grammar::Token;
use pure_lex::{LexFault, tokens};
use pure_text::Text;
use std::alloc::{AllocError, Global};

/// The tokens from this place on.
fn rest_of(tokens: &[Token], place: usize) -> &[Token]
    ensures { result.now ≡ drop place tokens.now }
{
    if place >= tokens.len() {
        return &[];
    }
    &tokens[place..]
}

/// The mark of the first token, or that of a text's end.
fn first_of(source: &[u8], tokens: &[Token]) -> Mark
    requires { Each (IsSlice source.now) tokens.now }
    ensures { result ≡ first_mark (token_mark source.now) tokens.now }
{
    if tokens.is_empty() {
        return Mark::Word;
    }
    mark_of(source, tokens[0])
}

/// The haves and the steps of a command's proof, of whose tokens these are behind the name.
fn proofs_behind(
    alloc: Global,
    source: &[u8],
    tokens: &[Token],
    before: Before,
) -> Result<Proofs, AllocError>
    requires { Each (IsSlice source.now) tokens.now }
    ensures { IfOk result (λ found. seen_proofs found ≡ proofs_of (token_mark source.now) token_place before tokens.now) }
{
    let mut found = no_proofs(alloc);
    match before {
        Before::Lemma => put_proofs(alloc, source, rest_of(tokens, 2), &mut found)?,
        Before::Kind => {}
        Before::Have => {}
        Before::Other => {}
    }
    Ok(found)
}

/// Takes the token at this place.
fn meet(
    alloc: Global,
    source: &[u8],
    tokens: &[Token],
    place: usize,
    before: Before,
    found: &mut Vec<CommandParts>,
) -> Result<Before, AllocError>
    requires within { place < length tokens.now }
    requires slices { Each (IsSlice source.now) tokens.now }
    ensures { IfOk result (λ b. found_with source.now found.new.items b (drop (place + 1) tokens.now) ≡ found_with source.now found.old.items before (drop place tokens.now)) }
{
    let token = tokens[place];
    let mark = mark_of(source, token);
    let rest = rest_of(tokens, place + 1);
    if !is_name(before, mark, first_of(source, rest)) {
        return Ok(behind(before, mark));
    }
    let Proofs { haves, steps } = proofs_behind(alloc, source, rest, before)?;
    let own = Part {
        name: token.from,
        steps,
    };
    found.push(CommandParts { haves, own })?;
    Ok(Before::Other)
}

/// The commands among the tokens.
fn commands_in(
    alloc: Global,
    source: &[u8],
    tokens: &[Token],
) -> Result<Vec<CommandParts>, AllocError>
    requires { Each (IsSlice source.now) tokens.now }
    ensures { IfOk result (λ found. map seen_command found.items ≡ found_commands source.now Before.Other tokens.now) }
{
    let mut found = Vec::new(alloc);
    let mut before = Before::Other;
    for place in 0..tokens.len() {
        before = meet(alloc, source, tokens, place, before, &mut found)?;
    }
    Ok(found)
}

/// Puts the import that the token is, if it is an identifier.
fn put_import(
    alloc: Global,
    source: &[u8],
    token: Token,
    found: &mut Vec<Import>,
) -> Result<(), AllocError>
    requires { IsSlice source.now token }
    ensures { IfOk result (λ _. map seen_import found.new.items ≡ map seen_import found.old.items ++ spec.import_of source.now token) }
{
    match ident(source, token) {
        Some(text) => {
            let theory = Text::make(alloc, text)?;
            found.push(Import {
                theory,
                at: token.from,
            })?;
            Ok(())
        }
        None => Ok(()),
    }
}

/// The imports among the tokens behind the header's name.
fn imports_in(alloc: Global, source: &[u8], tokens: &[Token]) -> Result<Vec<Import>, AllocError>
    requires { Each (IsSlice source.now) tokens.now }
    ensures { IfOk result (λ found. map seen_import found.items ≡ found_imports source.now tokens.now) }
{
    let mut found = Vec::new(alloc);
    for token in tokens {
        if is_begin(mark_of(source, *token)) {
            return Ok(found);
        }
        put_import(alloc, source, *token, &mut found)?;
    }
    Ok(found)
}

/// Where the token with this number stands, or the source's end.
fn place_at(source: &[u8], tokens: &[Token], number: usize) -> u32
    requires { length source.now < 4294967296 }
    ensures { result ≡ place_of tokens.now (length source.now) number }
{
    if number < tokens.len() {
        return tokens[number].from;
    }
    source.len() as u32
}

/// How many tokens stand before the header's name.
fn tokens_before(source: &[u8], tokens: &[Token]) -> usize
    requires { Each (IsSlice source.now) tokens.now }
    ensures count { result ≡ spec.tokens_before source.now tokens.now }
    ensures few { result ≤ 3 }
{
    if is_version(first_of(source, tokens)) {
        return 3;
    }
    1
}

/// The places of the parts of the theory that the tokens of the source spell, found without its grammar: a command's name has a
/// colon behind it, or is the first identifier behind `class` or `typedecl`; that of a have stands behind its word; a method's
/// word is an identifier behind `apply`, `by`, a parenthesis or a comma.
pub fn found_among(alloc: Global, source: &[u8], tokens: &[Token]) -> Result<Places, AllocError>
    requires small { length source.now < 4294967296 }
    requires slices { Each (IsSlice source.now) tokens.now }
    ensures { IfOk result (λ p. seen_places p ≡ spec.found source.now tokens.now) }
{
    let before = tokens_before(source, tokens);
    let imports = imports_in(alloc, source, rest_of(tokens, before + 1))?;
    let commands = commands_in(alloc, source, tokens)?;
    Ok(Places {
        name: place_at(source, tokens, before),
        imports,
        commands,
    })
}

/// The places of the parts of the theory that the source is. Of another source nothing is said.
pub fn find_places(alloc: Global, source: &[u8]) -> Result<Places, AllocError>
    requires { length source.now < 4294967296 }
    ensures { IfOk result (λ p. ArePlaces source.now (seen_places p)) }
{
    finds_parts();
    match tokens(alloc, source, 0, source.len() as u32) {
        Ok(found) => found_among(alloc, source, found.as_slice()),
        Err(LexFault::At { .. }) => Ok(Places {
            name: 0,
            imports: Vec::new(alloc),
            commands: Vec::new(alloc),
        }),
        Err(LexFault::Memory) => Err(AllocError),
    }
}
