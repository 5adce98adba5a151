//! Which listed names are files of theories.
ghost use Rattle.std.specs.Prelude.{◌≡◌, ℕ, List, true, false, IfOk, MatchOption};
ghost use Rattle.pure_grammar.specs.Theories.Lexeme.{same};
ghost use Rattle.pure_lex.specs.Identifier.{is_identifier as is_identifier_text};
ghost use Rattle.pure_graph.specs.Listing.{AreTheories, file_name};

use pure_lex::is_identifier;
use pure_text::Text;
use std::alloc::{AllocError, Global};
use std::collections::BTreeSet;

/// The name of a theory's file.
pub(crate) fn file_of(alloc: Global, theory: &Text) -> Result<Text, AllocError>
    ensures { IfOk result (λ file. file ≡ file_name theory.now) }
{
    let mut name = Vec::from_slice(alloc, theory.bytes())?;
    name.extend_from_slice(b".thy")?;
    Ok(Text::from(name))
}

/// The theory whose file has this name, or None where it is no theory's file.
fn theory_of(name: &[u8]) -> Option<&[u8]>
    ensures { MatchOption result
        ((t : List ℕ) → is_identifier_text t ≡ true → same (file_name t) name.now ≡ false)
        (λ t. (is_identifier_text t.now ≡ true) × (name.now ≡ file_name t.now)) }
{
    let Some(stem) = name.strip_suffix(b".thy") else {
        return None;
    };
    if !is_identifier(stem) {
        return None;
    }
    Some(stem)
}

/// The theories whose files are among these names, in byte order.
pub(crate) fn theories_of(alloc: Global, names: &[Text]) -> Result<Vec<Text>, AllocError>
    ensures { IfOk result (λ theories. AreTheories names.now theories.items) }
{
    let mut found = BTreeSet::new(alloc);
    for name in names {
        if let Some(theory) = theory_of(name.bytes()) {
            found.insert(Text::make(alloc, theory)?)?;
        }
    }
    let mut theories = Vec::new(alloc);
    for theory in found.iter() {
        theories.push(theory.copy(alloc)?)?;
    }
    Ok(theories)
}
