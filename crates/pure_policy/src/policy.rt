//! The policy that the words ask for.
ghost use Rattle.std.specs.Prelude.{◌≡◌, ℕ, IfOk};
ghost use Rattle.pure_grammar.specs.Theories.Lexeme.{same};
ghost use Rattle.pure_session.specs.Waiting.{all_loaded};
ghost use Rattle.pure_policy.specs.Heeded.{session_word};
ghost use Rattle.pure_policy.specs.Policy as spec;

use pure_machine::{Cancel, Group, Policy};
use pure_session::Loaded;
use pure_text::Text;
use pure_words::CancelWord;
use std::alloc::{AllocError, Global};

/// Whether the name is the word for all theories.
#[tactic(auto, unfolding(crate::specs::Heeded::session_word))]
fn is_session(name: &Text) -> bool
    ensures { result ≡ same name.now session_word }
{
    name.bytes() == b"session".as_slice()
}

/// The index of the first theory with the name, counted from 1.
fn index_of(theories: &[Loaded], name: &Text) -> Result<Option<u32>, AllocError>
    ensures { IfOk result (λ index. index ≡ spec.index_of (all_loaded theories.now) name.now) }
{
    let mut index: u32 = 0;
    for theory in theories {
        index = index.checked_add(1).ok_or(AllocError)?;
        if *name == theory.name {
            return Ok(Some(index));
        }
    }
    Ok(None)
}

/// The group with the name, if there is one.
fn group_of(theories: &[Loaded], name: &Text) -> Result<Option<Group>, AllocError>
    ensures { IfOk result (λ group. group ≡ spec.group_of (all_loaded theories.now) name.now) }
{
    if is_session(name) {
        return Ok(Some(Group::Session));
    }
    match index_of(theories, name)? {
        Some(index) => Ok(Some(Group::Theory { index })),
        None => Ok(None),
    }
}

/// The policy that the words ask for. It doesn't depend on how many workers there are.
pub fn policy_of(
    alloc: Global,
    theories: &[Loaded],
    fail_fast: bool,
    cancels: &[CancelWord],
) -> Result<Policy, AllocError>
    ensures { IfOk result (λ p. (workers : ℕ) → p ≡ spec.policy_of (all_loaded theories.now) (record { workers = workers; fail_fast = fail_fast; cancels = cancels.now })) }
{
    let mut list = Vec::new(alloc);
    for cancel in cancels {
        if let Some(group) = group_of(theories, &cancel.group)? {
            list.push(Cancel {
                group,
                after: cancel.after,
            })?;
        }
    }
    Ok(Policy {
        fail_fast,
        cancels: list,
    })
}
