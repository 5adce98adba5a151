//! Whether a theory may begin with parents.
ghost use Rattle.std.specs.Prelude.{◌≡◌, ◌≢◌, ◌↔◌, [], IsTrue, IfOk};
ghost use Rattle.pure_text.specs.Lists.{Each};
ghost use Rattle.pure_logic.specs.Beginning.{AreToldApart, IsNewOver, ancestors_of};
ghost use Rattle.pure_logic.specs.Laws.Contents.{AreAgreed};
ghost use Rattle.pure_theory.specs.Begin.{contents, AreTold, IsNewBeside, MayBegin};

use crate::begin::{ancestors, is_same_theory, parent_at};
use crate::theory::Theory;
use crate::theory_id::Known;
use pure_term::Name;
use pure_theory_tables::Declarations;
use std::alloc::{AllocError, Global};
use std::sync::Arc;

/// Whether the two theories have other names and other indexes.
fn are_other(first: Known, second: Known) -> bool
    ensures { IsTrue result ↔ ((first.name ≢ second.name) × (first.index ≢ second.index)) }
{
    first.name.0 != second.name.0 && first.index != second.index
}

/// Whether the two theories are the same, or have other names and other indexes.
fn are_told(first: Known, second: Known) -> bool
    ensures { IsTrue result ↔ AreTold first second }
{
    if is_same_theory(first, second) {
        return true;
    }
    are_other(first, second)
}

/// Whether the theory is told from each of these, other than itself.
fn is_told(theory: Known, theories: &[Known]) -> bool
    ensures { IsTrue result ↔ Each (AreTold theory) theories.now }
{
    for other in theories {
        if !are_told(theory, *other) {
            return false;
        }
    }
    true
}

/// Whether the theories are told apart.
fn are_told_apart(theories: &[Known]) -> bool
    ensures { IsTrue result ↔ Each (λ t. Each (AreTold t) theories.now) theories.now }
{
    for theory in theories {
        if !is_told(*theory, theories) {
            return false;
        }
    }
    true
}

/// Whether the first theory has a greater index than the second, and another name.
fn is_new_beside(theory: Known, other: Known) -> bool
    ensures { IsTrue result ↔ IsNewBeside theory other }
{
    other.index < theory.index && other.name.0 != theory.name.0
}

/// Whether the theory has a greater index than each of these, and another name.
fn is_new_over(theory: Known, theories: &[Known]) -> bool
    ensures { IsTrue result ↔ Each (IsNewBeside theory) theories.now }
{
    for other in theories {
        if !is_new_beside(theory, *other) {
            return false;
        }
    }
    true
}

/// Whether the theory is new over the theories, and these are told apart.
fn are_apart(theory: Known, theories: &[Known]) -> bool
    ensures { IsTrue result ↔ (AreToldApart theories.now × IsNewOver theory theories.now) }
{
    if !is_new_over(theory, theories) {
        return false;
    }
    are_told_apart(theories)
}

/// Whether the theory is new over those that the parents know, and these are told apart.
fn may_follow(alloc: Global, theory: Known, parents: &[Arc<Theory>]) -> Result<bool, AllocError>
    ensures { let theories = ancestors_of (contents parents.now) in IfOk result (λ may. IsTrue may ↔ (AreToldApart theories × IsNewOver theory theories)) }
{
    let theories = ancestors(alloc, parents)?;
    let may = are_apart(theory, theories.as_slice());
    Ok(may)
}

impl Theory {
    /// What is declared.
    fn declared(&self) -> &Declarations
        ensures { result.now ≡ self.now.declarations }
    {
        &self.declared
    }
}

/// Whether the parents agree on what they declare alike.
fn are_agreed(parents: &[Arc<Theory>]) -> Result<bool, AllocError>
    requires { ¬ (contents parents.now ≡ []) }
    ensures { IfOk result (λ agreed. IsTrue agreed ↔ AreAgreed (contents parents.now)) }
{
    let first = parent_at(parents, 0);
    let own = first.declared();
    let mut merged = own.share()?;
    for place in 1..parents.len() {
        let parent = parent_at(parents, place);
        let more = parent.declared();
        if !merged.agrees(more) {
            return Ok(false);
        }
        merged = merged.with_all(more)?;
    }
    Ok(true)
}

impl Theory {
    /// Whether a theory with this name and this index in load order may begin with these parents: there is one, they declare the same under one name
    /// or label, their theories are told apart, and the new one comes after them under another name.
    pub fn may_begin(
        alloc: Global,
        index: u32,
        name: Name,
        parents: &[Arc<Theory>],
    ) -> Result<bool, AllocError>
        ensures { IfOk result (λ may. IsTrue may ↔ MayBegin (record { name = name; index = index }) (contents parents.now)) }
    {
        if parents.is_empty() {
            return Ok(false);
        }
        let own = Known { name, index };
        let apart = may_follow(alloc, own, parents)?;
        if !apart {
            return Ok(false);
        }
        let agreed = are_agreed(parents)?;
        Ok(agreed)
    }
}
