//! Lines of states.
ghost use Rattle.std.specs.Prelude.{◌≡◌, ◌++◌, ◌∷◌, [], ◌+◌, List, IfOk, OnOk};
ghost use Rattle.pure_definitions.specs.Terms.Term as tree;
ghost use Rattle.pure_logic.specs.Connectives.{chain, protect};
ghost use Rattle.pure_print.specs.TermText.{state_text};
ghost use Rattle.pure_resolve.specs.GoalSteps.State.{State, IsTheoremOf};
ghost use Rattle.pure_show.specs.Lines as spec;

use crate::step::push_number;
use pure_print::print_state_term;
use pure_term::{Names, Term};
use pure_theorem::{Pair, Thm, as_implication};
use std::alloc::{AllocError, Global};

/// Appends a term of a state.
pub(crate) fn push_term(
    alloc: Global,
    text: &mut Vec<u8>,
    names: &Names,
    t: &Term,
) -> Result<(), AllocError>
    ensures { OnOk result (text.new.items ≡ text.old.items ++ state_text names.now t.now) }
{
    let printed = print_state_term(alloc, names, t)?;
    text.extend_from_slice(printed.bytes())
}

/// Appends the line of a subgoal with this number.
fn push_subgoal(
    alloc: Global,
    text: &mut Vec<u8>,
    names: &Names,
    number: usize,
    subgoal: &Term,
) -> Result<(), AllocError>
    ensures { OnOk result (text.new.items ≡ text.old.items ++ spec.subgoal_lines names.now number (subgoal.now ∷ [])) }
{
    text.extend_from_slice(b"  ")?;
    push_number(alloc, text, number)?;
    text.extend_from_slice(b". ")?;
    push_term(alloc, text, names, subgoal)?;
    text.extend_from_slice(b"\n")
}

/// The next number.
fn next_number(number: usize) -> Result<usize, AllocError>
    ensures { IfOk result (λ next. next ≡ number + 1) }
{
    number.checked_add(1).ok_or(AllocError)
}

/// Appends the lines of the premises before a mark, from this number on.
fn push_subgoals(
    alloc: Global,
    text: &mut Vec<u8>,
    names: &Names,
    number: usize,
    t: &Term,
) -> Result<(), AllocError>
    ensures { OnOk result ((As : List tree.Term) → (C : tree.Term) → t.now ≡ chain As (protect C) → text.new.items ≡ text.old.items ++ spec.subgoal_lines names.now number As) }
{
    match as_implication(t) {
        None => Ok(()),
        Some((premise, rest)) => {
            push_subgoal(alloc, text, names, number, premise)?;
            let next = next_number(number)?;
            push_subgoals(alloc, text, names, next, rest)
        }
    }
}

/// Appends the line of a pair.
fn push_pair(
    alloc: Global,
    text: &mut Vec<u8>,
    names: &Names,
    pair: &Pair,
) -> Result<(), AllocError>
    ensures { OnOk result (text.new.items ≡ text.old.items ++ spec.pair_lines names.now (pair.now ∷ [])) }
{
    text.extend_from_slice(b"  pair ")?;
    push_term(alloc, text, names, &pair.left)?;
    text.extend_from_slice(b" and ")?;
    push_term(alloc, text, names, &pair.right)?;
    text.extend_from_slice(b"\n")
}

/// Appends the lines of the pairs.
fn push_pairs(
    alloc: Global,
    text: &mut Vec<u8>,
    names: &Names,
    pairs: &[Pair],
) -> Result<(), AllocError>
    ensures { OnOk result (text.new.items ≡ text.old.items ++ spec.pair_lines names.now pairs.now) }
{
    for pair in pairs {
        push_pair(alloc, text, names, pair)?;
    }
    Ok(())
}

/// The lines of a goal's state.
pub(crate) fn state_lines(alloc: Global, names: &Names, goal: &Thm) -> Result<Vec<u8>, AllocError>
    ensures { IfOk result (λ lines. (s : State) → IsTheoremOf s goal.now → lines.items ≡ spec.state_lines names.now s) }
{
    let mut lines = Vec::new(alloc);
    push_subgoals(alloc, &mut lines, names, 1, &goal.prop)?;
    push_pairs(alloc, &mut lines, names, goal.pairs.as_slice())?;
    Ok(lines)
}
