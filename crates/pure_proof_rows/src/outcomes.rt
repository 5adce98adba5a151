//! Outcomes of proofs, compared part by part.
use pure_goal_steps::StepFault;
use pure_rows::number_of;
use pure_term::{Label, Term};
use pure_theorem::{Pair, Thm};
use pure_theory_run::method::Outcome;

/// What comes of a proof: a theorem that rests on the promises of these commands, or a step's fault.
#[derive(Clone, Copy)]
pub(crate) enum Wanted<'r> {
    Proved(&'r [Vec<u8>]),
    Fault(u32, StepFault),
}

/// Whether the pairs are equal, one after another.
fn are_same_pairs(pairs: &[Pair], others: &[Pair]) -> bool {
    if pairs.len() != others.len() {
        return false;
    }
    for (pair, other) in pairs.iter().zip(others.iter()) {
        if pair.left != other.left || pair.right != other.right {
            return false;
        }
    }
    true
}

/// Whether the theorems have equal parts.
fn are_same_theorems(th: &Thm, other: &Thm) -> bool {
    th.hyps.as_slice() == other.hyps.as_slice()
        && are_same_pairs(&th.pairs, &other.pairs)
        && th.prop == other.prop
        && th.rests.as_slice() == other.rests.as_slice()
}

/// Whether the outcomes have equal parts.
pub(crate) fn are_same(one: &Outcome, other: &Outcome) -> bool {
    match (one, other) {
        (Outcome::Proved { result }, Outcome::Proved { result: second }) => {
            are_same_theorems(result.thm(), second.thm())
        }
        (
            Outcome::Fault { step, fault },
            Outcome::Fault {
                step: number,
                fault: own,
            },
        ) => *step == *number && *fault == *own,
        _ => false,
    }
}

/// Whether the labels are those of these commands of the first theory.
fn are_of_commands(labels: &[Label], commands: &[Vec<u8>]) -> bool {
    if labels.len() != commands.len() {
        return false;
    }
    for (label, command) in labels.iter().zip(commands.iter()) {
        let is_command = number_of(command) == Some(label.command);
        if label.theory != 1 || !is_command || label.part != 0 {
            return false;
        }
    }
    true
}

/// Whether the theorem is of this proposition, rests on the promises of these commands, and has nothing else.
fn is_lemma(th: &Thm, prop: &Term, commands: &[Vec<u8>]) -> bool {
    th.hyps.is_empty()
        && th.pairs.is_empty()
        && th.prop == *prop
        && are_of_commands(&th.rests, commands)
}

/// Whether the outcome of a lemma of this proposition is what is wanted.
pub(crate) fn is_wanted(outcome: &Outcome, prop: &Term, wanted: Wanted<'_>) -> bool {
    match (outcome, wanted) {
        (Outcome::Proved { result }, Wanted::Proved(commands)) => {
            is_lemma(result.thm(), prop, commands)
        }
        (Outcome::Fault { step, fault }, Wanted::Fault(number, own)) => {
            *step == number && *fault == own
        }
        _ => false,
    }
}
