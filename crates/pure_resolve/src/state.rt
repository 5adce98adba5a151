//! Goals as values.
ghost use Rattle.std.specs.Prelude.{◌≡◌, ◌≤◌, ◌<◌, List, length, MatchBool};
ghost use Rattle.pure_definitions.specs.Terms.Term as tree;
ghost use Rattle.pure_definitions.specs.Terms.Limits.{cut_off};
ghost use Rattle.pure_logic.specs.Connectives.{chain, protect};
ghost use Rattle.pure_goal_steps.specs.State.{State, IsTheoremOf};

use crate::shared::first_premise;
use pure_term::Term;
use pure_theorem::{Thm, as_implication};

/// A goal: a theorem `A1 ==> .. ==> An ==> # C` without hypotheses, with the subgoals A1 to An in long form and the statement C
/// as it was given (Isabelle/Isar Implementation manual, section 4.1).
#[derive(Drop)]
pub struct Goal {
    pub thm: Thm,
}

/// The count of the premises before a mark.
fn count_premises(t: &Term) -> u32
    ensures { (As : List tree.Term) → (C : tree.Term) → t.now ≡ chain As (protect C) → result ≡ cut_off (length As) }
{
    match as_implication(t) {
        None => 0,
        Some((_, rest)) => count_premises(rest).saturating_add(1),
    }
}

/// Whether there are at least so many premises before a mark. Those behind them aren't walked.
pub fn has_premises(t: &Term, count: u32) -> bool
    ensures { (As : List tree.Term) → (C : tree.Term) → t.now ≡ chain As (protect C) → MatchBool result (count ≤ length As) (length As < count) }
{
    if count == 0 {
        return true;
    }
    match first_premise(t) {
        None => false,
        Some((_, rest)) => {
            let tail: &Term = rest;
            has_premises(tail, count - 1)
        }
    }
}

impl Goal {
    /// The count of its subgoals. It takes no memory.
    pub fn subgoals(&self) -> u32
        ensures { (s : State) → IsTheoremOf s self.now.thm → result ≡ cut_off (length s.subgoals) }
    {
        count_premises(&self.thm.prop)
    }
}
