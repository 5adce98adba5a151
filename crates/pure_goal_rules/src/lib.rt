//! Subgoals read, facts as rules, and attempts to make a step on a subgoal.
#![tactic(auto)]

mod attempt;
mod build;
mod item;
mod lifting;
mod long;
mod raising;
mod read;
mod rule;
mod standing;
mod stripping;

pub use attempt::{
    Attempt, Eliminator, assumption_pairs, destruction_pairs, destruction_premises,
    elimination_pairs, elimination_premises, rule_attempt,
};
pub use item::{Item, Spot};
pub use long::is_long;
pub use read::{Parts, read_proposition};
pub use rule::{Rule, greatest_index, rule_index, rule_of};
