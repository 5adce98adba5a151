//! Groups of promises, when they are cancelled, and the theories of a session.
use std::marker::Model;

/// A group of promises: the session, and below it one for each theory, by its number.
#[derive(Clone, Copy)]
pub enum Group {
    Session,
    Theory { index: u32 },
}

/// The group is cancelled at the moment when so many deliveries have been kept, and at the opening where `after` is 0.
#[derive(Clone, Copy)]
pub struct Cancel {
    pub group: Group,
    pub after: u32,
}

/// When groups are cancelled: the session when the first fault is kept, where `fail_fast` says so, and those listed.
#[derive(Drop)]
pub struct Policy {
    pub fail_fast: bool,
    pub cancels: Vec<Cancel>,
}

impl Model for Policy {
    ghost use Rattle.pure_machine.specs.Policy as seen;

    ghost Value = { seen.Policy };

    ghost view = { λ p. record { fail_fast = p.fail_fast; cancels = p.cancels.items } };
}

/// A theory of the session, by the numbers of its parents.
#[derive(Drop)]
pub struct Node {
    pub parents: Vec<u32>,
}

impl Model for Node {
    ghost use Rattle.std.specs.Prelude.{ℕ, List};

    ghost Value = { List ℕ };

    ghost view = { λ n. n.parents.items };
}
