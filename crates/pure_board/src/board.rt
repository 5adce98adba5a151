//! A board and its seats.
ghost use Rattle.std.specs.Prelude.{◌≡◌, [], true, is_some, MatchResult, slice_get};
ghost use Rattle.pure_text.specs.Lists.{IsIn};
ghost use Rattle.pure_machine.specs.State.{TakeProof, CloseTheory, Stop};
ghost use Rattle.pure_machine.specs.Step.{IsOut, stops};
ghost use Rattle.pure_machine.specs.Calls.{polled_as, is_in_cancelled, count_cancelled};
ghost use Rattle.pure_core_runs.specs.Seats.{HasTheory, forks_in};
ghost use Rattle.pure_board.specs.Sight.{IsTrueSight, Sees};
ghost use Rattle.pure_board.specs.Taken.{state_seen, IsGoalOf, IsTaken, IsForked, IsEntered, IsDelivered};

use crate::entering::{close_by, deliver_by, fork_by, stop_by};
use crate::taking::{cancellations_by, poll_by, take_by};
use crate::tokens::{CoreDesk, Token};
use pure_core::{Delivered, Polled, Task, Work};
use std::alloc::AllocError;
use std::marker::Model;
use std::sync::Wait;

/// A core that workers share by seats (Wenzel, Parallel Proof Checking in Isabelle/Isar, 2009).
#[derive(Drop)]
pub struct Board<W: Work> {
    pub(crate) desk: CoreDesk<W>,
}

impl<W: Work> Model for Board<W> {
    ghost use Rattle.pure_board.specs.Sight.{Plan};

    ghost Value = { Plan W };

    ghost use Rattle.pure_board_lock.specs.Names.{desk_id, desk_session};

    ghost view = { λ b. record { name = desk_id b.desk; session = desk_session b.desk } };
}

/// A worker's token: the board, what the worker has seen of the history, and what it entered itself.
#[derive(Drop)]
pub struct Seat<W: Work> {
    pub(crate) token: Token<W>,
    ghost named: { is_some token.me.0.session ≡ true },
    ghost opened: { is_some token.me.0.opening ≡ true },
}

impl<W: Work> Model for Seat<W> {
    ghost use Rattle.std.specs.Prelude.{◌≡◌, []};
    ghost use Rattle.pure_board.specs.Sight.{Sight};

    ghost Value = { Sight W W.Goal W.Closed W.Outcome };

    ghost use Rattle.pure_board.specs.Tokens.{value_there, sight, IsSeated};

    ghost view = { λ s. sight s.token.table_id (value_there s.token.me.0.session s.named) (value_there s.token.me.0.opening s.opened) s.token.me.0 };

    ghost invariant = { λ s. (s.token.me.1 ≡ []) × IsSeated W.shape W.forks W.closes W.may W.faults s.token.me.0 };
}

impl<W: Work> Seat<W> {
    /// What a seat saw is a numbered legal run, in which its own entries are those that it knows.
    pub fn known(&self)
        ensures { IsTrueSight W.shape W.forks W.closes W.may W.faults self.now }
    {
        let _token = &self.token;
    }
}

impl<W: Work> Board<W> {
    /// Takes the ready theory of the least index, or where there is none the ready promise of the least number; or reads that
    /// nothing is ready now, nothing any more, or that the work was stopped. It may wait for the core.
    ///
    /// # Errors
    ///
    /// Want of memory alone; nothing was taken then.
    pub fn take<R: Wait>(
        &self,
        rt: &R,
        seat: &mut Seat<W>,
    ) -> Result<Task<W::Goal, W::Closed>, AllocError>
        requires board { seat.old.plan ≡ self.now }
        ensures known { IsTrueSight W.shape W.forks W.closes W.may W.faults seat.new }
        ensures taken { MatchResult result (λ task. IsTaken seat.old seat.new task) (λ _. Sees seat.old seat.new) }
    {
        take_by(&self.desk, rt, &mut seat.token)
    }

    /// A promise more, of a command of a theory that the seat took and didn't close; its number. It may wait for the core.
    ///
    /// # Errors
    ///
    /// Want of memory alone; nothing was forked then.
    pub fn fork<R: Wait>(
        &self,
        rt: &R,
        seat: &mut Seat<W>,
        theory: u32,
        command: u32,
        goal: W::Goal,
    ) -> Result<u32, AllocError>
        requires board { seat.old.plan ≡ self.now }
        requires theory { HasTheory seat.old.own theory }
        requires goal { W.forks seat.old.plan.session theory (forks_in theory seat.old.own) command goal }
        ensures known { IsTrueSight W.shape W.forks W.closes W.may W.faults seat.new }
        ensures forked { MatchResult result (λ number. IsForked seat.old seat.new theory command goal number) (λ _. Sees seat.old seat.new) }
    {
        fork_by(&self.desk, rt, &mut seat.token, theory, command, goal)
    }

    /// Closes a theory that the seat took and didn't close. It may wait for the core.
    ///
    /// # Errors
    ///
    /// Want of memory alone; the theory runs on then.
    pub fn close_theory<R: Wait>(
        &self,
        rt: &R,
        seat: &mut Seat<W>,
        theory: u32,
        closed: W::Closed,
    ) -> Result<(), AllocError>
        requires board { seat.old.plan ≡ self.now }
        requires theory { HasTheory seat.old.own theory }
        requires closed { W.closes seat.old.plan.session theory (forks_in theory seat.old.own) closed }
        ensures known { IsTrueSight W.shape W.forks W.closes W.may W.faults seat.new }
        ensures closed { MatchResult result (λ _. IsEntered seat.old seat.new (CloseTheory theory closed)) (λ _. Sees seat.old seat.new) }
    {
        close_by(&self.desk, rt, &mut seat.token, theory, closed)
    }

    /// Delivers the outcome of a proof that the seat took, the first; whether it was kept. It may wait for the core.
    ///
    /// # Errors
    ///
    /// Want of memory alone; nothing was delivered then.
    pub fn deliver<R: Wait>(
        &self,
        rt: &R,
        seat: &mut Seat<W>,
        number: u32,
        outcome: W::Outcome,
        fault: bool,
    ) -> Result<Delivered, AllocError>
        requires board { seat.old.plan ≡ self.now }
        requires out { IsOut seat.old.own number }
        requires may { (g : W.Goal) × IsGoalOf (state_seen seat.old) number g × W.may seat.old.plan.session g outcome }
        requires fault { fault ≡ W.faults seat.old.plan.session outcome }
        ensures known { IsTrueSight W.shape W.forks W.closes W.may W.faults seat.new }
        ensures delivered { MatchResult result (λ d. IsDelivered seat.old seat.new number outcome fault d) (λ _. Sees seat.old seat.new) }
    {
        deliver_by(&self.desk, rt, &mut seat.token, number, outcome, fault)
    }

    /// Whether the proof of a promise that the seat took goes on. It takes no memory, and may wait for the core.
    pub fn poll<R: Wait>(&self, rt: &R, seat: &mut Seat<W>, number: u32) -> Polled
        requires board { seat.old.plan ≡ self.now }
        requires taken { IsIn (TakeProof number) seat.old.own }
        ensures known { IsTrueSight W.shape W.forks W.closes W.may W.faults seat.new }
        ensures polled { Sees seat.old seat.new × (result ≡ polled_as (state_seen seat.new).stopped (is_in_cancelled (state_seen seat.new) (slice_get (state_seen seat.new).promises number))) }
    {
        poll_by(&self.desk, rt, &mut seat.token, number)
    }

    /// How many groups are cancelled by now. It takes no memory, and may wait for the core.
    pub fn cancellations<R: Wait>(&self, rt: &R, seat: &mut Seat<W>) -> usize
        requires board { seat.old.plan ≡ self.now }
        ensures known { IsTrueSight W.shape W.forks W.closes W.may W.faults seat.new }
        ensures counted { Sees seat.old seat.new × (result ≡ count_cancelled (state_seen seat.new).cancelled) }
    {
        cancellations_by(&self.desk, rt, &mut seat.token)
    }

    /// Stops the work, which the seat hasn't done before. It takes no memory, and may wait for the core.
    pub fn stop<R: Wait>(&self, rt: &R, seat: &mut Seat<W>)
        requires board { seat.old.plan ≡ self.now }
        requires once { stops seat.old.own ≡ 0 }
        ensures known { IsTrueSight W.shape W.forks W.closes W.may W.faults seat.new }
        ensures stopped { IsEntered seat.old seat.new Stop }
    {
        stop_by(&self.desk, rt, &mut seat.token);
    }
}
