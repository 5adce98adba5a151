//! Forks, closes, deliveries and stops, by a token.
ghost use Rattle.std.specs.Prelude.{◌≡◌, [], Some, MatchResult};
ghost use Rattle.pure_machine.specs.Policy.{Opening};
ghost use Rattle.pure_machine.specs.State.{CloseTheory, Stop};
ghost use Rattle.pure_machine.specs.Step.{IsOut, stops};
ghost use Rattle.pure_board_lock.specs.Names.{desk_id};
ghost use Rattle.pure_board_lock.specs.Seats.{view_of};
ghost use Rattle.pure_core_runs.specs.Seats.{HasTheory, forks_in, state_of};
ghost use Rattle.pure_board.specs.Sight.{Sees};
ghost use Rattle.pure_board.specs.Taken.{IsGoalOf, IsForked, IsEntered, IsDelivered};
ghost use Rattle.pure_board.specs.Tokens.{IsSeated, IsDone};

use crate::tokens::{CoreDesk, Token};
use pure_core::{Core, Delivered, Work};
use std::alloc::AllocError;
use std::sync::Wait;

/// A promise more, of a command of a theory that the token took and didn't close.
pub(crate) fn fork_by<R: Wait, W: Work>(
    desk: &CoreDesk<W>,
    rt: &R,
    token: &mut Token<W>,
    theory: u32,
    command: u32,
    goal: W::Goal,
) -> Result<u32, AllocError>
    requires desk { token.old.table_id ≡ desk_id desk.now }
    requires place { token.old.me.1 ≡ [] }
    requires seated { IsSeated W.shape W.forks W.closes W.may W.faults (view_of token.old) }
    requires theory { HasTheory (view_of token.old).own theory }
    requires goal { (k : W) → (view_of token.old).session ≡ Some k → W.forks k theory (forks_in theory (view_of token.old).own) command goal }
    ensures desk { token.new.table_id ≡ token.old.table_id }
    ensures done { IsDone W.shape W.forks W.closes W.may W.faults (λ old new. MatchResult result (λ n. IsForked old new theory command goal n) (λ _. Sees old new)) (view_of token.old) token.new.me }
{
    let mut core: Core<W> = desk.hold(rt, token);
    match core.fork(theory, command, goal) {
        Err(error) => {
            desk.give_back(token, core);
            Err(error)
        }
        Ok(number) => {
            desk.enter(token, core);
            Ok(number)
        }
    }
}

/// Closes a theory that the token took and didn't close.
pub(crate) fn close_by<R: Wait, W: Work>(
    desk: &CoreDesk<W>,
    rt: &R,
    token: &mut Token<W>,
    theory: u32,
    closed: W::Closed,
) -> Result<(), AllocError>
    requires desk { token.old.table_id ≡ desk_id desk.now }
    requires place { token.old.me.1 ≡ [] }
    requires seated { IsSeated W.shape W.forks W.closes W.may W.faults (view_of token.old) }
    requires theory { HasTheory (view_of token.old).own theory }
    requires closed { (k : W) → (view_of token.old).session ≡ Some k → W.closes k theory (forks_in theory (view_of token.old).own) closed }
    ensures desk { token.new.table_id ≡ token.old.table_id }
    ensures done { IsDone W.shape W.forks W.closes W.may W.faults (λ old new. MatchResult result (λ _. IsEntered old new (CloseTheory theory closed)) (λ _. Sees old new)) (view_of token.old) token.new.me }
{
    let mut core: Core<W> = desk.hold(rt, token);
    match core.close_theory(theory, closed) {
        Err(error) => {
            desk.give_back(token, core);
            Err(error)
        }
        Ok(()) => {
            desk.enter(token, core);
            Ok(())
        }
    }
}

/// Delivers an outcome of a proof that the token took, the first.
pub(crate) fn deliver_by<R: Wait, W: Work>(
    desk: &CoreDesk<W>,
    rt: &R,
    token: &mut Token<W>,
    number: u32,
    outcome: W::Outcome,
    fault: bool,
) -> Result<Delivered, AllocError>
    requires desk { token.old.table_id ≡ desk_id desk.now }
    requires place { token.old.me.1 ≡ [] }
    requires seated { IsSeated W.shape W.forks W.closes W.may W.faults (view_of token.old) }
    requires out { IsOut (view_of token.old).own number }
    requires may { (k : W) → (view_of token.old).session ≡ Some k → (o : Opening) → (view_of token.old).opening ≡ Some o
        → (g : W.Goal) × IsGoalOf (state_of o (view_of token.old).seen) number g × W.may k g outcome }
    requires fault { (k : W) → (view_of token.old).session ≡ Some k → fault ≡ W.faults k outcome }
    ensures desk { token.new.table_id ≡ token.old.table_id }
    ensures done { IsDone W.shape W.forks W.closes W.may W.faults (λ old new. MatchResult result (λ d. IsDelivered old new number outcome fault d) (λ _. Sees old new)) (view_of token.old) token.new.me }
{
    let mut core: Core<W> = desk.hold(rt, token);
    match core.deliver(number, outcome, fault) {
        Err(error) => {
            desk.give_back(token, core);
            Err(error)
        }
        Ok(delivered) => {
            desk.enter(token, core);
            Ok(delivered)
        }
    }
}

/// Stops the work, which the token hasn't done before.
pub(crate) fn stop_by<R: Wait, W: Work>(desk: &CoreDesk<W>, rt: &R, token: &mut Token<W>)
    requires desk { token.old.table_id ≡ desk_id desk.now }
    requires place { token.old.me.1 ≡ [] }
    requires seated { IsSeated W.shape W.forks W.closes W.may W.faults (view_of token.old) }
    requires once { stops (view_of token.old).own ≡ 0 }
    ensures desk { token.new.table_id ≡ token.old.table_id }
    ensures done { IsDone W.shape W.forks W.closes W.may W.faults (λ old new. IsEntered old new Stop) (view_of token.old) token.new.me }
{
    let mut core: Core<W> = desk.hold(rt, token);
    core.stop();
    desk.enter(token, core);
}
