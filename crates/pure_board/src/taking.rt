//! Taking, polling and counting what is cancelled, by a token.
ghost use Rattle.std.specs.Prelude.{◌≡◌, [], MatchResult, slice_get};
ghost use Rattle.pure_text.specs.Lists.{IsIn};
ghost use Rattle.pure_machine.specs.State.{TakeProof};
ghost use Rattle.pure_machine.specs.Calls.{polled_as, is_in_cancelled, count_cancelled};
ghost use Rattle.pure_board_lock.specs.Names.{desk_id};
ghost use Rattle.pure_board_lock.specs.Seats.{view_of};
ghost use Rattle.pure_board.specs.Sight.{Sees};
ghost use Rattle.pure_board.specs.Taken.{IsTaken, state_seen};
ghost use Rattle.pure_board.specs.Tokens.{IsSeated, IsDone};

use crate::tokens::{CoreDesk, Token};
use pure_core::{Core, Polled, Task, Work};
use std::alloc::AllocError;
use std::sync::Wait;

/// Takes what is there to do, or reads that there is nothing.
pub(crate) fn take_by<R: Wait, W: Work>(
    desk: &CoreDesk<W>,
    rt: &R,
    token: &mut Token<W>,
) -> Result<Task<W::Goal, W::Closed>, AllocError>
    requires desk { token.old.table_id ≡ desk_id desk.now }
    requires place { token.old.me.1 ≡ [] }
    requires seated { IsSeated W.shape W.forks W.closes W.may W.faults (view_of token.old) }
    ensures desk { token.new.table_id ≡ token.old.table_id }
    ensures done { IsDone W.shape W.forks W.closes W.may W.faults (λ old new. MatchResult result (λ task. IsTaken old new task) (λ _. Sees old new)) (view_of token.old) token.new.me }
{
    let mut core = desk.hold(rt, token);
    match core.take() {
        Err(error) => {
            desk.give_back(token, core);
            Err(error)
        }
        Ok(Task::Theory { index, parents }) => {
            desk.enter(token, core);
            Ok(Task::Theory { index, parents })
        }
        Ok(Task::Proof { number, goal }) => {
            desk.enter(token, core);
            Ok(Task::Proof { number, goal })
        }
        Ok(Task::Idle) => {
            desk.look(token);
            desk.give_back(token, core);
            Ok(Task::Idle)
        }
        Ok(Task::Finished) => {
            desk.look(token);
            desk.give_back(token, core);
            Ok(Task::Finished)
        }
        Ok(Task::Stopped) => {
            desk.look(token);
            desk.give_back(token, core);
            Ok(Task::Stopped)
        }
    }
}

/// Whether the proof of a promise that the token took goes on.
pub(crate) fn poll_by<R: Wait, W: Work>(
    desk: &CoreDesk<W>,
    rt: &R,
    token: &mut Token<W>,
    number: u32,
) -> Polled
    requires desk { token.old.table_id ≡ desk_id desk.now }
    requires place { token.old.me.1 ≡ [] }
    requires seated { IsSeated W.shape W.forks W.closes W.may W.faults (view_of token.old) }
    requires taken { IsIn (TakeProof number) (view_of token.old).own }
    ensures desk { token.new.table_id ≡ token.old.table_id }
    ensures done { IsDone W.shape W.forks W.closes W.may W.faults (λ old new. Sees old new × (result ≡ polled_as (state_seen new).stopped (is_in_cancelled (state_seen new) (slice_get (state_seen new).promises number)))) (view_of token.old) token.new.me }
{
    let core: Core<W> = desk.hold(rt, token);
    let polled = core.poll(number);
    desk.look(token);
    desk.give_back(token, core);
    polled
}

/// How many groups are cancelled.
pub(crate) fn cancellations_by<R: Wait, W: Work>(
    desk: &CoreDesk<W>,
    rt: &R,
    token: &mut Token<W>,
) -> usize
    requires desk { token.old.table_id ≡ desk_id desk.now }
    requires place { token.old.me.1 ≡ [] }
    requires seated { IsSeated W.shape W.forks W.closes W.may W.faults (view_of token.old) }
    ensures desk { token.new.table_id ≡ token.old.table_id }
    ensures done { IsDone W.shape W.forks W.closes W.may W.faults (λ old new. Sees old new × (result ≡ count_cancelled (state_seen new).cancelled)) (view_of token.old) token.new.me }
{
    let core: Core<W> = desk.hold(rt, token);
    let groups = core.cancellations();
    desk.look(token);
    desk.give_back(token, core);
    groups
}
