//! What no clause says: that workers run at once, how many attempts are started, and that attempts are left.
use crate::lanes::{End, try_lane};
use crate::races::race;
use crate::scripted::{Beaten, Scripted};
use crate::wins::Wins;
use std::sync::atomic::Ordering;
use std::test::Fail;

#[test]
fn two_workers_run_at_once(rt: HostRuntime) -> Result<(), Fail> {
    let attempts = Scripted::new(3, 1, 0, true);
    assert_eq!(rt; race(&rt, rt.alloc(), &attempts, 2), Ok(Some(1)));
    assert_eq!(rt; attempts.alone.load(Ordering::SeqCst), 0);
    Ok(())
}

#[test]
fn none_wins(rt: HostRuntime) -> Result<(), Fail> {
    let attempts = Scripted::new(3, 3, 0, true);
    assert_eq!(rt; race(&rt, rt.alloc(), &attempts, 2), Ok(None));
    assert_eq!(rt; attempts.alone.load(Ordering::SeqCst), 0);
    assert_eq!(rt; attempts.started.load(Ordering::SeqCst), 3);
    Ok(())
}

#[test]
fn all_win(rt: HostRuntime) -> Result<(), Fail> {
    let attempts = Scripted::new(3, 0, 0, true);
    assert_eq!(rt; race(&rt, rt.alloc(), &attempts, 2), Ok(Some(0)));
    Ok(())
}

#[test]
fn one_worker_starts_no_more_than_it_needs(rt: HostRuntime) -> Result<(), Fail> {
    let attempts = Scripted::new(5, 1, 2, false);
    assert_eq!(rt; race(&rt, rt.alloc(), &attempts, 1), Ok(Some(1)));
    assert_eq!(rt; attempts.started.load(Ordering::SeqCst), 2);
    assert_eq!(rt; attempts.stepped.load(Ordering::SeqCst), 6);
    Ok(())
}

#[test]
fn more_workers_than_attempts(rt: HostRuntime) -> Result<(), Fail> {
    let attempts = Scripted::new(10, 7, 1, false);
    assert_eq!(rt; race(&rt, rt.alloc(), &attempts, 64), Ok(Some(7)));
    let none = Scripted::new(0, 0, 1, false);
    assert_eq!(rt; race(&rt, rt.alloc(), &none, 64), Ok(None));
    Ok(())
}

#[test]
fn nobody_starts_one_above_a_win_that_is_seen(rt: HostRuntime) -> Result<(), Fail> {
    let attempts = Scripted::new(9, 8, 1, false);
    let wins = Wins::none(rt.alloc(), 2)?;
    wins.tell(rt.alloc(), 1, 1)?;
    match try_lane(rt.alloc(), &attempts, &wins, 2, 0)? {
        End::Left { number } => assert_eq!(rt; number, 2),
        _ => assert!(rt; false),
    }
    assert_eq!(rt; attempts.started.load(Ordering::SeqCst), 1);
    Ok(())
}

#[test]
fn a_win_is_told_by_its_own_number(rt: HostRuntime) -> Result<(), Fail> {
    let wins = Wins::none(rt.alloc(), 2)?;
    wins.tell(rt.alloc(), 1, 2)?;
    assert!(rt; !wins.has_lesser(2));
    assert!(rt; wins.has_lesser(3));
    Ok(())
}

#[test]
fn an_attempt_is_left_before_its_next_step(rt: HostRuntime) -> Result<(), Fail> {
    let wins = Wins::none(rt.alloc(), 2)?;
    let attempts = Beaten {
        wins: &wins,
        alloc: rt.alloc(),
    };
    match try_lane(rt.alloc(), &attempts, &wins, 2, 1)? {
        End::Left { number } => assert_eq!(rt; number, 1),
        _ => assert!(rt; false),
    }
    Ok(())
}
