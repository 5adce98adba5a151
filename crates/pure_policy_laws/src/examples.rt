//! That the condition on cancelled promises means something: examples, each carried by the contract of a function that does nothing.
ghost use Rattle.pure_policy_laws.specs.Examples.{SomeAreHeeded, UnlicensedIsRefused, SecondFaultIsRefused, DisobeyedIsRefused, OutOfOrderIsRefused, ForeseenIsRefused};

/// Promises that are cancelled as is asked for.
pub fn some_are_heeded()
    ensures { SomeAreHeeded }
{}

/// A cancelled promise that nothing asks for.
pub fn unlicensed_is_refused()
    ensures { UnlicensedIsRefused }
{}

/// A second fault behind the first, which cancels all.
pub fn second_fault_is_refused()
    ensures { SecondFaultIsRefused }
{}

/// A kept promise of a group that was cancelled.
pub fn disobeyed_is_refused()
    ensures { DisobeyedIsRefused }
{}

/// As many cancelled promises as workers before a kept one of their theory.
pub fn out_of_order_is_refused()
    ensures { OutOfOrderIsRefused }
{}

/// With one worker, a promise that is cancelled before the fault.
pub fn foreseen_is_refused()
    ensures { ForeseenIsRefused }
{}
