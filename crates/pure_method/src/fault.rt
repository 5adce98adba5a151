//! Faults of steps.
ghost use Rattle.std.specs.Prelude.{◌≡◌, ◌≢◌, MatchBool};

use pure_resolve::goal_steps::StepFault;

/// Whether the fault is want of memory.
pub fn is_memory(fault: StepFault) -> bool
    ensures { MatchBool result (fault ≡ StepFault.Memory) (fault ≢ StepFault.Memory) }
{
    match fault {
        StepFault::Memory => true,
        _ => false,
    }
}
