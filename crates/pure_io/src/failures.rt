//! Which calls of a device in memory fail.
ghost use Rattle.std.specs.Prelude.{◌≡◌, ◌↔◌, ◌≤◌, IsTrue, Contains, if◌then◌else◌};
ghost use Rattle.pure_io.specs.Counts.{next_count};

/// The numbers of the calls that fail, counted from 0, with the calls and the faults so far.
#[derive(Debug, Drop)]
pub(crate) struct Failures {
    pub(crate) failing: Vec<u32>,
    pub(crate) calls: u64,
    pub(crate) faults: u64,
}

impl Failures {
    /// No call was made yet.
    pub(crate) fn make(failing: Vec<u32>) -> Failures
        ensures failing { result.failing.items ≡ failing.items }
        ensures calls { result.calls ≡ 0 }
        ensures faults { result.faults ≡ 0 }
    {
        Failures {
            failing,
            calls: 0,
            faults: 0,
        }
    }

    /// Counts a call, and a fault where it is one of those that fail. Says whether it is.
    pub(crate) fn count_call(&mut self) -> bool
        ensures fails { IsTrue result ↔ Contains self.old.failing.items self.old.calls }
        ensures failing { self.new.failing.items ≡ self.old.failing.items }
        ensures calls { self.new.calls ≡ next_count self.old.calls }
        ensures faults { self.new.faults ≡ (if result then next_count self.old.faults else self.old.faults) }
        ensures later { self.old.faults ≤ self.new.faults }
    {
        let fails = is_listed(self.failing.as_slice(), self.calls);
        self.calls = self.calls.saturating_add(1);
        if fails {
            self.count_fault();
        }
        fails
    }

    /// Counts a fault.
    pub(crate) fn count_fault(&mut self)
        ensures failing { self.new.failing.items ≡ self.old.failing.items }
        ensures calls { self.new.calls ≡ self.old.calls }
        ensures faults { self.new.faults ≡ next_count self.old.faults }
        ensures later { self.old.faults ≤ self.new.faults }
    {
        self.faults = self.faults.saturating_add(1);
    }
}

/// Whether a call's number is listed.
fn is_listed(failing: &[u32], call: u64) -> bool
    ensures { IsTrue result ↔ Contains failing.now call }
{
    failing.iter().any(|number| u64::from(*number) == call)
}
