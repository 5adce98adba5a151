//! A policy whose cancellations are found by how many deliveries were kept.
ghost use Rattle.std.specs.Prelude.{◌≡◌, [], ℕ, IfOk, OnOk};
ghost use Rattle.pure_machine.specs.Policy.{due};
ghost use Rattle.pure_machine.specs.Buckets.{bucket};
ghost use Rattle.pure_machine.specs.Parts.{IsScheduled};

use crate::buckets::Buckets;
use crate::policy::{Cancel, Policy};
use std::alloc::{AllocError, Global};
use std::marker::Model;

/// A policy, with its cancellations in buckets by their number, as many as there are: so in as many deliveries as there are cancellations each is looked at once.
#[derive(Drop)]
pub(crate) struct Schedule {
    policy: Policy,
    buckets: Buckets<Cancel>,
}

impl Model for Schedule {
    ghost use Rattle.pure_machine.specs.Policy as seen;
    ghost use Rattle.pure_machine.specs.Parts.{IsScheduled};

    ghost Value = { seen.Policy };

    ghost view = { λ s. s.policy };

    ghost invariant = { λ s. IsScheduled s.policy.cancels s.buckets };
}

/// Puts each cancellation into the bucket of its number.
fn put_all(buckets: &mut Buckets<Cancel>, cancels: &[Cancel]) -> Result<(), AllocError>
    requires { (kept : ℕ) → bucket buckets.old kept ≡ [] }
    ensures { OnOk result (IsScheduled cancels.now buckets.new) }
{
    for cancel in cancels {
        buckets.put(cancel.after as usize, *cancel)?;
    }
    Ok(())
}

impl Schedule {
    /// The schedule of a policy.
    pub fn new(alloc: Global, policy: Policy) -> Result<Schedule, AllocError>
        ensures { IfOk result (λ s. s ≡ policy) }
    {
        let cancels = policy.cancels.as_slice();
        let mut buckets = Buckets::new(alloc, cancels.len())?;
        put_all(&mut buckets, cancels)?;
        Ok(Schedule { policy, buckets })
    }

    /// Whether the first fault that is kept cancels the session.
    pub fn fail_fast(&self) -> bool
        ensures { result ≡ self.now.fail_fast }
    {
        self.policy.fail_fast
    }

    /// Some of the cancellations, among them all that come when so many deliveries have been kept.
    pub fn at(&self, kept: usize) -> &[Cancel]
        ensures { due result.now kept ≡ due self.now.cancels kept }
    {
        self.buckets.of(kept)
    }
}
