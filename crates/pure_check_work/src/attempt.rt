//! Proofs on their way, with a count of the steps that they may still take.
ghost use Rattle.std.specs.Prelude.{◌≡◌, IfOk};
ghost use Rattle.pure_table.specs.Method.Outcome.{IsProvable};
ghost use Rattle.pure_check_work.specs.Attempts.{Attempts, Steps};

use pure_table::declare::Duty;
use pure_table::method::{Outcome, Proving};
use pure_typ::NamesByBase;
use pure_watch::Watch;
use std::alloc::{AllocError, Global};

/// A proof on its way, and how many steps it may still take.
#[derive(Drop)]
pub struct Attempt {
    proving: Proving,
    left: usize,
}

impl Attempt {
    /// Begins the lemma's proof.
    pub(crate) fn start(
        alloc: Global,
        names: &NamesByBase,
        duty: &Duty,
    ) -> Result<Attempt, AllocError>
        requires { IsProvable names.now duty.now }
        ensures { IfOk result (Attempts names.now duty.now) }
    {
        let proving = pure_table::method::start(alloc, names, duty)?;
        Ok(Attempt {
            proving,
            left: duty.script.len(),
        })
    }

    /// Makes one step of the proof while the watch lets it go on; none where steps are left and none failed, else what comes of
    /// the proof.
    pub(crate) fn advance<V: Watch>(
        &mut self,
        alloc: Global,
        names: &NamesByBase,
        duty: &Duty,
        watch: &V,
    ) -> Result<Option<Outcome>, AllocError>
        requires { Attempts names.now duty.now self.old }
        ensures { IfOk result (Steps names.now duty.now self.old self.new) }
    {
        match self.proving.advance_while(alloc, names, duty, watch)? {
            Some(outcome) => Ok(Some(outcome)),
            None => {
                self.left -= 1;
                Ok(None)
            }
        }
    }
}
