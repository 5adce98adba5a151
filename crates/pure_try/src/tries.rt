//! Proofs of lemmas as attempts that are raced.
ghost use Rattle.std.specs.Prelude.{◌≡◌, ◌≢◌, ◌<◌, IfOk, OnOk, OnErr, MatchOption, Some, length, slice_get, true};
ghost use Rattle.pure_text.specs.Lists.{Each};
ghost use Rattle.pure_check_work.specs.Method.Outcome.{IsProvable, IsOutcomeOf};
ghost use Rattle.pure_check_work.specs.Method.Running.{Proves};
ghost use Rattle.pure_try.specs.First.{Tells};
ghost use Rattle.pure_try.specs.Proofs as spec;

use pure_check_work::declare::Duty;
use pure_check_work::method;
use pure_check_work::method::{Outcome, Proving};
use pure_race::Attempts;
use pure_typ::NamesByBase;
use std::alloc::{AllocError, Global};
use std::marker::Model;

/// Lemmas with proofs of three steps, over the names of their session. The attempt of a number is the proof of the lemma at
/// that place, and it wins where the lemma is proved.
#[derive(Drop)]
pub(crate) struct Tries<'a> {
    alloc: Global,
    names: &'a NamesByBase,
    duties: Vec<Duty>,
}

impl<'a> Model for Tries<'a> {
    ghost use Rattle.std.specs.Prelude.{◌<◌, length};
    ghost use Rattle.pure_text.specs.Lists.{Each};
    ghost use Rattle.pure_try.specs.Codes.{coded_raced};
    ghost use Rattle.pure_try.specs.Proofs.{MayRun, Raced};

    ghost Value = { Raced };

    ghost coded = { coded_raced };

    ghost view = { λ t. record { texts = t.names.now; forks = t.duties.items } };

    ghost invariant = { λ t. Each (MayRun t.names.now) t.duties.items × (length t.duties.items < 4294967296) };
}

/// Whether a proof comes to the lemma's theorem.
fn is_proved(outcome: &Outcome) -> bool
    ensures { result ≡ spec.is_proved outcome.now }
{
    match outcome {
        Outcome::Proved { .. } => true,
        Outcome::Fault { .. } => false,
    }
}

/// One step of a proof; none where steps are left, else whether the lemma is proved.
fn step(
    alloc: Global,
    names: &NamesByBase,
    duty: &Duty,
    proving: &mut Proving,
) -> Result<Option<bool>, AllocError>
    requires provable { spec.MayRun names.now duty.now }
    requires proves { Proves names.now duty.now proving.old }
    ensures told { IfOk result (λ told. MatchOption told
        (Proves names.now duty.now proving.new × (spec.left_at proving.new.place < spec.left_at proving.old.place))
        (λ won. Tells names.now duty.now duty.now.script won)) }
    ensures lacks { OnErr result (Proves names.now duty.now proving.new × (spec.is_broken proving.new.place ≡ true)) }
    ensures stays { spec.is_broken proving.old.place ≡ true → OnOk result ⊥ }
{
    match proving.advance(alloc, names, duty)? {
        None => Ok(None),
        Some(outcome) => Ok(Some(is_proved(&outcome))),
    }
}

impl<'a> Tries<'a> {
    /// These lemmas.
    ///
    /// # Errors
    ///
    /// Want of memory, which stands for more lemmas than 32 bits count.
    pub(crate) fn make(
        alloc: Global,
        names: &'a NamesByBase,
        duties: Vec<Duty>,
    ) -> Result<Tries<'a>, AllocError>
        requires { Each (spec.MayRun names.now) duties.items }
        ensures { IfOk result (λ t. t ≡ record { texts = names.now; forks = duties.items }) }
    {
        if duties.len() > 4_294_967_295 {
            return Err(AllocError);
        }
        Ok(Tries {
            alloc,
            names,
            duties,
        })
    }

    /// The lemma of a number.
    fn duty(&self, number: u32) -> &Duty
        requires { number < length self.now.forks }
        ensures at { slice_get self.now.forks number ≡ Some result.now }
        ensures runs { spec.MayRun self.now.texts result.now }
    {
        &self.duties[number as usize]
    }

    /// The names.
    fn names(&self) -> &NamesByBase
        ensures { result.now ≡ self.now.texts }
    {
        self.names
    }

    /// How many lemmas there are.
    fn len(&self) -> u32
        ensures { result ≡ length self.now.forks }
    {
        self.duties.len() as u32
    }
}

impl<'a> Attempts for Tries<'a> {
    ghost use Rattle.std.specs.Prelude.{length};
    ghost use Rattle.pure_try.specs.Proofs.{Tries, Wins, is_broken, left_at};

    type Trying = Proving;

    ghost many = { λ t. length t.forks };

    ghost wins = { λ t n proves. Wins t n proves };

    ghost tries = { λ t n proving. Tries t n proving };

    ghost lacks = { λ proving. is_broken proving.place };

    ghost steps_left = { λ proving. left_at proving.place };

    fn count(&self) -> u32 {
        self.len()
    }

    fn start(&self, number: u32) -> Result<Proving, AllocError> {
        let proving = method::start(self.alloc, self.names(), self.duty(number))?;
        Ok(proving)
    }

    fn advance(&self, number: u32, trying: &mut Proving) -> Result<Option<bool>, AllocError> {
        step(self.alloc, self.names(), self.duty(number), trying)
    }
}
