//! What a policy does to an orderly run: a law, carried by the contract of a function that does nothing.
ghost use Rattle.pure_policy_laws.specs.Laws.{PolicyIsHeeded};

use pure_core::Work;

/// Of an orderly run that has come to Finished, the promises are cancelled as its policy asks for.
pub fn policy_is_heeded<W: Work>(work: &W)
    ensures { PolicyIsHeeded (W.forks work.now) (W.closes work.now) (W.may work.now) (W.faults work.now) }
{
    let _ = work;
}
