//! Laws of the definitions. What each function ensures is the law.
ghost use Rattle.pure_try.specs.First.{TriedOnce};

use pure_check_work::method::laws::proof_in_lemma;

/// Trying in order gives one answer.
pub fn tried_once()
    ensures { TriedOnce }
{
    proof_in_lemma();
}
