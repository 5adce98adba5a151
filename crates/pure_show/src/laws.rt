//! Laws of the definitions. What each function ensures is the law.
ghost use Rattle.pure_show.specs.Laws.{ShownOnce};

use pure_theory_run::method::laws::proof_in_lemma;

/// One text at most shows a lemma's proof.
pub fn shown_once()
    ensures { ShownOnce }
{
    proof_in_lemma();
}
