//! What is known of certified terms, and of theorems that are derivable in a theory.
ghost use Rattle.pure_definitions.specs.Terms.Bounds.{IsClosed};
ghost use Rattle.pure_definitions.specs.Declarations.Certified.{IsCertified};
ghost use Rattle.pure_logic.specs.Content.{IsProposition};
ghost use Rattle.pure_logic.specs.Derivable.{IsDerivable};
ghost use Rattle.pure_theorem.specs.Shapes.{IsTyped};

use pure_declare::theory::Theory;
use pure_term::Term;
use pure_theorem::Thm;

/// A term that is certified over the theory has a type.
pub fn certified_is_typed(theory: &Theory, t: &Term)
    ensures { IsCertified theory.now.declarations t.now → IsTyped t.now }
{
    let _ = theory;
    let _ = t;
}

/// What a theorem states that is derivable in the theory is a proposition of it, and no bound variable is loose there.
pub fn theorem_is_closed(theory: &Theory, th: &Thm)
    ensures proposition { IsDerivable theory.now th.now → IsProposition theory.now th.now.prop }
    ensures closed { IsDerivable theory.now th.now → IsClosed th.now.prop }
{
    theory.content_is_sound();
    let _ = th;
}
