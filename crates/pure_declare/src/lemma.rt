//! Statements of lemmas and haves, which are bound before their proofs are run.
ghost use Rattle.std.specs.Prelude.{◌≡◌, IfOk, IfErr, OnOk, Ok};
ghost use Rattle.pure_logic.specs.Content.{IsStatement};
ghost use Rattle.pure_lookup.specs.Meaning.{facts};
ghost use Rattle.pure_script.specs.Seen.{span, seen_step, seen_steps};
ghost use Rattle.pure_statements.specs.Chain.{Answers, FailsAs};
ghost use Rattle.pure_declare.specs.Fixing.{fixed_again};
ghost use Rattle.pure_declare.specs.Commands.{IsTaken};
ghost use Rattle.pure_declare.specs.Parts.{binding, IsBoundOutcome};
ghost use Rattle.pure_declare.specs.Changes.{IsNewStatement};
ghost use Rattle.pure_declare.specs.Premises.{LiesIn};
ghost use Rattle.pure_declare.specs.Seen.{seen_outcome};

use crate::grown::with_promise;
use crate::notes::{Duty, Note, PartOutcome};
use crate::place::Place;
use crate::quoted::statement_of;
use crate::simple::shared_prop;
use crate::taken::is_fact_taken;
use pure_script::{Span, Step};
use pure_statements::{Failed, Reason, Stated};
use pure_theory_tables::shared;
use pure_typ::Name;
use std::alloc::{AllocError, Global};
use std::sync::Arc;

/// Equal steps.
fn copied_steps(alloc: Global, steps: &[Step]) -> Result<Vec<Step>, AllocError>
    ensures { IfOk result (λ copies. seen_steps copies.items ≡ seen_steps steps.now) }
{
    let mut copies = Vec::new(alloc);
    for step in steps {
        let copy = step.copy(alloc)?;
        copies.push(copy)?;
    }
    Ok(copies)
}

/// The duty of a statement of a new name, in the lemma of that name, and the next stage, which has its promise.
pub(crate) fn forked(
    alloc: Global,
    place: &Place<'_>,
    name: Name,
    lemma: Name,
    stated: Stated,
    script: &[Step],
) -> Result<PartOutcome, AllocError>
    requires new { IsTaken place.now facts name → ⊥ }
    requires statement { IsStatement place.now.content stated.prop }
    requires fixed { fixed_again stated.prop ≡ stated.fixed }
    ensures { IfOk result (λ d. seen_outcome d ≡ binding place.now name lemma (seen_steps script.now) stated) }
{
    let prop = shared_prop(place, stated)?;
    let promised = Arc::try_clone(&prop)?;
    let next = with_promise(place, name, promised)?;
    let next = shared(alloc, next)?;
    let script = copied_steps(alloc, script)?;
    let stage = Arc::try_clone(place.stage())?;
    let label = place.label();
    let duty = Duty {
        label,
        name,
        lemma,
        stage,
        prop,
        script,
    };
    Ok(PartOutcome {
        stage: next,
        note: Note::Forked { duty },
    })
}

/// What is stated under this name, where no fact has it.
pub(crate) fn new_statement(
    alloc: Global,
    place: &Place<'_>,
    name: Name,
    at: Span,
) -> Result<Stated, Failed>
    requires { LiesIn place.now.source (span at) }
    ensures answer { Answers (IsNewStatement place.now name (span at)) result }
    ensures new { OnOk result (IsTaken place.now facts name → ⊥) }
    ensures statement { IfOk result (λ s. IsStatement place.now.content s.prop) }
    ensures fixed { IfOk result (λ s. fixed_again s.prop ≡ s.fixed) }
{
    if is_fact_taken(place, name) {
        return Err(Failed::Refused {
            reason: Reason::Duplicate,
        });
    }
    statement_of(alloc, place, at)
}

/// What comes of a statement under this name, in the lemma of that name, where it isn't refused.
pub(crate) fn bound_outcome(
    alloc: Global,
    place: &Place<'_>,
    name: Name,
    lemma: Name,
    at: Span,
    script: &[Step],
) -> Result<PartOutcome, Failed>
    requires { LiesIn place.now.source (span at) }
    ensures ok { IfOk result (λ d. IsBoundOutcome place.now name lemma (span at) (seen_steps script.now) (Ok (seen_outcome d))) }
    ensures failed { IfErr result (FailsAs (IsBoundOutcome place.now name lemma (span at) (seen_steps script.now))) }
{
    let stated = new_statement(alloc, place, name, at)?;
    let outcome = forked(alloc, place, name, lemma, stated, script)?;
    Ok(outcome)
}
