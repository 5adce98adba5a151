//! A promise, a theorem that rests on it, and theories to which that is handed on.
ghost use Rattle.std.specs.Prelude.{◌≡◌};
ghost use Rattle.pure_logic.specs.Derivable.{IsDerivable};
ghost use Rattle.pure_logic.specs.PureContent.{pure_content};

use crate::declarations::{declared, grow};
use crate::kept::{Kept, keep, last, last_stage};
use crate::notation::{given, name, number, pure, shared_variable, yes_or_no};
use crate::sessions::{tell, told_of};
use crate::stop::Stop;
use pure_rows::{Outcome, Row};
use pure_rules::promise;
use pure_term::{Label, Name};
use pure_theorem::Thm;
use pure_theory::{Cthm, Decl, RuleFault, Stage, Theory, TransferFault};
use pure_theory_tables::shared;
use std::alloc::Global;
use std::mem;
use std::sync::Arc;

/// The label of each promise.
pub(crate) const LABEL: Label = Label {
    theory: 1,
    command: 2,
    part: 0,
};

/// Pure with a promise of this name that states `?A`.
fn promise_over(alloc: Global, pure: &Theory, name: Name) -> Result<Theory, Stop>
    requires { pure.now ≡ pure_content }
{
    pure.content_is_sound();
    let prop = shared_variable(alloc)?;
    pure.declare_promise(name, LABEL, prop).map_err(Stop::of)
}

/// Pure with a promise of this name that states `?A`.
pub(crate) fn promised(alloc: Global, name: Name) -> Result<Theory, Stop> {
    let pure = Theory::pure(alloc)?;
    let made = promise_over(alloc, &pure, name);
    mem::forget(pure);
    made
}

/// What comes of a row whose theory has no promise.
fn without_promise(fault: RuleFault) -> Stop {
    match fault {
        RuleFault::Memory => Stop::Memory,
        _ => Stop::Unreadable,
    }
}

/// The theorem in its theory.
fn made(alloc: Global, stage: &Stage, th: Thm) -> Result<Cthm, Stop>
    requires { IsDerivable stage.now.value th }
{
    let Ok(th) = shared(alloc, th) else {
        return Err(Stop::Memory);
    };
    let Ok(own) = Arc::try_clone(stage) else {
        mem::forget(th);
        return Err(Stop::Memory);
    };
    Ok(Cthm::make(own, th))
}

/// The theorem of the promise.
fn theorem(alloc: Global, stage: &Stage) -> Result<Cthm, Stop> {
    match promise(alloc, &**stage, LABEL) {
        Ok(th) => made(alloc, stage, th),
        Err(fault) => Err(without_promise(fault)),
    }
}

/// Whether the theorem is handed on to the theory, and rests on the promise there.
fn is_handed_on(theorem: &Cthm, to: &Stage) -> bool {
    match theorem.transfer(to) {
        Ok(more) => {
            let rests = more.thm().rests.as_slice() == [LABEL].as_slice();
            mem::forget(more);
            rests
        }
        Err(_) => false,
    }
}

/// Whether the copy of the theorem is of the same theory.
fn is_same(copy: &Cthm, theorem: &Cthm) -> bool {
    copy.thm().prop == theorem.thm().prop && copy.stage().promise_prop(LABEL).is_some()
}

/// Whether a copy of the theorem is of the same theory, and is handed on as well.
fn is_copied(theorem: &Cthm, to: &Stage) -> bool {
    match theorem.copy() {
        Ok(copy) => {
            let copied = is_same(&copy, theorem) && is_handed_on(&copy, to);
            mem::forget(copy);
            copied
        }
        Err(_) => false,
    }
}

/// `label`: declarations, a label, and whether a promise has it.
pub(crate) fn label_row(alloc: Global, kept: &mut Kept, row: &Row) -> Result<Outcome, Stop> {
    let label = Label {
        theory: number(row, 2)?,
        command: number(row, 3)?,
        part: number(row, 4)?,
    };
    let wanted = yes_or_no(row.field(5))?;
    declared(alloc, &mut kept.stages, given(row, 1))?;
    let found = last(&kept.stages)?.promise_prop(label).is_some();
    Ok(Outcome::of(found == wanted))
}

/// Whether the theorem, or a copy of it, is handed on to the theory with the row's further declarations.
fn handed(
    alloc: Global,
    stages: &mut Vec<Stage>,
    theorem: &Cthm,
    row: &Row,
    copied: bool,
) -> Result<Outcome, Stop> {
    grow(alloc, stages, given(row, 2))?;
    let to = last_stage(stages)?;
    if copied {
        Ok(Outcome::of(is_copied(theorem, to)))
    } else {
        Ok(Outcome::of(is_handed_on(theorem, to)))
    }
}

/// `handed` and `copied`: declarations with a promise, and further ones, with which its theorem or a copy of that is handed on.
pub(crate) fn handed_row(
    alloc: Global,
    kept: &mut Kept,
    row: &Row,
    copied: bool,
) -> Result<Outcome, Stop> {
    let stages = &mut kept.stages;
    declared(alloc, stages, given(row, 1))?;
    let theorem = theorem(alloc, last_stage(stages)?)?;
    let outcome = handed(alloc, stages, &theorem, row, copied);
    mem::forget(theorem);
    outcome
}

/// The declaration of this name and the mark of its kind.
fn decl_marked(name: Name, mark: u8) -> Result<Decl, Stop> {
    match mark {
        b'?' => Ok(Decl::Promise { name, label: LABEL }),
        b'<' => Ok(Decl::Class { name }),
        b'/' => Ok(Decl::Con { name }),
        b'.' => Ok(Decl::Const { name }),
        b'!' => Ok(Decl::Axiom { name }),
        _ => Err(Stop::Unreadable),
    }
}

/// The declaration that is written so.
fn decl_of(text: &[u8]) -> Result<Decl, Stop> {
    match text {
        [byte, mark] => decl_marked(name(*byte), *mark),
        [con, b':', class] => Ok(Decl::Arity {
            con: name(*con),
            class: name(*class),
        }),
        _ => Err(Stop::Unreadable),
    }
}

/// Puts the theory that is written so, or Pure, behind the others.
fn put_other(alloc: Global, kept: &mut Kept, text: &[u8]) -> Result<(), Stop> {
    if text == b"Pure".as_slice() {
        return keep(alloc, &mut kept.stages, pure(alloc));
    }
    let Some(told) = told_of(text) else {
        return Err(Stop::Unreadable);
    };
    tell(alloc, kept, &told)
}

/// Whether the theorem isn't handed on to the theory, which lacks this.
fn is_missed(theorem: &Cthm, to: &Stage, wanted: Decl) -> Result<Outcome, Stop> {
    match theorem.transfer(to) {
        Ok(more) => {
            mem::forget(more);
            Ok(Outcome::Differs)
        }
        Err(TransferFault::Missing { declaration }) => {
            let missing = (&**theorem.stage()).missing(&**to);
            Ok(Outcome::of(declaration == wanted && missing == Some(wanted)))
        }
        Err(TransferFault::Memory) => Err(Stop::Memory),
    }
}

/// Whether the row's other theory lacks what the row says.
fn missed(alloc: Global, kept: &mut Kept, theorem: &Cthm, row: &Row) -> Result<Outcome, Stop> {
    let wanted = decl_of(row.field(3))?;
    put_other(alloc, kept, row.field(2))?;
    is_missed(theorem, last_stage(&kept.stages)?, wanted)
}

/// `lacks`: declarations with a promise, another theory, and the declaration that this lacks first.
pub(crate) fn lacks_row(alloc: Global, kept: &mut Kept, row: &Row) -> Result<Outcome, Stop> {
    declared(alloc, &mut kept.stages, given(row, 1))?;
    let theorem = theorem(alloc, last_stage(&kept.stages)?)?;
    let outcome = missed(alloc, kept, &theorem, row);
    mem::forget(theorem);
    outcome
}

/// Whether the theory of the row's count of declarations lacks what the row says.
fn missed_before(stages: &[Stage], theorem: &Cthm, row: &Row) -> Result<Outcome, Stop> {
    let wanted = decl_of(row.field(3))?;
    let count = number(row, 2)?;
    match stages.get(count as usize) {
        Some(stage) => is_missed(theorem, stage, wanted),
        None => Err(Stop::Unreadable),
    }
}

/// `back`: declarations with a promise, how many of the others the other theory has, and the declaration that this lacks first.
pub(crate) fn back_row(alloc: Global, kept: &mut Kept, row: &Row) -> Result<Outcome, Stop> {
    declared(alloc, &mut kept.stages, given(row, 1))?;
    let theorem = theorem(alloc, last_stage(&kept.stages)?)?;
    let outcome = missed_before(&kept.stages, &theorem, row);
    mem::forget(theorem);
    outcome
}
