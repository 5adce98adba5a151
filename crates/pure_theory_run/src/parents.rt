//! What the parents of a theory left.
ghost use Rattle.std.specs.Prelude.{◌≡◌, ◌≤◌, ◌++◌, length, IfOk, OnOk};
ghost use Rattle.std.specs.Option.{option_to_list};
ghost use Rattle.pure_text.specs.Lists.{Each, EachTwo};
ghost use Rattle.pure_session_meaning.specs.Theory.Begin.{contents};
ghost use Rattle.pure_session_meaning.specs.Verdicts.{beginning_over};
ghost use Rattle.pure_theory_run.specs.Outline.{outlines, last_of, lasts};
ghost use Rattle.pure_theory_run.specs.Parents.{IsFirstBarredAt, IsLeftBy};

use crate::checker::Checker;
use crate::closed::Closed;
use pure_session_meaning::theory::Stage;
use std::alloc::{AllocError, Global};
use std::sync::Arc;

/// The place of the first that was refused when it began.
pub(crate) fn first_barred(parents: &[Arc<Closed>]) -> Option<usize>
    ensures { IsFirstBarredAt (outlines parents.now) result }
{
    for (place, parent) in parents.iter().enumerate() {
        if parent.is_barred() {
            return Some(place);
        }
    }
    None
}

/// Appends the theory's last stage, if it ran.
fn put_last(stages: &mut Vec<Stage>, parent: &Closed) -> Result<(), AllocError>
    ensures { OnOk result (contents stages.new.items ≡ contents stages.old.items ++ option_to_list (last_of parent.now)) }
{
    if let Some(stage) = parent.last() {
        let stage = Arc::try_clone(stage)?;
        stages.push(stage)?;
    }
    Ok(())
}

/// The last stages of those that ran.
fn last_stages(alloc: Global, parents: &[Arc<Closed>]) -> Result<Vec<Stage>, AllocError>
    ensures { IfOk result (λ stages. contents stages.items ≡ lasts (outlines parents.now)) }
{
    let mut stages = Vec::new(alloc);
    for parent in parents {
        put_last(&mut stages, parent)?;
    }
    Ok(stages)
}

impl Checker {
    /// The stages over which a theory with these parents begins: their last ones, or Pure's where there is none.
    pub(crate) fn stages_over(&self, parents: &[Arc<Closed>]) -> Result<Vec<Stage>, AllocError>
        ensures { IfOk result (λ stages. contents stages.items ≡ beginning_over (lasts (outlines parents.now))) }
    {
        let mut stages = last_stages(self.alloc, parents)?;
        if stages.is_empty() {
            stages.push(self.pure()?)?;
        }
        Ok(stages)
    }
}

/// What the theory with this index left, which stands among these, in load order.
fn left_by(closed: &[Arc<Closed>], index: u32) -> Result<Arc<Closed>, AllocError>
    requires { (1 ≤ index) × (index ≤ length closed.now) }
    ensures { IfOk result (λ value. IsLeftBy (outlines closed.now) index value.value) }
{
    let value = &closed[(index - 1) as usize];
    Arc::try_clone(value)
}

/// What the theories with these indexes left, which all stand among these, in load order.
pub(crate) fn all_left_by(
    alloc: Global,
    closed: &[Arc<Closed>],
    indexes: &[u32],
) -> Result<Vec<Arc<Closed>>, AllocError>
    requires { Each (λ index. (1 ≤ index) × (index ≤ length closed.now)) indexes.now }
    ensures { IfOk result (λ values. EachTwo (IsLeftBy (outlines closed.now)) indexes.now (outlines values.items)) }
{
    let mut values = Vec::new(alloc);
    for index in indexes {
        values.push(left_by(closed, *index)?)?;
    }
    Ok(values)
}
