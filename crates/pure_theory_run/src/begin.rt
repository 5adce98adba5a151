//! Theories that begin.
ghost use Rattle.std.specs.Prelude.{◌≡◌, ◌<◌, ◌++◌, ℕ, List, [], length, Some, None, IfOk, slice_get};
ghost use Rattle.pure_typ.specs.NameTexts.{HasText};
ghost use Rattle.pure_session_meaning.specs.Theory.Begin.{MayBegin, contents};
ghost use Rattle.pure_graph.specs.Session.{parent_refused_text};
ghost use Rattle.pure_session.specs.Waiting.{seen_loaded};
ghost use Rattle.pure_session_meaning.specs.Verdicts.{IsTheoryAt, beginning_over, refused_theory};
ghost use Rattle.pure_theory_run.specs.Outline.{Outline, outlines, lasts};
ghost use Rattle.pure_theory_run.specs.Parents.{AreOutlinesOf, HasParents, IsFirstBarredAt, IsNameOfParent};
ghost use Rattle.pure_theory_run.specs.Runs.{IsRunOf};
ghost use Rattle.pure_theory_run.specs.Begun.{IsFirst, IsBegunOver};

use crate::checker::Checker;
use crate::closed::Closed;
use crate::parents::first_barred;
use crate::parts::part_count;
use crate::refused::{not_begun, parent_refused};
use crate::run::{Going, Run, Standing};
use pure_print::Row;
use pure_session::Loaded;
use pure_session_meaning::theory::{Stage, Theory};
use pure_theory_tables::shared;
use pure_typ::Name;
use std::alloc::AllocError;
use std::collections::VecDeque;
use std::sync::Arc;

/// The index at the place.
fn index_at(indexes: &[u32], place: usize) -> u32
    requires { place < length indexes.now }
    ensures { slice_get indexes.now place ≡ Some result }
{
    indexes[place]
}

impl Checker {
    /// The name of the theory's parent at this place.
    fn parent_name(&self, theory: &Loaded, place: usize) -> &[u8]
        requires { (values : List Outline) × AreOutlinesOf self.now.texts self.now.theories theory.now.parents.items values × (place < length values) }
        ensures { IsNameOfParent self.now.theories theory.now.parents.items place result.now }
    {
        let index = index_at(theory.parents.as_slice(), place);
        let parent = self.theory(index);
        parent.name.bytes()
    }

    /// The row of the theory, whose parent at this place was refused when it began.
    fn barred_row(&self, theory: &Loaded, place: usize) -> Result<Row, AllocError>
        requires { (values : List Outline) × AreOutlinesOf self.now.texts self.now.theories theory.now.parents.items values × (place < length values) }
        ensures { IfOk result (λ row. (name : List ℕ) × IsNameOfParent self.now.theories theory.now.parents.items place name × (row ≡ refused_theory theory.now.name (parent_refused_text ++ name))) }
    {
        let parent = self.parent_name(theory, place);
        parent_refused(self.alloc, theory.name.bytes(), parent)
    }

    /// What has begun with this content.
    fn going(&self, left: u32, parts: usize, first: Theory) -> Result<Going, AllocError>
        ensures { IfOk result (λ going. IsFirst left parts first going) }
    {
        let now = shared(self.alloc, first)?;
        Ok(Going {
            rows: Vec::new(self.alloc),
            now,
            left,
            parts,
            waiting: VecDeque::new(self.alloc),
        })
    }

    /// How the theory of this name begins over these stages.
    fn begun_over(
        &self,
        index: u32,
        theory: &Loaded,
        name: Name,
        stages: &[Stage],
    ) -> Result<Standing, AllocError>
        requires theory { IsTheoryAt self.now.theories index (seen_loaded theory.now) }
        requires text { HasText self.now.texts name theory.now.name }
        requires may { MayBegin (record { name = name; index = index }) (contents stages.now) }
        ensures { IfOk result (IsBegunOver self.now.texts index (seen_loaded theory.now) (contents stages.now)) }
    {
        self.is_loaded_session();
        let left = theory.text.commands.len() as u32;
        let parts = part_count(theory.text.commands.as_slice());
        match Theory::begin(self.alloc, index, name, stages) {
            Ok(first) => {
                let going = self.going(left, parts, first)?;
                Ok(Standing::Going { going })
            }
            Err(fault) => {
                let names = self.names().names();
                let row = not_begun(self.alloc, names, theory.name.bytes(), fault)?;
                Ok(Standing::Barred { row })
            }
        }
    }

    /// The name of the theory.
    fn name_of(&self, theory: &Loaded) -> Name
        requires { (index : ℕ) × IsTheoryAt self.now.theories index (seen_loaded theory.now) }
        ensures { HasText self.now.texts result theory.now.name }
    {
        self.is_loaded_session();
        match self.names().names().find(theory.name.bytes()) {
            Some(name) => name,
            None => unreachable!(),
        }
    }

    /// How the theory begins, none of whose parents was refused.
    fn begun(
        &self,
        index: u32,
        theory: &Loaded,
        parents: &[Arc<Closed>],
    ) -> Result<Standing, AllocError>
        requires theory { IsTheoryAt self.now.theories index (seen_loaded theory.now) }
        requires parents { AreOutlinesOf self.now.texts self.now.theories theory.now.parents.items (outlines parents.now) }
        requires ran { IsFirstBarredAt (outlines parents.now) None }
        ensures { IfOk result (IsBegunOver self.now.texts index (seen_loaded theory.now) (beginning_over (lasts (outlines parents.now)))) }
    {
        self.is_loaded_session();
        let name = self.name_of(theory);
        let stages = self.stages_over(parents)?;
        self.begun_over(index, theory, name, stages.as_slice())
    }

    /// The run of the theory of the session with this index, from what its parents left, in their order, when they closed. It is refused where a parent was refused so, or
    /// else where its parents, merged one after the other, aren't coregular.
    ///
    /// # Errors
    ///
    /// Want of memory alone.
    pub fn begin(&self, theory: u32, parents: &[Arc<Closed>]) -> Result<Run, AllocError>
        requires { HasParents self.now.texts self.now.theories theory (outlines parents.now) }
        ensures { IfOk result (IsRunOf self.now.texts self.now.theories theory []) }
    {
        let loaded = self.theory(theory);
        match first_barred(parents) {
            Some(place) => {
                let row = self.barred_row(loaded, place)?;
                Ok(Run {
                    index: theory,
                    standing: Standing::Barred { row },
                })
            }
            None => {
                let standing = self.begun(theory, loaded, parents)?;
                Ok(Run {
                    index: theory,
                    standing,
                })
            }
        }
    }
}
