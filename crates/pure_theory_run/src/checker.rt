//! The session whose theories are run.
ghost use Rattle.std.specs.Prelude.{◌≡◌, IfOk};
ghost use Rattle.pure_typ.specs.NameTexts.{AreSessionTexts};
ghost use Rattle.pure_logic.specs.PureContent.{pure_content};
ghost use Rattle.pure_graph.specs.Order as order;
ghost use Rattle.pure_session.specs.Waiting.{seen_loaded, all_loaded};
ghost use Rattle.pure_session_meaning.specs.SessionLaws.Loaded.{IsLoadedSession};
ghost use Rattle.pure_session_meaning.specs.Verdicts.{IsTheoryAt};

use pure_session::Loaded;
use pure_session_meaning::theory::{Stage, Theory};
use pure_theory_tables::shared;
use pure_typ::{Names, NamesByBase};
use std::alloc::{AllocError, Global};
use std::marker::Model;
use std::sync::Arc;

/// The session whose theories are run, as it was loaded: its names by their bases, its theories in load order, and Pure's stage.
#[derive(Drop)]
pub struct Checker {
    pub(crate) alloc: Global,
    names: NamesByBase,
    theories: Vec<Loaded>,
    pure: Stage,
}

impl Model for Checker {
    ghost use Rattle.std.specs.Prelude.{◌≡◌};
    ghost use Rattle.pure_theory_run.specs.Checked.{Checked};
    ghost use Rattle.pure_theory_run.specs.CheckedCodes.{coded_checked};
    ghost use Rattle.pure_logic.specs.PureContent.{pure_content};
    ghost use Rattle.pure_session.specs.Waiting.{all_loaded};
    ghost use Rattle.pure_session_meaning.specs.SessionLaws.Loaded.{IsLoadedSession};

    ghost Value = { Checked };

    ghost coded = { coded_checked };

    ghost view = { λ c. record { texts = c.names; theories = all_loaded c.theories.items } };

    ghost invariant = { λ c. (c.pure.value ≡ pure_content) × IsLoadedSession c.names (all_loaded c.theories.items) };
}

/// Pure's stage.
fn pure_stage(alloc: Global) -> Result<Stage, AllocError>
    ensures { IfOk result (λ stage. stage.value ≡ pure_content) }
{
    let theory = Theory::pure(alloc)?;
    shared(alloc, theory)
}

impl Checker {
    /// The session with these names and these theories, which are in load order.
    ///
    /// # Errors
    ///
    /// Want of memory alone.
    pub fn make(alloc: Global, names: Names, theories: Vec<Loaded>) -> Result<Checker, AllocError>
        requires { IsLoadedSession names (all_loaded theories.items) }
        ensures { IfOk result (λ c. c ≡ record { texts = names; theories = all_loaded theories.items }) }
    {
        let pure = pure_stage(alloc)?;
        let names = NamesByBase::make(alloc, names)?;
        Ok(Checker {
            alloc,
            names,
            theories,
            pure,
        })
    }

    /// The session is one that was loaded.
    pub(crate) fn is_loaded_session(&self)
        ensures { IsLoadedSession self.now.texts self.now.theories }
    {
        let _ = &self.names;
    }

    /// The names by their bases.
    pub fn names(&self) -> &NamesByBase
        ensures value { result.now ≡ self.now.texts }
        ensures texts { AreSessionTexts self.now.texts }
    {
        self.names.are_session_texts();
        &self.names
    }

    /// Pure's stage, shared.
    pub(crate) fn pure(&self) -> Result<Stage, AllocError>
        ensures { IfOk result (λ stage. stage.value ≡ pure_content) }
    {
        Arc::try_clone(&self.pure)
    }

    /// The theories, in load order.
    pub(crate) fn theories(&self) -> &[Loaded]
        ensures { all_loaded result.now ≡ self.now.theories }
    {
        self.theories.as_slice()
    }

    /// The theory of the session with this index.
    pub fn theory(&self, index: u32) -> &Loaded
        requires { (theory : order.Loaded) × IsTheoryAt self.now.theories index theory }
        ensures { IsTheoryAt self.now.theories index (seen_loaded result.now) }
    {
        let theories = self.theories();
        &theories[(index - 1) as usize]
    }
}
