//! A session to be checked by the core.
ghost use Rattle.std.specs.Prelude.{◌≡◌, IfOk};
ghost use Rattle.pure_typ.specs.NameTexts.{AreSessionTexts};
ghost use Rattle.pure_session.specs.Waiting.{all_loaded};
ghost use Rattle.pure_table.specs.SessionLaws.Loaded.{IsLoadedSession};
ghost use Rattle.pure_check_work.specs.Relations.{shape_of};

use crate::shape::{copied, shape};
use pure_core::Node;
use pure_session::Loaded;
use pure_table::theory_run::Checker;
use pure_typ::{Names, NamesByBase};
use std::alloc::{AllocError, Global};
use std::marker::Model;

/// A loaded session as the work of a core: what runs its theories, and its shape.
#[derive(Drop)]
pub struct Checking {
    pub(crate) alloc: Global,
    checker: Checker,
    shape: Vec<Node>,
}

impl Model for Checking {
    ghost use Rattle.std.specs.Prelude.{◌≡◌};
    ghost use Rattle.pure_table.specs.TheoryRun.Checked.{Checked};
    ghost use Rattle.pure_table.specs.TheoryRun.CheckedCodes.{coded_checked};
    ghost use Rattle.pure_table.specs.SessionLaws.Loaded.{IsLoadedSession};
    ghost use Rattle.pure_check_work.specs.Relations.{shape_of};

    ghost Value = { Checked };

    ghost coded = { coded_checked };

    ghost view = { λ c. c.checker };

    ghost invariant = { λ c. IsLoadedSession c.checker.texts c.checker.theories × (c.shape.items ≡ shape_of c.checker.theories) };
}

impl Checking {
    /// The session with these names and these theories, which are in load order.
    ///
    /// # Errors
    ///
    /// Want of memory alone.
    pub fn make(alloc: Global, names: Names, theories: Vec<Loaded>) -> Result<Checking, AllocError>
        requires { IsLoadedSession names (all_loaded theories.items) }
        ensures { IfOk result (λ c. c ≡ record { texts = names; theories = all_loaded theories.items }) }
    {
        let shape = shape(alloc, theories.as_slice())?;
        let checker = Checker::make(alloc, names, theories)?;
        Ok(Checking {
            alloc,
            checker,
            shape,
        })
    }

    /// The session is one that was loaded.
    pub fn is_loaded_session(&self)
        ensures { IsLoadedSession self.now.texts self.now.theories }
    {
        let _ = &self.checker;
    }

    /// What runs its theories.
    pub(crate) fn checker(&self) -> &Checker
        ensures { result.now ≡ self.now }
    {
        &self.checker
    }

    /// The names by their bases.
    pub fn names(&self) -> &NamesByBase
        ensures value { result.now ≡ self.now.texts }
        ensures texts { AreSessionTexts self.now.texts }
    {
        self.checker.names()
    }

    /// Its shape.
    pub(crate) fn nodes(&self) -> Result<Vec<Node>, AllocError>
        ensures { IfOk result (λ shape. shape.items ≡ shape_of self.now.theories) }
    {
        copied(self.alloc, self.shape.as_slice())
    }
}
