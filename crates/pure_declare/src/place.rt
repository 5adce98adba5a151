//! What stands around a command.
ghost use Rattle.std.specs.Prelude.{◌≡◌, ◌<◌, length};
ghost use Rattle.pure_lookup.specs.Laws.{IsInSession};
ghost use Rattle.pure_theory.specs.Refusals.{IsLabelAbove};
ghost use Rattle.pure_theory.specs.Stage.{IsSound};
ghost use Rattle.pure_declare.specs.Fold.{part_label};
ghost use Rattle.pure_declare.specs.Premises.{IsGiven};

use crate::language::NamedTheory;
use pure_theory::{Stage, Theory};
use pure_typ::{Label, Names, NamesByBase};
use std::marker::Model;

/// What stands around a command: the stage before it, the names of the session, the file's bytes, the text of the theory's name, and the command's label.
#[derive(Drop)]
pub(crate) struct Place<'t> {
    stage: &'t Stage,
    names: &'t NamesByBase,
    source: &'t [u8],
    text: &'t [u8],
    label: Label,
}

impl<'t> Model for Place<'t> {
    ghost use Rattle.pure_declare.specs.Codes.{coded_place};
    ghost use Rattle.pure_declare.specs.Commands as spec;
    ghost use Rattle.pure_declare.specs.Premises.{IsGiven};

    ghost Value = { spec.Place };

    ghost coded = { coded_place };

    ghost view = { λ p. record { texts = p.names.now; source = p.source.now; label = p.label; theory = p.text.now; content = p.stage.now.value } };

    ghost invariant = { λ p. IsGiven p.names.now p.source.now p.stage.now.value p.label };
}

impl<'t> Place<'t> {
    /// A command's place.
    pub(crate) fn make(
        stage: &'t Stage,
        names: &'t NamesByBase,
        source: &'t [u8],
        text: &'t [u8],
        label: Label,
    ) -> Place<'t>
        requires { IsGiven names.now source.now stage.now.value label }
        ensures { result ≡ record { texts = names.now; source = source.now; label = label; theory = text.now; content = stage.now.value } }
    {
        Place {
            stage,
            names,
            source,
            text,
            label,
        }
    }

    /// The label of the command's part at this place.
    pub(crate) fn part_label(&self, part: u32) -> Label
        ensures { result ≡ part_label self.now.label part }
    {
        Label {
            theory: self.label.theory,
            command: self.label.command,
            part,
        }
    }

    /// The place of a later part of the command, with this label and over this stage.
    pub(crate) fn later<'s>(&'s self, stage: &'s Stage, label: Label) -> Place<'s>
        requires { IsGiven self.now.texts self.now.source stage.now.value label }
        ensures { result ≡ record { texts = self.now.texts; source = self.now.source; label = label; theory = self.now.theory; content = stage.now.value } }
    {
        Place {
            stage,
            names: self.names,
            source: self.source,
            text: self.text,
            label,
        }
    }

    /// The stage.
    pub(crate) fn stage(&self) -> &Stage
        ensures { result.now.value ≡ self.now.content }
    {
        self.stage
    }

    /// The theory of the stage.
    pub(crate) fn theory(&self) -> &Theory
        ensures value { result.now ≡ self.now.content }
        ensures sound { IsSound self.now.content }
    {
        let theory = &**self.stage;
        theory.content_is_sound();
        theory
    }

    /// The vocabulary in which texts are elaborated.
    pub(crate) fn language(&self) -> NamedTheory<'_>
        ensures { result ≡ record { texts = self.now.texts; content = self.now.content } }
    {
        NamedTheory::make(&**self.stage, self.names)
    }

    /// The session's names.
    pub(crate) fn names(&self) -> &Names
        ensures { result.now ≡ self.now.texts }
    {
        self.names.names()
    }

    /// The file's bytes.
    pub(crate) fn source(&self) -> &[u8]
        ensures value { result.now ≡ self.now.source }
        ensures small { length self.now.source < 4294967295 }
    {
        self.source
    }

    /// The text of the theory's name.
    pub(crate) fn text(&self) -> &[u8]
        ensures { result.now ≡ self.now.theory }
    {
        self.text
    }

    /// The command's label.
    pub(crate) fn label(&self) -> Label
        ensures value { result ≡ self.now.label }
        ensures above { IsLabelAbove self.now.content.declarations self.now.label }
    {
        self.label
    }

    /// The names and the stage are those of a session.
    pub(crate) fn is_in_session(&self)
        ensures { IsInSession self.now.texts self.now.content }
    {
        let _ = &self.names;
    }

    /// What stands around the command is given as a call that declares asks.
    pub(crate) fn is_given(&self)
        ensures { IsGiven self.now.texts self.now.source self.now.content self.now.label }
    {
        let _ = &self.names;
    }
}
