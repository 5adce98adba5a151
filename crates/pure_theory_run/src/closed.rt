//! What a theory leaves when it closes.
ghost use Rattle.std.specs.Prelude.{◌≡◌, option_map};
ghost use Rattle.pure_theory_run.specs.Outline as spec;
ghost use Rattle.pure_theory_run.specs.Outline.{is_barred, last_of, refusal_of, command_rows};

use pure_print::Row;
use pure_session_meaning::theory::Stage;
use std::marker::Model;

/// The row by which a theory was refused, or the rows that its commands left, with a hole at each lemma and have, and its last stage.
#[derive(Drop)]
enum Ending {
    Barred { row: Row },
    Ran { rows: Vec<Option<Row>>, last: Stage },
}

/// What a theory leaves when it closes: the row by which it was refused when it began, or the rows that its commands left, with a hole at each lemma and have, and its last stage.
#[derive(Drop)]
pub struct Closed {
    ending: Ending,
}

impl Model for Closed {
    ghost use Rattle.pure_theory_run.specs.Outline as spec;
    ghost use Rattle.pure_theory_run.specs.OutlineCodes.{coded_outline};

    ghost Value = { spec.Outline };

    ghost coded = { coded_outline };

    ghost use Rattle.pure_theory_run.specs.Endings.{seen_ending};

    ghost view = { λ c. seen_ending c.ending };
}

impl Closed {
    /// What a theory leaves that was refused by this row.
    pub(crate) fn barred(row: Row) -> Closed
        ensures { result ≡ spec.Barred row }
    {
        Closed {
            ending: Ending::Barred { row },
        }
    }

    /// What a theory leaves that ran.
    pub(crate) fn ran(rows: Vec<Option<Row>>, last: Stage) -> Closed
        ensures { result ≡ spec.Ran rows.items last.value }
    {
        Closed {
            ending: Ending::Ran { rows, last },
        }
    }

    /// Whether the theory was refused when it began.
    pub(crate) fn is_barred(&self) -> bool
        ensures { result ≡ is_barred self.now }
    {
        match &self.ending {
            Ending::Barred { .. } => true,
            Ending::Ran { .. } => false,
        }
    }

    /// The row by which the theory was refused; none exactly where it ran.
    pub fn refusal(&self) -> Option<&Row>
        ensures { option_map (λ row. row.now) result ≡ refusal_of self.now }
    {
        match &self.ending {
            Ending::Barred { row } => Some(row),
            Ending::Ran { .. } => None,
        }
    }

    /// The rows of its commands, with a hole at each lemma and have; a theory that was refused has none.
    pub fn rows(&self) -> &[Option<Row>]
        ensures { result.now ≡ command_rows self.now }
    {
        match &self.ending {
            Ending::Barred { .. } => &[],
            Ending::Ran { rows, .. } => rows.as_slice(),
        }
    }

    /// The last stage; none exactly where the theory was refused.
    pub fn last(&self) -> Option<&Stage>
        ensures { option_map (λ stage. stage.now.value) result ≡ last_of self.now }
    {
        match &self.ending {
            Ending::Barred { .. } => None,
            Ending::Ran { last, .. } => Some(last),
        }
    }
}
