//! The words of `look_ups.rows`.
use crate::ancestors::{SETTINGS, put_theories};
use crate::kept::Kept;
use crate::look_ups::{found, local_fact, meaning_of, space_of};
use crate::names::{no_names, own_names};
use crate::notation::given;
use crate::stop::Stop;
use pure_rows::{Outcome, Row, Subject, run_rows};
use pure_theory::{Stage, Theory};
use pure_typ::NamesByBase;
use std::alloc::Global;
use std::mem;
use std::process::ExitCode;
use std::rt::Files;

/// Look-ups in Pure, with no names but its own, and in the theories of the settings.
#[derive(Drop)]
struct LookUps<'t> {
    pure: &'t Stage,
    over: &'t [Stage],
    own: &'t NamesByBase,
    names: &'t NamesByBase,
}

/// Whether the row's written name has the meaning in its field in the theory.
fn is_meant(
    alloc: Global,
    theory: &Theory,
    names: &NamesByBase,
    row: &Row,
    field: usize,
) -> Result<bool, Stop> {
    let space = space_of(row.field(1))?;
    let wanted = meaning_of(names, row.field(field))?;
    Ok(found(alloc, theory, names, space, given(row, 2))? == wanted)
}

impl LookUps<'_> {
    /// `over`: a name space, a written name, and its meanings.
    fn over_row(&self, alloc: Global, row: &Row) -> Result<Outcome, Stop> {
        for (setting, stage) in SETTINGS.iter().zip(self.over.iter()) {
            if !is_meant(alloc, &**stage, self.names, row, setting.field)? {
                return Ok(Outcome::Differs);
            }
        }
        Ok(Outcome::Holds)
    }

    /// `local`: a lemma, a written name, and its meanings in the lemma's proofs.
    fn local_row(&self, alloc: Global, row: &Row) -> Result<Outcome, Stop> {
        for (setting, stage) in SETTINGS.iter().zip(self.over.iter()) {
            let wanted = meaning_of(self.names, row.field(setting.field))?;
            if local_fact(alloc, &**stage, self.names, row.field(1), given(row, 2))? != wanted {
                return Ok(Outcome::Differs);
            }
        }
        Ok(Outcome::Holds)
    }

    /// `pure`: a name space, a written name, and its meaning.
    fn pure_row(&self, alloc: Global, row: &Row) -> Result<Outcome, Stop> {
        let holds = is_meant(alloc, &**self.pure, self.own, row, 3)?;
        Ok(Outcome::of(holds))
    }

    /// What comes of the row.
    fn outcome_of(&self, alloc: Global, row: &Row) -> Result<Outcome, Stop> {
        if row.field(0) == b"over".as_slice() && row.len() == 6 {
            return self.over_row(alloc, row);
        }
        if row.field(0) == b"local".as_slice() && row.len() == 6 {
            return self.local_row(alloc, row);
        }
        if row.field(0) == b"pure".as_slice() && row.len() == 4 {
            return self.pure_row(alloc, row);
        }
        Err(Stop::Unreadable)
    }
}

impl Subject for LookUps<'_> {
    fn outcome<R: Files + Print + AllocGlobal>(
        &self,
        _rt: &R,
        alloc: Global,
        row: &Row,
    ) -> Outcome {
        match self.outcome_of(alloc, row) {
            Ok(outcome) => outcome,
            Err(stop) => stop.outcome(),
        }
    }
}

/// Holds the rows of the file against look-ups in the theories, of which the first is Pure.
fn run_in<R: Files + Print + AllocGlobal>(
    rt: &R,
    file: &str,
    theories: &[Stage],
    own: &NamesByBase,
    names: &NamesByBase,
) -> Result<ExitCode, Stop> {
    let Some((pure, over)) = theories.split_first() else {
        return Err(Stop::Unreadable);
    };
    let look_ups = LookUps {
        pure,
        over,
        own,
        names,
    };
    Ok(run_rows(rt, file, &look_ups))
}

/// Holds the rows of the file against look-ups in the theories, with no names but Pure's and with the names of the look-ups.
fn run_with_names<R: Files + Print + AllocGlobal>(
    rt: &R,
    file: &str,
    theories: &[Stage],
) -> Result<ExitCode, Stop> {
    let own = no_names(rt.alloc());
    let names = own_names(rt.alloc());
    let code = match (&own, &names) {
        (Ok(own), Ok(names)) => run_in(rt, file, theories, own, names),
        _ => Err(Stop::Memory),
    };
    mem::forget(own);
    mem::forget(names);
    code
}

/// Makes the theories, and holds the rows of the file against look-ups in them.
fn run_over<R: Files + Print + AllocGlobal>(
    rt: &R,
    file: &str,
    kept: &mut Kept,
) -> Result<ExitCode, Stop> {
    put_theories(rt.alloc(), kept)?;
    run_with_names(rt, file, &kept.ends)
}

/// Holds the rows of the file against look-ups.
pub(crate) fn run_look_ups<R: Files + Print + AllocGlobal>(rt: &R, file: &str) -> ExitCode {
    let mut kept = Kept::empty(rt.alloc());
    let code = run_over(rt, file, &mut kept);
    mem::forget(kept);
    match code {
        Ok(code) => code,
        Err(_) => {
            let _ = println!(rt; "{file}: no theories");
            ExitCode::FAILURE
        }
    }
}
