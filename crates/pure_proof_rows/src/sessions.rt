//! A theory that is loaded, and the lemmas that it binds.
ghost use Rattle.std.specs.Prelude.{IfOk, IfSome};
ghost use Rattle.pure_session.specs.Waiting.{all_loaded};
ghost use Rattle.pure_theory_run.specs.SessionLaws.Loaded.{IsLoadedSession};

use crate::proofs::{FILE, run_duties};
use pure_io::{File, MemLibrary};
use pure_rows::read_file;
use pure_session::{Session, load};
use pure_text::Text;
use pure_theory_run::Checker;
use std::alloc::{AllocError, Global};
use std::mem;
use std::process::ExitCode;
use std::rt::Files;
use std::thread::Threads;

/// The library of a theory A alone.
fn library_of(alloc: Global, text: &[u8]) -> Result<MemLibrary, AllocError> {
    let name = Text::make(alloc, b"A.thy")?;
    let text = Text::make(alloc, text)?;
    let mut files = Vec::new(alloc);
    files.push(File { name, text })?;
    Ok(MemLibrary::make(files, Vec::new(alloc)))
}

/// What runs the theories of the session.
fn checking(alloc: Global, session: Session) -> Result<Checker, AllocError>
    requires { IsLoadedSession session.names (all_loaded session.theories.items) }
    ensures { IfOk result (λ c. IsLoadedSession c.texts c.theories) }
{
    let Session {
        names,
        theories,
        ..
    } = session;
    let checker = Checker::make(alloc, names, theories)?;
    Ok(checker)
}

/// What runs the theories of the library, if they are loaded.
fn loaded<R: Files + Print + AllocGlobal + Threads + Sync>(
    rt: &R,
    alloc: Global,
    library: &mut MemLibrary,
) -> Option<Checker>
    ensures { IfSome result (λ c. IsLoadedSession c.texts c.theories) }
{
    match load(rt, alloc, library, rt, 1) {
        Ok(session) => {
            session.names.are_session_texts();
            checking(alloc, session).ok()
        }
        Err(_) => None,
    }
}

/// Holds each row against the lemmas of the session. What was said of them isn't let go, since to prove that anew takes minutes.
fn run_session<R: Files + Print + AllocGlobal>(rt: &R, checker: &Checker, rows: &[u8]) -> ExitCode
    requires { IsLoadedSession checker.now.texts checker.now.theories }
{
    match checker.statements() {
        Ok(said) => {
            let status = run_duties(rt, checker.names(), &said.duties, rows);
            mem::forget(said);
            status
        }
        Err(_) => ExitCode::FAILURE,
    }
}

/// Holds each row against the lemmas of the library's theories.
fn run_library<R: Files + Print + AllocGlobal + Threads + Sync>(
    rt: &R,
    library: &mut MemLibrary,
    rows: &[u8],
) -> ExitCode {
    match loaded(rt, rt.alloc(), library) {
        Some(checker) => {
            let status = run_session(rt, &checker, rows);
            mem::forget(checker);
            status
        }
        None => ExitCode::FAILURE,
    }
}

/// Holds each row against the lemmas of the theory.
fn run_theory<R: Files + Print + AllocGlobal + Threads + Sync>(
    rt: &R,
    theory: &[u8],
    rows: &[u8],
) -> ExitCode {
    match library_of(rt.alloc(), theory) {
        Ok(mut library) => run_library(rt, &mut library, rows),
        Err(_) => ExitCode::FAILURE,
    }
}

/// Holds each row against the proofs of the theory A.
pub(crate) fn run_proofs<R: Files + Print + AllocGlobal + Threads + Sync>(rt: &R) -> ExitCode {
    let Some(theory) = read_file(rt, "A.thy") else {
        return ExitCode::FAILURE;
    };
    match read_file(rt, FILE) {
        Some(rows) => run_theory(rt, &theory, &rows),
        None => ExitCode::FAILURE,
    }
}
