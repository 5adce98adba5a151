//! The program: the theories of the current directory are checked, and the table goes to standard output.
#![tactic(auto)]

ghost use Rattle.std.specs.Prelude.{◌≡◌, ◌≢◌, ◌≤◌, IfOk, IfErr, option_copied};
ghost use Rattle.std.specs.IoError.{error_kind};
ghost use Rattle.std.specs.Process.{exit_status};
ghost use Rattle.pure_io.specs.Outside.{Rose};
ghost use Rattle.pure_check.specs.Asked.{IsLooking, IsTaken};
ghost use Rattle.pure_check.specs.Answer.{IsUntaken, IsComplete, OnSilent, exit_number};
ghost use Rattle.pure_app.specs.Exit.{IsEnd};
ghost use Rattle.pure_app.specs.Written.{IsWritten};
ghost use Rattle.pure_app.specs.Message.{message_text};
ghost use Rattle.pure_app.specs.Words.{words_given, unread_status};

use pure_check::{Ended, Status, pure};
use pure_io::{DirLibrary, Library, OpenGate, Sink, StdSink};
use pure_text::Text;
use pure_threads::run_beside;
use std::alloc::{AllocError, Global};
use std::env::Args;
use std::io::Eprint;
use std::process::ExitCode;
use std::rt::Files;
use std::sync::Wait;
use std::thread::{Promise, Threads};
use std::{env, io, mem};

/// The status where the system didn't give the words: want of memory, or a word that isn't UTF-8.
fn unread(error: &io::Error) -> Status
    ensures { result ≡ unread_status (error_kind error.now) }
{
    match error.kind() {
        io::ErrorKind::OutOfMemory => Status::Memory,
        _ => Status::Usage,
    }
}

/// The words behind the program's name, all of them and in their order.
fn words_of(alloc: Global, args: Args) -> Result<Vec<Text>, AllocError>
    ensures { IfOk result (λ words. words.items ≡ words_given args) }
{
    let mut words = Vec::new(alloc);
    let mut rest = args;
    let _program = rest.next();
    for arg in rest {
        words.push(Text::make(alloc, arg.as_bytes())?)?;
    }
    Ok(words)
}

/// What the program does with the arguments that the system gave, a library and a sink: `pure` on all words
/// behind the program's name. Beside what `pure` says, the status is `Memory` where these words found no
/// memory, and where the system gave no arguments it is `unread_status`, with nothing looked at or written.
fn run<R: Files + Print + AllocGlobal + Threads + Wait + Sync, L: Library, S: Sink>(
    rt: &R,
    args: io::Result<Args>,
    library: &mut L,
    out: &mut S,
) -> Status
    ensures unread { IfErr args (λ error. result ≡ unread_status (error_kind error)) }
    ensures usage { IfOk args (λ given. IsTaken (words_given given) → result ≢ Status.Usage) }
    ensures untaken { IfOk args (λ given. ¬ IsTaken (words_given given) → IsUntaken result) }
    ensures unlooked { result ≡ Status.Usage → library.new ≡ library.old }
    ensures unchecked { IfOk args (λ given. ¬ IsLooking (words_given given) → (library.new ≡ library.old) × (result ≢ Status.ReadFault)) }
    ensures unwritten { OnSilent result (out.new ≡ out.old) }
    ensures wrote { IfOk args (λ given. IsWritten result (L.files library.old) (words_given given) (S.written out.old) (S.written out.new)) }
    ensures read_fault { result ≡ Status.ReadFault → Rose (L.faults library.old) (L.faults library.new) }
    ensures write_fault { result ≡ Status.WriteFault → Rose (S.faults out.old) (S.faults out.new) }
    ensures complete { IfOk args (λ given. IsTaken (words_given given)
        → (IsLooking (words_given given) → ¬ Rose (L.faults library.old) (L.faults library.new))
        → ¬ Rose (S.faults out.old) (S.faults out.new) → IsComplete result) }
{
    let args = match args {
        Ok(args) => args,
        Err(error) => return unread(&error),
    };
    let Ok(words) = words_of(rt.alloc(), args) else {
        return Status::Memory;
    };
    let ended = pure(rt, rt.alloc(), &words, library, out, &OpenGate::make());
    let Ended { status, run } = ended;
    // What the process gives back anyway isn't walked.
    mem::forget(run);
    status
}

/// The line on standard error, for the statuses that have one.
fn message(status: Status) -> Option<&'static str>
    ensures { option_copied result ≡ message_text status }
{
    match status {
        Status::Clean | Status::Rows => None,
        Status::Usage => Some("usage"),
        Status::ReadFault => Some("read fault"),
        Status::WriteFault => Some("write fault"),
        Status::Memory => Some("out of memory"),
    }
}

/// Writes the status's line to standard error, and hands out its number as the exit status. Where standard
/// error can't be written to, that number still tells.
fn report<R: Eprint>(rt: &R, status: Status) -> ExitCode
    ensures { exit_status result ≡ exit_number status }
{
    if let Some(line) = message(status) {
        let _ = eprintln!(rt; "{line}");
    }
    ExitCode::from(status.number())
}

/// The program on the arguments that the system gave, a library and a sink: all words behind the program's name are handed
/// to `pure`, and the status that it answers is the exit status and the one that the line on standard error tells.
fn program<R: Files + Print + Eprint + AllocGlobal + Threads + Wait + Sync, L: Library, S: Sink>(
    rt: &R,
    args: io::Result<Args>,
    library: &mut L,
    out: &mut S,
) -> ExitCode
    ensures unread { IfErr args (λ error. exit_status result ≡ exit_number (unread_status (error_kind error))) }
    ensures ends { IfOk args (λ given. IsEnd L.files L.faults S.written S.faults (words_given given) library.old library.new out.old out.new (exit_status result)) }
{
    let status = run(rt, args, library, out);
    report(rt, status)
}

/// The bytes of the stack on which the program runs: what loading, forming and printing the deepest legal theories need several
/// times over, whatever the shell's limit says.
const STACK: usize = 64 << 20;

/// That the program ends: of its exit nothing is promised to `main`, which has no clause.
#[derive(Drop)]
struct Ending;

impl Promise<ExitCode> for Ending {
    ghost kept_by = { λ _ _. Unit {0} };
}

fn main(rt: HostRuntime) -> ExitCode {
    let whole = || -> ExitCode {
        let mut library = DirLibrary::make();
        let mut out = StdSink::make();
        program(&rt, env::args(&rt), &mut library, &mut out)
    };
    let (code, ()) = run_beside(&rt, STACK, Ending, whole, || ());
    code
}
