//! What the words ask for, done, and its answer written to the sink.
ghost use Rattle.std.specs.Prelude.{◌≡◌, ◌≢◌, ◌≤◌, Err, false, None};
ghost use Rattle.pure_io.specs.Outside.{Rose};
ghost use Rattle.pure_check.specs.Asked.{IsLooking, IsMeantBy, IsTaken};
ghost use Rattle.pure_check.specs.Answer.{WroteAnswer, IsUntaken, IsComplete, OnSilent};
ghost use Rattle.pure_check.specs.Formed.{IsDone};
ghost use Rattle.pure_check.specs.JobAnswers.{IsAnswer, IsInRange, is_looking_job};

use crate::answer::Answer;
use crate::axioms::check_axioms;
use crate::checked::check;
use crate::ended::Ended;
use crate::found::found;
use crate::generated::check_generated;
use crate::graphed::check_graph;
use crate::laws::job_in_range;
use crate::placed::check_placed;
use crate::replayed::replayed;
use crate::shown::shown;
use crate::status::Status;
use crate::tried::tried;
use crate::written::write_answer;
use pure_graph::LoadFault;
use pure_io::{Gate, Library, Sink};
use pure_text::Text;
use pure_words::{Job, WordsFault, read_words};
use std::alloc::Global;
use std::rt::Files;
use std::sync::Wait;
use std::thread::Threads;

/// Does the job. It may wait for ever.
fn done<R: Files + Print + AllocGlobal + Threads + Wait + Sync, L: Library, G: Gate>(
    rt: &R,
    alloc: Global,
    job: &Job,
    library: &mut L,
    gate: &G,
) -> Result<Answer, LoadFault>
    requires { IsInRange job.now }
    ensures ok { IsDone job.now (L.files library.old) result }
    ensures unlooked { is_looking_job job.now ≡ false → library.new ≡ library.old }
    ensures unread { is_looking_job job.now ≡ false → result ≢ Err LoadFault.ReadFault }
    ensures read_fault { result ≡ Err LoadFault.ReadFault → Rose (L.faults library.old) (L.faults library.new) }
    ensures files { L.files library.new ≡ L.files library.old }
    ensures later { L.faults library.old ≤ L.faults library.new }
{
    match job {
        Job::Check {
            workers,
            fail_fast,
            cancels,
        } => check(rt, alloc, *workers, *fail_fast, cancels, library, gate),
        Job::Generate {
            workers,
            start,
            theories,
            lemmas,
        } => check_generated(rt, alloc, *workers, *start, *theories, *lemmas, gate),
        Job::Places { workers } => check_placed(rt, alloc, *workers, library, gate),
        Job::Axioms { workers, name } => check_axioms(rt, alloc, *workers, name, library, gate),
        Job::Graph { workers } => check_graph(rt, alloc, *workers, library, gate),
        Job::Show { name } => shown(rt, alloc, name, library),
        Job::Replay { name } => replayed(rt, alloc, name, library),
        Job::Find { name } => found(rt, alloc, name, library),
        Job::Try { workers, name } => tried(rt, alloc, *workers, name, library),
    }
}

/// Does the job, and writes its answer. It may wait for ever.
fn ended<R: Files + Print + AllocGlobal + Threads + Wait + Sync, L: Library, S: Sink, G: Gate>(
    rt: &R,
    alloc: Global,
    job: &Job,
    library: &mut L,
    out: &mut S,
    gate: &G,
) -> Ended
    requires { IsInRange job.now }
    ensures usage { result.status ≢ Status.Usage }
    ensures unlooked { is_looking_job job.now ≡ false → library.new ≡ library.old }
    ensures unread { is_looking_job job.now ≡ false → result.status ≢ Status.ReadFault }
    ensures unwritten { OnSilent result.status (out.new ≡ out.old) }
    ensures wrote { WroteAnswer result.status (IsAnswer job.now (L.files library.old) result.run) (S.written out.old) (S.written out.new) }
    ensures ran { OnSilent result.status (result.run ≡ None) }
    ensures read_fault { result.status ≡ Status.ReadFault → Rose (L.faults library.old) (L.faults library.new) }
    ensures write_fault { result.status ≡ Status.WriteFault → Rose (S.faults out.old) (S.faults out.new) }
    ensures files { L.files library.new ≡ L.files library.old }
    ensures later_library { L.faults library.old ≤ L.faults library.new }
    ensures later_out { S.faults out.old ≤ S.faults out.new }
{
    match done(rt, alloc, job, library, gate) {
        Ok(answer) => write_answer(rt, answer, out),
        Err(LoadFault::ReadFault) => Ended::early(Status::ReadFault),
        Err(LoadFault::Memory) => Ended::early(Status::Memory),
    }
}

/// Reads the words, does the job that they ask for, and writes its answer: of a check the table of the library's theories,
/// which as many workers as the words ask for have checked on a board (the manual of Isabelle/Isar's implementation, chapter
/// 2; Wenzel, Parallel Proof Checking in Isabelle/Isar, 2009), of places the same with each row behind the place at which its
/// command stands, and of a generated library the last line of its table. The gate is entered before each proof and left after
/// its outcome was delivered. The call may wait for ever.
///
/// Which status comes when, and what was written with it, the clauses say; want of memory alone is free.
/// The text is whole before its first byte is written, and writing it takes no memory.
pub fn pure<R: Files + Print + AllocGlobal + Threads + Wait + Sync, L: Library, S: Sink, G: Gate>(
    rt: &R,
    alloc: Global,
    words: &[Text],
    library: &mut L,
    out: &mut S,
    gate: &G,
) -> Ended
    // Usage never comes where the words ask for a job; where they don't, it comes unless memory ran out.
    ensures usage { IsTaken words.now → result.status ≢ Status.Usage }
    ensures untaken { ¬ IsTaken words.now → IsUntaken result.status }

    // Where they ask for no job that has the library looked at, it isn't, and no fault of reading comes.
    ensures unlooked { ¬ IsLooking words.now → library.new ≡ library.old }
    ensures unread { ¬ IsLooking words.now → result.status ≢ Status.ReadFault }

    // With Clean and Rows the whole text was written that the job answers of the files of which it speaks, and Clean says
    // that this is clean: of a check and of a generated library the text of a table, in which each proved row is a theorem and
    // each lemma is cancelled as the words ask, clean where every row is declared or proved. With WriteFault a proper part of
    // such a text was written, from its beginning; else nothing, and the sink wasn't touched.
    ensures unwritten { OnSilent result.status (out.new ≡ out.old) }
    ensures wrote { WroteAnswer result.status (IsMeantBy words.now (L.files library.old) result.run) (S.written out.old) (S.written out.new) }

    // With these three statuses the job's answer says which board is handed out, if one is: of a check and of a generated
    // library the one on which the session was checked. With the others none is.
    ensures ran { OnSilent result.status (result.run ≡ None) }

    // A fault comes only where the count of faults rose in this call.
    ensures read_fault { result.status ≡ Status.ReadFault → Rose (L.faults library.old) (L.faults library.new) }
    ensures write_fault { result.status ≡ Status.WriteFault → Rose (S.faults out.old) (S.faults out.new) }

    // Where a job is asked for and no count rose, the work was done to its end, or memory ran out; of the library that is
    // asked alone where the job has it looked at.
    ensures complete { IsTaken words.now → (IsLooking words.now → ¬ Rose (L.faults library.old) (L.faults library.new))
        → ¬ Rose (S.faults out.old) (S.faults out.new) → IsComplete result.status }

    ensures files { L.files library.new ≡ L.files library.old }
    ensures later_library { L.faults library.old ≤ L.faults library.new }
    ensures later_out { S.faults out.old ≤ S.faults out.new }
{
    job_in_range();
    match read_words(alloc, words) {
        Ok(job) => ended(rt, alloc, &job, library, out, gate),
        Err(WordsFault::Usage) => Ended::early(Status::Usage),
        Err(WordsFault::Memory) => Ended::early(Status::Memory),
    }
}
