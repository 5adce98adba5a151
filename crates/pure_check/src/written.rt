//! What a job answers, written to the sink.
ghost use Rattle.std.specs.Prelude.{◌≡◌, ◌≢◌, ◌≤◌, None};
ghost use Rattle.pure_io.specs.Outside.{Rose};
ghost use Rattle.pure_check.specs.Answer.{OnSilent, WroteAnswer};
ghost use Rattle.pure_check.specs.Formed.{IsGiven};

use crate::answer::Answer;
use crate::ended::Ended;
use crate::status::Status;
use pure_io::{Sink, write_all};
use std::rt::Files;

/// Writes the answer's text, and tells whether it is clean.
pub(crate) fn write_answer<R: Files + Print + AllocGlobal, S: Sink>(
    rt: &R,
    answer: Answer,
    out: &mut S,
) -> Ended
    ensures usage { result.status ≢ Status.Usage }
    ensures read { result.status ≢ Status.ReadFault }
    ensures unwritten { OnSilent result.status (out.new ≡ out.old) }
    ensures ran { OnSilent result.status (result.run ≡ None) }
    ensures wrote { WroteAnswer result.status (IsGiven answer result.run) (S.written out.old) (S.written out.new) }
    ensures fault { result.status ≡ Status.WriteFault → Rose (S.faults out.old) (S.faults out.new) }
    ensures later { S.faults out.old ≤ S.faults out.new }
{
    let Answer { formed, run } = answer;
    let Ok(()) = write_all(rt, out, formed.text.bytes()) else {
        return Ended::with(Status::WriteFault, run);
    };
    if formed.clean {
        Ended::with(Status::Clean, run)
    } else {
        Ended::with(Status::Rows, run)
    }
}
