//! Steps up to an answer.
ghost use Rattle.std.specs.Prelude.{◌≡◌, ◌+◌, ◌<◌, ◌^◌, [], reverse};
ghost use Rattle.pure_pattern_laws.specs.Steps.{start};
ghost use Rattle.pure_pattern.specs.Held.{seen};
ghost use Rattle.pure_pattern.specs.Followed.{IsFollowed, IsDecided};

use crate::fault::PatternFault;
use crate::state::{Held, take_first};
use crate::step::{discard, step};
use pure_term::TermBind;
use pure_theorem::Pair;
use std::alloc::Global;

/// How many steps there may be.
const MAX_STEPS: u32 = 10_000;

/// The state before any step.
fn begin(alloc: Global, pairs: Vec<Pair>) -> Held
    ensures { seen result ≡ start (reverse pairs.items) }
{
    Held {
        pairs,
        binds: Vec::new(alloc),
    }
}

/// What steps come to from these pairs, the first of which is the last: the entries of indexes up to `maxidx`.
pub(crate) fn run(
    alloc: Global,
    maxidx: u32,
    pairs: Vec<Pair>,
) -> Result<Vec<TermBind>, PatternFault>
    requires room { maxidx + 10001 < 2 ^ 32 }
    requires known { IsFollowed maxidx 0 (start (reverse pairs.items)) (reverse pairs.items) [] }
    ensures { IsDecided maxidx (start (reverse pairs.items)) result }
{
    let mut held = begin(alloc, pairs);
    for done in 0..MAX_STEPS {
        let Some(first) = take_first(&mut held) else {
            return Ok(held.binds);
        };
        match step(alloc, maxidx, done, first, held) {
            Ok(next) => held = next,
            Err(fault) => return Err(fault),
        }
    }
    match take_first(&mut held) {
        None => Ok(held.binds),
        Some(first) => {
            discard(first);
            Err(PatternFault::Steps)
        }
    }
}
