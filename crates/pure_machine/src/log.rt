//! The history of a machine, with room for a stop by each worker.
ghost use Rattle.std.specs.Prelude.{◌≡◌, ◌<◌, [], false, IfOk, MatchResult};
ghost use Rattle.pure_machine.specs.State.{Stop};
ghost use Rattle.pure_machine.specs.Step.{stops};
ghost use Rattle.pure_machine.specs.Seen.{seen_event};
ghost use Rattle.pure_machine.specs.Parts.{entered, is_stop};

use crate::parts::{Entry, Event};
use std::alloc::{AllocError, Global};
use std::marker::Model;

/// What happened, in order, with room for a stop by each worker that hasn't stopped the work yet.
#[derive(Drop)]
pub(crate) struct Log<G, C, O> {
    entries: Vec<Entry<G, C, O>>,
    workers: u32,
    stopped: u32,
}

impl<G, C, O> Model for Log<G, C, O> {
    ghost use Rattle.std.specs.Prelude.{◌≡◌, ◌≤◌, ◌+◌, vec_len, vec_capacity};
    ghost use Rattle.pure_machine.specs.Parts.{Logged};
    ghost use Rattle.pure_machine.specs.Step.{stops};

    ghost Value = { Logged G C O };

    ghost view = { λ l. record { workers = l.workers; events = l.entries.items } };

    ghost invariant = { λ l. (l.stopped ≡ stops l.entries.items) × (l.stopped ≤ l.workers)
        × (vec_len l.entries + l.workers ≤ vec_capacity l.entries + l.stopped) };
}

impl<G: Drop, C: Drop, O: Drop> Log<G, C, O> {
    /// The empty history, with room for each worker's stop.
    pub fn open(alloc: Global, workers: u32) -> Result<Log<G, C, O>, AllocError>
        ensures { IfOk result (λ l. l ≡ record { workers = workers; events = [] }) }
    {
        let entries = Vec::with_capacity(alloc, workers as usize)?;
        Ok(Log {
            entries,
            workers,
            stopped: 0,
        })
    }

    /// Enters an event that is no stop.
    pub fn enter(&mut self, event: Event<G, C, O>) -> Result<(), AllocError>
        requires { is_stop (seen_event event) ≡ false }
        ensures { MatchResult result (λ _. self.new ≡ entered self.old (seen_event event)) (λ _. self.new ≡ self.old) }
    {
        let room = (self.workers - self.stopped) as usize + 1;
        self.entries.reserve(room)?;
        self.entries.push_reserved(Entry { event });
        Ok(())
    }

    /// Enters a stop, which takes no memory.
    pub fn stop(&mut self)
        requires { stops self.old.events < self.old.workers }
        ensures { self.new ≡ entered self.old Stop }
    {
        self.stopped += 1;
        self.entries.push_reserved(Entry { event: Event::Stop });
    }
}
