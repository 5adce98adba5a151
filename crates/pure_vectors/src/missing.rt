//! A library that lists files, and doesn't find them.
use crate::texts::text_of;
use crate::wanted::{Wanted, Written, is_shown};
use crate::words::status_named;
use crate::world::{World, call};
use pure_io::{LibFault, Library, OpenGate, ReadFault};
use pure_rows::{Fault, Row};
use pure_text::Text;
use std::alloc::{AllocError, Global};
use std::rt::Files;
use std::sync::Wait;
use std::thread::Threads;

/// A library that tells nothing, lists these files, and finds none.
#[derive(Drop)]
struct Dangling<'n> {
    names: &'n [Vec<u8>],
}

impl Library for Dangling<'_> {
    ghost use Rattle.std.specs.Prelude.{None};

    ghost files = { λ _. None };

    ghost faults = { λ _. 0 };

    fn names<R: Files + Print + AllocGlobal>(
        &mut self,
        _rt: &R,
        alloc: Global,
    ) -> Result<Vec<Text>, LibFault> {
        match listed(alloc, self.names) {
            Ok(names) => Ok(names),
            Err(_) => Err(LibFault::Memory),
        }
    }

    fn read<R: Files + Print + AllocGlobal>(
        &mut self,
        _rt: &R,
        _alloc: Global,
        _name: &Text,
        _limit: u32,
    ) -> Result<Text, ReadFault> {
        Err(ReadFault::Missing)
    }
}

/// Adds a name.
fn push_name(alloc: Global, names: &mut Vec<Text>, name: &[u8]) -> Result<(), AllocError> {
    names.push(Text::make(alloc, name)?)?;
    Ok(())
}

/// The names as texts.
fn listed(alloc: Global, names: &[Vec<u8>]) -> Result<Vec<Text>, AllocError> {
    let mut texts = Vec::new(alloc);
    for name in names {
        push_name(alloc, &mut texts, name)?;
    }
    Ok(texts)
}

/// Whether a run with the words of the line answers what is wanted where the library is this one.
fn answers<R: Files + Print + AllocGlobal + Threads + Wait + Sync>(
    rt: &R,
    alloc: Global,
    library: &mut Dangling,
    line: &[u8],
    wanted: Wanted,
) -> Result<bool, AllocError> {
    let world = World::of_files(&[]);
    let got = call(rt, alloc, world, line, library, &OpenGate::make())?;
    Ok(is_shown(rt, wanted, &got))
}

/// Whether the row `misses WORDS STATUS TEXT NAME ..` holds.
pub(crate) fn misses<R: Files + Print + AllocGlobal + Threads + Wait + Sync>(
    rt: &R,
    alloc: Global,
    row: &Row,
) -> Result<bool, Fault> {
    let [_, line, status, text, ..] = row.fields_from(0) else {
        return Err(Fault::Unreadable);
    };
    let status = status_named(status)?;
    let text = text_of(alloc, text)?;
    let wanted = Wanted {
        status,
        written: Written::Whole(&text),
    };
    let mut library = Dangling {
        names: row.fields_from(4),
    };
    Ok(answers(rt, alloc, &mut library, line, wanted)?)
}
