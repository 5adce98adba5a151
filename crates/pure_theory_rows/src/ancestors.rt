//! The theories of the look-ups: theories over two ancestors that declare the same bases, whichever of these is last in load
//! order. Names are those of `names.rt`.
use crate::kept::{Kept, keep, last, last_stage, put};
use crate::look_ups::Space;
use crate::notation::{declare_axiom, declare_const, pure};
use crate::promises::promised;
use crate::sessions::begun;
use crate::stop::Stop;
use pure_term::Name;
use pure_theory::{DeclFault, Stage, Theory};
use std::alloc::Global;
use std::mem;
use std::sync::Arc;

/// The name spaces, in the order in which a name is declared in each.
const SPACES: [Space; 4] = [Space::Classes, Space::Typs, Space::Consts, Space::Facts];

/// Whether A comes behind B in load order, whether B comes first among the parents, whether the theory itself declares `x`,
/// and the field of a row in which its meaning stands.
#[derive(Clone, Copy)]
pub(crate) struct Setting {
    later: bool,
    swapped: bool,
    own: bool,
    pub(crate) field: usize,
}

/// The theories of the look-ups.
pub(crate) static SETTINGS: [Setting; 5] = [
    Setting {
        later: false,
        swapped: false,
        own: false,
        field: 3,
    },
    Setting {
        later: false,
        swapped: true,
        own: false,
        field: 3,
    },
    Setting {
        later: true,
        swapped: false,
        own: false,
        field: 4,
    },
    Setting {
        later: true,
        swapped: true,
        own: false,
        field: 4,
    },
    Setting {
        later: false,
        swapped: false,
        own: true,
        field: 5,
    },
];

/// Declares the name in the name space.
fn declare_in(
    alloc: Global,
    theory: &Theory,
    space: Space,
    name: Name,
) -> Result<Theory, DeclFault> {
    match space {
        Space::Classes => theory.declare_class(name, &[]),
        Space::Typs => theory.declare_typ(name, 0),
        Space::Consts => declare_const(alloc, theory, name),
        Space::Facts => declare_axiom(alloc, theory, name),
    }
}

/// Declares the name in each of the name spaces.
fn put_name(alloc: Global, stages: &mut Vec<Stage>, name: Name) -> Result<(), Stop> {
    for space in SPACES {
        let made = declare_in(alloc, last(stages)?, space, name);
        keep(alloc, stages, made.map_err(Stop::of))?;
    }
    Ok(())
}

/// Declares the names in each of the name spaces.
fn put_names(alloc: Global, stages: &mut Vec<Stage>, names: &[u32]) -> Result<(), Stop> {
    for number in names {
        put_name(alloc, stages, Name(*number))?;
    }
    Ok(())
}

/// The last of the stages alone.
fn tail(stages: &[Stage]) -> &[Stage] {
    &stages[stages.len().saturating_sub(1)..]
}

/// Puts the theory that begins over the last one, and those that declare the names, behind it.
fn put_theory(
    alloc: Global,
    stages: &mut Vec<Stage>,
    index: u32,
    name: Name,
    names: &[u32],
) -> Result<(), Stop> {
    let first = begun(alloc, index, name, tail(stages));
    keep(alloc, stages, first)?;
    put_names(alloc, stages, names)
}

/// Puts the last stage behind the parents.
fn put_parent(stages: &[Stage], parents: &mut Vec<Stage>) -> Result<(), Stop> {
    put(parents, Arc::try_clone(last_stage(stages)?))
}

/// Puts the theory A with this index, over Pure with the promise `A.p`, behind the parents.
fn put_a(
    alloc: Global,
    stages: &mut Vec<Stage>,
    parents: &mut Vec<Stage>,
    index: u32,
) -> Result<(), Stop> {
    keep(alloc, stages, promised(alloc, Name(9)))?;
    put_theory(alloc, stages, index, Name(6), &[7, 8, 10, 11, 12])?;
    put_parent(stages, parents)
}

/// Puts the theory B with this index behind the parents.
fn put_b(
    alloc: Global,
    stages: &mut Vec<Stage>,
    parents: &mut Vec<Stage>,
    index: u32,
) -> Result<(), Stop> {
    keep(alloc, stages, pure(alloc))?;
    put_theory(alloc, stages, index, Name(13), &[14, 15, 16])?;
    put_parent(stages, parents)
}

/// The theory C over the two, of which A has this index and B the other.
fn over(
    alloc: Global,
    stages: &mut Vec<Stage>,
    parents: &mut Vec<Stage>,
    setting: Setting,
) -> Result<Theory, Stop> {
    let (a, b) = if setting.later { (1, 0) } else { (0, 1) };
    if setting.swapped {
        put_b(alloc, stages, parents, b)?;
        put_a(alloc, stages, parents, a)?;
    } else {
        put_a(alloc, stages, parents, a)?;
        put_b(alloc, stages, parents, b)?;
    }
    begun(alloc, 2, Name(17), parents)
}

/// Puts the theory of the setting behind the ends.
fn put_setting(alloc: Global, kept: &mut Kept, setting: Setting) -> Result<(), Stop> {
    let mut parents = Vec::new(alloc);
    let made = over(alloc, &mut kept.stages, &mut parents, setting);
    mem::forget(parents);
    keep(alloc, &mut kept.stages, made)?;
    if setting.own {
        put_names(alloc, &mut kept.stages, &[18])?;
    }
    put_parent(&kept.stages, &mut kept.ends)
}

/// Puts the theories of the look-ups behind the ends: Pure, and then those of the settings.
pub(crate) fn put_theories(alloc: Global, kept: &mut Kept) -> Result<(), Stop> {
    keep(alloc, &mut kept.ends, pure(alloc))?;
    for setting in SETTINGS {
        put_setting(alloc, kept, setting)?;
    }
    Ok(())
}
