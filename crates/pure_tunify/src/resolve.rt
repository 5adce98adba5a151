//! Types in which all set variables are replaced.
ghost use Rattle.std.specs.Prelude.{◌≡◌, reverse, IfOk, MatchOption};
ghost use Rattle.std.specs.Bool.{OnTrue};
ghost use Rattle.pure_definitions.specs.Terms.Subst.{IsTypMap, typ_instance};
ghost use Rattle.pure_definitions.specs.Types.Typ.{Con, typs_of, typ_size, typ_depth};
ghost use Rattle.pure_definitions.specs.Terms.Limits.{Leaves, IsWithinTyp};
ghost use Rattle.pure_tunify.specs.Settings.{composed};
ghost use Rattle.pure_tunify.specs.Working.{IsPutIn, IsPutTwice, IsConstructed, IsResolved, HasImagesWithin, IsSmall, IsWrittenInOrder, AreWrittenOut, MakesTheSame};

use crate::doubled::{applied_twice, twice};
use crate::free::is_settled;
use crate::settings::Settings;
use pure_typ::{
    MAX_DEPTH, MAX_SIZE, Name, Typ, TypBind, TypMap, TypNode, index_above_of_typ, typ_leaves,
};
use std::alloc::{AllocError, Global};

/// A type in which all set variables are replaced, and the room for nodes that it leaves.
#[derive(Drop)]
pub struct Resolved {
    pub typ: Typ,
    pub left: u32,
}

/// The type as it stands, in a room for so many nodes on paths of so many; none exactly where it doesn't fit.
#[inline(never)]
fn put_in(alloc: Global, t: &Typ, left: u32, room: u32) -> Result<Option<Resolved>, AllocError>
    ensures { IfOk result (IsPutIn t.now left room) }
{
    match typ_leaves(t, left, room) {
        None => Ok(None),
        Some(rest) => {
            let typ = t.copy(alloc)?;
            Ok(Some(Resolved { typ, left: rest }))
        }
    }
}

/// The constructor applied to a part that was put in, in both of two places, where the second one fits, too.
#[inline(never)]
fn put_twice(
    alloc: Global,
    name: Name,
    half: Option<Resolved>,
    room: u32,
) -> Result<Option<Resolved>, AllocError>
    ensures { IfOk result (IsPutTwice name room half) }
{
    match half {
        None => Ok(None),
        Some(image) => {
            let Resolved { typ, left } = image;
            match typ_leaves(&typ, left, room) {
                None => Ok(None),
                Some(rest) => {
                    let typ = applied_twice(alloc, name, typ)?;
                    Ok(Some(Resolved { typ, left: rest }))
                }
            }
        }
    }
}

/// The constructor applied to parts that were put in, which left so much room.
#[inline(never)]
fn constructed(
    alloc: Global,
    name: Name,
    parts: Vec<Typ>,
    left: u32,
) -> Result<Option<Resolved>, AllocError>
    ensures { IfOk result (IsConstructed (Con name (typs_of parts.items)) left) }
{
    let typ = Typ::constructed(alloc, name, parts)?;
    Ok(Some(Resolved { typ, left }))
}

/// The type with all set variables replaced, in a room for so many nodes on paths of so many; none exactly where it
/// doesn't fit. What isn't the recursion stands apart, so that it takes less stack. A part without schematic variables is handed back as it is, and so is an image in which no variable is set.
pub fn resolve(
    settings: &Settings,
    alloc: Global,
    t: &Typ,
    left: u32,
    room: u32,
) -> Result<Option<Resolved>, AllocError>
    ensures { IfOk result (IsResolved settings.now.sets t.now left room) }
{
    if left == 0 {
        return Ok(None);
    }
    if room == 0 {
        return Ok(None);
    }
    let top = settings.head(t)?;
    if index_above_of_typ(top) == 0 {
        return put_in(alloc, top, left, room);
    }
    if is_settled(settings, t, top) {
        return put_in(alloc, top, left, room);
    }
    match &top.node {
        TypNode::TFree { .. } => put_in(alloc, top, left, room),
        TypNode::TVar { .. } => put_in(alloc, top, left, room),
        TypNode::Con { name, args } => {
            let args = args.as_slice();
            if let Some(part) = twice(args) {
                let half = resolve(settings, alloc, part, left - 1, room - 1)?;
                return put_twice(alloc, *name, half, room - 1);
            }
            let mut images = Vec::with_capacity(alloc, args.len())?;
            let mut rest = left - 1;
            for arg in args {
                let found = resolve(settings, alloc, arg, rest, room - 1)?;
                let Some(image) = found else {
                    return Ok(None);
                };
                let Resolved { typ, left: less } = image;
                rest = less;
                images.push(typ)?;
            }
            constructed(alloc, *name, images, rest)
        }
    }
}

/// What is left of a room for so many nodes, on paths of so many, when the type with all set variables replaced is put in.
pub fn resolved_leaves(
    settings: &Settings,
    t: &Typ,
    left: u32,
    room: u32,
) -> Result<Option<u32>, AllocError>
    ensures { IfOk result (λ o. Leaves left room (typ_size (typ_instance (composed settings.now.sets) t.now)) (typ_depth (typ_instance (composed settings.now.sets) t.now)) o) }
{
    if left == 0 {
        return Ok(None);
    }
    if room == 0 {
        return Ok(None);
    }
    let top = settings.head(t)?;
    if index_above_of_typ(top) == 0 {
        return Ok(typ_leaves(top, left, room));
    }
    match &top.node {
        TypNode::TFree { .. } => Ok(Some(left - 1)),
        TypNode::TVar { .. } => Ok(Some(left - 1)),
        TypNode::Con { args, .. } => {
            let args = args.as_slice();
            let mut rest = left - 1;
            for arg in args {
                let found = resolved_leaves(settings, arg, rest, room - 1)?;
                let Some(less) = found else {
                    return Ok(None);
                };
                rest = less;
            }
            Ok(Some(rest))
        }
    }
}

/// The type with all set variables replaced, as above. First the images are measured as they were set, which takes less:
/// they only grow.
pub fn resolve_measured(
    settings: &Settings,
    alloc: Global,
    t: &Typ,
    left: u32,
    room: u32,
) -> Result<Option<Resolved>, AllocError>
    ensures { IfOk result (IsResolved settings.now.sets t.now left room) }
{
    match settings.leaves(t, left, room) {
        None => Ok(None),
        Some(_) => {
            let found = resolve(settings, alloc, t, left, room)?;
            Ok(found)
        }
    }
}

/// The most nodes, and the greatest depth, of a type that is soon measured without what is known of others.
const FEW: u32 = 200;

/// Whether the image is a variable, or has few nodes with all set variables replaced; then it is within the limits.
fn is_small(settings: &Settings, image: &Typ) -> Result<bool, AllocError>
    ensures { IfOk result (λ small. OnTrue small (IsSmall settings.now.sets image.now)) }
{
    match &image.node {
        TypNode::TFree { .. } => Ok(true),
        TypNode::TVar { .. } => Ok(true),
        TypNode::Con { .. } => {
            let found = resolved_leaves(settings, image, FEW, FEW)?;
            match found {
                None => Ok(false),
                Some(_) => Ok(true),
            }
        }
    }
}

/// Whether all images are so. One that is a variable has no entry to be measured, or another's.
pub fn are_images_small(settings: &Settings) -> Result<bool, AllocError>
    ensures { IfOk result (λ small. OnTrue small (HasImagesWithin settings.now.sets)) }
{
    for bind in settings.binds() {
        let small = is_small(settings, &bind.image)?;
        if !small {
            return Ok(false);
        }
    }
    Ok(true)
}

/// The entry with its image written out; none exactly where the image isn't within the limits.
fn written_bind(
    settings: &Settings,
    alloc: Global,
    bind: &TypBind,
) -> Result<Option<TypBind>, AllocError>
    ensures { IfOk result (λ o. MatchOption o (¬ IsWithinTyp (typ_instance (composed settings.now.sets) bind.now.image))
        (λ b. (b ≡ record bind.now { image = typ_instance (composed settings.now.sets) bind.now.image }) × IsWithinTyp (typ_instance (composed settings.now.sets) bind.now.image))) }
{
    let sort = bind.sort.copy(alloc)?;
    let found = resolve(settings, alloc, &bind.image, MAX_SIZE, MAX_DEPTH)?;
    match found {
        None => Ok(None),
        Some(image) => {
            let Resolved { typ, .. } = image;
            Ok(Some(TypBind {
                name: bind.name,
                index: bind.index,
                sort,
                image: typ,
            }))
        }
    }
}

/// A copy of the entry.
pub fn copied(bind: &TypBind, alloc: Global) -> Result<TypBind, AllocError>
    ensures { IfOk result (λ b. b ≡ bind.now) }
{
    let sort = bind.sort.copy(alloc)?;
    let image = bind.image.copy(alloc)?;
    Ok(TypBind {
        name: bind.name,
        index: bind.index,
        sort,
        image,
    })
}

/// The map of the entries, the last one first.
fn reversed(binds: &[TypBind], alloc: Global) -> Result<TypMap, AllocError>
    requires { IsTypMap binds.now }
    ensures { IfOk result (λ map. map ≡ reverse binds.now) }
{
    let mut map = TypMap::empty(alloc);
    let mut left = binds.len();
    while left > 0 {
        left -= 1;
        let entry = copied(&binds[left], alloc)?;
        map.push(entry)?;
    }
    Ok(map)
}

/// The settings with each image written out; none exactly where an image isn't within the limits. The last one is written
/// out first, so that what an image has of set variables is written out before it.
fn written_settings(settings: &Settings, alloc: Global) -> Result<Option<Settings>, AllocError>
    ensures { IfOk result (λ o. MatchOption o (¬ HasImagesWithin settings.now.sets) (AreWrittenOut settings.now settings.now.sets)) }
{
    let binds = settings.binds();
    let mut done = Settings::start(alloc, settings.index(), settings.next());
    let mut left = binds.len();
    while left > 0 {
        left -= 1;
        let found = written_bind(&done, alloc, &binds[left])?;
        match found {
            None => return Ok(None),
            Some(entry) => {
                let next = done.next();
                done.put(alloc, entry, next)?;
            }
        }
    }
    Ok(Some(done))
}

/// The map that the settings are, each image written out; none exactly where an image isn't within the limits.
pub fn written(settings: &Settings, alloc: Global) -> Result<Option<TypMap>, AllocError>
    ensures { IfOk result (λ o. MatchOption o (¬ HasImagesWithin settings.now.sets) (λ map. HasImagesWithin settings.now.sets × IsWrittenInOrder settings.now.sets map)) }
{
    let found = written_settings(settings, alloc)?;
    match found {
        None => Ok(None),
        Some(done) => {
            let map = reversed(done.binds(), alloc)?;
            Ok(Some(map))
        }
    }
}

/// Settings that make the same of each type, each image written out: so what an image has of others is made once, and handed
/// back wherever the variable stands.
pub fn written_out(settings: &Settings, alloc: Global) -> Result<Settings, AllocError>
    requires { HasImagesWithin settings.now.sets }
    ensures { IfOk result (λ full. MakesTheSame settings.now.sets full.sets) }
{
    let _ = settings.next();
    let found = written_settings(settings, alloc)?;
    match found {
        None => unreachable!(),
        Some(done) => Ok(done),
    }
}
