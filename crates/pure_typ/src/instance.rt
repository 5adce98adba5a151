//! Instances of types by finite maps.
ghost use Rattle.std.specs.Prelude.{◌≡◌, IfOk};
ghost use Rattle.pure_definitions.specs.Types.Typ.{typ_size, typ_depth};
ghost use Rattle.pure_definitions.specs.Terms.Subst.{typ_image, typ_instance};
ghost use Rattle.pure_definitions.specs.Terms.Limits.{Leaves};
ghost use Rattle.pure_typ.specs.TypGrown.{IsTypGrown};

use crate::grow::Grow;
use crate::maps::TypMap;
use crate::measure::{MAX_DEPTH, MAX_SIZE, index_above_of_typ, typ_leaves};
use crate::typ::{Typ, TypNode};
use std::alloc::{AllocError, Global};

/// The type with the image of each variable in its place, all at once: `Big` exactly where it isn't within the limits.
pub fn instance_of_typ(alloc: Global, t: &Typ, map: &TypMap) -> Result<Typ, Grow>
    ensures { IsTypGrown (typ_instance (typ_image map.now) t.now) result }
{
    let Some(_) = instance_leaves(t, map, MAX_SIZE, MAX_DEPTH) else {
        return Err(Grow::Big);
    };
    Ok(instance_of(alloc, t, map)?)
}

/// What is left of room when the instance of the type is put in.
pub fn instance_leaves(t: &Typ, binds: &TypMap, left: u32, room: u32) -> Option<u32>
    ensures { Leaves left room (typ_size (typ_instance (typ_image binds.now) t.now)) (typ_depth (typ_instance (typ_image binds.now) t.now)) result }
{
    if index_above_of_typ(t) == 0 {
        return typ_leaves(t, left, room);
    }
    match &t.node {
        TypNode::TFree { .. } => typ_leaves(t, left, room),
        TypNode::TVar { name, index, sort } => match binds.find(*name, *index, sort) {
            Some(image) => typ_leaves(image, left, room),
            None => typ_leaves(t, left, room),
        },
        TypNode::Con { args, .. } => {
            if left == 0 {
                return None;
            }
            if room == 0 {
                return None;
            }
            let args = args.as_slice();
            let mut rest = left - 1;
            for arg in args {
                let Some(less) = instance_leaves(arg, binds, rest, room - 1) else {
                    return None;
                };
                rest = less;
            }
            Some(rest)
        }
    }
}

/// The instance of the type: a type without schematic variables is handed back as it is.
pub fn instance_of(alloc: Global, t: &Typ, binds: &TypMap) -> Result<Typ, AllocError>
    ensures { IfOk result (λ u. u ≡ typ_instance (typ_image binds.now) t.now) }
{
    if index_above_of_typ(t) == 0 {
        return t.copy(alloc);
    }
    match &t.node {
        TypNode::TFree { .. } => t.copy(alloc),
        TypNode::TVar { name, index, sort } => match binds.find(*name, *index, sort) {
            Some(image) => image.copy(alloc),
            None => t.copy(alloc),
        },
        TypNode::Con { name, args } => {
            let args = args.as_slice();
            let mut images = Vec::with_capacity(alloc, args.len())?;
            for arg in args {
                images.push(instance_of(alloc, arg, binds)?)?;
            }
            Typ::constructed(alloc, *name, images)
        }
    }
}
