//! The draft's term under the settings that unification has found.
ghost use Rattle.std.specs.Prelude.{IfOk};
ghost use Rattle.pure_definitions.specs.Terms.Term.{Const, Free, Var, Abs, App};
ghost use Rattle.pure_definitions.specs.Terms.Subst.{typ_instance, inst_typ};
ghost use Rattle.pure_tunify.specs.Settings.{composed};
ghost use Rattle.pure_elab.specs.Finished.{IsLimited};
ghost use Rattle.pure_elab.specs.PutIn.{IsLeafPutIn, IsNodeOver, IsPutIn};

use crate::nodes::{abstraction, application};
use pure_term::{Term, TermNode, index_above_of, term_leaves};
use pure_tunify::{Resolved, Settings, resolved_in_room};
use pure_typ::{MAX_DEPTH, MAX_SIZE, Name, Typ};
use std::alloc::{AllocError, Global};
use std::sync::Arc;

/// A part of a term in which all set variables are replaced, and the room for nodes that it leaves.
#[derive(Debug, Drop)]
pub(crate) struct SettledPart {
    pub term: Arc<Term>,
    pub left: u32,
}

/// A constant with all set variables of its type replaced, where the type has a room for so many nodes on paths of so many.
#[inline(never)]
fn settle_constant(
    settings: &Settings,
    alloc: Global,
    name: Name,
    typ: &Typ,
    left: u32,
    room: u32,
) -> Result<Option<SettledPart>, AllocError>
    ensures { IfOk result (IsLeafPutIn (Const name) (typ_instance (composed settings.now.sets) typ.now) left room) }
{
    let found = resolved_in_room(settings, alloc, typ, left, room)?;
    match found {
        None => Ok(None),
        Some(image) => {
            let Resolved { typ, left: rest } = image;
            let node = TermNode::Const { name, typ };
            let term = Arc::new(alloc, Term { node })?;
            Ok(Some(SettledPart { term, left: rest }))
        }
    }
}

/// The same of a fixed variable.
#[inline(never)]
fn settle_fixed(
    settings: &Settings,
    alloc: Global,
    name: Name,
    typ: &Typ,
    left: u32,
    room: u32,
) -> Result<Option<SettledPart>, AllocError>
    ensures { IfOk result (IsLeafPutIn (Free name) (typ_instance (composed settings.now.sets) typ.now) left room) }
{
    let found = resolved_in_room(settings, alloc, typ, left, room)?;
    match found {
        None => Ok(None),
        Some(image) => {
            let Resolved { typ, left: rest } = image;
            let node = TermNode::Free { name, typ };
            let term = Arc::new(alloc, Term { node })?;
            Ok(Some(SettledPart { term, left: rest }))
        }
    }
}

/// The same of a schematic variable.
#[inline(never)]
fn settle_schematic(
    settings: &Settings,
    alloc: Global,
    name: Name,
    index: u32,
    typ: &Typ,
    left: u32,
    room: u32,
) -> Result<Option<SettledPart>, AllocError>
    ensures { IfOk result (IsLeafPutIn (Var name index) (typ_instance (composed settings.now.sets) typ.now) left room) }
{
    let found = resolved_in_room(settings, alloc, typ, left, room)?;
    match found {
        None => Ok(None),
        Some(image) => {
            let Resolved { typ, left: rest } = image;
            let node = TermNode::Var { name, index, typ };
            let term = Arc::new(alloc, Term { node })?;
            Ok(Some(SettledPart { term, left: rest }))
        }
    }
}

/// The abstraction over this type, where its body fits.
#[inline(never)]
fn settled_abstraction(
    alloc: Global,
    typ: Typ,
    body: Option<SettledPart>,
) -> Result<Option<SettledPart>, AllocError>
    ensures { IfOk result (IsNodeOver (Abs typ) body) }
{
    match body {
        None => Ok(None),
        Some(body) => {
            let term = abstraction(alloc, typ, body.term)?;
            Ok(Some(SettledPart {
                term,
                left: body.left,
            }))
        }
    }
}

/// The application of this function, where its argument fits.
#[inline(never)]
fn settled_application(
    alloc: Global,
    fun: Arc<Term>,
    arg: Option<SettledPart>,
) -> Result<Option<SettledPart>, AllocError>
    ensures { IfOk result (IsNodeOver (App fun.value) arg) }
{
    match arg {
        None => Ok(None),
        Some(arg) => {
            let term = application(alloc, fun, arg.term)?;
            Ok(Some(SettledPart {
                term,
                left: arg.left,
            }))
        }
    }
}

/// A part without schematic variables, which stays as it is, where it fits.
#[inline(never)]
fn stays(t: &Arc<Term>, left: u32, room: u32) -> Result<Option<SettledPart>, AllocError>
    ensures { IfOk result (IsPutIn t.now.value left room) }
{
    match term_leaves(t, left, room) {
        None => Ok(None),
        Some(rest) => {
            let term = Arc::try_clone(t)?;
            Ok(Some(SettledPart { term, left: rest }))
        }
    }
}

/// The part with all set variables replaced, in a room for so many nodes on paths of so many; none exactly where it doesn't
/// fit. What has no schematic variables is handed back as it is.
fn settle_term(
    settings: &Settings,
    alloc: Global,
    t: &Arc<Term>,
    left: u32,
    room: u32,
) -> Result<Option<SettledPart>, AllocError>
    ensures { IfOk result (IsPutIn (inst_typ (composed settings.now.sets) t.now.value) left room) }
{
    let whole: &Term = t;
    if index_above_of(whole) == 0 {
        return stays(t, left, room);
    }
    if left == 0 {
        return Ok(None);
    }
    if room == 0 {
        return Ok(None);
    }
    match &whole.node {
        TermNode::Const { name, typ } => {
            settle_constant(settings, alloc, *name, typ, left - 1, room - 1)
        }
        TermNode::Free { name, typ } => {
            settle_fixed(settings, alloc, *name, typ, left - 1, room - 1)
        }
        TermNode::Var { name, index, typ } => {
            settle_schematic(settings, alloc, *name, *index, typ, left - 1, room - 1)
        }
        TermNode::Bound { .. } => stays(t, left, room),
        TermNode::Abs { typ, body, .. } => {
            let domain = resolved_in_room(settings, alloc, typ, left - 1, room - 1)?;
            let Some(image) = domain else {
                return Ok(None);
            };
            let Resolved { typ, left: rest } = image;
            let body = settle_term(settings, alloc, body, rest, room - 1)?;
            settled_abstraction(alloc, typ, body)
        }
        TermNode::App { fun, arg, .. } => {
            let function = settle_term(settings, alloc, fun, left - 1, room - 1)?;
            let Some(front) = function else {
                return Ok(None);
            };
            let argument = settle_term(settings, alloc, arg, front.left, room - 1)?;
            settled_application(alloc, front.term, argument)
        }
    }
}

/// The term with all set variables replaced; none exactly where it isn't within the limits. It is measured as it is made,
/// and never made beyond the limits.
pub(crate) fn settled(
    settings: &Settings,
    alloc: Global,
    term: &Arc<Term>,
) -> Result<Option<Arc<Term>>, AllocError>
    ensures { IfOk result (IsLimited (inst_typ (composed settings.now.sets) term.now.value)) }
{
    let found = settle_term(settings, alloc, term, MAX_SIZE, MAX_DEPTH)?;
    match found {
        None => Ok(None),
        Some(settled) => Ok(Some(settled.term)),
    }
}
