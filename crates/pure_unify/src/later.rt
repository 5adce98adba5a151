//! Terms under later settings: measured, and made.
ghost use Rattle.std.specs.Prelude.{◌≡◌, ◌↔◌, IsTrue, reverse, IfOk, MatchOption};
ghost use Rattle.pure_text.specs.Lists.{Each};
ghost use Rattle.pure_definitions.specs.Types.Typ as types;
ghost use Rattle.pure_definitions.specs.Terms.Term as tree;
ghost use Rattle.pure_definitions.specs.Terms.Term.{term_size, term_depth};
ghost use Rattle.pure_definitions.specs.Terms.Subst.{typ_image, typ_instance, term_variable};
ghost use Rattle.pure_definitions.specs.Terms.Limits.{Leaves};
ghost use Rattle.pure_term.specs.Grown.{IsGrown};
ghost use Rattle.pure_unify.specs.Later.{typ_later, term_later, term_entries, IsSingle};

use crate::comes::comes_to;
use pure_term::{
    Grow, MAX_DEPTH, MAX_SIZE, Name, Term, TermBind, TermNode, Typ, TypMap, copied, index_above_of,
    term_leaves,
};
use pure_typ::{instance_leaves, instance_of};
use pure_unify_steps::Setting;
use std::alloc::{AllocError, Global};
use std::sync::Arc;

/// Whether the entry replaces the variable under the settings before it.
fn replaces(before: &[Setting], bind: &TermBind, name: Name, index: u32, typ: &Typ) -> bool
    ensures { IsTrue result ↔ (tree.Var name index (typ_later before.now typ.now) ≡ term_variable bind.now) }
{
    if bind.name != name {
        return false;
    }
    if bind.index != index {
        return false;
    }
    comes_to(before, typ, &bind.typ)
}

/// What the variable becomes under the settings, where one of them replaces it: the image of that one's entry among theirs, which stand the last first.
fn image_later<'d>(
    settings: &[Setting],
    terms: &'d [TermBind],
    name: Name,
    index: u32,
    typ: &Typ,
) -> Option<&'d Term>
    requires singles { Each IsSingle settings.now }
    requires terms { terms.now ≡ reverse (term_entries settings.now) }
    ensures { MatchOption result (term_later settings.now (tree.Var name index typ.now) ≡ tree.Var name index (typ_later settings.now typ.now))
        (λ t. term_later settings.now (tree.Var name index typ.now) ≡ t.now) }
{
    let mut left = terms.len();
    for i in 0..settings.len() {
        match &settings[i] {
            Setting::OfTyps(_) => {}
            Setting::OfTerm(map) => {
                left -= 1;
                let binds = map.binds();
                if replaces(&settings[..i], &binds[0], name, index, typ) {
                    let entry = &terms[left];
                    return Some(&entry.image);
                }
            }
        }
    }
    None
}

/// What is left of room when the term under the settings is put in.
fn leaves_later(
    settings: &[Setting],
    typs: &TypMap,
    terms: &[TermBind],
    t: &Term,
    left: u32,
    room: u32,
) -> Option<u32>
    requires singles { Each IsSingle settings.now }
    requires typs { (T : types.Typ) → typ_later settings.now T ≡ typ_instance (typ_image typs.now) T }
    requires terms { terms.now ≡ reverse (term_entries settings.now) }
    ensures { Leaves left room (term_size (term_later settings.now t.now)) (term_depth (term_later settings.now t.now)) result }
{
    if index_above_of(t) == 0 {
        return term_leaves(t, left, room);
    }
    if left == 0 {
        return None;
    }
    if room == 0 {
        return None;
    }
    match &t.node {
        TermNode::Const { typ, .. } => instance_leaves(typ, typs, left - 1, room - 1),
        TermNode::Free { typ, .. } => instance_leaves(typ, typs, left - 1, room - 1),
        TermNode::Var { name, index, typ } => {
            match image_later(settings, terms, *name, *index, typ) {
                Some(image) => term_leaves(image, left, room),
                None => instance_leaves(typ, typs, left - 1, room - 1),
            }
        }
        TermNode::Bound { .. } => Some(left - 1),
        TermNode::Abs { typ, body, .. } => {
            let Some(rest) = instance_leaves(typ, typs, left - 1, room - 1) else {
                return None;
            };
            leaves_later(settings, typs, terms, body, rest, room - 1)
        }
        TermNode::App { fun, arg, .. } => {
            let Some(rest) = leaves_later(settings, typs, terms, fun, left - 1, room - 1) else {
                return None;
            };
            leaves_later(settings, typs, terms, arg, rest, room - 1)
        }
    }
}

/// The variable under the settings.
fn variable_later(
    alloc: Global,
    settings: &[Setting],
    typs: &TypMap,
    terms: &[TermBind],
    name: Name,
    index: u32,
    typ: &Typ,
) -> Result<Term, AllocError>
    requires singles { Each IsSingle settings.now }
    requires typs { (T : types.Typ) → typ_later settings.now T ≡ typ_instance (typ_image typs.now) T }
    requires terms { terms.now ≡ reverse (term_entries settings.now) }
    ensures { IfOk result (λ u. u ≡ term_later settings.now (tree.Var name index typ.now)) }
{
    match image_later(settings, terms, name, index, typ) {
        Some(image) => Ok(image.copy(alloc)?),
        None => {
            let typ = instance_of(alloc, typ, typs)?;
            let node = TermNode::Var { name, index, typ };
            Ok(Term { node })
        }
    }
}

/// A part under the settings. One without schematic variables is handed back as it is.
fn made_later(
    alloc: Global,
    settings: &[Setting],
    typs: &TypMap,
    terms: &[TermBind],
    t: &Arc<Term>,
) -> Result<Arc<Term>, AllocError>
    requires singles { Each IsSingle settings.now }
    requires typs { (T : types.Typ) → typ_later settings.now T ≡ typ_instance (typ_image typs.now) T }
    requires terms { terms.now ≡ reverse (term_entries settings.now) }
    ensures { IfOk result (λ u. u.value ≡ term_later settings.now t.now.value) }
{
    let whole: &Term = t;
    if index_above_of(whole) == 0 {
        return Arc::try_clone(t);
    }
    match &whole.node {
        TermNode::Const { name, typ } => {
            let typ = instance_of(alloc, typ, typs)?;
            let node = TermNode::Const { name: *name, typ };
            Ok(Arc::new(alloc, Term { node })?)
        }
        TermNode::Free { name, typ } => {
            let typ = instance_of(alloc, typ, typs)?;
            let node = TermNode::Free { name: *name, typ };
            Ok(Arc::new(alloc, Term { node })?)
        }
        TermNode::Var { name, index, typ } => {
            let made = variable_later(alloc, settings, typs, terms, *name, *index, typ)?;
            Ok(Arc::new(alloc, made)?)
        }
        TermNode::Bound { .. } => Arc::try_clone(t),
        TermNode::Abs { typ, body, .. } => {
            let typ = instance_of(alloc, typ, typs)?;
            let body = made_later(alloc, settings, typs, terms, body)?;
            Ok(Arc::new(alloc, Term::abs(typ, body))?)
        }
        TermNode::App { fun, arg, .. } => {
            let fun = made_later(alloc, settings, typs, terms, fun)?;
            let arg = made_later(alloc, settings, typs, terms, arg)?;
            Ok(Arc::new(alloc, Term::app(fun, arg))?)
        }
    }
}

/// The term under the settings: `Big` exactly where it isn't within the limits.
pub fn image_within(
    alloc: Global,
    settings: &[Setting],
    typs: &TypMap,
    terms: &[TermBind],
    t: &Term,
) -> Result<Term, Grow>
    requires singles { Each IsSingle settings.now }
    requires typs { (T : types.Typ) → typ_later settings.now T ≡ typ_instance (typ_image typs.now) T }
    requires terms { terms.now ≡ reverse (term_entries settings.now) }
    ensures { IsGrown (term_later settings.now t.now) result }
{
    let Some(_) = leaves_later(settings, typs, terms, t, MAX_SIZE, MAX_DEPTH) else {
        return Err(Grow::Big);
    };
    let t = copied(alloc, t)?;
    let made = made_later(alloc, settings, typs, terms, &t)?;
    Ok(made.copy(alloc)?)
}
