//! Terms with types and terms put in, in one walk.
ghost use Rattle.std.specs.Prelude.{◌≡◌, ◌↔◌, ◌+◌, IsTrue, IfOk, MatchOption};
ghost use Rattle.pure_text.specs.Lists.{EachTwo};
ghost use Rattle.pure_definitions.specs.Types.Typ as typ_tree;
ghost use Rattle.pure_definitions.specs.Types.Typ.{typs_of, typ_size, typ_depth};
ghost use Rattle.pure_definitions.specs.Terms.Term as tree;
ghost use Rattle.pure_definitions.specs.Terms.Term.{term_size, term_depth, IsWithin};
ghost use Rattle.pure_definitions.specs.Terms.Subst.{term_variable, typ_image, term_image, typ_instance, typs_instance};
ghost use Rattle.pure_definitions.specs.Terms.Limits.{Leaves};
ghost use Rattle.pure_logic.specs.Laws.Maps.{instantiated};

use pure_term::{
    MAX_DEPTH, MAX_SIZE, Name, Sort, Term, TermBind, TermMap, TermNode, Typ, TypMap, TypNode,
    copied, index_above_of, term_leaves,
};
use pure_theorem::are_same_typs;
use pure_typ::{instance_leaves, instance_of};
use std::alloc::{AllocError, Global};
use std::sync::Arc;

/// Whether the image of the schematic type variable `t` is this type.
fn is_image(t: &Typ, name: Name, index: u32, sort: &Sort, typs: &TypMap, other: &Typ) -> bool
    requires { t.now ≡ typ_tree.TVar name index sort.now }
    ensures { IsTrue result ↔ (typ_instance (typ_image typs.now) t.now ≡ other.now) }
{
    match typs.find(name, index, sort) {
        Some(image) => are_same_typs(image, other),
        None => are_same_typs(t, other),
    }
}

/// Whether the instance of the type by the map is this type.
#[cycle(is_instance)]
fn is_instance(t: &Typ, typs: &TypMap, other: &Typ) -> bool
    ensures { IsTrue result ↔ (typ_instance (typ_image typs.now) t.now ≡ other.now) }
{
    match &t.node {
        TypNode::TFree { .. } => are_same_typs(t, other),
        TypNode::TVar { name, index, sort } => is_image(t, *name, *index, sort, typs, other),
        TypNode::Con { name, args } => con_is_instance(*name, args.as_slice(), typs, other),
    }
}

/// Whether the constructor applied to the instances of the types is this type.
#[cycle(is_instance)]
fn con_is_instance(name: Name, args: &[Typ], typs: &TypMap, other: &Typ) -> bool
    ensures { IsTrue result ↔ (typ_tree.Con name (typs_instance (typ_image typs.now) (typs_of args.now)) ≡ other.now) }
{
    match &other.node {
        TypNode::TFree { .. } => false,
        TypNode::TVar { .. } => false,
        TypNode::Con {
            name: own,
            args: parts,
        } => name == *own && are_instances(args, typs, parts.as_slice()),
    }
}

/// Whether the instances of the types are these types.
#[cycle(is_instance)]
fn are_instances(types: &[Typ], typs: &TypMap, others: &[Typ]) -> bool
    ensures { IsTrue result ↔ EachTwo (λ t u. typ_instance (typ_image typs.now) t ≡ u) types.now others.now }
{
    if types.len() != others.len() {
        return false;
    }
    for i in 0..types.len() {
        if !is_instance(&types[i], typs, &others[i]) {
            return false;
        }
    }
    true
}

/// Whether the entry replaces the variable, written with its type's instance.
fn replaces(bind: &TermBind, typs: &TypMap, name: Name, index: u32, typ: &Typ) -> bool
    ensures { IsTrue result ↔ (term_variable bind.now ≡ tree.Var name index (typ_instance (typ_image typs.now) typ.now)) }
{
    bind.name == name && bind.index == index && is_instance(typ, typs, &bind.typ)
}

/// The image of a schematic variable, written with its type's instance, where an entry replaces it.
fn image_of<'m>(
    terms: &'m TermMap,
    typs: &TypMap,
    name: Name,
    index: u32,
    typ: &Typ,
) -> Option<&'m Term>
    ensures { let v = tree.Var name index (typ_instance (typ_image typs.now) typ.now) in MatchOption result (term_image terms.now v ≡ v) (λ u. term_image terms.now v ≡ u.now) }
{
    for bind in terms.binds() {
        if replaces(bind, typs, name, index, typ) {
            return Some(&bind.image);
        }
    }
    None
}

/// What is left of room when a node with the type's instance is put in.
fn node_leaves(typ: &Typ, typs: &TypMap, left: u32, room: u32) -> Option<u32>
    ensures { let T = typ_instance (typ_image typs.now) typ.now in Leaves left room (1 + typ_size T) (1 + typ_depth T) result }
{
    if left == 0 {
        return None;
    }
    if room == 0 {
        return None;
    }
    instance_leaves(typ, typs, left - 1, room - 1)
}

/// What is left of room when the image of the schematic variable is put in.
fn image_leaves(
    name: Name,
    index: u32,
    typ: &Typ,
    typs: &TypMap,
    terms: &TermMap,
    left: u32,
    room: u32,
) -> Option<u32>
    ensures { let u = term_image terms.now (tree.Var name index (typ_instance (typ_image typs.now) typ.now)) in Leaves left room (term_size u) (term_depth u) result }
{
    match image_of(terms, typs, name, index, typ) {
        Some(image) => term_leaves(image, left, room),
        None => node_leaves(typ, typs, left, room),
    }
}

/// What is left of room when the term with types and terms put in is put in.
fn leaves(t: &Term, typs: &TypMap, terms: &TermMap, left: u32, room: u32) -> Option<u32>
    ensures { let u = instantiated typs.now terms.now t.now in Leaves left room (term_size u) (term_depth u) result }
{
    if index_above_of(t) == 0 {
        return term_leaves(t, left, room);
    }
    if left == 0 {
        return None;
    }
    if room == 0 {
        return None;
    }
    match &t.node {
        TermNode::Const { typ, .. } => node_leaves(typ, typs, left, room),
        TermNode::Free { typ, .. } => node_leaves(typ, typs, left, room),
        TermNode::Var { name, index, typ } => {
            image_leaves(*name, *index, typ, typs, terms, left, room)
        }
        TermNode::Bound { .. } => Some(left - 1),
        TermNode::Abs { typ, body, .. } => {
            let Some(rest) = instance_leaves(typ, typs, left - 1, room - 1) else {
                return None;
            };
            leaves(body, typs, terms, rest, room - 1)
        }
        TermNode::App { fun, arg, .. } => {
            let Some(rest) = leaves(fun, typs, terms, left - 1, room - 1) else {
                return None;
            };
            leaves(arg, typs, terms, rest, room - 1)
        }
    }
}

/// Whether the term with types and terms put in is within the limits.
pub fn fits(t: &Term, typs: &TypMap, terms: &TermMap) -> bool
    ensures { IsTrue result ↔ IsWithin (instantiated typs.now terms.now t.now) }
{
    match leaves(t, typs, terms, MAX_SIZE, MAX_DEPTH) {
        Some(_) => true,
        None => false,
    }
}

/// The image of the schematic variable, in a block of its own.
fn put_image(
    alloc: Global,
    name: Name,
    index: u32,
    typ: &Typ,
    typs: &TypMap,
    terms: &TermMap,
) -> Result<Arc<Term>, AllocError>
    ensures { IfOk result (λ u. u.value ≡ term_image terms.now (tree.Var name index (typ_instance (typ_image typs.now) typ.now))) }
{
    if let Some(image) = image_of(terms, typs, name, index, typ) {
        return copied(alloc, image);
    }
    let typ = instance_of(alloc, typ, typs)?;
    let node = TermNode::Var { name, index, typ };
    Ok(Arc::new(alloc, Term { node })?)
}

/// The term with types and terms put in. A part without schematic variables is handed back as it is.
fn put(
    alloc: Global,
    t: &Arc<Term>,
    typs: &TypMap,
    terms: &TermMap,
) -> Result<Arc<Term>, AllocError>
    ensures { IfOk result (λ u. u.value ≡ instantiated typs.now terms.now t.now.value) }
{
    let whole: &Term = t;
    if index_above_of(whole) == 0 {
        return Arc::try_clone(t);
    }
    match &whole.node {
        TermNode::Const { name, typ } => {
            let typ = instance_of(alloc, typ, typs)?;
            let node = TermNode::Const { name: *name, typ };
            Ok(Arc::new(alloc, Term { node })?)
        }
        TermNode::Free { name, typ } => {
            let typ = instance_of(alloc, typ, typs)?;
            let node = TermNode::Free { name: *name, typ };
            Ok(Arc::new(alloc, Term { node })?)
        }
        TermNode::Var { name, index, typ } => { put_image(alloc, *name, *index, typ, typs, terms) }
        TermNode::Bound { .. } => Arc::try_clone(t),
        TermNode::Abs { typ, body, .. } => {
            let typ = instance_of(alloc, typ, typs)?;
            let body = put(alloc, body, typs, terms)?;
            Ok(Arc::new(alloc, Term::abs(typ, body))?)
        }
        TermNode::App { fun, arg, .. } => {
            let fun = put(alloc, fun, typs, terms)?;
            let arg = put(alloc, arg, typs, terms)?;
            Ok(Arc::new(alloc, Term::app(fun, arg))?)
        }
    }
}

/// The term with types and terms put in.
pub fn instantiated(
    alloc: Global,
    t: &Term,
    typs: &TypMap,
    terms: &TermMap,
) -> Result<Term, AllocError>
    ensures { IfOk result (λ u. u ≡ instantiated typs.now terms.now t.now) }
{
    let t = copied(alloc, t)?;
    let made = put(alloc, &t, typs, terms)?;
    made.copy(alloc)
}
