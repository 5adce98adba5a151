//! What types come to under later settings, told without making it.
ghost use Rattle.std.specs.Prelude.{◌≡◌, ◌↔◌, IsTrue, map};
ghost use Rattle.pure_unify.specs.Later.{typ_later};
ghost use Rattle.pure_unify.specs.Heads.{IsHeadLater, is_typ_schematic, typ_put};

use pure_term::{Typ, TypNode};
use pure_theorem::are_same_typs;
use pure_unify_steps::Setting;

/// A schematic type variable under one setting; a type that is none stays.
fn put_at_head<'t>(setting: &'t Setting, t: &'t Typ) -> &'t Typ
    ensures { result.now ≡ typ_put setting.now t.now }
{
    match setting {
        Setting::OfTyps(map) => match &t.node {
            TypNode::TVar { name, index, sort } => match map.find(*name, *index, sort) {
                Some(image) => image,
                None => t,
            },
            _ => t,
        },
        Setting::OfTerm(_) => t,
    }
}

/// Whether the type is a schematic variable.
fn is_variable(t: &Typ) -> bool
    ensures { result ≡ is_typ_schematic t.now }
{
    match &t.node {
        TypNode::TFree { .. } => false,
        TypNode::TVar { .. } => true,
        TypNode::Con { .. } => false,
    }
}

/// What stands for the type under the settings as long as it is a schematic variable, and how many of the settings this takes.
fn head_later<'t>(settings: &'t [Setting], t: &'t Typ) -> (&'t Typ, usize)
    ensures { IsHeadLater settings.now t.now result.0.now result.1 }
{
    let mut top = t;
    for i in 0..settings.len() {
        if !is_variable(top) {
            return (top, i);
        }
        top = put_at_head(&settings[i], top);
    }
    (top, settings.len())
}

/// Whether the type comes to the other under the settings.
#[cycle(comes)]
pub fn comes_to(settings: &[Setting], t: &Typ, other: &Typ) -> bool
    ensures { IsTrue result ↔ (typ_later settings.now t.now ≡ other.now) }
{
    let (top, from) = head_later(settings, t);
    match &top.node {
        TypNode::Con { name, args } => match &other.node {
            TypNode::Con {
                name: own,
                args: others,
            } => {
                if *name == *own {
                    return come_to(&settings[from..], args.as_slice(), others.as_slice());
                }
                false
            }
            TypNode::TFree { .. } => false,
            TypNode::TVar { .. } => false,
        },
        TypNode::TFree { .. } => are_same_typs(top, other),
        TypNode::TVar { .. } => are_same_typs(top, other),
    }
}

/// Whether the types come to the others under the settings.
#[cycle(comes)]
fn come_to(settings: &[Setting], types: &[Typ], others: &[Typ]) -> bool
    ensures { IsTrue result ↔ (map (typ_later settings.now) types.now ≡ others.now) }
{
    if types.len() != others.len() {
        return false;
    }
    for i in 0..others.len() {
        if !comes_to(settings, &types[i], &others[i]) {
            return false;
        }
    }
    true
}
