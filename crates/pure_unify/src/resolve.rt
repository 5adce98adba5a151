//! The settings of a path as entries: each image under all later settings.
ghost use Rattle.std.specs.Prelude.{◌≡◌, ◌++◌, ◌∷◌, [], List, map, reverse, IfOk, IfErr, OnOk};
ghost use Rattle.pure_text.specs.Lists.{Each};
ghost use Rattle.pure_definitions.specs.Terms.Term.{IsWithin};
ghost use Rattle.pure_definitions.specs.Terms.Subst.{IsTypMap, typ_image, typ_instance};
ghost use Rattle.pure_definitions.specs.Terms.Limits.{IsWithinTyp};
ghost use Rattle.pure_unify_steps.specs.declared.node.Setting.TheVariants as held;
ghost use Rattle.pure_unify_steps.specs.declared.node.Setting as steps;
ghost use Rattle.pure_unify.specs.Later.{term_later, term_entry, entry_under, IsSingle, IsDistinct};
ghost use Rattle.pure_unify.specs.Resolved.{IsLater, IsLaterAnswer, IsBigFor};

use crate::later::image_within;
use pure_term::{Grow, TermBind, TermMap, TypBind, TypMap};
use pure_typ::{instance_of, instance_of_typ};
use pure_unify_steps::Setting;
use std::alloc::{AllocError, Global};

/// The entries of settings, each under those behind it, the last first.
#[derive(Drop)]
pub struct Later {
    pub typs: TypMap,
    pub terms: Vec<TermBind>,
}

/// The entry with its image under the map: `Big` exactly where that isn't within the limits.
fn entry_under(alloc: Global, typs: &TypMap, bind: &TypBind) -> Result<TypBind, Grow>
    ensures made { IfOk result (λ b. (b ≡ entry_under typs.now bind.now) × IsWithinTyp b.image) }
    ensures large { IfErr result (IsBigFor (¬ IsWithinTyp (typ_instance (typ_image typs.now) bind.now.image))) }
{
    let image = match instance_of_typ(alloc, &bind.image, typs) {
        Ok(image) => image,
        Err(fault) => return Err(fault),
    };
    let sort = bind.sort.copy(alloc)?;
    Ok(TypBind {
        name: bind.name,
        index: bind.index,
        sort,
        image,
    })
}

/// Puts the entry behind those of the list.
fn put_entry(list: &mut Vec<TypBind>, entry: TypBind) -> Result<(), AllocError>
    ensures { OnOk result (list.new.items ≡ list.old.items ++ entry ∷ []) }
{
    list.push(entry)?;
    Ok(())
}

/// The entries with their images under the map, the last first.
fn entries_under(alloc: Global, typs: &TypMap, binds: &[TypBind]) -> Result<Vec<TypBind>, Grow>
    ensures made { IfOk result (λ made. (made.items ≡ reverse (map (entry_under typs.now) binds.now)) × Each (λ b. IsWithinTyp b.image) made.items) }
    ensures large { IfErr result (IsBigFor (¬ Each (λ b. IsWithinTyp b.image) (map (entry_under typs.now) binds.now))) }
{
    let mut made = Vec::new(alloc);
    let mut left = binds.len();
    while left > 0 {
        left -= 1;
        match entry_under(alloc, typs, &binds[left]) {
            Ok(entry) => put_entry(&mut made, entry)?,
            Err(fault) => return Err(fault),
        }
    }
    Ok(made)
}

/// Puts the entry behind the others. No variable is set twice on a path; where one is, memory is wanted.
fn add_entry(typs: &mut TypMap, entry: TypBind) -> Result<(), AllocError>
    ensures { OnOk result (typs.new ≡ typs.old ++ entry ∷ []) }
{
    if typs.find(entry.name, entry.index, &entry.sort).is_some() {
        return Err(AllocError);
    }
    typs.push(entry)?;
    Ok(())
}

/// Puts the entries behind the others.
fn add_entries(typs: &mut TypMap, entries: Vec<TypBind>) -> Result<(), AllocError>
    ensures { OnOk result (typs.new ≡ typs.old ++ entries.items) }
{
    for entry in entries {
        add_entry(typs, entry)?;
    }
    Ok(())
}

/// The entries of the settings with those of type variables that are set before them.
fn put_typs(alloc: Global, later: Later, map: &TypMap) -> Result<Later, Grow>
    ensures { (rest : List steps.Setting) → IsLater rest later → IsLaterAnswer (held.OfTyps map.now ∷ rest) result }
{
    let mut later = later;
    let entries = match entries_under(alloc, &later.typs, map.binds()) {
        Ok(entries) => entries,
        Err(fault) => return Err(fault),
    };
    add_entries(&mut later.typs, entries)?;
    is_distinct(&later.typs);
    Ok(later)
}

/// The entry of a schematic variable that is set before the settings.
fn term_entry_under(
    alloc: Global,
    rest: &[Setting],
    later: &Later,
    bind: &TermBind,
) -> Result<TermBind, Grow>
    requires singles { Each IsSingle rest.now }
    requires later { IsLater rest.now later.now }
    ensures made { IfOk result (λ b. (b ≡ term_entry rest.now bind.now) × IsWithin b.image) }
    ensures large { IfErr result (IsBigFor (¬ IsWithin (term_later rest.now bind.now.image))) }
{
    let image = match image_within(alloc, rest, &later.typs, &later.terms, &bind.image) {
        Ok(image) => image,
        Err(fault) => return Err(fault),
    };
    let typ = instance_of(alloc, &bind.typ, &later.typs)?;
    Ok(TermBind {
        name: bind.name,
        index: bind.index,
        typ,
        image,
    })
}

/// Puts the entry behind those of the list.
fn put_term_entry(list: &mut Vec<TermBind>, entry: TermBind) -> Result<(), AllocError>
    ensures { OnOk result (list.new.items ≡ list.old.items ++ entry ∷ []) }
{
    list.push(entry)?;
    Ok(())
}

/// The entries of the settings with that of a schematic variable that is set before them.
fn put_term(alloc: Global, rest: &[Setting], later: Later, map: &TermMap) -> Result<Later, Grow>
    requires singles { Each IsSingle rest.now }
    requires single { IsSingle (held.OfTerm map.now) }
    requires later { IsLater rest.now later }
    ensures { IsLaterAnswer (held.OfTerm map.now ∷ rest.now) result }
{
    let mut later = later;
    let binds = map.binds();
    match term_entry_under(alloc, rest, &later, &binds[0]) {
        Ok(entry) => put_term_entry(&mut later.terms, entry)?,
        Err(fault) => return Err(fault),
    }
    Ok(later)
}

/// The entries of the settings with those of a setting before them.
fn put_setting(
    alloc: Global,
    rest: &[Setting],
    later: Later,
    setting: &Setting,
) -> Result<Later, Grow>
    requires singles { Each IsSingle rest.now }
    requires single { IsSingle setting.now }
    requires later { IsLater rest.now later }
    ensures { IsLaterAnswer (setting.now ∷ rest.now) result }
{
    match setting {
        Setting::OfTyps(map) => put_typs(alloc, later, map),
        Setting::OfTerm(map) => put_term(alloc, rest, later, map),
    }
}

/// Nothing is done: that no variable has two entries in the map is what its type says.
fn is_distinct(typs: &TypMap)
    ensures { IsTypMap typs.now }
{
    typs.binds();
}

/// The same of each setting of type variables.
pub fn are_distinct(settings: &[Setting])
    ensures { Each IsDistinct settings.now }
{
    for setting in settings {
        match setting {
            Setting::OfTyps(map) => is_distinct(map),
            Setting::OfTerm(_) => {}
        }
    }
}

/// The entries of the settings.
pub fn later_of(alloc: Global, settings: &[Setting]) -> Result<Later, Grow>
    requires { Each IsSingle settings.now }
    ensures { IsLaterAnswer settings.now result }
{
    let typs = TypMap::empty(alloc);
    let terms = Vec::new(alloc);
    let mut later = Later { typs, terms };
    let mut left = settings.len();
    while left > 0 {
        left -= 1;
        match put_setting(alloc, &settings[left + 1..], later, &settings[left]) {
            Ok(more) => later = more,
            Err(fault) => return Err(fault),
        }
    }
    Ok(later)
}
