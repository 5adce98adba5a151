//! A child of a node is visited.
ghost use Rattle.std.specs.Prelude.{◌≡◌, ◌+◌, ◌<◌, ◌^◌, ◌∷◌, [], IfOk};
ghost use Rattle.pure_definitions.specs.Terms.Typing.{HasType};
ghost use Rattle.pure_unify_definitions.specs.Node as nodes;
ghost use Rattle.pure_unify_definitions.specs.Children.{child};
ghost use Rattle.pure_unify_steps.specs.Held.{IsSetting, IsPath, IsNode};
ghost use Rattle.pure_unify_steps.specs.declared.node.Setting.TheVariants as held;
ghost use Rattle.pure_unify_visits.specs.Visited.{IsVisitAnswer};
ghost use Rattle.pure_unify.specs.Frames.{IsReady, IsSimpleVisit};

use crate::search::Frame;
use pure_norm::NormFault;
use pure_order::Order;
use pure_term::{Name, Term, TermBind, TermMap, Typ, TypBind, TypMap};
use pure_unify_steps::{Path, Setting, put_pairs};
use pure_unify_visits::{Visited, visit_long};
use std::alloc::{AllocError, Global};

/// A map with the one entry.
fn map_of(alloc: Global, bind: TermBind) -> Result<TermMap, AllocError>
    ensures { IfOk result (λ map. map ≡ bind ∷ []) }
{
    let mut map = TermMap::empty(alloc);
    map.push(bind)?;
    Ok(map)
}

/// The setting of the variable.
fn setting_of(
    alloc: Global,
    name: Name,
    index: u32,
    typ: &Typ,
    image: Term,
) -> Result<Setting, AllocError>
    ensures { IfOk result (λ setting. setting ≡ held.OfTerm (nodes.bind name index typ.now image ∷ [])) }
{
    let typ = typ.copy(alloc)?;
    let map = map_of(
        alloc,
        TermBind {
            name,
            index,
            typ,
            image,
        },
    )?;
    Ok(Setting::OfTerm(map))
}

/// A copy of the entry.
fn typ_bind_copy(alloc: Global, bind: &TypBind) -> Result<TypBind, AllocError>
    ensures { IfOk result (λ b. b ≡ bind.now) }
{
    let sort = bind.sort.copy(alloc)?;
    let image = bind.image.copy(alloc)?;
    Ok(TypBind {
        name: bind.name,
        index: bind.index,
        sort,
        image,
    })
}

/// A copy of the entry.
fn term_bind_copy(alloc: Global, bind: &TermBind) -> Result<TermBind, AllocError>
    ensures { IfOk result (λ b. b ≡ bind.now) }
{
    let typ = bind.typ.copy(alloc)?;
    let image = bind.image.copy(alloc)?;
    Ok(TermBind {
        name: bind.name,
        index: bind.index,
        typ,
        image,
    })
}

/// A copy of the map.
fn typ_map_copy(alloc: Global, map: &TypMap) -> Result<TypMap, AllocError>
    ensures { IfOk result (λ m. m ≡ map.now) }
{
    let given = map.binds();
    let mut binds = Vec::with_capacity(alloc, given.len())?;
    for bind in given {
        binds.push(typ_bind_copy(alloc, bind)?)?;
    }
    let made = TypMap::make(alloc, binds)?;
    Ok(made)
}

/// A copy of the map.
fn term_map_copy(alloc: Global, map: &TermMap) -> Result<TermMap, AllocError>
    ensures { IfOk result (λ m. m ≡ map.now) }
{
    let given = map.binds();
    let mut binds = Vec::with_capacity(alloc, given.len())?;
    for bind in given {
        binds.push(term_bind_copy(alloc, bind)?)?;
    }
    let made = TermMap::make(alloc, binds)?;
    Ok(made)
}

/// A copy of the setting.
fn setting_copy(alloc: Global, setting: &Setting) -> Result<Setting, AllocError>
    ensures { IfOk result (λ s. s ≡ setting.now) }
{
    match setting {
        Setting::OfTyps(map) => {
            let copy = typ_map_copy(alloc, map)?;
            Ok(Setting::OfTyps(copy))
        }
        Setting::OfTerm(map) => {
            let copy = term_map_copy(alloc, map)?;
            Ok(Setting::OfTerm(copy))
        }
    }
}

/// Copies of the settings, with room for one more.
fn settings_copy(alloc: Global, settings: &[Setting]) -> Result<Vec<Setting>, AllocError>
    ensures { IfOk result (λ copies. copies.items ≡ settings.now) }
{
    let mut copies = Vec::new(alloc);
    for setting in settings {
        copies.push(setting_copy(alloc, setting)?)?;
    }
    Ok(copies)
}

/// The path of a child, which sets one variable more.
fn path_below(alloc: Global, path: &Path, setting: Setting) -> Result<Path, AllocError>
    requires { path.now.choices < 64 }
    ensures { (p : nodes.Path) (s : nodes.Setting) → IsPath path.now p → IsSetting setting s → IfOk result (λ q. IsPath q (record (nodes.further p s) { choices = p.choices + 1 })) }
{
    let mut settings = settings_copy(alloc, &path.settings)?;
    settings.push(setting)?;
    Ok(Path {
        settings,
        choices: path.choices + 1,
        fresh: path.fresh,
    })
}

/// The child that sets the frame's variable to the image is visited.
pub fn visit_child(
    alloc: Global,
    order: &Order,
    maxidx: u32,
    frame: &Frame,
    image: Term,
) -> Result<Visited, NormFault>
    requires ready { IsReady frame.now }
    requires typed { HasType [] image frame.now.branch.typ }
    requires room { maxidx + 66 < 2 ^ 32 }
    ensures answer { (n : nodes.Node) → IsNode frame.now.node n → IsVisitAnswer order.now maxidx (child n frame.now.branch.name frame.now.branch.index frame.now.branch.typ image) result }
    ensures simple { IfOk result IsSimpleVisit }
{
    let branch = &frame.branch;
    let setting = setting_of(alloc, branch.name, branch.index, &branch.typ, image)?;
    let pairs = match put_pairs(alloc, &setting, &frame.node.pairs) {
        Ok(pairs) => pairs,
        Err(fault) => return Err(fault),
    };
    let path = path_below(alloc, &frame.node.path, setting)?;
    visit_long(alloc, order, maxidx, pairs, path)
}
