//! Matches of declared types with types.
ghost use Rattle.std.specs.Prelude.{◌≡◌, ◌≢◌, [], ◌∷◌, map, MatchOption, IfOk};
ghost use Rattle.pure_text.specs.Lists.{IsIn};
ghost use Rattle.pure_definitions.specs.Types.Typ as tree;
ghost use Rattle.pure_definitions.specs.Types.Typ.{typs_of};
ghost use Rattle.pure_definitions.specs.Terms.Subst.{typ_variable, typ_instance, typs_instance};
ghost use Rattle.pure_certify.specs.Matching.{schematics, all_schematics, IsMatching};

use pure_typ::{Name, Sort, Typ, TypBind, TypMap, TypNode};
use std::alloc::{AllocError, Global};

/// Whether the entry for the variable has this type; none where there is no such entry.
fn is_bound_to(binds: &TypMap, name: Name, index: u32, sort: &Sort, typ: &Typ) -> Option<bool>
    ensures { MatchOption result
        (¬ IsIn (tree.TVar name index sort.now) (map typ_variable binds.now))
        (IsMatching (λ typs. typs (tree.TVar name index sort.now) ≡ typ.now) (tree.TVar name index sort.now ∷ []) binds.now binds.now) }
{
    match binds.find(name, index, sort) {
        None => None,
        Some(image) => Some(image == typ),
    }
}

/// Whether a map that gives the entries may give the variable this type; if so, the entries grow by that.
fn match_variable(
    alloc: Global,
    name: Name,
    index: u32,
    sort: &Sort,
    typ: &Typ,
    binds: &mut TypMap,
) -> Result<bool, AllocError>
    ensures { IfOk result (IsMatching (λ typs. typs (tree.TVar name index sort.now) ≡ typ.now) (tree.TVar name index sort.now ∷ []) binds.old binds.new) }
{
    match is_bound_to(binds, name, index, sort, typ) {
        Some(same) => Ok(same),
        None => {
            let sort = sort.copy(alloc)?;
            let image = typ.copy(alloc)?;
            binds.push(TypBind {
                name,
                index,
                sort,
                image,
            })?;
            Ok(true)
        }
    }
}

/// The arguments of the type, where the constructor makes it.
fn args_of<'t>(typ: &'t Typ, con: Name) -> Option<&'t [Typ]>
    ensures { MatchOption result ((ts : tree.Typs) → typ.now ≢ tree.Con con ts) (λ args. typ.now ≡ tree.Con con (typs_of args.now)) }
{
    let TypNode::Con { name, args } = &typ.node else {
        return None;
    };
    if *name != con {
        return None;
    }
    Some(args.as_slice())
}

/// Whether a map that gives the entries may make the type of the declared one; if so, the entries grow by that. A declared type without schematic variables takes no memory.
#[cycle(match_typ)]
pub fn match_typ(
    alloc: Global,
    declared: &Typ,
    typ: &Typ,
    binds: &mut TypMap,
) -> Result<bool, AllocError>
    ensures { IfOk result (IsMatching (λ typs. typ_instance typs declared.now ≡ typ.now) (schematics declared.now) binds.old binds.new) }
{
    match &declared.node {
        TypNode::TFree { .. } => Ok(declared == typ),
        TypNode::TVar { name, index, sort } => {
            let fits = match_variable(alloc, *name, *index, sort, typ, binds)?;
            Ok(fits)
        }
        TypNode::Con { name, args } => {
            let args = args.as_slice();
            match args_of(typ, *name) {
                None => Ok(false),
                Some(types) => {
                    let matches = match_types(alloc, args, types, binds)?;
                    Ok(matches)
                }
            }
        }
    }
}

/// Whether a map that gives the entries may make the types of the declared ones; if so, the entries grow by that.
#[cycle(match_typ)]
fn match_types(
    alloc: Global,
    declared: &[Typ],
    types: &[Typ],
    binds: &mut TypMap,
) -> Result<bool, AllocError>
    ensures { IfOk result (IsMatching (λ typs. typs_instance typs (typs_of declared.now) ≡ typs_of types.now) (all_schematics (typs_of declared.now)) binds.old binds.new) }
{
    if declared.len() != types.len() {
        return Ok(false);
    }
    for i in 0..declared.len() {
        let (first, second) = (&declared[i], &types[i]);
        let can = match_typ(alloc, first, second, binds)?;
        if !can {
            return Ok(false);
        }
    }
    Ok(true)
}
