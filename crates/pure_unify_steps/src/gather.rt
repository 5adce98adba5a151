//! The schematic variables of a node, and whether a type map makes two of them the same.
ghost use Rattle.std.specs.Prelude.{◌≡◌, ◌++◌, ◌∷◌, [], List, map, IfOk, OnOk, MatchBool};
ghost use Rattle.pure_text.specs.Lists.{EachTwo};
ghost use Rattle.pure_definitions.specs.Terms.Subst.{typ_image, retyped_variable, term_variable};
ghost use Rattle.pure_unify_definitions.specs.Fronts as fronts;
ghost use Rattle.pure_unify_definitions.specs.Node as node;
ghost use Rattle.pure_unify_definitions.specs.Retyping.{MakesTwoSame};
ghost use Rattle.pure_unify_steps.specs.Held.{IsSetting};
ghost use Rattle.pure_unify_steps.specs.Gathered.{gathered, IsSameAs, HasSame};

use crate::node::Setting;
use pure_term::{Term, TermBind, TermMap, TermNode, TypMap, index_above_of};
use pure_theorem::{Pair, are_same};
use pure_typ::instance_of;
use std::alloc::{AllocError, Global};

/// Puts the schematic variables of the term behind the list, in order of occurrence.
fn push_variables(alloc: Global, list: &mut Vec<Term>, t: &Term) -> Result<(), AllocError>
    ensures { OnOk result (list.new.items ≡ list.old.items ++ fronts.variables t.now) }
{
    if index_above_of(t) == 0 {
        return Ok(());
    }
    match &t.node {
        TermNode::Const { .. } => Ok(()),
        TermNode::Free { .. } => Ok(()),
        TermNode::Var { .. } => {
            list.push(t.copy(alloc)?)?;
            Ok(())
        }
        TermNode::Bound { .. } => Ok(()),
        TermNode::Abs { body, .. } => {
            push_variables(alloc, list, body)?;
            Ok(())
        }
        TermNode::App { fun, arg, .. } => {
            push_variables(alloc, list, fun)?;
            push_variables(alloc, list, arg)?;
            Ok(())
        }
    }
}

/// The same of pairs.
fn push_pair_variables(
    alloc: Global,
    list: &mut Vec<Term>,
    pairs: &[Pair],
) -> Result<(), AllocError>
    ensures { OnOk result (list.new.items ≡ list.old.items ++ fronts.pair_variables pairs.now) }
{
    for pair in pairs {
        push_variables(alloc, list, &pair.left)?;
        push_variables(alloc, list, &pair.right)?;
    }
    Ok(())
}

/// The variable with its type under the map.
fn retyped(alloc: Global, v: &Term, typs: &TypMap) -> Result<Term, AllocError>
    ensures { IfOk result (λ t. t ≡ retyped_variable (typ_image typs.now) v.now) }
{
    match &v.node {
        TermNode::Const { .. } => Ok(v.copy(alloc)?),
        TermNode::Free { name, typ } => {
            let typ = instance_of(alloc, typ, typs)?;
            let node = TermNode::Free { name: *name, typ };
            Ok(Term { node })
        }
        TermNode::Var { name, index, typ } => {
            let typ = instance_of(alloc, typ, typs)?;
            let node = TermNode::Var {
                name: *name,
                index: *index,
                typ,
            };
            Ok(Term { node })
        }
        TermNode::Bound { .. } => Ok(v.copy(alloc)?),
        TermNode::Abs { .. } => Ok(v.copy(alloc)?),
        TermNode::App { .. } => Ok(v.copy(alloc)?),
    }
}

/// The variables with their types under the map.
fn retyped_all(alloc: Global, list: &[Term], typs: &TypMap) -> Result<Vec<Term>, AllocError>
    ensures { IfOk result (λ made. made.items ≡ map (retyped_variable (typ_image typs.now)) list.now) }
{
    let mut made = Vec::with_capacity(alloc, list.len())?;
    for v in list {
        made.push(retyped(alloc, v, typs)?)?;
    }
    Ok(made)
}

/// The variable that an entry sets.
fn variable_of(alloc: Global, bind: &TermBind) -> Result<Term, AllocError>
    ensures { IfOk result (λ t. t ≡ term_variable bind.now) }
{
    let node = TermNode::Var {
        name: bind.name,
        index: bind.index,
        typ: bind.typ.copy(alloc)?,
    };
    Ok(Term { node })
}

/// Puts the variables that the map's entries set, each with those of its image, behind the list.
fn push_entries(alloc: Global, list: &mut Vec<Term>, terms: &TermMap) -> Result<(), AllocError>
    ensures { OnOk result (list.new.items ≡ list.old.items ++ node.entry_variables terms.now) }
{
    for bind in terms.binds() {
        list.push(variable_of(alloc, bind)?)?;
        push_variables(alloc, list, &bind.image)?;
    }
    Ok(())
}

/// The variables with one more setting.
fn gather_one(alloc: Global, list: Vec<Term>, setting: &Setting) -> Result<Vec<Term>, AllocError>
    ensures { (s : node.Setting) → IsSetting setting.now s → IfOk result (λ made. made.items ≡ gathered list.items (s ∷ [])) }
{
    let mut list = list;
    match setting {
        Setting::OfTyps(typs) => Ok(retyped_all(alloc, &list, typs)?),
        Setting::OfTerm(terms) => {
            push_entries(alloc, &mut list, terms)?;
            Ok(list)
        }
    }
}

/// The variables that the settings set and those of their images.
fn gather(alloc: Global, settings: &[Setting]) -> Result<Vec<Term>, AllocError>
    ensures { (ss : List node.Setting) → EachTwo IsSetting settings.now ss → IfOk result (λ made. made.items ≡ gathered [] ss) }
{
    let mut list = Vec::new(alloc);
    for setting in settings {
        let more = gather_one(alloc, list, setting)?;
        list = more;
    }
    Ok(list)
}

/// Whether this is another variable, and comes to the same under the map as the first one, of which `after` comes.
fn is_same_as(
    alloc: Global,
    typs: &TypMap,
    v: &Term,
    after: &Term,
    other: &Term,
) -> Result<bool, AllocError>
    requires { after.now ≡ retyped_variable (typ_image typs.now) v.now }
    ensures { IfOk result (λ same. MatchBool same (IsSameAs (typ_image typs.now) v.now other.now) (¬ IsSameAs (typ_image typs.now) v.now other.now)) }
{
    if are_same(v, other) {
        return Ok(false);
    }
    let image = retyped(alloc, other, typs)?;
    if are_same(after, &image) {
        return Ok(true);
    }
    Ok(false)
}

/// Whether another variable of the list comes to the same under the map as this one.
fn has_same(alloc: Global, typs: &TypMap, v: &Term, list: &[Term]) -> Result<bool, AllocError>
    ensures { IfOk result (λ same. MatchBool same (HasSame (typ_image typs.now) v.now list.now) (¬ HasSame (typ_image typs.now) v.now list.now)) }
{
    let after = retyped(alloc, v, typs)?;
    for other in list {
        if is_same_as(alloc, typs, v, &after, other)? {
            return Ok(true);
        }
    }
    Ok(false)
}

/// Whether the map makes two different variables of the list the same.
fn makes_two_same(alloc: Global, typs: &TypMap, list: &[Term]) -> Result<bool, AllocError>
    ensures { IfOk result (λ same. MatchBool same (MakesTwoSame (typ_image typs.now) list.now) (¬ MakesTwoSame (typ_image typs.now) list.now)) }
{
    for v in list {
        if has_same(alloc, typs, v, list)? {
            return Ok(true);
        }
    }
    Ok(false)
}

/// Whether the map makes two different variables of the node with these pairs and settings the same.
pub fn makes_same(
    alloc: Global,
    typs: &TypMap,
    pairs: &[Pair],
    settings: &[Setting],
) -> Result<bool, AllocError>
    ensures { (n : node.Node) → pairs.now ≡ n.pairs → EachTwo IsSetting settings.now n.path.settings
        → IfOk result (λ same. MatchBool same (MakesTwoSame (typ_image typs.now) (node.node_variables n)) (¬ MakesTwoSame (typ_image typs.now) (node.node_variables n))) }
{
    let mut list = gather(alloc, settings)?;
    push_pair_variables(alloc, &mut list, pairs)?;
    let same = makes_two_same(alloc, typs, &list)?;
    Ok(same)
}
