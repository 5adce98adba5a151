//! Settings put into pairs, whose sides are brought to long form.
ghost use Rattle.std.specs.Prelude.{◌≡◌, ◌≤◌, ◌++◌, ◌∷◌, [], IfOk, IfErr, IfSome, OnOk};
ghost use Rattle.std.specs.Bool.{OnFalse, OnTrue};
ghost use Rattle.pure_text.specs.Lists.{Each};
ghost use Rattle.pure_definitions.specs.Terms.Subst.{AreTypeRespecting, typ_image, term_image, inst_typ, inst_term};
ghost use Rattle.pure_unify_definitions.specs.LongSides.{Long, ComesTo, AllLong, AreLong};
ghost use Rattle.pure_unify_definitions.specs.Node as node;
ghost use Rattle.pure_unify_nodes.specs.SideAnswer.{IsTyped, IsSideAnswer, IsPairAnswer, IsSidesFault};
ghost use Rattle.pure_unify_steps.specs.Held.{IsSetting, IsTypedSetting, put_in};
ghost use Rattle.pure_unify_nodes.specs.Long.{IsLongSide, IsLongPair};

use crate::node::Setting;
use pure_norm::{NormFault, instance_long, least_index};
use pure_term::{
    Grow, Term, TermMap, TermNode, TypMap, index_above_of, inst_term, inst_typ, is_within,
};
use pure_theorem::Pair;
use pure_unify_nodes::owned_long_side;
use std::alloc::{AllocError, Global};

/// Whether an entry replaces a variable of the term, where none replaces one of an index below `least`.
fn is_touched(map: &TermMap, least: u64, t: &Term) -> bool
    requires { Each (λ b. least ≤ b.index) map.now }
    ensures { OnFalse result (inst_term (term_image map.now) t.now ≡ t.now) }
{
    if index_above_of(t) <= least {
        return false;
    }
    match &t.node {
        TermNode::Const { .. } => false,
        TermNode::Free { .. } => false,
        TermNode::Var { name, index, typ } => match map.find(*name, *index, typ) {
            Some(_) => true,
            None => false,
        },
        TermNode::Bound { .. } => false,
        TermNode::Abs { body, .. } => is_touched(map, least, body),
        TermNode::App { fun, arg, .. } => {
            is_touched(map, least, fun) || is_touched(map, least, arg)
        }
    }
}

/// The side under a type map, in long form, or what stops the search.
fn put_typs(alloc: Global, map: &TypMap, t: &Term) -> Result<Term, NormFault>
    requires { IsTyped t.now }
    ensures { IsSideAnswer (inst_typ (typ_image map.now) t.now) result }
{
    match inst_typ(alloc, t, map) {
        Ok(made) => owned_long_side(alloc, made),
        Err(Grow::Big) => Err(NormFault::Big),
        Err(Grow::Memory) => Err(NormFault::Memory),
    }
}

/// The side under a term map, in long form, where that is found within the limits by the parts in which a variable is replaced.
fn terms_found(alloc: Global, map: &TermMap, t: &Term) -> Option<Term>
    requires long { IsLongSide t.now }
    requires respecting { AreTypeRespecting map.now }
    ensures { IfSome result (λ u. ComesTo (inst_term (term_image map.now) t.now) (Long u)) }
{
    let Some(long) = instance_long(alloc, t, map) else {
        return None;
    };
    if !is_within(&long) {
        return None;
    }
    Some(long)
}

/// The same, or what stops the search.
fn put_terms(alloc: Global, map: &TermMap, t: &Term) -> Result<Term, NormFault>
    requires long { IsLongSide t.now }
    requires respecting { AreTypeRespecting map.now }
    ensures { IsSideAnswer (inst_term (term_image map.now) t.now) result }
{
    match terms_found(alloc, map, t) {
        Some(long) => Ok(long),
        None => terms_made(alloc, map, t),
    }
}

/// The same of the whole side, made and brought to long form.
fn terms_made(alloc: Global, map: &TermMap, t: &Term) -> Result<Term, NormFault>
    requires typed { IsTyped t.now }
    requires respecting { AreTypeRespecting map.now }
    ensures { IsSideAnswer (inst_term (term_image map.now) t.now) result }
{
    match inst_term(alloc, t, map) {
        Ok(made) => owned_long_side(alloc, made),
        Err(Grow::Big) => Err(NormFault::Big),
        Err(Grow::Memory) => Err(NormFault::Memory),
    }
}

/// Whether the side is known to stay as it is: no entry replaces a variable of it, or it has no schematic ones.
fn stays(setting: &Setting, t: &Term) -> bool
    ensures { OnTrue result ((s : node.Setting) → IsSetting setting.now s → node.with_setting s t.now ≡ t.now) }
{
    match setting {
        Setting::OfTyps(_) => {
            if index_above_of(t) > 0 {
                return false;
            }
            true
        }
        Setting::OfTerm(map) => {
            if is_touched(map, least_index(map), t) {
                return false;
            }
            true
        }
    }
}

/// The side with the setting put in, made and brought to long form, or what stops the search.
fn put_made(alloc: Global, setting: &Setting, t: &Term) -> Result<Term, NormFault>
    requires long { IsLongSide t.now }
    requires respecting { IsTypedSetting setting.now }
    ensures answer { (s : node.Setting) → IsSetting setting.now s → IsSideAnswer (node.with_setting s t.now) result }
    ensures long { IfOk result IsLongSide }
{
    match setting {
        Setting::OfTyps(map) => put_typs(alloc, map, t),
        Setting::OfTerm(map) => put_terms(alloc, map, t),
    }
}

/// The same, but a side that stays as it is is copied.
fn put_side(alloc: Global, setting: &Setting, t: &Term) -> Result<Term, NormFault>
    requires long { IsLongSide t.now }
    requires respecting { IsTypedSetting setting.now }
    ensures answer { (s : node.Setting) → IsSetting setting.now s → IsSideAnswer (node.with_setting s t.now) result }
    ensures long { IfOk result IsLongSide }
{
    if stays(setting, t) {
        let copy = t.copy(alloc)?;
        return Ok(copy);
    }
    put_made(alloc, setting, t)
}

/// The same of a side that is handed over: one that stays as it is is handed back.
fn put_owned(alloc: Global, setting: &Setting, t: Term) -> Result<Term, NormFault>
    requires long { IsLongSide t }
    requires respecting { IsTypedSetting setting.now }
    ensures answer { (s : node.Setting) → IsSetting setting.now s → IsSideAnswer (node.with_setting s t) result }
    ensures long { IfOk result IsLongSide }
{
    if stays(setting, &t) {
        return Ok(t);
    }
    put_made(alloc, setting, &t)
}

/// The pair with the setting put in, in long form, or what the first side that stops the search stops it by.
fn put_pair(alloc: Global, setting: &Setting, pair: &Pair) -> Result<Pair, NormFault>
    requires long { IsLongPair pair.now }
    requires respecting { IsTypedSetting setting.now }
    ensures answer { (s : node.Setting) → IsSetting setting.now s → IsPairAnswer (put_in s pair.now) result }
    ensures long { IfOk result IsLongPair }
{
    let left = match put_side(alloc, setting, &pair.left) {
        Ok(left) => left,
        Err(fault) => return Err(fault),
    };
    match put_side(alloc, setting, &pair.right) {
        Ok(right) => Ok(Pair { left, right }),
        Err(fault) => Err(fault),
    }
}

/// Puts the pair behind those of the list.
pub fn add_pair(list: &mut Vec<Pair>, pair: Pair) -> Result<(), AllocError>
    ensures { OnOk result (list.new.items ≡ list.old.items ++ pair ∷ []) }
{
    list.push(pair)?;
    Ok(())
}

/// The pairs with the setting put in, in long form, or what the first side that stops the search stops it by.
pub fn put_pairs(alloc: Global, setting: &Setting, pairs: &[Pair]) -> Result<Vec<Pair>, NormFault>
    requires long { Each IsLongPair pairs.now }
    requires respecting { IsTypedSetting setting.now }
    ensures ok { (s : node.Setting) → IsSetting setting.now s → IfOk result (λ made. AreLong (node.with_setting_put s pairs.now) (AllLong made.items)) }
    ensures fault { (s : node.Setting) → IsSetting setting.now s → IfErr result (IsSidesFault (node.with_setting_put s pairs.now)) }
    ensures long { IfOk result (λ made. Each IsLongPair made.items) }
{
    let mut made = Vec::new(alloc);
    for pair in pairs {
        match put_pair(alloc, setting, pair) {
            Ok(one) => add_pair(&mut made, one)?,
            Err(fault) => return Err(fault),
        }
    }
    Ok(made)
}

/// The same of a pair that is handed over.
fn put_owned_pair(alloc: Global, setting: &Setting, pair: Pair) -> Result<Pair, NormFault>
    requires long { IsLongPair pair }
    requires respecting { IsTypedSetting setting.now }
    ensures answer { (s : node.Setting) → IsSetting setting.now s → IsPairAnswer (put_in s pair) result }
    ensures long { IfOk result IsLongPair }
{
    let Pair { left, right } = pair;
    let left = match put_owned(alloc, setting, left) {
        Ok(left) => left,
        Err(fault) => return Err(fault),
    };
    match put_owned(alloc, setting, right) {
        Ok(right) => Ok(Pair { left, right }),
        Err(fault) => Err(fault),
    }
}

/// The same of pairs that are handed over: sides that stay as they are aren't copied.
pub fn put_owned_pairs(
    alloc: Global,
    setting: &Setting,
    pairs: Vec<Pair>,
) -> Result<Vec<Pair>, NormFault>
    requires long { Each IsLongPair pairs.items }
    requires respecting { IsTypedSetting setting.now }
    ensures ok { (s : node.Setting) → IsSetting setting.now s → IfOk result (λ made. AreLong (node.with_setting_put s pairs.items) (AllLong made.items)) }
    ensures fault { (s : node.Setting) → IsSetting setting.now s → IfErr result (IsSidesFault (node.with_setting_put s pairs.items)) }
    ensures long { IfOk result (λ made. Each IsLongPair made.items) }
{
    let mut made = Vec::new(alloc);
    for pair in pairs {
        match put_owned_pair(alloc, setting, pair) {
            Ok(one) => add_pair(&mut made, one)?,
            Err(fault) => return Err(fault),
        }
    }
    Ok(made)
}
