//! Terms under a unifier, in long form.
ghost use Rattle.std.specs.Prelude.{◌≡◌, [], ◌∷◌, ◌++◌, map, OnOk, IfOk, IfErr, IsTrue, Ok, Err};
ghost use Rattle.pure_text.specs.Lists.{Each};
ghost use Rattle.pure_definitions.specs.Declarations.Decl.{algebra_of};
ghost use Rattle.pure_definitions.specs.Terms.Subst.{term_image, inst_term, AreTypeRespecting};
ghost use Rattle.pure_definitions.specs.Reduction.Eta.{IsLongForm};
ghost use Rattle.pure_logic.specs.Laws.Maps.{instantiated};
ghost use Rattle.pure_inst.specs.Image.{IsMapAnswer};
ghost use Rattle.pure_inst.specs.Instance.{GivesInstance, RefusesInstance};
ghost use Rattle.pure_theorem.specs.Shapes.{IsTyped};
ghost use Rattle.pure_unify_definitions.specs.LongSides.{Long, ComesTo};
ghost use Rattle.pure_resolve.specs.Below.{IsBelowSet};
ghost use Rattle.pure_resolve.specs.Goals.{IsLongSubgoal};
ghost use Rattle.pure_resolve.specs.Settled.{ArePlain, IsInstanceAnswer, IsComeAnswer, IsComeBehind};

use crate::begin::long_given;
use crate::stay::{least_set, stays};
use pure_goal_steps::StepFault;
use pure_inst::{InstFault, Ordered, instantiate};
use pure_term::{Term, TermBind, TermMap, TypMap, is_within, replaced};
use pure_theorem::{Thm, has_typ};
use std::alloc::{AllocError, Global};
use std::sync::Arc;

/// The theorem of the proposition alone, of which only instances are made.
fn alone(alloc: Global, prop: Term) -> Thm
    ensures { result ≡ record { hyps = []; pairs = []; prop = prop; rests = [] } }
{
    let hyps = Vec::new(alloc);
    let pairs = Vec::new(alloc);
    let rests = Vec::new(alloc);
    Thm {
        hyps,
        pairs,
        prop,
        rests,
    }
}

/// The theorem's proposition.
fn proposition_of(th: Thm) -> Term
    ensures { result ≡ th.prop }
{
    let Thm { prop, .. } = th;
    prop
}

/// Lets the theorem go.
fn discard(_th: Thm) {}

/// The instance of the proposition, as a theorem.
fn image_of<B: Ordered>(
    alloc: Global,
    thy: &B,
    typs: &TypMap,
    terms: &TermMap,
    prop: Term,
) -> Result<Thm, InstFault>
    ensures { let algebra = algebra_of (B.content thy.now).declarations in IsMapAnswer (GivesInstance algebra typs.now terms.now (record { hyps = []; pairs = []; prop = prop; rests = [] })) (RefusesInstance algebra typs.now terms.now) result }
{
    let th = alone(alloc, prop);
    let image = instantiate(alloc, thy, typs, terms, &th);
    discard(th);
    image
}

/// The instance of the term by the unifier's maps, in place of the term. A map that isn't of its variables' sorts and types, as no unifier is, is want of memory.
pub fn instance_of<B: Ordered>(
    alloc: Global,
    thy: &B,
    typs: &TypMap,
    terms: &TermMap,
    t: Term,
) -> Result<Term, StepFault>
    ensures { IsInstanceAnswer typs.now terms.now t result }
{
    match image_of(alloc, thy, typs, terms, t) {
        Ok(image) => Ok(proposition_of(image)),
        Err(InstFault::Big) => Err(StepFault::Big),
        Err(_) => Err(StepFault::Memory),
    }
}

/// Whether each image has its variable's type.
fn are_typed(alloc: Global, binds: &[TermBind]) -> Result<bool, AllocError>
    ensures { IfOk result (λ all. IsTrue all → AreTypeRespecting binds.now) }
{
    for bind in binds {
        if !has_typ(alloc, &bind.image, &bind.typ)? {
            return Ok(false);
        }
    }
    Ok(true)
}

/// Whether the maps are known to set no types, and to put terms of their variables' types: looked at once for so many terms.
fn are_plain_for(
    alloc: Global,
    typs: &TypMap,
    terms: &TermMap,
    count: usize,
) -> Result<bool, AllocError>
    ensures { IfOk result (λ plain. IsTrue plain → ArePlain typs.now terms.now) }
{
    if count == 0 {
        return Ok(false);
    }
    match typs.binds().split_first() {
        None => are_typed(alloc, terms.binds()),
        Some(_) => Ok(false),
    }
}

/// The term with the map's terms put in. It takes the term.
fn plain_instance(alloc: Global, terms: &TermMap, t: Term) -> Result<Term, AllocError>
    ensures { IfOk result (λ u. u ≡ inst_term (term_image terms.now) t) }
{
    let whole = Arc::new(alloc, t)?;
    let made = replaced(alloc, &whole, terms)?;
    made.copy(alloc)
}

/// The term in long form, where it may pass the limits.
fn long_within(alloc: Global, t: Term) -> Result<Term, StepFault>
    requires { IsTyped t }
    ensures { IsLongSubgoal t result }
{
    if !is_within(&t) {
        return Err(StepFault::Big);
    }
    long_given(alloc, t)
}

/// The instance of the term by a map that puts terms of their variables' types, in long form.
fn plain_settled(alloc: Global, terms: &TermMap, t: Term) -> Result<Term, StepFault>
    requires typed { IsTyped t }
    requires respecting { AreTypeRespecting terms.now }
    ensures { IsLongSubgoal (instantiated [] terms.now t) result }
{
    let image = plain_instance(alloc, terms, t)?;
    long_within(alloc, image)
}

/// The instance of the term by the unifier's maps, in long form, where it is told whether these are plain.
fn settled<B: Ordered>(
    alloc: Global,
    thy: &B,
    typs: &TypMap,
    terms: &TermMap,
    plain: bool,
    t: Term,
) -> Result<Term, StepFault>
    requires typed { IsTyped t }
    requires plain { IsTrue plain → ArePlain typs.now terms.now }
    ensures { IsLongSubgoal (instantiated typs.now terms.now t) result }
{
    if plain {
        return plain_settled(alloc, terms, t);
    }
    if stays(typs, terms, least_set(typs, terms), &t) {
        return long_given(alloc, t);
    }
    match instance_of(alloc, thy, typs, terms, t) {
        Ok(image) => long_given(alloc, image),
        Err(fault) => Err(fault),
    }
}

/// Puts the term behind those of the list.
fn put(list: &mut Vec<Term>, t: Term) -> Result<(), AllocError>
    ensures { OnOk result (list.new.items ≡ list.old.items ++ t ∷ []) }
{
    list.push(t)?;
    Ok(())
}

/// The instances of the subgoals by the unifier's maps, each in long form, in order.
fn all_settled<B: Ordered>(
    alloc: Global,
    thy: &B,
    typs: &TypMap,
    terms: &TermMap,
    subgoals: Vec<Term>,
) -> Result<Vec<Term>, StepFault>
    requires { Each IsTyped subgoals.items }
    ensures long { IfOk result (λ made. IsComeAnswer (map (instantiated typs.now terms.now) subgoals.items) (Ok made.items)) }
    ensures fault { IfErr result (λ fault. IsComeAnswer (map (instantiated typs.now terms.now) subgoals.items) (Err fault)) }
{
    let plain = are_plain_for(alloc, typs, terms, subgoals.len())?;
    let mut made = Vec::new(alloc);
    for subgoal in subgoals {
        match settled(alloc, thy, typs, terms, plain, subgoal) {
            Ok(long) => put(&mut made, long)?,
            Err(fault) => return Err(fault),
        }
    }
    Ok(made)
}

/// Whether the maps leave the term, which is in long form, as it is, so that it is the long form of its instance.
fn is_kept(typs: &TypMap, terms: &TermMap, least: u64, t: &Term) -> bool
    requires below { IsBelowSet typs.now terms.now least }
    requires long { IsLongForm t.now t.now }
    ensures { IsTrue result → ComesTo (instantiated typs.now terms.now t.now) (Long t.now) }
{
    if !stays(typs, terms, least, t) {
        return false;
    }
    is_within(t)
}

/// The instance of the term, which is in long form, by the unifier's maps, in long form. It is made anew only where a variable in it is set.
fn kept_or_settled<B: Ordered>(
    alloc: Global,
    thy: &B,
    typs: &TypMap,
    terms: &TermMap,
    least: u64,
    plain: bool,
    t: Term,
) -> Result<Term, StepFault>
    requires below { IsBelowSet typs.now terms.now least }
    requires long { IsLongForm t t }
    requires plain { IsTrue plain → ArePlain typs.now terms.now }
    ensures { IsLongSubgoal (instantiated typs.now terms.now t) result }
{
    if is_kept(typs, terms, least, &t) {
        return Ok(t);
    }
    settled(alloc, thy, typs, terms, plain, t)
}

/// Behind terms in long form, those of the instances of the others by the unifier's maps, in order. The others are in long form.
fn others_settled<B: Ordered>(
    alloc: Global,
    thy: &B,
    typs: &TypMap,
    terms: &TermMap,
    front: Vec<Term>,
    others: Vec<Term>,
) -> Result<Vec<Term>, StepFault>
    requires { Each (λ A. IsLongForm A A) others.items }
    ensures long { IfOk result (λ made. IsComeBehind (instantiated typs.now terms.now) front.items others.items (Ok made.items)) }
    ensures fault { IfErr result (λ fault. IsComeBehind (instantiated typs.now terms.now) front.items others.items (Err fault)) }
{
    let plain = are_plain_for(alloc, typs, terms, others.len())?;
    let least = least_set(typs, terms);
    let mut made = front;
    for other in others {
        match kept_or_settled(alloc, thy, typs, terms, least, plain, other) {
            Ok(long) => put(&mut made, long)?,
            Err(fault) => return Err(fault),
        }
    }
    Ok(made)
}

/// The instances of the new subgoals and of the others, which are in long form, by the unifier's maps, each in long form, in order.
pub fn both_settled<B: Ordered>(
    alloc: Global,
    thy: &B,
    typs: &TypMap,
    terms: &TermMap,
    premises: Vec<Term>,
    others: Vec<Term>,
) -> Result<Vec<Term>, StepFault>
    requires typed { Each IsTyped premises.items }
    requires long { Each (λ A. IsLongForm A A) others.items }
    ensures long { IfOk result (λ made. IsComeAnswer (map (instantiated typs.now terms.now) (premises.items ++ others.items)) (Ok made.items)) }
    ensures fault { IfErr result (λ fault. IsComeAnswer (map (instantiated typs.now terms.now) (premises.items ++ others.items)) (Err fault)) }
{
    match all_settled(alloc, thy, typs, terms, premises) {
        Ok(front) => others_settled(alloc, thy, typs, terms, front, others),
        Err(fault) => Err(fault),
    }
}
