//! One turn of making a pair equal: a variable is set, or arguments are looked at.
ghost use Rattle.std.specs.Prelude.{◌≡◌, ◌∷◌, map, reverse, IfOk, MatchBool};
ghost use Rattle.std.specs.Bool.{OnTrue};
ghost use Rattle.pure_text.specs.Lists.{IsIn, Each};
ghost use Rattle.pure_definitions.specs.Terms.Subst.{typ_variable, typ_instance};
ghost use Rattle.pure_definitions.specs.Terms.Limits.{IsWithinTyp};
ghost use Rattle.pure_term_laws.specs.LawsOccurs.{IsTypVariable};
ghost use Rattle.pure_tunify.specs.Unifiers.{IsFresh, IsOld, IsOldPair};
ghost use Rattle.pure_tunify.specs.Asks.{HasNoInstance};
ghost use Rattle.pure_tunify.specs.Steps.{pair};
ghost use Rattle.pure_tunify.specs.Settings.{composed, IsTidy};
ghost use Rattle.pure_tunify.specs.Procedure.{IsSchematic};
ghost use Rattle.pure_tunify.specs.Meeting as spec;
ghost use Rattle.pure_tunify.specs.Meeting.{IsTreating, IsTurned};
ghost use Rattle.pure_tunify.specs.Working.{IsUntouched, IsSetTo, CannotBeSetTo};

use crate::asks::asked_of_arguments;
use crate::free::is_free;
use crate::meeting::{
    Meeting, Turned, arguments, is_schematic, meeting_of, push_arguments, put_back,
};
use crate::narrow::narrow;
use crate::occurs::variable_occurs;
use crate::pair::TypPair;
use crate::reached::occurs_resolved;
use crate::resolve::{Resolved, resolve_measured};
use crate::settings::Settings;
use pure_order::Order;
use pure_typ::{MAX_DEPTH, MAX_SIZE, Sort, Typ, TypBind, TypNode};
use std::alloc::{AllocError, Global};

/// Whether no type of this constructor, with so many arguments, is of the sort; false for variables.
fn is_out_of_sort(
    order: &Order,
    alloc: Global,
    settings: &Settings,
    sort: &Sort,
    t: &Typ,
) -> Result<bool, AllocError>
    ensures { IfOk result (λ out. OnTrue out (HasNoInstance order.now (typ_instance (composed settings.now.sets) t.now) sort.now)) }
{
    match &t.node {
        TypNode::TFree { .. } => Ok(false),
        TypNode::TVar { .. } => Ok(false),
        TypNode::Con { name, args } => {
            let args = args.as_slice();
            let found = asked_of_arguments(order, alloc, *name, sort, args.len())?;
            Ok(found.is_none())
        }
    }
}

/// What comes of a variable and a type that isn't written out: never where the variable occurs in it, or its constructor is
/// never of the variable's sort; else the type is beyond the limits.
fn treat_unwritten(
    order: &Order,
    alloc: Global,
    settings: &Settings,
    variable: &Typ,
    t: &Typ,
) -> Result<Turned, AllocError>
    requires schematic { IsSchematic variable.now }
    requires absent { ¬ IsIn variable.now (map typ_variable settings.now.sets) }
    requires beyond { ¬ IsWithinTyp (typ_instance (composed settings.now.sets) t.now) }
    ensures { IfOk result (IsTreating order.now settings.now settings.now variable.now (typ_instance (composed settings.now.sets) t.now)) }
{
    let TypNode::TVar { sort, .. } = &variable.node else {
        return Err(AllocError);
    };
    let occurs = occurs_resolved(settings, alloc, variable, t)?;
    if occurs {
        return Ok(Turned::Never);
    }
    let out = is_out_of_sort(order, alloc, settings, sort, t)?;
    if out {
        return Ok(Turned::Never);
    }
    Ok(Turned::Large)
}

/// Sets a schematic variable to another type, with all set variables replaced and narrowed to the variable's sort; never
/// where the variable occurs in it, or no instance of it is of the sort. A type that is too large is left as it is.
fn treat(
    order: &Order,
    alloc: Global,
    settings: &mut Settings,
    variable: &Typ,
    other: &Typ,
) -> Result<Turned, AllocError>
    requires schematic { IsSchematic variable.now }
    requires absent { ¬ IsIn variable.now (map typ_variable settings.old.sets) }
    requires old { IsOldPair settings.old.index settings.old.next (pair variable.now other.now) }
    ensures { IfOk result (IsTreating order.now settings.old settings.new variable.now (typ_instance (composed settings.old.sets) other.now)) }
{
    let TypNode::TVar { name, index, sort } = &variable.node else {
        return Err(AllocError);
    };
    let _ = settings.next();
    let found = resolve_measured(settings, alloc, other, MAX_SIZE, MAX_DEPTH)?;
    let Some(resolved) = found else {
        let turned = treat_unwritten(order, alloc, settings, variable, other)?;
        return Ok(turned);
    };
    let Resolved { typ: t, .. } = resolved;
    if variable_occurs(variable, &t) {
        return Ok(Turned::Never);
    }
    let own = sort.copy(alloc)?;
    let narrowed = narrow(order, alloc, settings, sort, t)?;
    let Some(image) = narrowed else {
        return Ok(Turned::Never);
    };
    let next = settings.next();
    let bind = TypBind {
        name: *name,
        index: *index,
        sort: own,
        image,
    };
    settings.put(alloc, bind, next)?;
    Ok(Turned::Further)
}

/// Sets a schematic variable that doesn't occur in another type to this, narrowed to the variable's sort; false where no
/// instance of it is of the sort. No variable of the type is set, so that it is taken as it stands.
fn set_as_it_stands(
    order: &Order,
    alloc: Global,
    settings: &mut Settings,
    variable: Typ,
    other: Typ,
) -> Result<bool, AllocError>
    requires schematic { IsSchematic variable }
    requires absent { ¬ IsIn variable (map typ_variable settings.old.sets) }
    requires old { IsOldPair settings.old.index settings.old.next (pair variable other) }
    requires free { IsUntouched settings.old.sets variable other }
    ensures { IfOk result (λ set. MatchBool set (IsSetTo order.now settings.old settings.new variable (typ_instance (composed settings.old.sets) other)) (CannotBeSetTo order.now variable (typ_instance (composed settings.old.sets) other))) }
{
    let _ = settings.next();
    let Typ { node } = variable;
    let TypNode::TVar { name, index, sort } = node else {
        return Err(AllocError);
    };
    let narrowed = narrow(order, alloc, settings, &sort, other)?;
    let Some(image) = narrowed else {
        return Ok(false);
    };
    let next = settings.next();
    let bind = TypBind {
        name,
        index,
        sort,
        image,
    };
    settings.put(alloc, bind, next)?;
    Ok(true)
}

/// What comes of a variable that was set, or can't be.
fn turned_by(set: bool) -> Turned
    ensures { result ≡ spec.turned_by set }
{
    if set { Turned::Further } else { Turned::Never }
}

/// The variable itself, or a copy of what stands for it where it is set: no variable that is set.
fn opened_variable(settings: &Settings, alloc: Global, t: Typ) -> Result<Typ, AllocError>
    ensures same { IfOk result (λ h. typ_instance (composed settings.now.sets) h ≡ typ_instance (composed settings.now.sets) t) }
    ensures free { IfOk result (λ h. IsTypVariable h → ¬ IsIn h (map typ_variable settings.now.sets)) }
    ensures old { IfOk result (λ h. IsOld settings.now.index settings.now.next t → IsOld settings.now.index settings.now.next h) }
{
    match settings.find(&t) {
        None => Ok(t),
        Some(image) => {
            let top = settings.head(image)?;
            let copy = top.copy(alloc)?;
            Ok(copy)
        }
    }
}

/// The type itself, or a copy of what stands for it where it is a variable that is set: no variable that is set.
fn opened(settings: &Settings, alloc: Global, t: Typ) -> Result<Typ, AllocError>
    ensures same { IfOk result (λ h. typ_instance (composed settings.now.sets) h ≡ typ_instance (composed settings.now.sets) t) }
    ensures free { IfOk result (λ h. IsTypVariable h → ¬ IsIn h (map typ_variable settings.now.sets)) }
    ensures old { IfOk result (λ h. IsOld settings.now.index settings.now.next t → IsOld settings.now.index settings.now.next h) }
{
    if !is_schematic(&t) {
        return Ok(t);
    }
    let top = opened_variable(settings, alloc, t)?;
    Ok(top)
}

/// One turn at a pair of types that aren't set variables.
fn meet(
    order: &Order,
    alloc: Global,
    settings: &mut Settings,
    work: &mut Vec<TypPair>,
    left: Typ,
    right: Typ,
) -> Result<Turned, AllocError>
    requires old { IsOldPair settings.old.index settings.old.next (pair left right) }
    requires left_free { IsTypVariable left → ¬ IsIn left (map typ_variable settings.old.sets) }
    requires right_free { IsTypVariable right → ¬ IsIn right (map typ_variable settings.old.sets) }
    ensures { IfOk result (IsTurned order.now settings.old settings.new (pair left right ∷ reverse work.old.items) (reverse work.new.items)) }
{
    match meeting_of(&left, &right) {
        Meeting::Same => Ok(Turned::Further),
        Meeting::Apart => Ok(Turned::Never),
        Meeting::Left => {
            if is_free(settings, &left, &right) {
                let set = set_as_it_stands(order, alloc, settings, left, right)?;
                return Ok(turned_by(set));
            }
            let turned = treat(order, alloc, settings, &left, &right)?;
            put_back(work, left, right, turned)?;
            Ok(turned)
        }
        Meeting::Right => {
            if is_free(settings, &right, &left) {
                let set = set_as_it_stands(order, alloc, settings, right, left)?;
                return Ok(turned_by(set));
            }
            let turned = treat(order, alloc, settings, &right, &left)?;
            put_back(work, left, right, turned)?;
            Ok(turned)
        }
        Meeting::Arguments => {
            let (lefts, rights) = (arguments(&left), arguments(&right));
            push_arguments(alloc, work, lefts, rights)?;
            Ok(Turned::Further)
        }
    }
}

/// One turn at the first of the pairs that are left.
pub fn turn(
    order: &Order,
    alloc: Global,
    settings: &mut Settings,
    work: &mut Vec<TypPair>,
    first: TypPair,
) -> Result<Turned, AllocError>
    requires { IsOldPair settings.old.index settings.old.next first }
    ensures { IfOk result (IsTurned order.now settings.old settings.new (first ∷ reverse work.old.items) (reverse work.new.items)) }
{
    let TypPair { left, right } = first;
    let left = opened(settings, alloc, left)?;
    let right = opened(settings, alloc, right)?;
    let turned = meet(order, alloc, settings, work, left, right)?;
    Ok(turned)
}
