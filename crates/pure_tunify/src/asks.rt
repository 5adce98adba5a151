//! What a sort asks of the arguments of a constructor, and of the variables of a type.
ghost use Rattle.std.specs.Prelude.{◌≡◌, [], ◌++◌, map, length, IfOk, IfSome, MatchBool, MatchOption};
ghost use Rattle.pure_text.specs.Lists.{Each};
ghost use Rattle.pure_definitions.specs.Types.Typ.{typs_of};
ghost use Rattle.pure_tunify.specs.Occurrences.{schematics, schematics_of};
ghost use Rattle.pure_tunify.specs.Asking.{asked_variable};
ghost use Rattle.pure_tunify.specs.Asks.{AreUnions, AreAskedOfArguments, HasNoSuchArguments, AreAsked, HasNoInstance, AskMore, AllAskMore, HaveNoInstances};

use pure_order::Order;
use pure_typ::{Name, Sort, Typ, TypNode};
use std::alloc::{AllocError, Global};

/// A sort that is asked of a schematic type variable, beside its own.
#[derive(Debug, Drop)]
pub struct Asked {
    pub name: Name,
    pub index: u32,
    pub sort: Sort,
    pub asked: Sort,
}

/// The unions of the sorts at each place of two lists.
fn unions(alloc: Global, left: &[Sort], right: &[Sort]) -> Result<Vec<Sort>, AllocError>
    requires { length left.now ≡ length right.now }
    ensures { IfOk result (λ sorts. AreUnions left.now right.now sorts.items) }
{
    let mut sorts = Vec::new(alloc);
    for i in 0..left.len() {
        let (first, second) = (&left[i], &right[i]);
        sorts.push(first.union(alloc, second)?)?;
    }
    Ok(sorts)
}

/// So many sorts without classes.
fn no_sorts(alloc: Global, count: usize) -> Result<Vec<Sort>, AllocError>
    ensures long { IfOk result (λ sorts. length sorts.items ≡ count) }
    ensures empty { IfOk result (λ sorts. Each (λ s. s ≡ []) sorts.items) }
{
    let mut sorts = Vec::new(alloc);
    for _ in 0..count {
        sorts.push(Sort::empty())?;
    }
    Ok(sorts)
}

/// The sorts that a sort asks of so many arguments of a constructor: a type of the constructor is of the sort exactly
/// where its arguments are of these. None exactly where with so many arguments no type of the constructor is.
pub fn asked_of_arguments(
    order: &Order,
    alloc: Global,
    con: Name,
    sort: &Sort,
    count: usize,
) -> Result<Option<Vec<Sort>>, AllocError>
    ensures { IfOk result (λ answer. MatchOption answer (HasNoSuchArguments order.now con sort.now count) (λ sorts. AreAskedOfArguments order.now con sort.now count sorts.items)) }
{
    let mut sorts = no_sorts(alloc, count)?;
    for class in sort.classes() {
        let Some(domains) = order.domains(con, *class) else {
            return Ok(None);
        };
        if domains.len() != count {
            return Ok(None);
        }
        sorts = unions(alloc, sorts.as_slice(), domains)?;
    }
    Ok(Some(sorts))
}

/// Adds what a sort asks of the variables of a type, a whole sort at a time; false exactly where no instance is of the sort.
#[cycle(ask)]
fn ask(
    order: &Order,
    alloc: Global,
    t: &Typ,
    sort: &Sort,
    asked: &mut Vec<Asked>,
) -> Result<bool, AllocError>
    ensures { IfOk result (λ can. MatchBool can
        (AskMore order.now t.now sort.now asked.old.items asked.new.items × (map asked_variable asked.new.items ≡ map asked_variable asked.old.items ++ schematics t.now))
        (HasNoInstance order.now t.now sort.now)) }
{
    match &t.node {
        TypNode::TFree { sort: own, .. } => Ok(order.sort_below(own, sort)),
        TypNode::TVar {
            name,
            index,
            sort: own,
        } => {
            asked.push(Asked {
                name: *name,
                index: *index,
                sort: own.copy(alloc)?,
                asked: sort.copy(alloc)?,
            })?;
            Ok(true)
        }
        TypNode::Con { name, args } => {
            let args = args.as_slice();
            let found = asked_of_arguments(order, alloc, *name, sort, args.len())?;
            match found {
                None => Ok(false),
                Some(sorts) => {
                    let can = ask_each(order, alloc, args, sorts.as_slice(), asked)?;
                    Ok(can)
                }
            }
        }
    }
}

/// Adds what sorts ask of the variables of types, each of its own; false exactly where no instances are of them.
#[cycle(ask)]
fn ask_each(
    order: &Order,
    alloc: Global,
    types: &[Typ],
    sorts: &[Sort],
    asked: &mut Vec<Asked>,
) -> Result<bool, AllocError>
    requires { length types.now ≡ length sorts.now }
    ensures { IfOk result (λ can. MatchBool can
        (AllAskMore order.now types.now sorts.now asked.old.items asked.new.items × (map asked_variable asked.new.items ≡ map asked_variable asked.old.items ++ schematics_of (typs_of types.now)))
        (HaveNoInstances order.now types.now sorts.now)) }
{
    for i in 0..types.len() {
        let (typ, sort) = (&types[i], &sorts[i]);
        let can = ask(order, alloc, typ, sort, asked)?;
        if !can {
            return Ok(false);
        }
    }
    Ok(true)
}

/// What a sort asks of the schematic variables of a type: an instance by a substitution is of the sort exactly where each
/// variable's image is of what is asked of it. The variables stand in order of occurrence. None exactly where no instance is
/// of the sort.
pub fn asked_of(
    order: &Order,
    alloc: Global,
    t: &Typ,
    sort: &Sort,
) -> Result<Option<Vec<Asked>>, AllocError>
    ensures asked { IfOk result (λ answer. MatchOption answer (HasNoInstance order.now t.now sort.now) (λ asked. AreAsked order.now t.now sort.now asked.items)) }
    ensures in_order { IfOk result (λ answer. IfSome answer (λ asked. map asked_variable asked.items ≡ schematics t.now)) }
{
    let mut asked = Vec::new(alloc);
    let can = ask(order, alloc, t, sort, &mut asked)?;
    if can { Ok(Some(asked)) } else { Ok(None) }
}
