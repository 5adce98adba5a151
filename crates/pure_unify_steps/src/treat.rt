//! The treatment of a pair: the first rule that applies to it.
ghost use Rattle.std.specs.Prelude.{IfOk};
ghost use Rattle.pure_unify_definitions.specs.Treatment.{AreOfOneTyp, ArePastVariables, IsTreatment};
ghost use Rattle.pure_unify_nodes.specs.Long.{IsLongSide};
ghost use Rattle.pure_unify_steps.specs.Treated.{seen, AreCompared, IsConstant, IsConstantTyp, IsHeadsTreatment};

use crate::bare::treat_variables;
use pure_term::{Term, TermBind, TermNode, Typ};
use pure_theorem::{are_same, are_same_typs, typ_of_typed};
use pure_unify_nodes::have_one_typ;
use pure_unify_sides::{Heads, compared_heads, head, is_flexible};
use std::alloc::{AllocError, Global};

/// What is done with a pair: it is dropped, its sides' types are unified, the node fails, a variable is set and the pair goes, the pair is split into those of the arguments, the types of the heads are unified and it is split then, or it is left.
#[derive(Drop)]
pub enum Treatment {
    Dropped,
    Differ((Typ, Typ)),
    Fail,
    Put(TermBind),
    Split,
    Unify((Typ, Typ)),
    Leave,
}

/// The types of the sides, where they differ.
fn differing_typs(alloc: Global, l: &Term, r: &Term) -> Result<Option<(Typ, Typ)>, AllocError>
    requires left { IsLongSide l.now }
    requires right { IsLongSide r.now }
    ensures { IfOk result (AreCompared l.now r.now) }
{
    if have_one_typ(l, r) {
        return Ok(None);
    }
    let left = typ_of_typed(alloc, l)?;
    let right = typ_of_typed(alloc, r)?;
    if are_same_typs(&left, &right) {
        return Ok(None);
    }
    Ok(Some((left, right)))
}

/// The type of a constant.
fn constant_typ(alloc: Global, t: &Term) -> Result<Typ, AllocError>
    requires { IsConstant t.now }
    ensures { IfOk result (IsConstantTyp t.now) }
{
    match &t.node {
        TermNode::Const { typ, .. } => Ok(typ.copy(alloc)?),
        _ => unreachable!(),
    }
}

/// The treatment of rigid sides with these heads.
fn treat_heads(alloc: Global, h: &Term, k: &Term) -> Result<Treatment, AllocError>
    ensures { IfOk result (IsHeadsTreatment h.now k.now) }
{
    match compared_heads(h, k) {
        Heads::Same => Ok(Treatment::Split),
        Heads::Apart => Ok(Treatment::Fail),
        Heads::Constants => {
            let left = constant_typ(alloc, h)?;
            let right = constant_typ(alloc, k)?;
            Ok(Treatment::Unify((left, right)))
        }
    }
}

/// The treatment of sides to which the rule of bare variables doesn't apply.
fn treat_others(alloc: Global, l: &Term, r: &Term) -> Result<Treatment, AllocError>
    ensures { IfOk result (λ how. ArePastVariables l.now r.now → IsTreatment l.now r.now (seen how)) }
{
    if is_flexible(l) {
        return Ok(Treatment::Leave);
    }
    if is_flexible(r) {
        return Ok(Treatment::Leave);
    }
    let how = treat_heads(alloc, head(l), head(r))?;
    Ok(how)
}

/// The treatment of sides that differ and are of one type.
fn treat_same_typ(alloc: Global, l: &Term, r: &Term) -> Result<Treatment, AllocError>
    requires left { IsLongSide l.now }
    requires right { IsLongSide r.now }
    requires typed { AreOfOneTyp l.now r.now }
    ensures { IfOk result (λ how. IsTreatment l.now r.now (seen how)) }
{
    match treat_variables(alloc, l, r)? {
        Some(how) => Ok(how),
        None => treat_others(alloc, l, r),
    }
}

/// The treatment of a pair with these sides: the first rule that applies to it.
pub fn treatment_of(alloc: Global, l: &Term, r: &Term) -> Result<Treatment, AllocError>
    requires left { IsLongSide l.now }
    requires right { IsLongSide r.now }
    ensures { IfOk result (λ how. IsTreatment l.now r.now (seen how)) }
{
    if are_same(l, r) {
        return Ok(Treatment::Dropped);
    }
    match differing_typs(alloc, l, r)? {
        Some(typs) => Ok(Treatment::Differ(typs)),
        None => treat_same_typ(alloc, l, r),
    }
}
