//! Certified constants.
ghost use Rattle.std.specs.Prelude.{◌≡◌, ◌↔◌, List, IsTrue, MatchOption, IfOk};
ghost use Rattle.pure_definitions.specs.Types.Order.{IsOfSort};
ghost use Rattle.pure_definitions.specs.Terms.Subst.{IsTypMap, AreSortRespecting};
ghost use Rattle.pure_definitions.specs.Declarations.Decl.{Decl, algebra_of};
ghost use Rattle.pure_certify.specs.Tables.{IsConstOf};
ghost use Rattle.pure_certify.specs.Matching.{IsFirstUnsorted};
ghost use Rattle.pure_certify.specs.Parts.{ConstPart, IsSound, HasFault};

use crate::fault::CertFault;
use crate::matching::match_typ;
use crate::tables::Tables;
use pure_order::Order;
use pure_typ::{Name, Sort, Typ, TypMap};
use std::alloc::{AllocError, Global};

/// Whether the type is of the sort. A sort without classes asks for no walk.
fn is_of_sort(order: &Order, typ: &Typ, sort: &Sort) -> bool
    ensures { IsTrue result ↔ IsOfSort order.now typ.now sort.now }
{
    let wanted = sort.classes();
    if wanted.len() == 0 {
        return true;
    }
    order.of_sort(typ, sort)
}

/// The variable of the first entry whose image isn't of its sort.
fn first_unsorted(order: &Order, binds: &TypMap) -> Option<Name>
    ensures distinct { IsTypMap binds.now }
    ensures first { MatchOption result (AreSortRespecting order.now binds.now) (IsFirstUnsorted order.now binds.now) }
{
    for bind in binds.binds() {
        if !is_of_sort(order, &bind.image, &bind.sort) {
            return Some(bind.name);
        }
    }
    None
}

/// The fault of a constant of this declared type with this type, beside those of its type.
fn fault_of_instance(
    alloc: Global,
    order: &Order,
    name: Name,
    declared: &Typ,
    typ: &Typ,
) -> Result<Option<CertFault>, AllocError>
    ensures { IfOk result (λ fault. (ds : List Decl) → order.now ≡ algebra_of ds → IsConstOf ds name declared.now
        → MatchOption fault (IsSound ds (ConstPart name typ.now)) (HasFault ds (ConstPart name typ.now))) }
{
    let mut binds = TypMap::empty(alloc);
    let can = match_typ(alloc, declared, typ, &mut binds)?;
    if !can {
        return Ok(Some(CertFault::NotInstance { name }));
    }
    match first_unsorted(order, &binds) {
        None => Ok(None),
        Some(var) => Ok(Some(CertFault::SortFails { var })),
    }
}

/// The fault of a constant with this type, beside those of its type.
#[inline(never)]
pub fn fault_of_const<D: Tables>(
    alloc: Global,
    tables: &D,
    name: Name,
    typ: &Typ,
) -> Result<Option<CertFault>, AllocError>
    ensures { IfOk result (λ fault. MatchOption fault (IsSound (D.declarations tables.now) (ConstPart name typ.now)) (HasFault (D.declarations tables.now) (ConstPart name typ.now))) }
{
    match tables.const_typ(name) {
        None => Ok(Some(CertFault::UnknownConst { name })),
        Some(declared) => fault_of_instance(alloc, tables.order(), name, declared, typ),
    }
}
