//! Certified types.
ghost use Rattle.std.specs.Prelude.{MatchOption, map};
ghost use Rattle.pure_definitions.specs.Types.Typ.{typs_of};
ghost use Rattle.pure_definitions.specs.Declarations.Certified.{IsCertifiedTyp, AreCertifiedTyps, IsCertifiedSort};
ghost use Rattle.pure_certify.specs.Parts.{ClassPart, ConPart, typ_parts, typs_parts, IsSound, IsFirstFault, HasFault};

use crate::fault::CertFault;
use crate::tables::Tables;
use pure_typ::{Name, Sort, Typ, TypNode};

/// The fault of the sort's first class that isn't declared.
fn fault_of_sort<D: Tables>(tables: &D, sort: &Sort) -> Option<CertFault>
    ensures { MatchOption result (IsCertifiedSort (D.declarations tables.now) sort.now) (IsFirstFault (D.declarations tables.now) (map ClassPart sort.now)) }
{
    let order = tables.order();
    for class in sort.classes() {
        if !order.is_declared(*class) {
            return Some(CertFault::UnknownClass { name: *class });
        }
    }
    None
}

/// The fault of a constructor with so many arguments.
fn fault_of_con<D: Tables>(tables: &D, name: Name, count: usize) -> Option<CertFault>
    ensures { MatchOption result (IsSound (D.declarations tables.now) (ConPart name count)) (HasFault (D.declarations tables.now) (ConPart name count)) }
{
    match tables.typ_params(name) {
        None => Some(CertFault::UnknownType { name }),
        Some(params) => {
            if params as usize == count {
                None
            } else {
                Some(CertFault::WrongCount { name })
            }
        }
    }
}

/// The type's first fault; none exactly where it is certified.
#[cycle(fault_of_typ)]
pub fn fault_of_typ<D: Tables>(tables: &D, t: &Typ) -> Option<CertFault>
    ensures { MatchOption result (IsCertifiedTyp (D.declarations tables.now) t.now) (IsFirstFault (D.declarations tables.now) (typ_parts t.now)) }
{
    match &t.node {
        TypNode::TFree { sort, .. } => fault_of_sort(tables, sort),
        TypNode::TVar { sort, .. } => fault_of_sort(tables, sort),
        TypNode::Con { name, args } => {
            let args = args.as_slice();
            if let Some(fault) = fault_of_con(tables, *name, args.len()) {
                return Some(fault);
            }
            fault_of_types(tables, args)
        }
    }
}

/// The first fault of the types; none exactly where each is certified.
#[cycle(fault_of_typ)]
fn fault_of_types<D: Tables>(tables: &D, types: &[Typ]) -> Option<CertFault>
    ensures { MatchOption result (AreCertifiedTyps (D.declarations tables.now) (typs_of types.now)) (IsFirstFault (D.declarations tables.now) (typs_parts (typs_of types.now))) }
{
    for t in types {
        if let Some(fault) = fault_of_typ(tables, t) {
            return Some(fault);
        }
    }
    None
}
