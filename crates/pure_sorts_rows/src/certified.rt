//! Certified terms, and the faults of others.
use crate::listed::Listed;
use crate::read::{term, typ};
use pure_certify::{CertFault, certify};
use pure_rows::Fault;
use pure_typ::{Name, Typ};
use std::alloc::Global;

/// Whether the answer is this type.
fn is_typ(found: &Result<Typ, CertFault>, wanted: &Typ) -> Result<bool, Fault> {
    match found {
        Ok(typ) => Ok(typ == wanted),
        Err(CertFault::Memory) => Err(Fault::Memory),
        Err(_) => Ok(false),
    }
}

/// Whether the term is certified and has the type.
pub(crate) fn has_typ(
    alloc: Global,
    tables: &Listed,
    t: &[u8],
    wanted: &[u8],
) -> Result<bool, Fault> {
    let t = term(alloc, t)?;
    let wanted = typ(alloc, wanted)?;
    is_typ(&certify(alloc, tables, &t), &wanted)
}

/// The fault of this kind with this number.
fn fault_of(kind: &[u8], number: u32) -> Result<CertFault, Fault> {
    let (name, place) = (Name(number), number);
    match kind {
        b"unknown_type" => Ok(CertFault::UnknownType { name }),
        b"wrong_count" => Ok(CertFault::WrongCount { name }),
        b"unknown_class" => Ok(CertFault::UnknownClass { name }),
        b"unknown_constant" => Ok(CertFault::UnknownConst { name }),
        b"no_instance" => Ok(CertFault::NotInstance { name }),
        b"sort_fails" => Ok(CertFault::SortFails { var: name }),
        b"not_typed" => Ok(CertFault::NotTyped { place }),
        _ => Err(Fault::Unreadable),
    }
}

/// Whether the answer is this fault.
fn is_fault(found: &Result<Typ, CertFault>, wanted: CertFault) -> Result<bool, Fault> {
    match found {
        Ok(_) => Ok(false),
        Err(CertFault::Memory) => Err(Fault::Memory),
        Err(fault) => Ok(*fault == wanted),
    }
}

/// Whether the term isn't certified, and has the fault of this kind with this number.
pub(crate) fn has_fault(
    alloc: Global,
    tables: &Listed,
    t: &[u8],
    kind: &[u8],
    number: u32,
) -> Result<bool, Fault> {
    let wanted = fault_of(kind, number)?;
    let t = term(alloc, t)?;
    is_fault(&certify(alloc, tables, &t), wanted)
}
