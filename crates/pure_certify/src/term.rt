//! Certified terms.
ghost use Rattle.std.specs.Prelude.{◌≡◌, List, MatchOption, IfOk, OnOk};
ghost use Rattle.pure_definitions.specs.Declarations.Decl.{Decl};
ghost use Rattle.pure_definitions.specs.Declarations.Certified.{HasCertifiedParts, IsCertified};
ghost use Rattle.pure_definitions.specs.Terms.Term as tree;
ghost use Rattle.pure_certify.specs.Parts.{term_parts, IsFirstFault};
ghost use Rattle.pure_certify.specs.Answer.{IsCertAnswer, fault_of_type};

use crate::constant::fault_of_const;
use crate::fault::CertFault;
use crate::tables::Tables;
use crate::typ::fault_of_typ;
use pure_term::{Term, TermNode, TypeFault, typ_of};
use pure_typ::{Name, Typ};
use std::alloc::{AllocError, Global};

/// The first fault of a constant with this type; none exactly where both are certified.
fn fault_of_leaf<D: Tables>(
    alloc: Global,
    tables: &D,
    name: Name,
    typ: &Typ,
) -> Result<Option<CertFault>, AllocError>
    ensures { IfOk result (λ fault. MatchOption fault
        (HasCertifiedParts (D.declarations tables.now) (tree.Const name typ.now))
        (IsFirstFault (D.declarations tables.now) (term_parts (tree.Const name typ.now)))) }
{
    match fault_of_typ(tables, typ) {
        Some(fault) => Ok(Some(fault)),
        None => fault_of_const(alloc, tables, name, typ),
    }
}

/// The term's first fault, but that it has no type; none exactly where all that stands in it is certified.
pub fn fault_of_term<D: Tables>(
    alloc: Global,
    tables: &D,
    t: &Term,
) -> Result<Option<CertFault>, AllocError>
    ensures { IfOk result (λ fault. MatchOption fault
        (HasCertifiedParts (D.declarations tables.now) t.now)
        (IsFirstFault (D.declarations tables.now) (term_parts t.now))) }
{
    match &t.node {
        TermNode::Const { name, typ } => fault_of_leaf(alloc, tables, *name, typ),
        TermNode::Free { typ, .. } => Ok(fault_of_typ(tables, typ)),
        TermNode::Var { typ, .. } => Ok(fault_of_typ(tables, typ)),
        TermNode::Bound { .. } => Ok(None),
        TermNode::Abs { typ, body, .. } => match fault_of_typ(tables, typ) {
            Some(fault) => Ok(Some(fault)),
            None => fault_of_term(alloc, tables, body),
        },
        TermNode::App { fun, arg, .. } => match fault_of_term(alloc, tables, fun)? {
            Some(fault) => Ok(Some(fault)),
            None => fault_of_term(alloc, tables, arg),
        },
    }
}

/// The fault of a call for a term's type, as one of certification.
fn untyped(fault: TypeFault) -> CertFault
    ensures { result ≡ fault_of_type fault }
{
    match fault {
        TypeFault::NotTyped { place } => CertFault::NotTyped { place },
        TypeFault::Memory => CertFault::Memory,
    }
}

/// The type of a term in which all that stands is certified.
fn certified_typ(alloc: Global, t: &Term) -> Result<Typ, CertFault>
    ensures { (ds : List Decl) → HasCertifiedParts ds t.now → IsCertAnswer ds t.now result }
{
    match typ_of(alloc, t) {
        Ok(typ) => Ok(typ),
        Err(fault) => Err(untyped(fault)),
    }
}

/// The type of the term, where it is certified; otherwise its first fault, and last that it has no type.
pub fn certify<D: Tables>(alloc: Global, tables: &D, t: &Term) -> Result<Typ, CertFault>
    ensures answer { IsCertAnswer (D.declarations tables.now) t.now result }
    ensures certified { OnOk result (IsCertified (D.declarations tables.now) t.now) }
{
    match fault_of_term(alloc, tables, t)? {
        Some(fault) => Err(fault),
        None => certified_typ(alloc, t),
    }
}
