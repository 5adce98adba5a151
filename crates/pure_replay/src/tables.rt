//! The content of a record in tables, and what is certified over it.
ghost use Rattle.std.specs.Prelude.{◌≡◌, ◌≢◌, ◌↔◌, IsTrue, IfOk, OnOk, MatchOption};
ghost use Rattle.pure_definitions.specs.Types.Typ as types;
ghost use Rattle.pure_definitions.specs.Declarations.Decl.{algebra_of};
ghost use Rattle.pure_logic.specs.Content.{IsCertifiedOf, IsProposition};
ghost use Rattle.pure_certify.specs.declared.fault.CertFault.TheVariants.{Memory};
ghost use Rattle.pure_replay.specs.Step.{plain_content, no_classes};

use pure_certify::{CertFault, Tables, certify};
use pure_order::Order;
use pure_term::{Name, Term, Typ};
use pure_theorem::{are_same_typs, is_prop};
use pure_theory_tables::Declarations;
use std::alloc::{AllocError, Global};
use std::marker::Model;

/// The declarations of a content without classes and arities.
#[derive(Drop)]
pub(crate) struct Declared {
    pub(crate) list: Declarations,
    order: Order,
}

impl Model for Declared {
    ghost use Rattle.std.specs.Prelude.{◌≡◌, List};
    ghost use Rattle.std.specs.Coded.{coded_list};
    ghost use Rattle.pure_definitions.specs.Declarations.Decl as tree;
    ghost use Rattle.pure_definitions.specs.Declarations.Decl.{algebra_of};
    ghost use Rattle.pure_theory_tables.specs.Codes.{coded_decl};

    ghost Value = { List tree.Decl };

    ghost coded = { coded_list coded_decl };

    ghost view = { λ d. d.list };

    ghost use Rattle.pure_replay.specs.Step.{no_classes};

    ghost invariant = { λ d. (d.order ≡ no_classes) × (algebra_of d.list ≡ no_classes) };
}

impl Declared {
    /// The tables of the declarations, among which are neither classes nor arities.
    pub(crate) fn of(alloc: Global, list: Declarations) -> Declared
        requires { algebra_of list ≡ no_classes }
        ensures { result ≡ list }
    {
        Declared {
            list,
            order: Order::empty(alloc),
        }
    }
}

impl Tables for Declared {
    ghost declarations = { λ ds. ds };

    fn typ_params(&self, name: Name) -> Option<u32> {
        self.list.typ_params(name)
    }

    fn const_typ(&self, name: Name) -> Option<&Typ> {
        self.list.const_typ(name)
    }

    fn order(&self) -> &Order {
        &self.order
    }
}

/// The fault is one of the term, unless memory was wanted.
fn uncertified(fault: CertFault) -> Result<(), AllocError>
    ensures { OnOk result (fault ≢ Memory) }
{
    match fault {
        CertFault::Memory => Err(AllocError),
        _ => Ok(()),
    }
}

/// The type of the term; none exactly where the term isn't certified.
pub(crate) fn certified_typ(
    alloc: Global,
    declared: &Declared,
    t: &Term,
) -> Result<Option<Typ>, AllocError>
    ensures { IfOk result (λ found. MatchOption found ((T : types.Typ) → ¬ IsCertifiedOf (plain_content declared.now) t.now T) (IsCertifiedOf (plain_content declared.now) t.now)) }
{
    match certify(alloc, declared, t) {
        Ok(typ) => Ok(Some(typ)),
        Err(fault) => {
            uncertified(fault)?;
            Ok(None)
        }
    }
}

/// Whether the term is certified and has this type.
pub(crate) fn is_certified_of(
    alloc: Global,
    declared: &Declared,
    t: &Term,
    typ: &Typ,
) -> Result<bool, AllocError>
    ensures { IfOk result (λ is. IsTrue is ↔ IsCertifiedOf (plain_content declared.now) t.now typ.now) }
{
    match certified_typ(alloc, declared, t)? {
        None => Ok(false),
        Some(own) => Ok(are_same_typs(&own, typ)),
    }
}

/// Whether the term is a proposition of the content.
pub(crate) fn is_proposition(
    alloc: Global,
    declared: &Declared,
    t: &Term,
) -> Result<bool, AllocError>
    ensures { IfOk result (λ is. IsTrue is ↔ IsProposition (plain_content declared.now) t.now) }
{
    match certified_typ(alloc, declared, t)? {
        None => Ok(false),
        Some(own) => Ok(is_prop(&own)),
    }
}
