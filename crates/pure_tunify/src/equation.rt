//! Equations of types, as they are handed to be solved once.
ghost use Rattle.std.specs.Prelude.{◌≡◌, ◌∷◌, [], reverse, IfOk, OnOk};
ghost use Rattle.pure_definitions.specs.Types.Typ as tree;
ghost use Rattle.pure_tunify.specs.Steps.{pair};
ghost use Rattle.pure_tunify.specs.Meeting.{StandsFor};
ghost use Rattle.pure_tunify.specs.Equations.{unknown_range};

use crate::pair::TypPair;
use pure_typ::{Name, Sort, Typ, TypNode};
use std::alloc::{AllocError, Global};
use std::marker::Model;

/// Two types that are to be made equal. The second is given whole, or by its parts, where it is a type of functions to an
/// unknown, the schematic variable of a number with index 0 and without classes: then `right` is its domain, and where the
/// first is a type of functions too, it isn't made to be solved.
#[derive(Debug, Drop)]
pub struct Equation {
    left: Typ,
    right: Typ,
    range: Option<u32>,
}

impl Model for Equation {
    ghost use Rattle.pure_tunify.specs.declared.pair.TypPair.{TypPair};
    ghost use Rattle.pure_tunify.specs.Equations.{coded_pair, equated};

    ghost Value = { TypPair };

    ghost coded = { coded_pair };

    ghost view = { λ e. equated e.left e.right e.range };
}

/// The unknown of this number.
fn unknown(number: u32) -> Typ
    ensures { result ≡ unknown_range number }
{
    Typ {
        node: TypNode::TVar {
            name: Name(number),
            index: 0,
            sort: Sort::empty(),
        },
    }
}

/// Puts the pairs of the two parts of types of functions on top of the pairs that are left, that of the domains on the very
/// top.
fn push_parts(
    alloc: Global,
    work: &mut Vec<TypPair>,
    first: &Typ,
    last: &Typ,
    domain: Typ,
    range: Typ,
) -> Result<(), AllocError>
    ensures { OnOk result (reverse work.new.items ≡ pair first.now domain ∷ pair last.now range ∷ reverse work.old.items) }
{
    let (left, right) = (first.copy(alloc)?, last.copy(alloc)?);
    work.push(TypPair {
        left: right,
        right: range,
    })?;
    work.push(TypPair {
        left,
        right: domain,
    })?;
    Ok(())
}

/// Puts what stands for the pair of a type and a type of functions to an unknown into the list, which is empty.
fn push_applied(
    alloc: Global,
    work: &mut Vec<TypPair>,
    fun: Typ,
    arg: Typ,
    number: u32,
) -> Result<(), AllocError>
    requires { work.old.items ≡ [] }
    ensures { OnOk result (StandsFor (pair fun (tree.arrow arg (unknown_range number))) (reverse work.new.items)) }
{
    let range = unknown(number);
    match fun.as_arrow() {
        Some(parts) => {
            push_parts(alloc, work, parts.0, parts.1, arg, range)?;
            Ok(())
        }
        None => {
            let right = Typ::arrow(alloc, arg, range)?;
            work.push(TypPair { left: fun, right })?;
            Ok(())
        }
    }
}

impl Equation {
    /// The equation of two types.
    pub fn same(left: Typ, right: Typ) -> Equation
        ensures { result ≡ pair left right }
    {
        Equation {
            left,
            right,
            range: None,
        }
    }

    /// The equation of a function's type and that of functions from its argument's type to the unknown of this number.
    pub fn applied(fun: Typ, arg: Typ, number: u32) -> Equation
        ensures { result ≡ pair fun (tree.arrow arg (unknown_range number)) }
    {
        Equation {
            left: fun,
            right: arg,
            range: Some(number),
        }
    }

    /// Its pair.
    pub fn into_pair(self, alloc: Global) -> Result<TypPair, AllocError>
        ensures { IfOk result (λ p. p ≡ self) }
    {
        let Equation { left, right, range } = self;
        match range {
            None => Ok(TypPair { left, right }),
            Some(number) => {
                let range = unknown(number);
                let right = Typ::arrow(alloc, right, range)?;
                Ok(TypPair { left, right })
            }
        }
    }

    /// Leaves in the list what stands for its pair alone.
    pub(crate) fn begin(self, alloc: Global, work: &mut Vec<TypPair>) -> Result<(), AllocError>
        ensures { OnOk result (StandsFor self (reverse work.new.items)) }
    {
        work.clear();
        let Equation { left, right, range } = self;
        match range {
            None => {
                work.push(TypPair { left, right })?;
                Ok(())
            }
            Some(number) => {
                push_applied(alloc, work, left, right, number)?;
                Ok(())
            }
        }
    }
}

/// The pairs of equations.
pub fn pairs_of(alloc: Global, equations: Vec<Equation>) -> Result<Vec<TypPair>, AllocError>
    ensures { IfOk result (λ pairs. pairs.items ≡ equations.items) }
{
    let mut pairs = Vec::with_capacity(alloc, equations.len())?;
    for equation in equations {
        let pair = equation.into_pair(alloc)?;
        pairs.push(pair)?;
    }
    Ok(pairs)
}
