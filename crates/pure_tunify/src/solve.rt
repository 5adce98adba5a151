//! The types of one equation are made equal.
ghost use Rattle.std.specs.Prelude.{◌≡◌, IfOk};
ghost use Rattle.pure_tunify.specs.Unifiers.{IsOldPair};
ghost use Rattle.pure_tunify.specs.Answers.{IsSolved};

use crate::equation::Equation;
use crate::large::is_solvable;
use crate::meeting::Turned;
use crate::pair::TypPair;
use crate::pursue::pursue;
use crate::settings::Settings;
use pure_order::Order;
use pure_typ::Name;
use std::alloc::{AllocError, Global};

/// The equation of a copy of the pair.
fn copied(alloc: Global, pair: &TypPair) -> Result<Equation, AllocError>
    ensures { IfOk result (λ p. p ≡ pair.now) }
{
    let left = pair.left.copy(alloc)?;
    let right = pair.right.copy(alloc)?;
    Ok(Equation::same(left, right))
}

/// Makes the types of an equation equal by further settings; never where it comes to a place without a unifier. Where an
/// image would be too large to be written out, the pair passes the limits, if what is left of it has a unifier. The list is
/// only lent for what is left.
pub fn solve_given(
    order: &Order,
    alloc: Global,
    settings: &mut Settings,
    work: &mut Vec<TypPair>,
    equation: Equation,
) -> Result<Turned, AllocError>
    requires { IsOldPair settings.old.index settings.old.next equation }
    ensures { IfOk result (IsSolved order.now settings.old settings.new equation) }
{
    equation.begin(alloc, work)?;
    let turned = pursue(order, alloc, settings, work)?;
    match turned {
        Turned::Further => Ok(Turned::Further),
        Turned::Never => Ok(Turned::Never),
        Turned::Large => {
            let _ = order.domains(Name::FUN, Name::FUN);
            let _ = settings.next();
            let can = is_solvable(order, alloc, settings, work.as_slice())?;
            if can {
                return Ok(Turned::Large);
            }
            Ok(Turned::Never)
        }
    }
}

/// The same of a pair that is kept.
pub fn solve(
    order: &Order,
    alloc: Global,
    settings: &mut Settings,
    pair: &TypPair,
) -> Result<Turned, AllocError>
    requires { IsOldPair settings.old.index settings.old.next pair.now }
    ensures { IfOk result (IsSolved order.now settings.old settings.new pair.now) }
{
    let equation = copied(alloc, pair)?;
    let mut work = Vec::new(alloc);
    let turned = solve_given(order, alloc, settings, &mut work, equation)?;
    Ok(turned)
}
