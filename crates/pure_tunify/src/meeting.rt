//! How two types meet at a place, and the arguments of constructors.
ghost use Rattle.std.specs.Prelude.{◌≡◌, ◌∷◌, ◌++◌, ◌↔◌, ℕ, List, length, reverse, IsTrue, OnOk, MatchBool};
ghost use Rattle.pure_definitions.specs.Types.Typ as tree;
ghost use Rattle.pure_definitions.specs.Types.Typ.{typs_of};
ghost use Rattle.pure_tunify.specs.Procedure.{IsSchematic};
ghost use Rattle.pure_tunify.specs.Working.{pairs_along};
ghost use Rattle.pure_tunify.specs.Meeting.{HasArguments, HasOtherNode, HaveArguments, HaveNoArguments, IsMeeting, IsPutBack};
ghost use Rattle.pure_tunify.specs.Steps.{pair};

use crate::pair::TypPair;
use pure_typ::{Name, Typ, TypNode};
use std::alloc::{AllocError, Global};

/// How two types that aren't set variables meet.
#[derive(Clone, Copy)]
pub enum Meeting {
    /// They are the same variable.
    Same,
    /// The left one is a schematic variable, and the right one another type.
    Left,
    /// The right one is a schematic variable, and the left one isn't.
    Right,
    /// They are one constructor with as many arguments.
    Arguments,
    /// Neither is a schematic variable, and their nodes differ.
    Apart,
}

/// What comes of pairs that are being made equal.
#[derive(Clone, Copy)]
pub enum Turned {
    /// They go on, or are equal.
    Further,
    /// They have no unifier.
    Never,
    /// A variable meets a type that is too large to be written out.
    Large,
}

/// Whether the type is a schematic variable.
pub fn is_schematic(t: &Typ) -> bool
    ensures { IsTrue result ↔ IsSchematic t.now }
{
    match &t.node {
        TypNode::TVar { .. } => true,
        TypNode::TFree { .. } => false,
        TypNode::Con { .. } => false,
    }
}

/// Whether the type is this constructor with so many arguments.
fn has_arguments(t: &Typ, name: Name, count: usize) -> bool
    ensures { MatchBool result (HasArguments t.now name count) (HasOtherNode t.now name count) }
{
    match &t.node {
        TypNode::TFree { .. } => false,
        TypNode::TVar { .. } => false,
        TypNode::Con { name: other, args } => {
            let args = args.as_slice();
            if name != *other {
                return false;
            }
            if args.len() != count {
                return false;
            }
            true
        }
    }
}

/// Whether the types are one constructor with as many arguments.
fn have_arguments(left: &Typ, right: &Typ) -> bool
    ensures { MatchBool result (HaveArguments left.now right.now) (HaveNoArguments left.now right.now) }
{
    match &left.node {
        TypNode::TFree { .. } => false,
        TypNode::TVar { .. } => false,
        TypNode::Con { name, args } => {
            let args = args.as_slice();
            let same = has_arguments(right, *name, args.len());
            same
        }
    }
}

/// How the types meet.
pub fn meeting_of(left: &Typ, right: &Typ) -> Meeting
    ensures { IsMeeting left.now right.now result }
{
    if is_schematic(left) {
        if left == right {
            return Meeting::Same;
        }
        return Meeting::Left;
    }
    if is_schematic(right) {
        return Meeting::Right;
    }
    if have_arguments(left, right) {
        return Meeting::Arguments;
    }
    if left == right {
        return Meeting::Same;
    }
    Meeting::Apart
}

/// The arguments of a constructor; of a variable none.
pub fn arguments(t: &Typ) -> &[Typ]
    ensures { (k : ℕ) (ts : List tree.Typ) → t.now ≡ tree.Con k (typs_of ts) → result.now ≡ ts }
{
    match &t.node {
        TypNode::Con { args, .. } => args.as_slice(),
        TypNode::TFree { .. } => &[],
        TypNode::TVar { .. } => &[],
    }
}

/// Puts a pair with a type that is too large back on top of the pairs that are left.
pub fn put_back(
    work: &mut Vec<TypPair>,
    left: Typ,
    right: Typ,
    turned: Turned,
) -> Result<(), AllocError>
    ensures { OnOk result (IsPutBack (pair left right) work.old.items work.new.items turned) }
{
    match turned {
        Turned::Further => Ok(()),
        Turned::Never => Ok(()),
        Turned::Large => {
            work.push(TypPair { left, right })?;
            Ok(())
        }
    }
}

/// Puts the pair of two types on top of the pairs that are left.
pub fn push_pair(
    alloc: Global,
    work: &mut Vec<TypPair>,
    left: &Typ,
    right: &Typ,
) -> Result<(), AllocError>
    ensures { OnOk result (reverse work.new.items ≡ pair left.now right.now ∷ reverse work.old.items) }
{
    let (left, right) = (left.copy(alloc)?, right.copy(alloc)?);
    work.push(TypPair { left, right })?;
    Ok(())
}

/// Puts the pairs of arguments on top of the pairs that are left, the first on the very top.
pub fn push_arguments(
    alloc: Global,
    work: &mut Vec<TypPair>,
    left: &[Typ],
    right: &[Typ],
) -> Result<(), AllocError>
    requires { length left.now ≡ length right.now }
    ensures { OnOk result (reverse work.new.items ≡ pairs_along left.now right.now ++ reverse work.old.items) }
{
    let mut rest = left.len();
    while rest > 0 {
        rest -= 1;
        push_pair(alloc, work, &left[rest], &right[rest])?;
    }
    Ok(())
}
