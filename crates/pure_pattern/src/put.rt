//! Images put into pairs and into the images of the variables that were set before.
ghost use Rattle.std.specs.Prelude.{◌≡◌, ◌++◌, ◌∷◌, [], map, OnOk};
ghost use Rattle.pure_text.specs.Lists.{Each};
ghost use Rattle.pure_definitions.specs.Terms.Subst.{term_image};
ghost use Rattle.pure_term.specs.Grown.{IsGrown};
ghost use Rattle.pure_pattern_terms.specs.Images.{IsLowTerm, AreShallow, AreFrom};
ghost use Rattle.pure_pattern_rules.specs.Treated.{AreSidesWithin};
ghost use Rattle.pure_pattern_bounds.specs.Put.{pair_put, bind_put};
ghost use Rattle.pure_pattern.specs.Held.{IsLowImage, IsLowPair, IsMade, AreMade, IsImageWithin};

use pure_pattern_terms::put_in;
use pure_term::{Grow, TermBind};
use pure_theorem::Pair;
use std::alloc::{AllocError, Global};

/// The least index of the variables that the entries replace.
pub(crate) fn least_index(binds: &[TermBind]) -> u32
    ensures { AreFrom result binds.now }
{
    let Some((bind, rest)) = binds.split_first() else {
        return u32::MAX;
    };
    bind.index.min(least_index(rest))
}

/// The pair with the images put into its sides.
fn put_pair(alloc: Global, pair: Pair, binds: &[TermBind], from: u32) -> Result<Pair, Grow>
    requires low { IsLowPair pair }
    requires shallow { AreShallow binds.now }
    requires from { AreFrom from binds.now }
    ensures { IsMade AreSidesWithin (pair_put (term_image binds.now) pair) result }
{
    let Pair { left, right } = pair;
    let left = put_in(alloc, left, binds, from)?;
    let right = put_in(alloc, right, binds, from)?;
    Ok(Pair { left, right })
}

/// Puts the pair behind the others.
pub(crate) fn push_pair(pairs: &mut Vec<Pair>, pair: Pair) -> Result<(), AllocError>
    ensures { OnOk result (pairs.new.items ≡ pairs.old.items ++ pair ∷ []) }
{
    pairs.push(pair)?;
    Ok(())
}

/// The pairs with the images put into their sides.
pub(crate) fn put_pairs(
    alloc: Global,
    pairs: Vec<Pair>,
    binds: &[TermBind],
    from: u32,
) -> Result<Vec<Pair>, Grow>
    requires low { Each IsLowPair pairs.items }
    requires shallow { AreShallow binds.now }
    requires from { AreFrom from binds.now }
    ensures { AreMade AreSidesWithin (map (pair_put (term_image binds.now)) pairs.items) result }
{
    let mut made = Vec::new(alloc);
    for pair in pairs {
        match put_pair(alloc, pair, binds, from) {
            Ok(new) => push_pair(&mut made, new)?,
            Err(fault) => return Err(fault),
        }
    }
    Ok(made)
}

/// The entry with the images put into its image.
fn put_bind(alloc: Global, bind: TermBind, binds: &[TermBind], from: u32) -> Result<TermBind, Grow>
    requires low { IsLowImage bind }
    requires shallow { AreShallow binds.now }
    requires from { AreFrom from binds.now }
    ensures { IsMade IsImageWithin (bind_put (term_image binds.now) bind) result }
{
    let TermBind {
        name,
        index,
        typ,
        image,
    } = bind;
    let image = put_in(alloc, image, binds, from)?;
    Ok(TermBind {
        name,
        index,
        typ,
        image,
    })
}

/// Puts the entry behind the others.
pub(crate) fn push_bind(binds: &mut Vec<TermBind>, bind: TermBind) -> Result<(), AllocError>
    ensures { OnOk result (binds.new.items ≡ binds.old.items ++ bind ∷ []) }
{
    binds.push(bind)?;
    Ok(())
}

/// The entries with the images put into theirs.
pub(crate) fn put_binds(
    alloc: Global,
    old: Vec<TermBind>,
    binds: &[TermBind],
    from: u32,
) -> Result<Vec<TermBind>, Grow>
    requires low { Each IsLowImage old.items }
    requires shallow { AreShallow binds.now }
    requires from { AreFrom from binds.now }
    ensures { AreMade IsImageWithin (map (bind_put (term_image binds.now)) old.items) result }
{
    let mut made = Vec::new(alloc);
    for bind in old {
        match put_bind(alloc, bind, binds, from) {
            Ok(new) => push_bind(&mut made, new)?,
            Err(fault) => return Err(fault),
        }
    }
    Ok(made)
}
