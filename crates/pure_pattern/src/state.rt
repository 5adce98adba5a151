//! States: pairs that are left, and what was set.
ghost use Rattle.std.specs.Prelude.{◌≡◌, ◌++◌, [], reverse, MatchOption, OnOk};
ghost use Rattle.pure_pattern.specs.Held.{behind, seen};

use pure_term::TermBind;
use pure_theorem::Pair;
use std::alloc::AllocError;

/// The pairs that are left, the first one last, and the variables that were set, in order, each with its image.
#[derive(Drop)]
pub(crate) struct Held {
    pub pairs: Vec<Pair>,
    pub binds: Vec<TermBind>,
}

/// Puts the pairs before the others, in order: the last of them first.
pub(crate) fn push_pairs(pairs: &mut Vec<Pair>, new: Vec<Pair>) -> Result<(), AllocError>
    ensures { OnOk result (pairs.new.items ≡ pairs.old.items ++ reverse new.items) }
{
    let mut new = new;
    while let Some(pair) = new.pop() {
        pairs.push(pair)?;
    }
    Ok(())
}

/// Takes the first pair.
pub(crate) fn take_first(held: &mut Held) -> Option<Pair>
    ensures { MatchOption result (((seen held.old).pairs ≡ []) × (seen held.new ≡ seen held.old)) (λ first. seen held.old ≡ behind first held.new) }
{
    held.pairs.pop()
}
