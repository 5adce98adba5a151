//! Flexible sides as they are held.
ghost use Rattle.std.specs.Prelude.{◌≡◌, true, IfOk};
ghost use Rattle.pure_unify_definitions.specs.Fronts as fronts;
ghost use Rattle.pure_pattern_laws.specs.Patterns.{IsPattern};
ghost use Rattle.pure_pattern_rules.specs.Flexible.{IsFlexibleAs};

use pure_pattern_terms::places_of;
use pure_term::{Name, Term, TermNode, Typ};
use pure_unify_sides::{head, term_body};
use std::alloc::{AllocError, Global};

/// A schematic variable, and the bound variables to which it stands applied.
#[derive(Drop)]
pub struct Flexible {
    pub name: Name,
    pub index: u32,
    pub typ: Typ,
    pub places: Vec<u32>,
}

/// The variable at the head of the side, and the bound variables that its arguments are.
pub fn flexible_of(alloc: Global, t: &Term) -> Result<Flexible, AllocError>
    requires pattern { IsPattern t.now }
    requires flexible { fronts.is_flexible t.now ≡ true }
    ensures { IfOk result (IsFlexibleAs t.now) }
{
    let Some(places) = places_of(alloc, term_body(t))? else {
        unreachable!();
    };
    match &head(t).node {
        TermNode::Var { name, index, typ } => {
            let typ = typ.copy(alloc)?;
            let (name, index) = (*name, *index);
            Ok(Flexible {
                name,
                index,
                typ,
                places,
            })
        }
        _ => unreachable!(),
    }
}
