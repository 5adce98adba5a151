//! Types of new variables, which take some of the arguments that another takes.
ghost use Rattle.std.specs.Prelude.{◌≡◌, IfOk, MatchOption, None, Some, nat_eq};
ghost use Rattle.std.specs.List.{list_any};
ghost use Rattle.pure_definitions.specs.Types.Typ.{arrow};
ghost use Rattle.pure_unify_definitions.specs.Fronts as fronts;
ghost use Rattle.pure_pattern_laws.specs.Places as lists;

use pure_term::Typ;
use pure_unify_sides::range_of;
use std::alloc::{AllocError, Global};

/// The type of functions from the domain to the range.
fn function_from(alloc: Global, domain: &Typ, range: Typ) -> Result<Typ, AllocError>
    ensures { IfOk result (λ T. T ≡ arrow domain.now range) }
{
    let domain = domain.copy(alloc)?;
    Typ::arrow(alloc, domain, range)
}

/// The type of functions from the domains at the places where both lists agree.
pub fn agreeing_typ(alloc: Global, typ: &Typ, zs: &[u32], ws: &[u32]) -> Result<Typ, AllocError>
    ensures { IfOk result (λ T. T ≡ fronts.function_typ (lists.agreeing zs.now ws.now (fronts.domains typ.now)) (fronts.range typ.now)) }
{
    let Some((domain, rest)) = typ.as_arrow() else {
        return range_of(typ).copy(alloc);
    };
    let Some((z, zs)) = zs.split_first() else {
        return range_of(typ).copy(alloc);
    };
    let Some((w, ws)) = ws.split_first() else {
        return range_of(typ).copy(alloc);
    };
    let inside = agreeing_typ(alloc, rest, zs, ws)?;
    if *z == *w {
        return function_from(alloc, domain, inside);
    }
    Ok(inside)
}

/// Whether the bound variable stands in the list.
pub fn stands_in(z: u32, ws: &[u32]) -> bool
    ensures { result ≡ list_any (nat_eq z) ws.now }
{
    let Some((w, ws)) = ws.split_first() else {
        return false;
    };
    z == *w || stands_in(z, ws)
}

/// The type of functions from the domains at the places of those in the first list that stand in the second, too.
pub fn left_typ(alloc: Global, typ: &Typ, zs: &[u32], ws: &[u32]) -> Result<Typ, AllocError>
    ensures { IfOk result (λ T. T ≡ fronts.function_typ (lists.shared_left zs.now ws.now (fronts.domains typ.now)) (fronts.range typ.now)) }
{
    let Some((domain, rest)) = typ.as_arrow() else {
        return range_of(typ).copy(alloc);
    };
    let Some((z, zs)) = zs.split_first() else {
        return range_of(typ).copy(alloc);
    };
    let inside = left_typ(alloc, rest, zs, ws)?;
    if stands_in(*z, ws) {
        return function_from(alloc, domain, inside);
    }
    Ok(inside)
}

/// The domain at the place where the bound variable stands in the list.
pub fn domain_at<'t>(z: u32, ws: &[u32], typ: &'t Typ) -> Option<&'t Typ>
    ensures { MatchOption result (lists.at_place z ws.now (fronts.domains typ.now) ≡ None) (λ T. lists.at_place z ws.now (fronts.domains typ.now) ≡ Some T.now) }
{
    let Some((w, ws)) = ws.split_first() else {
        return None;
    };
    let Some((domain, rest)) = typ.as_arrow() else {
        return None;
    };
    if z == *w {
        return Some(domain);
    }
    domain_at(z, ws, rest)
}

/// The type of functions from the domains at the places in the second list of what stands in the first, too, in the order of the first.
pub fn right_typ(alloc: Global, typ: &Typ, zs: &[u32], ws: &[u32]) -> Result<Typ, AllocError>
    ensures { IfOk result (λ T. T ≡ fronts.function_typ (lists.shared_right zs.now ws.now (fronts.domains typ.now)) (fronts.range typ.now)) }
{
    let Some((z, zs)) = zs.split_first() else {
        return range_of(typ).copy(alloc);
    };
    let inside = right_typ(alloc, typ, zs, ws)?;
    match domain_at(*z, ws, typ) {
        Some(domain) => function_from(alloc, domain, inside),
        None => Ok(inside),
    }
}
