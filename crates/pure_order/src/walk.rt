//! The walk that asks a type's arguments once for all that a sort asks of them.
ghost use Rattle.std.specs.Prelude.{◌≡◌, ◌↔◌, ◌<◌, ℕ, List, IsTrue, MatchOption, length};
ghost use Rattle.pure_definitions.specs.Types.Typ as tree;
ghost use Rattle.pure_definitions.specs.Types.Typ.{Con, typs_of};
ghost use Rattle.pure_definitions.specs.Types.Order.{IsOfClass, IsOfSort, IsSortBelow};
ghost use Rattle.pure_order_tables.specs.Rows.{Holds};
ghost use Rattle.pure_order.specs.Walk.{IsWalkable, domains_at, domain_at, HasDomain, IsGreatestPlace, HaveDomain, HaveDomains, IsOfDomain, AreOfDomains, AreAsked};

use crate::places::Places;
use pure_order_tables::Tables;
use pure_typ::{Name, Sort, Typ, TypNode};

/// The domains of the arity at the place.
fn domains(tables: &Tables, place: usize) -> &[Sort]
    requires { place < length tables.now.arities }
    ensures { result.now ≡ domains_at tables.now place }
{
    let entry = tables.arities().get(place);
    entry.sorts()
}

/// The domain at the index of the arity at the place.
fn domain(tables: &Tables, place: usize, index: usize) -> &Sort
    requires { HasDomain tables.now index place }
    ensures { result.now ≡ domain_at tables.now place index }
{
    let domains = domains(tables, place);
    &domains[index]
}

/// The place of the constructor's greatest arity for classes below this one, if there is such an arity and it has so many domains.
fn greatest(tables: &Tables, con: Name, class: Name, count: usize) -> Option<usize>
    requires { IsWalkable tables.now }
    ensures { MatchOption result ((ts : List tree.Typ) → length ts ≡ count → ¬ IsOfClass tables.now (Con con (typs_of ts)) class) (IsGreatestPlace tables.now con class count) }
{
    tables.order_is_decided();
    let place = tables.place(con, class)?;
    if domains(tables, place).len() != count {
        return None;
    }
    Some(place)
}

/// Puts in the places of the constructor's greatest arities for the classes of the sort, if there are all of them and they have so many domains.
fn put_greatest(tables: &Tables, places: &mut Places, con: Name, sort: &Sort, count: usize) -> bool
    requires walkable { IsWalkable tables.now }
    requires have { HaveDomains tables.now count places.old }
    ensures { AreAsked tables.now count (λ ts. IsOfSort tables.now (Con con (typs_of ts)) sort.now) places.old places.new result }
{
    for class in sort.classes() {
        let Some(place) = greatest(tables, con, *class, count) else {
            return false;
        };
        places.insert(place);
    }
    true
}

/// Whether a variable of the sort is of the domain at the index of each arity whose place is in the set.
fn is_sort_of_domain(tables: &Tables, sort: &Sort, places: &Places, index: usize) -> bool
    requires { HaveDomain tables.now index places.now }
    ensures { IsTrue result ↔ ((place : ℕ) → Holds places.now place → IsSortBelow tables.now sort.now (domain_at tables.now place index)) }
{
    for place in places.start()..places.end() {
        if places.contains(place) && !tables.sort_below(sort, domain(tables, place, index)) {
            return false;
        }
    }
    true
}

/// Puts in the places of the constructor's greatest arities for the classes in the domains at the index, if there are all of them and they have so many domains.
fn put_all_greatest(
    tables: &Tables,
    next: &mut Places,
    places: &Places,
    index: usize,
    con: Name,
    count: usize,
) -> bool
    requires walkable { IsWalkable tables.now }
    requires have { HaveDomain tables.now index places.now }
    requires next { HaveDomains tables.now count next.old }
    ensures { AreAsked tables.now count (λ ts. IsOfDomain tables.now places.now index (Con con (typs_of ts))) next.old next.new result }
{
    for place in places.start()..places.end() {
        if !places.contains(place) {
            continue;
        }
        if !put_greatest(tables, next, con, domain(tables, place, index), count) {
            return false;
        }
    }
    true
}

/// Whether the type is of the domain at the index of each arity whose place is in the set. It is walked once, whatever the set.
#[cycle(is_of_domain)]
fn is_of_domain(tables: &Tables, t: &Typ, places: &Places, index: usize) -> bool
    requires walkable { IsWalkable tables.now }
    requires have { HaveDomain tables.now index places.now }
    ensures { IsTrue result ↔ IsOfDomain tables.now places.now index t.now }
{
    match &t.node {
        TypNode::TFree { sort, .. } => is_sort_of_domain(tables, sort, places, index),
        TypNode::TVar { sort, .. } => is_sort_of_domain(tables, sort, places, index),
        TypNode::Con { name, args } => {
            let args = args.as_slice();
            let mut next = Places::empty();
            put_all_greatest(tables, &mut next, places, index, *name, args.len())
                && are_of_domains(tables, args, &next)
        }
    }
}

/// Whether the types are of the domains of each arity whose place is in the set.
#[cycle(is_of_domain)]
fn are_of_domains(tables: &Tables, types: &[Typ], places: &Places) -> bool
    requires walkable { IsWalkable tables.now }
    requires have { HaveDomains tables.now (length types.now) places.now }
    ensures { IsTrue result ↔ AreOfDomains tables.now places.now types.now }
{
    for i in 0..types.len() {
        let typ = &types[i];
        if !is_of_domain(tables, typ, places, i) {
            return false;
        }
    }
    true
}

/// Whether the type is of the sort.
pub fn is_of_sort(tables: &Tables, t: &Typ, sort: &Sort) -> bool
    requires { IsWalkable tables.now }
    ensures { IsTrue result ↔ IsOfSort tables.now t.now sort.now }
{
    match &t.node {
        TypNode::TFree { sort: own, .. } => tables.sort_below(own, sort),
        TypNode::TVar { sort: own, .. } => tables.sort_below(own, sort),
        TypNode::Con { name, args } => {
            let args = args.as_slice();
            let mut places = Places::empty();
            put_greatest(tables, &mut places, *name, sort, args.len())
                && are_of_domains(tables, args, &places)
        }
    }
}
