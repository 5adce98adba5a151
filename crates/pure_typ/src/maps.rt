//! Finite maps of schematic type variables.
ghost use Rattle.std.specs.Prelude.{◌≡◌, List, [], ◌∷◌, ◌++◌, map, IfOk, MatchOption, MatchResult};
ghost use Rattle.pure_text.specs.Lists.{IsIn};
ghost use Rattle.pure_definitions.specs.Types.Typ as typ_tree;
ghost use Rattle.pure_definitions.specs.Types.Typ.{typ_eq};
ghost use Rattle.pure_definitions.specs.Terms.Subst.{IsTypMap, typ_variable, typ_image};
ghost use Rattle.pure_definitions.specs.Models.Comparison.{typ_cmp};
ghost use Rattle.pure_typ.specs.TypPlaces.{AreTypPlaces, IsTypPlace};
ghost use Rattle.pure_typ.specs.TypBound.{IsTypBound};

use crate::name::Name;
use crate::room::insert_in_room;
use crate::sort::Sort;
use crate::typ::Typ;
use std::alloc::{AllocError, Global};
use std::cmp::Ordering;
use std::marker::Model;

/// An entry of a type map, which replaces a schematic type variable.
#[derive(Debug, Drop)]
pub struct TypBind {
    pub name: Name,
    pub index: u32,
    pub sort: Sort,
    pub image: Typ,
}

impl Model for TypBind {
    ghost use Rattle.pure_definitions.specs.Terms.Subst as maps;
    ghost use Rattle.pure_definitions.specs.Models.Codes.{coded_typ_bind};

    ghost Value = { maps.TypBind };

    ghost coded = { coded_typ_bind };

    ghost view = { λ b. record { name = b.name; index = b.index; sort = b.sort; image = b.image } };
}

/// A type map: entries for distinct variables, and the places of the entries in the order of their variables.
#[derive(Debug, Drop)]
pub struct TypMap {
    binds: Vec<TypBind>,
    places: Vec<usize>,
}

impl Model for TypMap {
    ghost use Rattle.std.specs.Prelude.{List};
    ghost use Rattle.std.specs.Coded.{coded_list};
    ghost use Rattle.pure_definitions.specs.Terms.Subst as maps;
    ghost use Rattle.pure_definitions.specs.Terms.Subst.{IsTypMap};
    ghost use Rattle.pure_definitions.specs.Models.Codes.{coded_typ_bind};
    ghost use Rattle.pure_typ.specs.TypPlaces.{AreTypPlaces};

    ghost Value = { List maps.TypBind };

    ghost coded = { coded_list coded_typ_bind };

    ghost view = { λ m. m.binds.items };

    ghost invariant = { λ m. IsTypMap m.binds.items × AreTypPlaces m.binds.items m.places.items };
}

impl TypMap {
    /// The map without entries. It takes no memory.
    pub fn empty(alloc: Global) -> TypMap
        ensures { result ≡ [] }
    {
        TypMap {
            binds: Vec::new(alloc),
            places: Vec::new(alloc),
        }
    }

    /// The map with these entries.
    pub fn make(alloc: Global, binds: Vec<TypBind>) -> Result<TypMap, AllocError>
        requires { IsTypMap binds.items }
        ensures { IfOk result (λ m. m ≡ binds.items) }
    {
        let mut made = TypMap::empty(alloc);
        for bind in binds {
            made.push(bind)?;
        }
        Ok(made)
    }

    /// Adds an entry at the end, for a variable that no entry replaces yet. The map stays as it is where memory runs out.
    pub fn push(&mut self, bind: TypBind) -> Result<(), AllocError>
        requires { ¬ IsIn (typ_variable bind) (map typ_variable self.old) }
        ensures { MatchResult result (λ _. self.new ≡ self.old ++ bind ∷ []) (λ _. self.new ≡ self.old) }
    {
        let (binds, places) = (self.binds.as_slice(), self.places.as_slice());
        let at = place_of(binds, places, bind.name, bind.index, &bind.sort);
        let place = binds.len();
        self.places.reserve(1)?;
        self.binds.push(bind)?;
        insert_in_room(&mut self.places, at, place);
        Ok(())
    }

    /// The image of a schematic type variable, where an entry replaces it. It takes no memory.
    pub fn find(&self, name: Name, index: u32, sort: &Sort) -> Option<&Typ>
        ensures image { MatchOption result
            (typ_image self.now (typ_tree.TVar name index sort.now) ≡ typ_tree.TVar name index sort.now)
            (λ t. typ_image self.now (typ_tree.TVar name index sort.now) ≡ t.now) }
        ensures bound { MatchOption result
            (¬ IsIn (typ_tree.TVar name index sort.now) (map typ_variable self.now))
            (λ t. IsTypBound self.now (typ_tree.TVar name index sort.now) t.now) }
    {
        let (binds, places) = (self.binds.as_slice(), self.places.as_slice());
        let at = place_of(binds, places, name, index, sort);
        if places.len() <= at {
            return None;
        }
        let place = places[at];
        let bind = &binds[place];
        if !replaces_typ(bind, name, index, sort) {
            return None;
        }
        Some(&bind.image)
    }

    /// The entries.
    pub fn binds(&self) -> &[TypBind]
        ensures are { result.now ≡ self.now }
        ensures distinct { IsTypMap self.now }
    {
        self.binds.as_slice()
    }
}

/// Whether the entry replaces this variable.
fn replaces_typ(b: &TypBind, name: Name, index: u32, sort: &Sort) -> bool
    ensures { result ≡ typ_eq (typ_variable b.now) (typ_tree.TVar name index sort.now) }
{
    b.name == name && b.index == index && b.sort == *sort
}

/// The order of the entry's variable and of this one.
fn compare_variable(b: &TypBind, name: Name, index: u32, sort: &Sort) -> Ordering
    ensures { result ≡ typ_cmp (typ_variable b.now) (typ_tree.TVar name index sort.now) }
{
    match b.name.cmp(&name) {
        Ordering::Less => Ordering::Less,
        Ordering::Greater => Ordering::Greater,
        Ordering::Equal => match b.index.cmp(&index) {
            Ordering::Less => Ordering::Less,
            Ordering::Greater => Ordering::Greater,
            Ordering::Equal => b.sort.cmp(sort),
        },
    }
}

/// Where among the places this variable stands or would stand, by halves.
fn place_of(binds: &[TypBind], places: &[usize], name: Name, index: u32, sort: &Sort) -> usize
    requires { AreTypPlaces binds.now places.now }
    ensures { IsTypPlace binds.now places.now (typ_tree.TVar name index sort.now) result }
{
    let mut low = 0;
    let mut high = places.len();
    while low < high {
        let middle = low + (high - low) / 2;
        let place = places[middle];
        let bind = &binds[place];
        match compare_variable(bind, name, index, sort) {
            Ordering::Less => low = middle + 1,
            _ => high = middle,
        }
    }
    low
}
