//! Finite maps of schematic variables.
ghost use Rattle.std.specs.Prelude.{◌≡◌, List, [], ◌∷◌, ◌++◌, map, IfOk, MatchOption, MatchResult};
ghost use Rattle.pure_text.specs.Lists.{IsIn};
ghost use Rattle.pure_definitions.specs.Terms.Term as term_tree;
ghost use Rattle.pure_definitions.specs.Terms.Term.{term_eq};
ghost use Rattle.pure_definitions.specs.Terms.Subst.{IsTermMap, term_variable, term_image};
ghost use Rattle.pure_definitions.specs.Models.Comparison.{term_cmp};
ghost use Rattle.pure_term.specs.TermPlaces.{AreTermPlaces, IsTermPlace};
ghost use Rattle.pure_term.specs.TermBound.{IsTermBound};

use crate::term::Term;
use pure_typ::{Name, Typ, insert_in_room};
use std::alloc::{AllocError, Global};
use std::cmp::Ordering;
use std::marker::Model;

/// An entry of a term map, which replaces a schematic variable.
#[derive(Debug, Drop)]
pub struct TermBind {
    pub name: Name,
    pub index: u32,
    pub typ: Typ,
    pub image: Term,
}

impl Model for TermBind {
    ghost use Rattle.pure_definitions.specs.Terms.Subst as maps;
    ghost use Rattle.pure_definitions.specs.Models.Codes.{coded_term_bind};

    ghost Value = { maps.TermBind };

    ghost coded = { coded_term_bind };

    ghost view = { λ b. record { name = b.name; index = b.index; typ = b.typ; image = b.image } };
}

/// A term map: entries for distinct variables, and the places of the entries in the order of their variables.
#[derive(Debug, Drop)]
pub struct TermMap {
    binds: Vec<TermBind>,
    places: Vec<usize>,
}

impl Model for TermMap {
    ghost use Rattle.std.specs.Prelude.{List};
    ghost use Rattle.std.specs.Coded.{coded_list};
    ghost use Rattle.pure_definitions.specs.Terms.Subst as maps;
    ghost use Rattle.pure_definitions.specs.Terms.Subst.{IsTermMap};
    ghost use Rattle.pure_definitions.specs.Models.Codes.{coded_term_bind};
    ghost use Rattle.pure_term.specs.TermPlaces.{AreTermPlaces};

    ghost Value = { List maps.TermBind };

    ghost coded = { coded_list coded_term_bind };

    ghost view = { λ m. m.binds.items };

    ghost invariant = { λ m. IsTermMap m.binds.items × AreTermPlaces m.binds.items m.places.items };
}

impl TermMap {
    /// The map without entries. It takes no memory.
    pub fn empty(alloc: Global) -> TermMap
        ensures { result ≡ [] }
    {
        TermMap {
            binds: Vec::new(alloc),
            places: Vec::new(alloc),
        }
    }

    /// The map with these entries.
    pub fn make(alloc: Global, binds: Vec<TermBind>) -> Result<TermMap, AllocError>
        requires { IsTermMap binds.items }
        ensures { IfOk result (λ m. m ≡ binds.items) }
    {
        let mut made = TermMap::empty(alloc);
        for bind in binds {
            made.push(bind)?;
        }
        Ok(made)
    }

    /// Adds an entry at the end, for a variable that no entry replaces yet. The map stays as it is where memory runs out.
    pub fn push(&mut self, bind: TermBind) -> Result<(), AllocError>
        requires { ¬ IsIn (term_variable bind) (map term_variable self.old) }
        ensures { MatchResult result (λ _. self.new ≡ self.old ++ bind ∷ []) (λ _. self.new ≡ self.old) }
    {
        let (binds, places) = (self.binds.as_slice(), self.places.as_slice());
        let at = place_of(binds, places, bind.name, bind.index, &bind.typ);
        let place = binds.len();
        self.places.reserve(1)?;
        self.binds.push(bind)?;
        insert_in_room(&mut self.places, at, place);
        Ok(())
    }

    /// The image of a schematic variable, where an entry replaces it. It takes no memory.
    pub fn find(&self, name: Name, index: u32, typ: &Typ) -> Option<&Term>
        ensures image { MatchOption result
            (term_image self.now (term_tree.Var name index typ.now) ≡ term_tree.Var name index typ.now)
            (λ t. term_image self.now (term_tree.Var name index typ.now) ≡ t.now) }
        ensures bound { MatchOption result
            (¬ IsIn (term_tree.Var name index typ.now) (map term_variable self.now))
            (λ t. IsTermBound self.now (term_tree.Var name index typ.now) t.now) }
    {
        let (binds, places) = (self.binds.as_slice(), self.places.as_slice());
        let at = place_of(binds, places, name, index, typ);
        if places.len() <= at {
            return None;
        }
        let place = places[at];
        let bind = &binds[place];
        if !replaces_term(bind, name, index, typ) {
            return None;
        }
        Some(&bind.image)
    }

    /// The entries.
    pub fn binds(&self) -> &[TermBind]
        ensures are { result.now ≡ self.now }
        ensures distinct { IsTermMap self.now }
    {
        self.binds.as_slice()
    }
}

/// Whether the entry replaces this variable.
fn replaces_term(b: &TermBind, name: Name, index: u32, typ: &Typ) -> bool
    ensures { result ≡ term_eq (term_variable b.now) (term_tree.Var name index typ.now) }
{
    b.name == name && b.index == index && b.typ == *typ
}

/// The order of the entry's variable and of this one.
fn compare_variable(b: &TermBind, name: Name, index: u32, typ: &Typ) -> Ordering
    ensures { result ≡ term_cmp (term_variable b.now) (term_tree.Var name index typ.now) }
{
    b.name
        .cmp(&name)
        .then(b.index.cmp(&index).then(b.typ.cmp(typ)))
}

/// Where among the places this variable stands or would stand, by halves.
fn place_of(binds: &[TermBind], places: &[usize], name: Name, index: u32, typ: &Typ) -> usize
    requires { AreTermPlaces binds.now places.now }
    ensures { IsTermPlace binds.now places.now (term_tree.Var name index typ.now) result }
{
    let mut low = 0;
    let mut high = places.len();
    while low < high {
        let middle = low + (high - low) / 2;
        let place = places[middle];
        let bind = &binds[place];
        match compare_variable(bind, name, index, typ) {
            Ordering::Less => low = middle + 1,
            _ => high = middle,
        }
    }
    low
}
