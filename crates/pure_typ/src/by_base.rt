//! The names by their bases.
ghost use Rattle.std.specs.Prelude.{◌≡◌, ◌∷◌, ◌++◌, [], ◌↔◌, ℕ, List, if◌then◌else◌, IfOk, OnOk, bytes_eq};
ghost use Rattle.std.specs.List.Sorted.{IsStrictlyIncreasing};
ghost use Rattle.pure_text.specs.Lists.{IsIn};
ghost use Rattle.pure_typ.specs.NameTexts.{AreSessionTexts, NameHasBase};
ghost use Rattle.pure_typ.specs.NameBases.{has_base, names_at, names_with_base};

use crate::name::Name;
use crate::names::Names;
use std::alloc::{AllocError, Global};
use std::collections::BTreeMap;
use std::marker::Model;

/// The texts of a session's names, with the names of each base at hand.
#[derive(Drop)]
pub struct NamesByBase {
    names: Names,
    by_base: BTreeMap<Vec<u8>, Vec<Name>>,
}

impl Model for NamesByBase {
    ghost use Rattle.std.specs.Prelude.{List, ℕ};
    ghost use Rattle.pure_typ.specs.NameBases.{AreByBase};

    ghost Value = { List (List ℕ) };

    ghost view = { λ n. n.names };

    ghost invariant = { λ n. AreByBase n.names n.by_base };
}

impl NamesByBase {
    /// These names by their bases.
    pub fn make(alloc: Global, names: Names) -> Result<NamesByBase, AllocError>
        ensures { IfOk result (λ n. n ≡ names) }
    {
        let noted = names.noted(alloc)?;
        let named = NamesByBase::grouped(alloc, noted)?;
        Ok(named)
    }

    /// The same, where the names are noted.
    fn grouped(alloc: Global, names: Names) -> Result<NamesByBase, AllocError>
        ensures { IfOk result (λ n. n ≡ names) }
    {
        let mut by_base: BTreeMap<Vec<u8>, Vec<Name>> = BTreeMap::new(alloc);
        for number in 0..names.first_fresh() {
            put(alloc, &mut by_base, &names, Name(number))?;
        }
        Ok(NamesByBase { names, by_base })
    }

    /// The names themselves.
    pub fn names(&self) -> &Names
        ensures { result.now ≡ self.now }
    {
        &self.names
    }

    /// The texts are those of a session.
    pub fn are_session_texts(&self)
        ensures { AreSessionTexts self.now }
    {
        self.names.are_session_texts();
    }

    /// The names whose texts have this base, ascending. It takes no memory.
    pub fn with_base(&self, base: &[u8]) -> &[Name]
        ensures value { result.now ≡ names_with_base self.now base.now }
        ensures exact { (n : ℕ) → IsIn n result.now ↔ NameHasBase self.now base.now n }
        ensures ascend { IsStrictlyIncreasing result.now }
    {
        self.listed(base)
    }

    /// The names that the map has for this base.
    fn listed(&self, base: &[u8]) -> &[Name]
        ensures { result.now ≡ names_with_base self.now base.now }
    {
        match self.by_base.get(base) {
            Some(names) => names.as_slice(),
            None => &[],
        }
    }
}

impl Names {
    /// A copy of the names, by their bases.
    pub fn by_base(&self, alloc: Global) -> Result<NamesByBase, AllocError>
        ensures { IfOk result (λ n. n ≡ self.now) }
    {
        NamesByBase::make(alloc, self.copy(alloc)?)
    }
}

/// Puts the name behind those of its base, if its text has one.
fn put(
    alloc: Global,
    by_base: &mut BTreeMap<Vec<u8>, Vec<Name>>,
    names: &Names,
    name: Name,
) -> Result<(), AllocError>
    ensures { OnOk result ((base : List ℕ) → names_at by_base.new base ≡ (if has_base names.now base name then names_at by_base.old base ++ name ∷ [] else names_at by_base.old base)) }
{
    let Some(base) = names.base(name) else {
        return Ok(());
    };
    put_behind(alloc, by_base, base, name)?;
    Ok(())
}

/// Puts the name behind those of this base.
fn put_behind(
    alloc: Global,
    by_base: &mut BTreeMap<Vec<u8>, Vec<Name>>,
    base: &[u8],
    name: Name,
) -> Result<(), AllocError>
    ensures { OnOk result ((other : List ℕ) → names_at by_base.new other ≡ (if bytes_eq other base.now then names_at by_base.old other ++ name ∷ [] else names_at by_base.old other)) }
{
    if let Some(names) = by_base.get_mut(base) {
        names.push(name)?;
        return Ok(());
    }
    let key = Vec::from_slice(alloc, base)?;
    let names = Vec::from_slice(alloc, &[name])?;
    by_base.insert(key, names)?;
    Ok(())
}
