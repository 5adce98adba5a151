//! Entries that are put one after the other, and found by their variables.
ghost use Rattle.std.specs.Prelude.{◌≡◌, ◌⊎◌, ◌++◌, [], ◌∷◌, map, IfOk, OnOk, OnErr, MatchOption, MatchResult};
ghost use Rattle.pure_definitions.specs.Types.Typ as tree;
ghost use Rattle.pure_definitions.specs.Types.Typ.{typ_eq};
ghost use Rattle.pure_text.specs.Lists.{IsIn};
ghost use Rattle.pure_definitions.specs.Terms.Subst.{IsTypMap, typ_variable, typ_image};

use pure_typ::{Name, Sort, Typ, TypBind, TypMap};
use std::alloc::{AllocError, Global};
use std::marker::Model;
use std::mem;

/// So many entries are sooner looked at one after the other than by halves.
const FEW: usize = 24;

/// For how many entries there is room at first.
const FIRST_ROOM: usize = 16;

/// Entries for distinct variables: in a list while they are few, and else in a map.
#[derive(Drop)]
pub struct Stored {
    few: Vec<TypBind>,
    many: Option<TypMap>,
}

impl Model for Stored {
    ghost use Rattle.std.specs.Prelude.{List};
    ghost use Rattle.std.specs.Coded.{coded_list};
    ghost use Rattle.pure_definitions.specs.Terms.Subst as maps;
    ghost use Rattle.pure_definitions.specs.Terms.Subst.{IsTypMap};
    ghost use Rattle.pure_definitions.specs.Models.Codes.{coded_typ_bind};
    ghost use Rattle.pure_tunify.specs.Stored.{entries_of};

    ghost Value = { List maps.TypBind };

    ghost coded = { coded_list coded_typ_bind };

    ghost view = { λ s. entries_of s.few.items s.many };

    ghost invariant = { λ s. IsTypMap (entries_of s.few.items s.many) };
}

/// Whether the entry sets this variable.
fn sets(bind: &TypBind, name: Name, index: u32, sort: &Sort) -> bool
    ensures { result ≡ typ_eq (typ_variable bind.now) (tree.TVar name index sort.now) }
{
    bind.name == name && bind.index == index && bind.sort == *sort
}

/// The image of the variable, by a look at one entry after the other.
fn image_among<'b>(binds: &'b [TypBind], name: Name, index: u32, sort: &Sort) -> Option<&'b Typ>
    ensures { MatchOption result
        (typ_image binds.now (tree.TVar name index sort.now) ≡ tree.TVar name index sort.now)
        (λ t. typ_image binds.now (tree.TVar name index sort.now) ≡ t.now) }
{
    for bind in binds {
        if sets(bind, name, index, sort) {
            return Some(&bind.image);
        }
    }
    None
}

/// Puts one more entry behind the others. Room for some is made for the first one.
fn push_to_list(few: &mut Vec<TypBind>, bind: TypBind) -> Result<(), AllocError>
    ensures { MatchResult result (λ _. few.new.items ≡ few.old.items ++ bind ∷ []) (λ _. few.new.items ≡ few.old.items) }
{
    if few.len() == 0 {
        few.reserve(FIRST_ROOM)?;
    }
    few.push(bind)?;
    Ok(())
}

impl Stored {
    /// No entries. It takes no memory.
    pub(crate) fn empty(alloc: Global) -> Stored
        ensures { result ≡ [] }
    {
        Stored {
            few: Vec::new(alloc),
            many: None,
        }
    }

    /// The entries.
    pub(crate) fn binds(&self) -> &[TypBind]
        ensures are { result.now ≡ self.now }
        ensures distinct { IsTypMap self.now }
    {
        match &self.many {
            None => self.few.as_slice(),
            Some(all) => all.binds(),
        }
    }

    /// The image of a schematic variable, where an entry sets it.
    pub(crate) fn find(&self, name: Name, index: u32, sort: &Sort) -> Option<&Typ>
        ensures { MatchOption result
            (typ_image self.now (tree.TVar name index sort.now) ≡ tree.TVar name index sort.now)
            (λ t. typ_image self.now (tree.TVar name index sort.now) ≡ t.now) }
    {
        match &self.many {
            None => image_among(self.few.as_slice(), name, index, sort),
            Some(all) => all.find(name, index, sort),
        }
    }

    /// The map of the entries.
    fn into_map(self, alloc: Global) -> Result<TypMap, AllocError>
        ensures { IfOk result (λ all. all ≡ self) }
    {
        let Stored { few, many } = self;
        match many {
            None => TypMap::make(alloc, few),
            Some(all) => Ok(all),
        }
    }

    /// Puts the entries into a map, and one more. None is left where memory is wanted.
    fn push_to_map(&mut self, alloc: Global, bind: TypBind) -> Result<(), AllocError>
        requires { ¬ IsIn (typ_variable bind) (map typ_variable self.old) }
        ensures ok { OnOk result (self.new ≡ self.old ++ bind ∷ []) }
        ensures err { OnErr result (self.new ≡ []) }
    {
        let stored = mem::replace(self, Stored::empty(alloc));
        let mut all = stored.into_map(alloc)?;
        all.push(bind)?;
        self.many = Some(all);
        Ok(())
    }

    /// Puts one more entry behind the others, for a variable that none sets. Where memory is wanted, the entries are as before, or none
    /// is left.
    pub(crate) fn push(&mut self, alloc: Global, bind: TypBind) -> Result<(), AllocError>
        requires { ¬ IsIn (typ_variable bind) (map typ_variable self.old) }
        ensures ok { OnOk result (self.new ≡ self.old ++ bind ∷ []) }
        ensures err { OnErr result ((self.new ≡ self.old) ⊎ (self.new ≡ [])) }
    {
        if self.many.is_none() && self.few.len() < FEW {
            push_to_list(&mut self.few, bind)
        } else {
            self.push_to_map(alloc, bind)
        }
    }
}
