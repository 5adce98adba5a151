//! The variables that unification has set, one after the other.
ghost use Rattle.std.specs.Prelude.{◌≡◌, ◌++◌, [], ◌∷◌, map, IfOk, OnOk, MatchOption};
ghost use Rattle.pure_text.specs.Lists.{IsIn};
ghost use Rattle.pure_definitions.specs.Types.Typ.{typ_size, typ_depth};
ghost use Rattle.pure_definitions.specs.Terms.Limits.{Leaves};
ghost use Rattle.pure_definitions.specs.Terms.Subst.{IsTypMap, typ_variable, typ_image, typ_instance};
ghost use Rattle.pure_term_laws.specs.LawsOccurs.{IsTypVariable};
ghost use Rattle.pure_tunify.specs.Unifiers.{IsOld};
ghost use Rattle.pure_tunify.specs.Settings.{composed, IsTidy};

use crate::stored::Stored;
use pure_typ::{Typ, TypBind, TypNode, index_above_of_typ, typ_leaves};
use std::alloc::{AllocError, Global};
use std::marker::Model;

/// The variables that are set, in the order in which they were set, the index of fresh variables, and the first name that
/// isn't used. An image has no variable that was set before.
#[derive(Drop)]
pub struct Settings {
    map: Stored,
    index: u32,
    next: u32,
}

impl Model for Settings {
    ghost use Rattle.pure_tunify.specs.Settings.{Progress, IsTidy};
    ghost use Rattle.pure_tunify.specs.ProgressCode.{coded_progress};

    ghost Value = { Progress };

    ghost coded = { coded_progress };

    ghost view = { λ s. record { sets = s.map; index = s.index; next = s.next } };

    ghost invariant = { λ s. IsTidy (record { sets = s.map; index = s.index; next = s.next }) };
}

/// What is left of a room for so many nodes, on paths of so many, when the type is put in with the image of each set variable.
fn leaves_of(stored: &Stored, t: &Typ, left: u32, room: u32) -> Option<u32>
    ensures { Leaves left room (typ_size (typ_instance (typ_image stored.now) t.now)) (typ_depth (typ_instance (typ_image stored.now) t.now)) result }
{
    if index_above_of_typ(t) == 0 {
        return typ_leaves(t, left, room);
    }
    match &t.node {
        TypNode::TFree { .. } => typ_leaves(t, left, room),
        TypNode::TVar { name, index, sort } => match stored.find(*name, *index, sort) {
            Some(image) => typ_leaves(image, left, room),
            None => typ_leaves(t, left, room),
        },
        TypNode::Con { args, .. } => {
            if left == 0 {
                return None;
            }
            if room == 0 {
                return None;
            }
            let args = args.as_slice();
            let mut rest = left - 1;
            for arg in args {
                let Some(less) = leaves_of(stored, arg, rest, room - 1) else {
                    return None;
                };
                rest = less;
            }
            Some(rest)
        }
    }
}

impl Settings {
    /// No variable is set.
    pub(crate) fn start(alloc: Global, index: u32, next: u32) -> Settings
        ensures { result ≡ record { sets = []; index = index; next = next } }
    {
        Settings {
            map: Stored::empty(alloc),
            index,
            next,
        }
    }

    /// The index of fresh variables.
    pub fn index(&self) -> u32
        ensures { result ≡ self.now.index }
    {
        self.index
    }

    /// The first name that isn't used.
    pub fn next(&self) -> u32
        ensures value { result ≡ self.now.next }
        ensures tidy { IsTidy self.now }
    {
        self.next
    }

    /// The settings in order.
    pub fn binds(&self) -> &[TypBind]
        ensures are { result.now ≡ self.now.sets }
        ensures distinct { IsTypMap self.now.sets }
        ensures tidy { IsTidy self.now }
    {
        self.map.binds()
    }

    /// The image of a variable that is set.
    pub fn find(&self, t: &Typ) -> Option<&Typ>
        ensures image { MatchOption result (IsTypVariable t.now → ¬ IsIn t.now (map typ_variable self.now.sets)) (λ u. IsTypVariable t.now × (typ_image self.now.sets t.now ≡ u.now)) }
        ensures tidy { IsTidy self.now }
    {
        let _ = &self.map;
        match &t.node {
            TypNode::TVar { name, index, sort } => match self.map.find(*name, *index, sort) {
                Some(image) => Some(image),
                None => None,
            },
            TypNode::TFree { .. } => None,
            TypNode::Con { .. } => None,
        }
    }

    /// The type itself, or what stands for it where it is a variable that is set: no variable that is set.
    #[inline(never)]
    pub fn head<'t>(&'t self, t: &'t Typ) -> Result<&'t Typ, AllocError>
        ensures same { IfOk result (λ h. typ_instance (composed self.now.sets) h.now ≡ typ_instance (composed self.now.sets) t.now) }
        ensures free { IfOk result (λ h. IsTypVariable h.now → ¬ IsIn h.now (map typ_variable self.now.sets)) }
        ensures old { IfOk result (λ h. IsOld self.now.index self.now.next t.now → IsOld self.now.index self.now.next h.now) }
    {
        let mut top = t;
        for _ in 0..u64::MAX {
            match self.find(top) {
                None => return Ok(top),
                Some(image) => top = image,
            }
        }
        Err(AllocError)
    }

    /// What is left of a room for so many nodes, on paths of so many, when the type is put in with the image of each set
    /// variable as it was set.
    pub(crate) fn leaves(&self, t: &Typ, left: u32, room: u32) -> Option<u32>
        ensures leaves { Leaves left room (typ_size (typ_instance (typ_image self.now.sets) t.now)) (typ_depth (typ_instance (typ_image self.now.sets) t.now)) result }
        ensures tidy { IsTidy self.now }
    {
        leaves_of(&self.map, t, left, room)
    }

    /// Sets one more variable.
    pub(crate) fn put(&mut self, alloc: Global, bind: TypBind, next: u32) -> Result<(), AllocError>
        requires absent { ¬ IsIn (typ_variable bind) (map typ_variable self.old.sets) }
        requires tidy { IsTidy (record { sets = self.old.sets ++ bind ∷ []; index = self.old.index; next = next }) }
        ensures { OnOk result (self.new ≡ record { sets = self.old.sets ++ bind ∷ []; index = self.old.index; next = next }) }
    {
        self.map.push(alloc, bind)?;
        self.next = next;
        Ok(())
    }
}
