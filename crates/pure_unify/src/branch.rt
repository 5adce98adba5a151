//! What is chosen at a node.
ghost use Rattle.std.specs.Prelude.{◌≡◌, ◌+◌, ◌<◌, ◌≤◌, ◌^◌, true, IfOk};
ghost use Rattle.pure_text.specs.Lists.{Each};
ghost use Rattle.pure_definitions.specs.Terms.Term as tree;
ghost use Rattle.pure_unify_definitions.specs.Fronts.{is_schematic};
ghost use Rattle.pure_unify_definitions.specs.Children.{images};
ghost use Rattle.pure_unify_nodes.specs.Long.{IsLongPair};
ghost use Rattle.pure_unify.specs.Images.{HasCountable, IsCountableVariable, IsFirstOf};
ghost use Rattle.pure_unify.specs.Frames.{IsOpen, images_left, IsCountableBranch, IsChosen, IsTypedChosen};

use crate::choice::choice_of;
use crate::images::{Taken, image_from};
use pure_term::{Name, Term, TermNode, Typ};
use pure_theorem::Pair;
use std::alloc::{AllocError, Global};

/// How many choices a path may make.
pub const MAX_CHOICES: u32 = 64;

/// A variable, and the images that are still to be tried for it: those against the head from one number on, for new variables of this index.
#[derive(Drop)]
pub struct Branch {
    pub name: Name,
    pub index: u32,
    pub typ: Typ,
    pub head: Term,
    pub new_index: u32,
    pub next: u32,
}

/// What is chosen at a node: nothing where all pairs are flexible; nothing either where no further choice may be made; or a variable and its images.
#[derive(Drop)]
pub enum Chosen {
    Nothing,
    Cut,
    At(Branch),
}

/// All images of the variable against the head, for new variables of this index.
fn branch_against(alloc: Global, v: &Term, head: &Term, index: u32) -> Result<Branch, AllocError>
    requires variable { IsCountableVariable v.now }
    requires countable { HasCountable head.now }
    ensures { IfOk result (λ b. (v.now ≡ tree.Var b.name b.index b.typ) × (images_left b ≡ images index b.typ head.now) × IsCountableBranch b) }
{
    match &v.node {
        TermNode::Var {
            name,
            index: own,
            typ,
        } => {
            let typ = typ.copy(alloc)?;
            let head = head.copy(alloc)?;
            Ok(Branch {
                name: *name,
                index: *own,
                typ,
                head,
                new_index: index,
                next: 0,
            })
        }
        _ => unreachable!(),
    }
}

/// What is chosen at a node of these pairs, on the way to which so many choices were made.
pub fn chosen_at(
    alloc: Global,
    maxidx: u32,
    pairs: &[Pair],
    choices: u32,
) -> Result<Chosen, AllocError>
    requires long { Each IsLongPair pairs.now }
    requires typed { Each IsOpen pairs.now }
    requires few { choices ≤ 64 }
    requires room { maxidx + 66 < 2 ^ 32 }
    ensures chosen { IfOk result (IsChosen maxidx pairs.now choices) }
    ensures images { IfOk result IsTypedChosen }
{
    match choice_of(pairs) {
        None => Ok(Chosen::Nothing),
        Some((v, head)) => {
            if choices == MAX_CHOICES {
                return Ok(Chosen::Cut);
            }
            let branch = branch_against(alloc, v, head, maxidx + (choices + 1))?;
            Ok(Chosen::At(branch))
        }
    }
}

/// The first of the branch's images that are left.
pub fn next_image(alloc: Global, branch: &Branch) -> Result<Option<Taken>, AllocError>
    requires { IsCountableBranch branch.now }
    ensures { IfOk result (IsFirstOf branch.now.new_index branch.now.typ branch.now.head (images_left branch.now)) }
{
    image_from(
        alloc,
        &branch.typ,
        &branch.head,
        branch.new_index,
        branch.next,
    )
}
