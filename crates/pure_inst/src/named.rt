//! Where fixed variables of some names occur.
ghost use Rattle.std.specs.Prelude.{◌≡◌, ◌↔◌, ℕ, IsTrue, MatchOption};
ghost use Rattle.pure_text.specs.Lists.{Each};
ghost use Rattle.pure_definitions.specs.Terms.Limits.{cut_off};
ghost use Rattle.pure_logic.specs.Laws.Maps.{HasNoneOf};
ghost use Rattle.pure_theorem.specs.First.{IsFirstWith};
ghost use Rattle.pure_inst.specs.Named.{is_named, LacksTyps, Lacks};
ghost use Rattle.pure_inst.specs.Schematic.{generalisation};

use pure_term::{Name, Term, TermNode, Typ, TypNode, is_ground_typ};

/// Whether the name is one of these.
pub fn is_named(names: &[Name], name: Name) -> bool
    ensures { result ≡ is_named names.now name }
{
    names.contains(&name)
}

/// Whether no fixed type variable of these names is in the type.
#[cycle(lacks_typs)]
fn lacks_typs(t: &Typ, names: &[Name]) -> bool
    ensures { IsTrue result ↔ LacksTyps names.now t.now }
{
    if is_ground_typ(t) {
        return true;
    }
    match &t.node {
        TypNode::TFree { name, .. } => !is_named(names, *name),
        TypNode::TVar { .. } => true,
        TypNode::Con { args, .. } => all_lack_typs(args.as_slice(), names),
    }
}

/// Whether none is in any of the types.
#[cycle(lacks_typs)]
fn all_lack_typs(types: &[Typ], names: &[Name]) -> bool
    ensures { IsTrue result ↔ Each (LacksTyps names.now) types.now }
{
    for typ in types {
        if !lacks_typs(typ, names) {
            return false;
        }
    }
    true
}

/// Whether no fixed type variable of the one names and no fixed variable of the other names is in the term.
fn lacks(t: &Term, tfrees: &[Name], frees: &[Name]) -> bool
    ensures { IsTrue result ↔ Lacks tfrees.now frees.now t.now }
{
    match &t.node {
        TermNode::Const { typ, .. } => lacks_typs(typ, tfrees),
        TermNode::Free { name, typ } => !is_named(frees, *name) && lacks_typs(typ, tfrees),
        TermNode::Var { typ, .. } => lacks_typs(typ, tfrees),
        TermNode::Bound { .. } => true,
        TermNode::Abs { typ, body, .. } => lacks_typs(typ, tfrees) && lacks(body, tfrees, frees),
        TermNode::App { fun, arg, .. } => lacks(fun, tfrees, frees) && lacks(arg, tfrees, frees),
    }
}

/// The place of the first of the terms in which one of them is.
pub fn first_with_some(terms: &[Term], tfrees: &[Name], frees: &[Name]) -> Option<u32>
    ensures { (index : ℕ) → let g = generalisation tfrees.now frees.now index in MatchOption result (Each (HasNoneOf g) terms.now) (IsFirstWith (λ A. ¬ HasNoneOf g A) terms.now) }
{
    for (place, term) in terms.iter().enumerate() {
        if !lacks(term, tfrees, frees) {
            return Some(cut_place(place));
        }
    }
    None
}

/// The place, cut off at `u32::MAX`.
pub fn cut_place(place: usize) -> u32
    ensures { result ≡ cut_off place }
{
    if place < u32::MAX as usize {
        place as u32
    } else {
        u32::MAX
    }
}
