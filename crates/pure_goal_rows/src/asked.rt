//! Whether theorems are goals, as calls on them ask.
ghost use Rattle.std.specs.Prelude.{◌≡◌, [], IsTrue};
ghost use Rattle.pure_text.specs.Lists.{Each};
ghost use Rattle.pure_definitions.specs.Terms.Typing.{HasType};
ghost use Rattle.pure_definitions.specs.Reduction.Eta.{IsLongForm};
ghost use Rattle.pure_logic.specs.Connectives.{protect_typ};
ghost use Rattle.pure_theorem.specs.Shapes.{IsTyped};
ghost use Rattle.pure_unify_definitions.specs.Children.{IsFlexFlex};
ghost use Rattle.pure_goal_steps.specs.State.{IsLeftPair};
ghost use Rattle.pure_resolve.specs.Goals.{IsGoalTheorem, IsEquationFor};
ghost use Rattle.pure_goal_rows.specs.Asked.{mark, IsMarkedTerm, IsGoalProposition, HaveOneTyp, Equates, EquatesFirst};

use pure_term::{Name, Term, TermNode, Typ, typ_of};
use pure_theorem::{
    Pair, Thm, are_same, as_application, as_equation, as_implication, has_typ, is_prop,
};
use pure_unify_nodes::long_side;
use pure_unify_sides::is_flexible;
use std::alloc::Global;

/// Whether the term has a type.
fn is_typed(alloc: Global, t: &Term) -> bool
    ensures { IsTrue result → IsTyped t.now }
{
    match typ_of(alloc, t) {
        Ok(_) => true,
        Err(_) => false,
    }
}

/// Whether the term is in long form.
fn is_long(alloc: Global, t: &Term) -> bool
    ensures { IsTrue result → IsLongForm t.now t.now }
{
    if !is_typed(alloc, t) {
        return false;
    }
    match long_side(alloc, t) {
        Ok(long) => are_same(t, &long),
        Err(_) => false,
    }
}

/// Whether the type is that of the mark.
fn is_mark_typ(typ: &Typ) -> bool
    ensures { IsTrue result → typ.now ≡ protect_typ }
{
    match typ.as_arrow() {
        Some((domain, range)) => is_prop(domain) && is_prop(range),
        None => false,
    }
}

/// Whether the term is the mark of a goal.
fn is_mark(t: &Term) -> bool
    ensures { IsTrue result → t.now ≡ mark }
{
    match &t.node {
        TermNode::Const { name, typ } => *name == Name::PROTECT && is_mark_typ(typ),
        _ => false,
    }
}

/// Whether the term is a marked statement.
fn is_marked(t: &Term) -> bool
    ensures { IsTrue result → IsMarkedTerm t.now }
{
    match as_application(t) {
        Some((function, _)) => is_mark(function),
        None => false,
    }
}

/// Whether the term is a goal's proposition, with subgoals in long form.
fn is_goal_proposition(alloc: Global, t: &Term) -> bool
    ensures { IsTrue result → IsGoalProposition t.now }
{
    match as_implication(t) {
        Some((subgoal, rest)) => is_long(alloc, subgoal) && is_goal_proposition(alloc, rest),
        None => is_marked(t),
    }
}

/// Whether the sides of the pair have one type.
fn have_one_typ(alloc: Global, pair: &Pair) -> bool
    ensures { IsTrue result → HaveOneTyp pair.now }
{
    match typ_of(alloc, &pair.left) {
        Ok(typ) => is_of(alloc, &pair.right, &typ),
        Err(_) => false,
    }
}

/// Whether the term has this type.
fn is_of(alloc: Global, t: &Term, typ: &Typ) -> bool
    ensures { IsTrue result → HasType [] t.now typ.now }
{
    match has_typ(alloc, t, typ) {
        Ok(has) => has,
        Err(_) => false,
    }
}

/// Whether both sides of the pair are flexible.
fn are_flexible(pair: &Pair) -> bool
    ensures { IsTrue result → IsFlexFlex pair.now }
{
    is_flexible(&pair.left) && is_flexible(&pair.right)
}

/// Whether both sides of the pair are in long form.
fn are_long(alloc: Global, pair: &Pair) -> bool
    ensures { IsTrue result → IsLongForm pair.now.left pair.now.left × IsLongForm pair.now.right pair.now.right }
{
    is_long(alloc, &pair.left) && is_long(alloc, &pair.right)
}

/// Whether the pair is one that steps leave.
fn is_left(alloc: Global, pair: &Pair) -> bool
    ensures { IsTrue result → IsLeftPair pair.now }
{
    are_flexible(pair) && are_long(alloc, pair) && have_one_typ(alloc, pair)
}

/// Whether the pairs are.
fn are_left(alloc: Global, pairs: &[Pair]) -> bool
    ensures { IsTrue result → Each IsLeftPair pairs.now }
{
    for pair in pairs {
        if !is_left(alloc, pair) {
            return false;
        }
    }
    true
}

/// Whether the theorem is that of a goal.
pub(crate) fn is_goal(alloc: Global, th: &Thm) -> bool
    ensures { IsTrue result → IsGoalTheorem th.now }
{
    if th.hyps.as_slice().len() != 0 {
        return false;
    }
    are_left(alloc, &th.pairs) && is_goal_proposition(alloc, &th.prop)
}

/// Whether the terms are the goal's first subgoal, and an equation of propositions with that left side and a right side that has a type.
fn equates(alloc: Global, subgoal: &Term, eq: &Term) -> bool
    ensures { IsTrue result → Equates subgoal.now eq.now }
{
    match as_equation(eq) {
        Some((typ, left, right)) => {
            is_prop(typ) && are_same(left, subgoal) && is_typed(alloc, right)
        }
        None => false,
    }
}

/// Whether the equation's left side is the first subgoal of the goal's proposition.
fn equates_first(alloc: Global, goal: &Term, eq: &Term) -> bool
    ensures { IsTrue result → EquatesFirst goal.now eq.now }
{
    match as_implication(goal) {
        Some((subgoal, _)) => equates(alloc, subgoal, eq),
        None => false,
    }
}

/// Whether the theorem has neither hypotheses nor pairs.
fn is_alone(th: &Thm) -> bool
    ensures { IsTrue result → (th.now.hyps ≡ []) × (th.now.pairs ≡ []) }
{
    th.hyps.as_slice().len() == 0 && th.pairs.as_slice().len() == 0
}

/// Whether the theorem is an equation for the goal's first subgoal.
pub(crate) fn is_equation_for(alloc: Global, goal: &Thm, eq: &Thm) -> bool
    requires { IsGoalTheorem goal.now }
    ensures { IsTrue result → IsEquationFor goal.now eq.now }
{
    is_alone(eq) && equates_first(alloc, &goal.prop, &eq.prop)
}
