//! Definitions unfolded in terms.
ghost use Rattle.std.specs.Prelude.{◌≡◌, ◌≤◌, IfOk, IfSome, MatchResult, option_map, Some, []};
ghost use Rattle.pure_definitions.specs.Terms.Term as tree;
ghost use Rattle.pure_definitions.specs.Terms.Term.{term_size, term_depth};
ghost use Rattle.pure_definitions.specs.Terms.Limits.{Leaves};
ghost use Rattle.pure_definitions.specs.Terms.Subst.{typ_image, inst_typ};
ghost use Rattle.pure_definitions.specs.Declarations.Decl.{algebra_of};
ghost use Rattle.pure_definitions.specs.Declarations.Certified.{IsCertified};
ghost use Rattle.pure_logic.specs.Connectives.{eq};
ghost use Rattle.pure_logic.specs.Derivable.{IsDerivable};
ghost use Rattle.pure_theorem.specs.Facts.{IsTheoryContent};
ghost use Rattle.pure_theorem.specs.Made.{IsMade};
ghost use Rattle.pure_theorem.specs.Shapes.{IsTyped};
ghost use Rattle.pure_unfold.specs.Replaced.{IsReplaced};
ghost use Rattle.pure_conv.specs.Rules.{puts, became, IsDefining, IsLookedThrough, IsTooLarge};
ghost use Rattle.pure_conv.specs.Answer.{IsConvAnswer};
ghost use Rattle.pure_conv.specs.UnfoldAnswer.{GivesUnfolded, RefusesUnfolded};

use crate::fault::{ConvFault, conv_answer};
use crate::front::typ_at_front;
use crate::rule::{Rule, instance_for, rule_of};
use pure_inst::Ordered;
use pure_term::{
    Grow, MAX_DEPTH, MAX_SIZE, Name, Term, TermNode, Typ, TypMap, copied, index_above_of, inst_typ,
    term_leaves,
};
use pure_theorem::{Thm, equation, from_one};
use pure_typ::typ_leaves;
use std::alloc::{AllocError, Global};
use std::sync::Arc;

/// Whether the constant of this name and type is unfolded.
fn unfolds(alloc: Global, rule: &Rule, name: Name, typ: &Typ) -> Result<bool, AllocError>
    ensures { IfOk result (IsLookedThrough (puts rule.now) (tree.Const name typ.now)) }
{
    let Some(_) = instance_for(alloc, rule, name, typ)? else {
        return Ok(false);
    };
    Ok(true)
}

/// Whether some constant of the term is unfolded. It looks at each.
fn unfolds_some(alloc: Global, rule: &Rule, t: &Term) -> Result<bool, AllocError>
    ensures { IfOk result (IsLookedThrough (puts rule.now) t.now) }
{
    match &t.node {
        TermNode::Const { name, typ } => unfolds(alloc, rule, *name, typ),
        TermNode::Free { .. } => Ok(false),
        TermNode::Var { .. } => Ok(false),
        TermNode::Bound { .. } => Ok(false),
        TermNode::Abs { body, .. } => unfolds_some(alloc, rule, body),
        TermNode::App { fun, arg, .. } => {
            let first = unfolds_some(alloc, rule, fun)?;
            let second = unfolds_some(alloc, rule, arg)?;
            Ok(first || second)
        }
    }
}

/// What is left of room when the body with the types is put in.
fn body_leaves(
    alloc: Global,
    body: &Term,
    binds: &TypMap,
    left: u32,
    room: u32,
) -> Result<Option<u32>, AllocError>
    requires size { left ≤ 200000 }
    requires depth { room ≤ 2000 }
    ensures { IfOk result (Leaves left room (term_size (inst_typ (typ_image binds.now) body.now)) (term_depth (inst_typ (typ_image binds.now) body.now))) }
{
    match inst_typ(alloc, body, binds) {
        Ok(u) => Ok(term_leaves(&u, left, room)),
        Err(Grow::Big) => Ok(None),
        Err(Grow::Memory) => Err(AllocError),
    }
}

/// What is left of room when what stands for the constant is put in.
fn constant_leaves(
    alloc: Global,
    rule: &Rule,
    t: &Term,
    name: Name,
    typ: &Typ,
    left: u32,
    room: u32,
) -> Result<Option<u32>, AllocError>
    requires defining { IsDefining rule.now }
    requires constant { t.now ≡ tree.Const name typ.now }
    requires size { left ≤ 200000 }
    requires depth { room ≤ 2000 }
    ensures leaves { IfOk result (λ rest. (u : tree.Term) → IsReplaced (puts rule.now) t.now u → Leaves left room (term_size u) (term_depth u) rest) }
    ensures fewer { IfOk result (λ rest. IfSome rest (λ n. n ≤ left)) }
{
    match instance_for(alloc, rule, name, typ)? {
        Some(binds) => body_leaves(alloc, rule.body, &binds, left, room),
        None => Ok(term_leaves(t, left, room)),
    }
}

/// What is left of room when what the term becomes is put in.
fn leaves(
    alloc: Global,
    rule: &Rule,
    t: &Term,
    left: u32,
    room: u32,
) -> Result<Option<u32>, AllocError>
    requires defining { IsDefining rule.now }
    requires size { left ≤ 200000 }
    requires depth { room ≤ 2000 }
    ensures leaves { IfOk result (λ rest. (u : tree.Term) → IsReplaced (puts rule.now) t.now u → Leaves left room (term_size u) (term_depth u) rest) }
    ensures fewer { IfOk result (λ rest. IfSome rest (λ n. n ≤ left)) }
{
    if left == 0 {
        return Ok(None);
    }
    if room == 0 {
        return Ok(None);
    }
    match &t.node {
        TermNode::Const { name, typ } => constant_leaves(alloc, rule, t, *name, typ, left, room),
        TermNode::Abs { typ, body, .. } => {
            let Some(rest) = typ_leaves(typ, left - 1, room - 1) else {
                return Ok(None);
            };
            leaves(alloc, rule, body, rest, room - 1)
        }
        TermNode::App { fun, arg, .. } => {
            let Some(rest) = leaves(alloc, rule, fun, left - 1, room - 1)? else {
                return Ok(None);
            };
            leaves(alloc, rule, arg, rest, room - 1)
        }
        TermNode::Free { .. } => Ok(term_leaves(t, left, room)),
        TermNode::Var { .. } => Ok(term_leaves(t, left, room)),
        TermNode::Bound { .. } => Ok(term_leaves(t, left, room)),
    }
}

/// The abstraction over a variable of the type of what the body was made into, if it was.
#[inline(never)]
fn abstraction(
    alloc: Global,
    typ: &Typ,
    body: Option<Arc<Term>>,
) -> Result<Option<Arc<Term>>, AllocError>
    ensures { IfOk result (λ made. option_map (λ u. u.value) made ≡ option_map (λ b. tree.Abs typ.now b.value) body) }
{
    let Some(body) = body else {
        return Ok(None);
    };
    let typ = typ.copy(alloc)?;
    Ok(Some(Arc::new(alloc, Term::abs(typ, body))?))
}

/// What the part was made into; or the part, where it wasn't.
fn made_or(part: &Arc<Term>, made: Option<Arc<Term>>) -> Result<Arc<Term>, AllocError>
    ensures { IfOk result (λ u. u.value ≡ became part.now.value (option_map (λ m. m.value) made)) }
{
    match made {
        Some(new) => Ok(new),
        None => Ok(Arc::try_clone(part)?),
    }
}

/// The application of the function to the argument, as what was made.
fn new_application(
    alloc: Global,
    fun: Arc<Term>,
    arg: Arc<Term>,
) -> Result<Option<Arc<Term>>, AllocError>
    ensures { IfOk result (λ made. option_map (λ u. u.value) made ≡ Some (tree.App fun.value arg.value)) }
{
    Ok(Some(Arc::new(alloc, Term::app(fun, arg))?))
}

/// The application of what its parts were made into, if one of them was.
#[inline(never)]
fn applied(
    alloc: Global,
    fun: &Arc<Term>,
    arg: &Arc<Term>,
    first: Option<Arc<Term>>,
    second: Option<Arc<Term>>,
) -> Result<Option<Arc<Term>>, AllocError>
    ensures { IfOk result (λ made. became (tree.App fun.now.value arg.now.value) (option_map (λ u. u.value) made) ≡ tree.App (became fun.now.value (option_map (λ u. u.value) first)) (became arg.now.value (option_map (λ u. u.value) second))) }
{
    match first {
        Some(new) => {
            let arg = made_or(arg, second)?;
            new_application(alloc, new, arg)
        }
        None => match second {
            Some(new) => {
                let fun = Arc::try_clone(fun)?;
                new_application(alloc, fun, new)
            }
            None => Ok(None),
        },
    }
}

/// What stands for the constant, if it is unfolded.
#[inline(never)]
fn put_constant(
    alloc: Global,
    rule: &Rule,
    name: Name,
    typ: &Typ,
) -> Result<Option<Arc<Term>>, Grow>
    requires { IsDefining rule.now }
    ensures { let c = tree.Const name typ.now in MatchResult result (λ made. IsReplaced (puts rule.now) c (became c (option_map (λ u. u.value) made))) (IsTooLarge (puts rule.now) c) }
{
    match instance_for(alloc, rule, name, typ)? {
        Some(binds) => {
            let body = inst_typ(alloc, rule.body, &binds)?;
            Ok(Some(copied(alloc, &body)?))
        }
        None => Ok(None),
    }
}

/// What the term becomes; none where no constant of it is unfolded, so that it stays.
fn put(alloc: Global, rule: &Rule, t: &Term) -> Result<Option<Arc<Term>>, Grow>
    requires { IsDefining rule.now }
    ensures { MatchResult result (λ made. IsReplaced (puts rule.now) t.now (became t.now (option_map (λ u. u.value) made))) (IsTooLarge (puts rule.now) t.now) }
{
    match &t.node {
        TermNode::Const { name, typ } => put_constant(alloc, rule, *name, typ),
        TermNode::Abs { typ, body, .. } => {
            let inside = put(alloc, rule, body)?;
            Ok(abstraction(alloc, typ, inside)?)
        }
        TermNode::App { fun, arg, .. } => {
            let first = put(alloc, rule, fun)?;
            let second = put(alloc, rule, arg)?;
            Ok(applied(alloc, fun, arg, first, second)?)
        }
        TermNode::Free { .. } => Ok(None),
        TermNode::Var { .. } => Ok(None),
        TermNode::Bound { .. } => Ok(None),
    }
}

/// What the term becomes, as a term.
fn becoming(alloc: Global, rule: &Rule, t: &Term) -> Result<Term, Grow>
    requires { IsDefining rule.now }
    ensures { MatchResult result (IsReplaced (puts rule.now) t.now) (IsTooLarge (puts rule.now) t.now) }
{
    match put(alloc, rule, t)? {
        Some(made) => Ok(made.copy(alloc)?),
        None => Ok(t.copy(alloc)?),
    }
}

/// The equation of the term and what it becomes. A body without schematic type variables is one part wherever it stands; only another is counted before it is put in.
fn unfolded(alloc: Global, rule: &Rule, typ: &Typ, t: &Term) -> Result<Term, Grow>
    requires { IsDefining rule.now }
    ensures { (u : tree.Term) → IsReplaced (puts rule.now) t.now u → IsMade (eq typ.now t.now u) result }
{
    if index_above_of(rule.body) != 0 {
        let Some(_) = leaves(alloc, rule, t, MAX_SIZE, MAX_DEPTH)? else {
            return Err(Grow::Big);
        };
    }
    let right = becoming(alloc, rule, t)?;
    let left = t.copy(alloc)?;
    Ok(equation(alloc, typ, left, right)?)
}

/// The conversion that unfolds a definition: each constant whose type is an instance of that of the defined one, of its sorts, is replaced by that instance of what it is defined to be, all at once. Nothing is normalised. `NotDefinition` where the theorem isn't `c == r` with c a constant and r without variables and without type variables that the type of c lacks, else `NothingToUnfold` where nothing is replaced, else `Big` where the equation isn't within the limits.
///
///      |- c == r
///     ----------- u is t with each instance of c replaced by that of r
///      |- t == u
pub fn unfold<B: Ordered>(alloc: Global, thy: &B, def: &Thm, t: &Term) -> Result<Thm, ConvFault>
    requires { IsTyped t.now }
    ensures answer { let algebra = algebra_of (B.content thy.now).declarations in IsConvAnswer (GivesUnfolded algebra def.now t.now) (RefusesUnfolded algebra def.now t.now) result }
    ensures derivable { let Q = B.content thy.now in IsTheoryContent Q → def.now.hyps ≡ [] → def.now.pairs ≡ [] → IsDerivable Q def.now → IsCertified Q.declarations t.now → IfOk result (IsDerivable Q) }
{
    let Some(rule) = rule_of(thy.order(), &def.prop) else {
        return Err(ConvFault::NotDefinition);
    };
    if !unfolds_some(alloc, &rule, t)? {
        return Err(ConvFault::NothingToUnfold);
    }
    let typ = typ_at_front(alloc, t)?;
    conv_answer(from_one(alloc, def, unfolded(alloc, &rule, &typ, t)))
}
