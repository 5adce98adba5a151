//! A left inverse is a right inverse, by instances and equations. Each function says that its theorem is derivable.
ghost use Rattle.std.specs.Prelude.{IfOk};
ghost use Rattle.pure_kernel.specs.Texts.Lists.{Each};
ghost use Rattle.pure_kernel.specs.Definitions.Declarations.Certified.{IsCertified};
ghost use Rattle.pure_kernel.specs.Logic.Derivable.{IsDerivable};

use crate::stop::Stop;
use crate::theory::name_of;
use pure_kernel::{
    NamesByBase, Term, TermBind, TermMap, Theory, Thm, TypMap, axiom, certified_is_typed,
    combination, generalise, has_theory_content, instantiate, reflexive, symmetric, term_of_text,
    transitive, typ_of_text,
};
use std::alloc::Global;

/// The term that the text says at the type.
pub(crate) fn term_at(
    alloc: Global,
    thy: &Theory,
    names: &NamesByBase,
    text: &[u8],
    typ: &[u8],
) -> Result<Term, Stop>
    ensures { IfOk result (IsCertified thy.now.declarations) }
{
    let typ = typ_of_text(alloc, thy, names, typ)?;
    let t = term_of_text(alloc, thy, names, text, &typ)?;
    Ok(t)
}

/// `t == t`, for the term that the text says at the type.
fn same(
    alloc: Global,
    thy: &Theory,
    names: &NamesByBase,
    text: &[u8],
    typ: &[u8],
) -> Result<Thm, Stop>
    ensures { IfOk result (IsDerivable thy.now) }
{
    let t = term_at(alloc, thy, names, text, typ)?;
    has_theory_content(thy);
    certified_is_typed(thy, &t);
    let th = reflexive(alloc, thy, &t)?;
    Ok(th)
}

/// The map that puts an element for a variable.
fn putting(
    alloc: Global,
    thy: &Theory,
    names: &NamesByBase,
    variable: &[u8],
    text: &[u8],
) -> Result<TermMap, Stop>
    ensures { IfOk result (Each (λ b. IsCertified thy.now.declarations b.image)) }
{
    let name = name_of(names, variable)?;
    let image = term_at(alloc, thy, names, text, b"g")?;
    let typ = typ_of_text(alloc, thy, names, b"g")?;
    let bind = TermBind {
        name,
        index: 0,
        typ,
        image,
    };
    let mut terms = TermMap::empty(alloc);
    terms.push(bind)?;
    Ok(terms)
}

/// The theorem with an element put for a variable.
fn put(
    alloc: Global,
    thy: &Theory,
    names: &NamesByBase,
    th: &Thm,
    variable: &[u8],
    text: &[u8],
) -> Result<Thm, Stop>
    requires { IsDerivable thy.now th.now }
    ensures { IfOk result (IsDerivable thy.now) }
{
    let terms = putting(alloc, thy, names, variable, text)?;
    has_theory_content(thy);
    let th = instantiate(alloc, thy, &TypMap::empty(alloc), &terms, th)?;
    Ok(th)
}

/// The axiom of this name, of an element.
fn law(alloc: Global, thy: &Theory, names: &NamesByBase, name: &[u8], x: &[u8]) -> Result<Thm, Stop>
    ensures { IfOk result (IsDerivable thy.now) }
{
    let general = stated(alloc, thy, names, name)?;
    let th = put(alloc, thy, names, &general, b"x", x)?;
    Ok(th)
}

/// `mul (mul x y) z == mul x (mul y z)`, of these elements.
fn associative(
    alloc: Global,
    thy: &Theory,
    names: &NamesByBase,
    x: &[u8],
    y: &[u8],
    z: &[u8],
) -> Result<Thm, Stop>
    ensures { IfOk result (IsDerivable thy.now) }
{
    let first = law(alloc, thy, names, b"Group.assoc", x)?;
    let second = put(alloc, thy, names, &first, b"y", y)?;
    let third = put(alloc, thy, names, &second, b"z", z)?;
    Ok(third)
}

/// From `t == u`: `u == t`.
fn back(alloc: Global, thy: &Theory, th: &Thm) -> Result<Thm, Stop>
    requires { IsDerivable thy.now th.now }
    ensures { IfOk result (IsDerivable thy.now) }
{
    has_theory_content(thy);
    let th = symmetric(alloc, thy, th)?;
    Ok(th)
}

/// From `t == u` and `u == v`: `t == v`.
fn then(alloc: Global, thy: &Theory, first: &Thm, second: &Thm) -> Result<Thm, Stop>
    requires first { IsDerivable thy.now first.now }
    requires second { IsDerivable thy.now second.now }
    ensures { IfOk result (IsDerivable thy.now) }
{
    has_theory_content(thy);
    let th = transitive(alloc, thy, first, second)?;
    Ok(th)
}

/// From `f == g` and `a == b`: `f a == g b`.
fn applied(alloc: Global, thy: &Theory, function: &Thm, argument: &Thm) -> Result<Thm, Stop>
    requires function { IsDerivable thy.now function.now }
    requires argument { IsDerivable thy.now argument.now }
    ensures { IfOk result (IsDerivable thy.now) }
{
    has_theory_content(thy);
    let th = combination(alloc, thy, function, argument)?;
    Ok(th)
}

/// The theorem with the fixed variable x made schematic.
fn general(alloc: Global, thy: &Theory, names: &NamesByBase, th: &Thm) -> Result<Thm, Stop>
    requires { IsDerivable thy.now th.now }
    ensures { IfOk result (IsDerivable thy.now) }
{
    let x = name_of(names, b"x")?;
    has_theory_content(thy);
    let th = generalise(alloc, thy, &[], &[x], 0, th)?;
    Ok(th)
}

/// The axiom of this name.
pub(crate) fn stated(
    alloc: Global,
    thy: &Theory,
    names: &NamesByBase,
    name: &[u8],
) -> Result<Thm, Stop>
    ensures { IfOk result (IsDerivable thy.now) }
{
    let name = name_of(names, name)?;
    has_theory_content(thy);
    let th = axiom(alloc, thy, name)?;
    Ok(th)
}

/// From `a == b`: `f a == f b`, for the function that the text says.
fn below(
    alloc: Global,
    thy: &Theory,
    names: &NamesByBase,
    function: &[u8],
    th: &Thm,
) -> Result<Thm, Stop>
    requires { IsDerivable thy.now th.now }
    ensures { IfOk result (IsDerivable thy.now) }
{
    let function = same(alloc, thy, names, function, b"g => g")?;
    let th = applied(alloc, thy, &function, th)?;
    Ok(th)
}

/// From `a == b`: `mul a == mul b`.
fn times_what(alloc: Global, thy: &Theory, names: &NamesByBase, th: &Thm) -> Result<Thm, Stop>
    requires { IsDerivable thy.now th.now }
    ensures { IfOk result (IsDerivable thy.now) }
{
    let mul = same(alloc, thy, names, b"mul", b"g => g => g")?;
    let th = applied(alloc, thy, &mul, th)?;
    Ok(th)
}

/// From `a == b`: `mul a t == mul b t`, for the element that the text says.
fn times(
    alloc: Global,
    thy: &Theory,
    names: &NamesByBase,
    th: &Thm,
    element: &[u8],
) -> Result<Thm, Stop>
    requires { IsDerivable thy.now th.now }
    ensures { IfOk result (IsDerivable thy.now) }
{
    let function = times_what(alloc, thy, names, th)?;
    let element = same(alloc, thy, names, element, b"g")?;
    let th = applied(alloc, thy, &function, &element)?;
    Ok(th)
}

/// `mul (mul (inv x) x) t == mul one t`, for the elements x and t.
fn cancelled(
    alloc: Global,
    thy: &Theory,
    names: &NamesByBase,
    x: &[u8],
    t: &[u8],
) -> Result<Thm, Stop>
    ensures { IfOk result (IsDerivable thy.now) }
{
    let inverse = law(alloc, thy, names, b"Group.left_inverse", x)?;
    let th = times(alloc, thy, names, &inverse, t)?;
    Ok(th)
}

/// `mul (mul (inv x) x) t == t`, for the elements x and t.
fn absorbed(
    alloc: Global,
    thy: &Theory,
    names: &NamesByBase,
    x: &[u8],
    t: &[u8],
) -> Result<Thm, Stop>
    ensures { IfOk result (IsDerivable thy.now) }
{
    let cancelled = cancelled(alloc, thy, names, x, t)?;
    let unit = law(alloc, thy, names, b"Group.left_one", t)?;
    let th = then(alloc, thy, &cancelled, &unit)?;
    Ok(th)
}

/// `mul (inv x) (mul x (inv x)) == mul (mul (inv x) x) (inv x)`
fn regrouped(alloc: Global, thy: &Theory, names: &NamesByBase) -> Result<Thm, Stop>
    ensures { IfOk result (IsDerivable thy.now) }
{
    let assoc = associative(alloc, thy, names, b"inv x", b"x", b"inv x")?;
    let th = back(alloc, thy, &assoc)?;
    Ok(th)
}

/// `mul (inv x) (mul x (inv x)) == inv x`
fn inner(alloc: Global, thy: &Theory, names: &NamesByBase) -> Result<Thm, Stop>
    ensures { IfOk result (IsDerivable thy.now) }
{
    let regrouped = regrouped(alloc, thy, names)?;
    let absorbed = absorbed(alloc, thy, names, b"x", b"inv x")?;
    let th = then(alloc, thy, &regrouped, &absorbed)?;
    Ok(th)
}

/// `mul (inv (inv x)) (mul (inv x) (mul x (inv x))) == mul (inv (inv x)) (inv x)`
fn outer(alloc: Global, thy: &Theory, names: &NamesByBase) -> Result<Thm, Stop>
    ensures { IfOk result (IsDerivable thy.now) }
{
    let inner = inner(alloc, thy, names)?;
    let th = below(alloc, thy, names, b"mul (inv (inv x))", &inner)?;
    Ok(th)
}

/// `mul (mul (inv (inv x)) (inv x)) (mul x (inv x)) == mul (inv (inv x)) (inv x)`
fn whole(alloc: Global, thy: &Theory, names: &NamesByBase) -> Result<Thm, Stop>
    ensures { IfOk result (IsDerivable thy.now) }
{
    let product = b"mul x (inv x)";
    let assoc = associative(alloc, thy, names, b"inv (inv x)", b"inv x", product)?;
    let outer = outer(alloc, thy, names)?;
    let th = then(alloc, thy, &assoc, &outer)?;
    Ok(th)
}

/// `mul (mul (inv (inv x)) (inv x)) (mul x (inv x)) == one`
fn whole_is_one(alloc: Global, thy: &Theory, names: &NamesByBase) -> Result<Thm, Stop>
    ensures { IfOk result (IsDerivable thy.now) }
{
    let whole = whole(alloc, thy, names)?;
    let inverse = law(alloc, thy, names, b"Group.left_inverse", b"inv x")?;
    let th = then(alloc, thy, &whole, &inverse)?;
    Ok(th)
}

/// `mul x (inv x) == mul (mul (inv (inv x)) (inv x)) (mul x (inv x))`
fn right_is_whole(alloc: Global, thy: &Theory, names: &NamesByBase) -> Result<Thm, Stop>
    ensures { IfOk result (IsDerivable thy.now) }
{
    let absorbed = absorbed(alloc, thy, names, b"inv x", b"mul x (inv x)")?;
    let th = back(alloc, thy, &absorbed)?;
    Ok(th)
}

/// `mul x (inv x) == one`
fn fixed(alloc: Global, thy: &Theory, names: &NamesByBase) -> Result<Thm, Stop>
    ensures { IfOk result (IsDerivable thy.now) }
{
    let right = right_is_whole(alloc, thy, names)?;
    let one = whole_is_one(alloc, thy, names)?;
    let th = then(alloc, thy, &right, &one)?;
    Ok(th)
}

/// `mul ?x (inv ?x) == one`
pub(crate) fn right_inverse(alloc: Global, thy: &Theory, names: &NamesByBase) -> Result<Thm, Stop>
    ensures { IfOk result (IsDerivable thy.now) }
{
    let fixed = fixed(alloc, thy, names)?;
    let th = general(alloc, thy, names, &fixed)?;
    Ok(th)
}
