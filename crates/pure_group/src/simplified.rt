//! A term as a conversion of `pure_rewrite` simplifies it.
ghost use Rattle.std.specs.Prelude.{IfOk};
ghost use Rattle.pure_kernel.specs.Logic.Derivable.{IsDerivable};

use crate::inverse::{stated, term_at};
use crate::stop::Stop;
use pure_kernel::{NamesByBase, Theory, Thm};
use pure_rewrite::rewrite;
use std::alloc::Global;

/// What a function becomes without its products by `one`, as an equation.
pub(crate) fn simplified(alloc: Global, thy: &Theory, names: &NamesByBase) -> Result<Thm, Stop>
    ensures { IfOk result (IsDerivable thy.now) }
{
    let text = b"%y. mul (mul one y) (inv (mul one x))";
    let function = term_at(alloc, thy, names, text, b"g => g")?;
    let rule = stated(alloc, thy, names, b"Group.left_one")?;
    let fresh = names.names().first_fresh();
    let th = rewrite(alloc, thy, &rule, fresh, &function)?;
    Ok(th)
}
