//! Theorems within the limits.
ghost use Rattle.std.specs.Prelude.{◌≡◌};
ghost use Rattle.pure_inst.specs.Image.{IsMapAnswer, RefusesNothing};

use crate::fault::InstFault;
use pure_theorem::Thm;

/// The theorem itself, where it is within the limits.
pub fn within_limits(th: Thm) -> Result<Thm, InstFault>
    ensures { IsMapAnswer (λ made. made ≡ th) RefusesNothing result }
{
    if th.is_within() {
        Ok(th)
    } else {
        Err(InstFault::Big)
    }
}
