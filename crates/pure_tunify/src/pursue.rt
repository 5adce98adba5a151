//! Pairs are made equal, one turn after the other.
ghost use Rattle.std.specs.Prelude.{reverse, IfOk};
ghost use Rattle.pure_text.specs.Lists.{Each};
ghost use Rattle.pure_tunify.specs.Unifiers.{IsOldPair};
ghost use Rattle.pure_tunify.specs.Meeting.{IsPursuit};

use crate::meeting::Turned;
use crate::pair::TypPair;
use crate::settings::Settings;
use crate::turn::turn;
use pure_order::Order;
use std::alloc::{AllocError, Global};

/// Makes the pairs that are left equal by further settings, the last of the list first.
pub fn pursue(
    order: &Order,
    alloc: Global,
    settings: &mut Settings,
    work: &mut Vec<TypPair>,
) -> Result<Turned, AllocError>
    requires { Each (IsOldPair settings.old.index settings.old.next) (reverse work.old.items) }
    ensures { IfOk result (IsPursuit order.now settings.old settings.new (reverse work.old.items) (reverse work.new.items)) }
{
    for _ in 0..u64::MAX {
        let Some(first) = work.pop() else {
            return Ok(Turned::Further);
        };
        let turned = turn(order, alloc, settings, work, first)?;
        match turned {
            Turned::Further => {}
            Turned::Never => return Ok(Turned::Never),
            Turned::Large => return Ok(Turned::Large),
        }
    }
    Err(AllocError)
}
