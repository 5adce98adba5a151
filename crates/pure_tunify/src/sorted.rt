//! Whether what variables were set to is of their sorts.
ghost use Rattle.std.specs.Prelude.{IfOk};
ghost use Rattle.std.specs.Bool.{OnTrue};
ghost use Rattle.pure_text.specs.Lists.{Each};
ghost use Rattle.pure_definitions.specs.Types.Order.{IsSortBelow, IsOfSort};

use crate::asks::{Asked, asked_of};
use crate::settings::Settings;
use pure_order::Order;
use pure_typ::{Sort, Typ};
use std::alloc::{AllocError, Global};

/// Whether no more is asked of each variable than its own sort.
fn asks_no_more(order: &Order, asked: &[Asked]) -> bool
    ensures { OnTrue result (Each (λ a. IsSortBelow order.now a.sort a.asked) asked.now) }
{
    for one in asked {
        if !order.sort_below(&one.sort, &one.asked) {
            return false;
        }
    }
    true
}

/// Whether the type is of the sort.
fn is_of_sort(order: &Order, alloc: Global, t: &Typ, sort: &Sort) -> Result<bool, AllocError>
    ensures { IfOk result (λ is. OnTrue is (IsOfSort order.now t.now sort.now)) }
{
    if sort.classes().is_empty() {
        return Ok(true);
    }
    let found = asked_of(order, alloc, t, sort)?;
    match found {
        None => Ok(false),
        Some(asked) => Ok(asks_no_more(order, asked.as_slice())),
    }
}

/// Whether each image, as it was set, is of its variable's sort.
pub fn are_of_their_sorts(
    order: &Order,
    alloc: Global,
    settings: &Settings,
) -> Result<bool, AllocError>
    ensures { IfOk result (λ all. OnTrue all (Each (λ b. IsOfSort order.now b.image b.sort) settings.now.sets)) }
{
    for bind in settings.binds() {
        let fits = is_of_sort(order, alloc, &bind.image, &bind.sort)?;
        if !fits {
            return Ok(false);
        }
    }
    Ok(true)
}
