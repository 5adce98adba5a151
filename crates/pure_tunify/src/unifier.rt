//! Unification of pairs of types.
ghost use Rattle.std.specs.Prelude.{◌≡◌, ◌<◌, ◌≤◌, ◌^◌, ℕ, [], length, IfOk, IfErr, OnOk, MatchBool};
ghost use Rattle.std.specs.Bool.{OnTrue};
ghost use Rattle.pure_text.specs.Lists.{Each};
ghost use Rattle.pure_definitions.specs.Terms.Subst.{typ_image};
ghost use Rattle.pure_tunify.specs.Unifiers.{IsOldPair, IsMostGeneral};
ghost use Rattle.pure_tunify.specs.Settings.{composed, AreWithinLimits};
ghost use Rattle.pure_tunify.specs.Procedure.{Unifies, TooBig};
ghost use Rattle.pure_tunify.specs.Answers.{AreSettled, AreUnified, IsIdempotentMap, IsIdempotent, IsDecided, IsReason, index_above_pairs};
ghost use Rattle.pure_tunify.specs.Passes.{HasCome, IsPass, IsJudged, IfFound, IfBeyond};

use crate::equation::Equation;
use crate::fault::TypFault;
use crate::index::index_above_each;
use crate::measure::are_images_within;
use crate::meeting::Turned;
use crate::pair::TypPair;
use crate::resolve::written;
use crate::settings::Settings;
use crate::solve::{solve, solve_given};
use pure_order::Order;
use pure_typ::TypMap;
use std::alloc::{AllocError, Global};

/// The greatest first name that isn't used.
const MOST_NAMES: u32 = 0x8000_0000;

/// Whether the images and the names are within the limits.
fn is_within(settings: &Settings, alloc: Global) -> Result<bool, AllocError>
    ensures { IfOk result (λ within. MatchBool within (AreWithinLimits settings.now.sets settings.now.next) (¬ AreWithinLimits settings.now.sets settings.now.next)) }
{
    if MOST_NAMES < settings.next() {
        return Ok(false);
    }
    let within = are_images_within(settings, alloc)?;
    Ok(within)
}

/// Where a pass over the pairs ends that looks at no limits.
#[derive(Clone, Copy)]
enum Pass {
    /// All are made equal.
    Whole,
    /// This one passes the limits.
    Beyond(u32),
    /// This one isn't made equal: it has no unifier, or memory is wanted.
    Stopped(u32),
}

/// Makes the pairs equal, one after the other, without a look at the limits.
fn solve_all(order: &Order, alloc: Global, settings: &mut Settings, pairs: &[TypPair]) -> Pass
    requires start { settings.old.sets ≡ [] }
    requires old { Each (IsOldPair settings.old.index settings.old.next) pairs.now }
    ensures { IsPass order.now settings.old settings.new pairs.now result }
{
    let mut index: u32 = 0;
    for pair in pairs {
        match solve(order, alloc, settings, pair) {
            Ok(Turned::Further) => {}
            Ok(Turned::Large) => return Pass::Beyond(index),
            Ok(Turned::Never) => return Pass::Stopped(index),
            Err(_) => return Pass::Stopped(index),
        }
        let Some(next) = index.checked_add(1) else {
            return Pass::Stopped(index);
        };
        index = next;
    }
    Pass::Whole
}

/// Makes so many of the pairs equal, without a look at the limits; false where one has no unifier.
fn solve_front(
    order: &Order,
    alloc: Global,
    settings: &mut Settings,
    pairs: &[TypPair],
    count: usize,
) -> Result<bool, AllocError>
    requires start { settings.old.sets ≡ [] }
    requires old { Each (IsOldPair settings.old.index settings.old.next) pairs.now }
    requires many { count ≤ length pairs.now }
    ensures { IfOk result (λ done. OnTrue done (HasCome order.now settings.old.index settings.old.next pairs.now count settings.new)) }
{
    for i in 0..count {
        let turned = solve(order, alloc, settings, &pairs[i])?;
        match turned {
            Turned::Further => {}
            Turned::Never => return Ok(false),
            Turned::Large => return Ok(false),
        }
    }
    Ok(true)
}

/// A pair is judged behind those before it, where their images are within the limits.
fn judge(
    order: &Order,
    alloc: Global,
    settings: &mut Settings,
    pair: &TypPair,
    at: u32,
) -> Result<(), TypFault>
    requires { IsOldPair settings.old.index settings.old.next pair.now }
    ensures { IfErr result (IsJudged order.now settings.old pair.now at) }
{
    let within = is_within(settings, alloc)?;
    if !within {
        return Ok(());
    }
    let turned = solve(order, alloc, settings, pair)?;
    match turned {
        Turned::Never => Err(TypFault::NoTyping { index: at }),
        Turned::Large => Err(TypFault::Big { index: at }),
        Turned::Further => {
            let fits = is_within(settings, alloc)?;
            if !fits {
                return Err(TypFault::Big { index: at });
            }
            Ok(())
        }
    }
}

/// Why this pair decides, where it does.
fn decide_at(
    alloc: Global,
    order: &Order,
    pairs: &[TypPair],
    index: u32,
    from: u32,
    at: u32,
) -> Result<(), TypFault>
    requires { Each (IsOldPair index from) pairs.now }
    ensures { IfErr result (IsDecided order.now index from pairs.now) }
{
    let place = at as usize;
    if pairs.len() <= place {
        return Ok(());
    }
    let mut settings = Settings::start(alloc, index, from);
    let done = solve_front(order, alloc, &mut settings, pairs, place)?;
    if !done {
        return Ok(());
    }
    judge(order, alloc, &mut settings, &pairs[place], at)
}

/// Whether the pairs up to this one are made equal by settings within the limits.
fn fits(
    alloc: Global,
    order: &Order,
    pairs: &[TypPair],
    index: u32,
    from: u32,
    last: u32,
) -> Result<bool, AllocError>
    requires { Each (IsOldPair index from) pairs.now }
{
    let count = last as usize + 1;
    if pairs.len() < count {
        return Ok(false);
    }
    let mut settings = Settings::start(alloc, index, from);
    let done = solve_front(order, alloc, &mut settings, pairs, count)?;
    if !done {
        return Ok(false);
    }
    is_within(&settings, alloc)
}

/// The first pair of so many that makes an image beyond the limits: by halves, since images only grow.
fn first_beyond(
    alloc: Global,
    order: &Order,
    pairs: &[TypPair],
    index: u32,
    from: u32,
    count: u32,
) -> Result<u32, AllocError>
    requires { Each (IsOldPair index from) pairs.now }
{
    let mut low: u32 = 0;
    let mut high = count;
    while low < high {
        let middle = low + (high - low) / 2;
        let within = fits(alloc, order, pairs, index, from, middle)?;
        if within {
            low = middle + 1;
        } else {
            high = middle;
        }
    }
    Ok(low)
}

/// How many pairs there are, or the greatest number that an index can be.
fn count_of(pairs: &[TypPair]) -> u32 {
    match u32::try_from(pairs.len()) {
        Ok(count) => count,
        Err(_) => u32::MAX,
    }
}

/// What a pass without a look at the limits before the end comes to.
#[derive(Drop)]
enum Attempt {
    /// These settings make them equal, and are within the limits.
    Found(Settings),
    /// This pair passes the limits.
    Beyond(u32),
    /// This pair isn't made equal, or the limits are passed behind the last one.
    Stopped(u32),
}

/// Makes the pairs equal, without a look at the limits before the end.
fn settle_at_once(
    alloc: Global,
    order: &Order,
    pairs: &[TypPair],
    index: u32,
    from: u32,
) -> Result<Attempt, AllocError>
    requires { Each (IsOldPair index from) pairs.now }
    ensures ok { IfOk result (IfFound (λ found. AreSettled order.now index from pairs.now found)) }
    ensures beyond { IfOk result (IfBeyond (λ at. Unifies order.now index 0 from [] pairs.now (TooBig at))) }
{
    let mut settings = Settings::start(alloc, index, from);
    match solve_all(order, alloc, &mut settings, pairs) {
        Pass::Stopped(at) => Ok(Attempt::Stopped(at)),
        Pass::Beyond(at) => {
            let within = is_within(&settings, alloc)?;
            if !within {
                return Ok(Attempt::Stopped(at));
            }
            Ok(Attempt::Beyond(at))
        }
        Pass::Whole => {
            let within = is_within(&settings, alloc)?;
            if !within {
                return Ok(Attempt::Stopped(count_of(pairs)));
            }
            let _ = settings.binds();
            Ok(Attempt::Found(settings))
        }
    }
}

/// Why the first of so many pairs whose images are beyond the limits decides.
fn reason_before(
    alloc: Global,
    order: &Order,
    pairs: &[TypPair],
    index: u32,
    from: u32,
    count: u32,
) -> TypFault
    requires { Each (IsOldPair index from) pairs.now }
    ensures { IsDecided order.now index from pairs.now result }
{
    match first_beyond(alloc, order, pairs, index, from, count) {
        Ok(first) => match decide_at(alloc, order, pairs, index, from, first) {
            Ok(()) => TypFault::Memory,
            Err(fault) => fault,
        },
        Err(_) => TypFault::Memory,
    }
}

/// Why the pairs aren't unified, where a pass stopped at this one or behind the last: most often it decides itself, and else
/// an earlier one does.
fn reason(
    alloc: Global,
    order: &Order,
    pairs: &[TypPair],
    index: u32,
    from: u32,
    at: u32,
) -> TypFault
    requires { Each (IsOldPair index from) pairs.now }
    ensures { IsDecided order.now index from pairs.now result }
{
    match decide_at(alloc, order, pairs, index, from, at) {
        Ok(()) => reason_before(alloc, order, pairs, index, from, at),
        Err(fault) => fault,
    }
}

/// The settings that make the pairs equal, with fresh variables of the given index whose names are counted from the given
/// one: one after the other they are the most general unifier. No image is written out.
pub fn settle(
    alloc: Global,
    order: &Order,
    pairs: &[TypPair],
    index: u32,
    from: u32,
) -> Result<Settings, TypFault>
    requires { Each (IsOldPair index from) pairs.now }
    ensures ok { IfOk result (λ found. AreSettled order.now index from pairs.now found) }
    ensures general { IfOk result (λ found. IsMostGeneral order.now index from pairs.now (composed found.sets)) }
    ensures idempotent { IfOk result (λ found. IsIdempotentMap (composed found.sets)) }
    ensures fault { IfErr result (IsDecided order.now index from pairs.now) }
    ensures reason { IfErr result (IsReason order.now index from pairs.now) }
{
    match settle_at_once(alloc, order, pairs, index, from)? {
        Attempt::Found(found) => Ok(found),
        Attempt::Beyond(at) => Err(TypFault::Big { index: at }),
        Attempt::Stopped(at) => Err(reason(alloc, order, pairs, index, from, at)),
    }
}

/// Makes the types of each equation equal, one after the other; false where one has no unifier or passes the limits.
fn solve_each(
    order: &Order,
    alloc: Global,
    settings: &mut Settings,
    pairs: Vec<Equation>,
) -> Result<bool, AllocError>
    requires start { settings.old.sets ≡ [] }
    requires old { Each (IsOldPair settings.old.index settings.old.next) pairs.items }
    ensures { IfOk result (λ done. OnTrue done (HasCome order.now settings.old.index settings.old.next pairs.items (length pairs.items) settings.new)) }
{
    let mut work = Vec::new(alloc);
    for pair in pairs {
        let turned = solve_given(order, alloc, settings, &mut work, pair)?;
        match turned {
            Turned::Further => {}
            Turned::Never => return Ok(false),
            Turned::Large => return Ok(false),
        }
    }
    Ok(true)
}

/// The settings, as above, where one pass finds them. It takes the pairs apart, and needs no copy of them; where it fails,
/// as if memory were wanted, the reason is looked for by `settle`.
pub fn settle_given(
    alloc: Global,
    order: &Order,
    pairs: Vec<Equation>,
    index: u32,
    from: u32,
) -> Result<Settings, AllocError>
    requires { Each (IsOldPair index from) pairs.items }
    ensures { IfOk result (λ found. AreSettled order.now index from pairs.items found) }
{
    let mut settings = Settings::start(alloc, index, from);
    let done = solve_each(order, alloc, &mut settings, pairs)?;
    if !done {
        return Err(AllocError);
    }
    let within = is_within(&settings, alloc)?;
    if !within {
        return Err(AllocError);
    }
    let _ = settings.binds();
    Ok(settings)
}

/// The most general unifier of the pairs, with fresh variables of the given index whose names are counted from the given
/// one, and the first name that isn't used.
pub fn unify_from(
    alloc: Global,
    order: &Order,
    pairs: &[TypPair],
    index: u32,
    from: u32,
) -> Result<(TypMap, u32), TypFault>
    requires { Each (IsOldPair index from) pairs.now }
    ensures ok { IfOk result (λ found. AreUnified order.now index from pairs.now found.0 found.1) }
    ensures general { IfOk result (λ found. IsMostGeneral order.now index from pairs.now (typ_image found.0)) }
    ensures idempotent { IfOk result (λ found. IsIdempotent found.0) }
    ensures fault { IfErr result (IsDecided order.now index from pairs.now) }
    ensures reason { IfErr result (IsReason order.now index from pairs.now) }
{
    let settings = settle(alloc, order, pairs, index, from)?;
    let next = settings.next();
    let map = written(&settings, alloc)?;
    match map {
        Some(map) => Ok((map, next)),
        None => unreachable!(),
    }
}

/// The most general unifier of the pairs, whose fresh variables have the index above those of the pairs, and names counted
/// from 0.
pub fn unify(alloc: Global, order: &Order, pairs: &[TypPair]) -> Result<TypMap, TypFault>
    requires { index_above_pairs pairs.now < 2 ^ 32 }
    ensures ok { IfOk result (λ map. (next : ℕ) × AreUnified order.now (index_above_pairs pairs.now) 0 pairs.now map next) }
    ensures general { IfOk result (λ map. IsMostGeneral order.now (index_above_pairs pairs.now) 0 pairs.now (typ_image map)) }
    ensures idempotent { IfOk result (λ map. IsIdempotent map) }
    ensures fault { IfErr result (IsDecided order.now (index_above_pairs pairs.now) 0 pairs.now) }
    ensures reason { IfErr result (IsReason order.now (index_above_pairs pairs.now) 0 pairs.now) }
{
    let index = index_above_each(pairs);
    let (map, _) = unify_from(alloc, order, pairs, index, 0)?;
    Ok(map)
}
