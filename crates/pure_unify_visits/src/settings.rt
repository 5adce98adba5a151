//! A variable is set, and the setting is put into the other pairs.
ghost use Rattle.std.specs.Prelude.{◌≡◌, ℕ, [], ◌++◌, reverse, IfOk};
ghost use Rattle.pure_text.specs.Lists.{Each};
ghost use Rattle.pure_definitions.specs.Types.Order.{Algebra};
ghost use Rattle.pure_definitions.specs.Terms.Typing.{HasType};
ghost use Rattle.pure_logic.specs.Derivable as logic;
ghost use Rattle.pure_unify_definitions.specs.Node as node;
ghost use Rattle.pure_unify_definitions.specs.Treatment as rules;
ghost use Rattle.pure_unify_steps.specs.Held.{IsSetting, IsTypedSetting, IsPath};
ghost use Rattle.pure_unify_nodes.specs.Long.{IsLongPair};
ghost use Rattle.pure_unify_visits.specs.Scanned.{IsScan, IsAt, IsReady, IsTurned, IsReadyTurn, IsPutInto};

use crate::scan::{Scan, Turn, move_back, scan_of};
use pure_norm::NormFault;
use pure_term::{TermBind, TermMap};
use pure_theorem::Pair;
use pure_unify_steps::{Node, Path, Setting, put_owned_pairs};
use std::alloc::{AllocError, Global};

/// The setting of one variable.
fn setting_of(alloc: Global, bind: TermBind) -> Result<Setting, AllocError>
    ensures { IfOk result (λ setting. IsSetting setting (node.Single bind)) }
{
    let mut map = TermMap::empty(alloc);
    map.push(bind)?;
    Ok(Setting::OfTerm(map))
}

/// The path with one setting more.
pub fn further(path: Path, setting: Setting) -> Result<Path, AllocError>
    ensures { (p : node.Path) (s : node.Setting) → IsPath path p → IsSetting setting s → IfOk result (λ made. IsPath made (node.further p s)) }
{
    let mut path = path;
    path.settings.push(setting)?;
    Ok(path)
}

/// A scan of the pairs, with one setting more on the path.
fn set(alloc: Global, pairs: Vec<Pair>, path: Path, setting: Setting) -> Result<Scan, AllocError>
    requires long { Each IsLongPair pairs.items }
    ensures node { (n : node.Node) (s : node.Setting) → pairs.items ≡ n.pairs → IsPath path n.path → IsSetting setting s
        → IfOk result (λ scan. IsScan scan (record n { path = node.further n.path s })) }
    ensures ready { IfOk result IsReady }
{
    let path = further(path, setting)?;
    Ok(scan_of(alloc, Node { pairs, path }))
}

/// The pairs that were passed, and those still to come.
fn joined(passed: Vec<Pair>, rest: Vec<Pair>) -> Result<Vec<Pair>, AllocError>
    ensures { IfOk result (λ pairs. pairs.items ≡ passed.items ++ reverse rest.items) }
{
    let mut pairs = passed;
    move_back(rest, &mut pairs)?;
    Ok(pairs)
}

/// Lets go of a setting.
fn discard(_setting: Setting) {}

/// A scan of the pairs with the setting put in, in long form, or what stops the search.
fn put_into(
    alloc: Global,
    pairs: Vec<Pair>,
    path: Path,
    setting: Setting,
) -> Result<Scan, NormFault>
    requires long { Each IsLongPair pairs.items }
    requires typed { IsTypedSetting setting }
    ensures answer { (p : node.Path) (s : node.Setting) → IsPath path p → IsSetting setting s → IsPutInto pairs.items p s result }
    ensures ready { IfOk result IsReady }
{
    match put_owned_pairs(alloc, &setting, pairs) {
        Ok(made) => Ok(set(alloc, made, path, setting)?),
        Err(fault) => {
            discard(setting);
            Err(fault)
        }
    }
}

/// What comes of a pair by which a variable is set: the pair goes.
pub fn put(alloc: Global, scan: Scan, bind: TermBind) -> Result<Turn, NormFault>
    requires ready { IsReady scan }
    requires typed { HasType [] bind.image bind.typ }
    ensures answer { (A : Algebra) (maxidx : ℕ) (p : logic.Pair) (n : node.Node) → rules.IsTreatment p.left p.right (rules.Put bind) → IsAt scan p n → IsTurned A maxidx n result }
    ensures ready { IfOk result IsReadyTurn }
{
    let Scan { passed, rest, path } = scan;
    let setting = setting_of(alloc, bind)?;
    match joined(passed, rest) {
        Ok(pairs) => match put_into(alloc, pairs, path, setting) {
            Ok(next) => Ok(Turn::Onward(next)),
            Err(fault) => Err(fault),
        },
        Err(_) => {
            discard(setting);
            Err(NormFault::Memory)
        }
    }
}
