//! Whether the images of the variables are within the limits: each is measured once, however often its variable occurs.
ghost use Rattle.std.specs.Prelude.{IfOk, OnOk, MatchBool};
ghost use Rattle.pure_definitions.specs.Terms.Subst.{typ_variable, typ_instance};
ghost use Rattle.pure_term_laws.specs.LawsOccurs.{IsTypVariable};
ghost use Rattle.pure_tunify.specs.Settings.{composed};
ghost use Rattle.pure_tunify.specs.Working.{HasImagesWithin};
ghost use Rattle.pure_tunify.specs.Measures.{IsMeasured, IsMeasureOf, IsJoined, IsSmallMeasure, AreMeasures, IsKnownMore};

use crate::free::stays;
use crate::reached::variable_of;
use crate::resolve::are_images_small;
use crate::settings::Settings;
use pure_typ::{
    MAX_DEPTH, MAX_SIZE, Typ, TypBind, TypNode, depth_of_typ, index_above_of_typ, is_typ_within,
    size_of_typ,
};
use std::alloc::{AllocError, Global};
use std::collections::BTreeMap;

/// The size and the depth of a type that is within the limits.
#[derive(Clone, Copy)]
pub struct Measure {
    pub size: u32,
    pub depth: u32,
}

/// The measure of one node.
const NODE: Measure = Measure { size: 1, depth: 1 };

/// The measure of a constructor with one argument more; none exactly where it passes the limits.
fn joined(whole: Measure, part: Measure) -> Option<Measure>
    requires whole { IsSmallMeasure whole }
    requires part { IsSmallMeasure part }
    ensures { IsJoined whole part result }
{
    let size = whole.size + part.size;
    let depth = whole.depth.max(part.depth + 1);
    if MAX_SIZE < size {
        return None;
    }
    if MAX_DEPTH < depth {
        return None;
    }
    Some(Measure { size, depth })
}

/// The measure of a variable with all set variables replaced. One that is set is known, since its image has only variables
/// that are set later.
fn measured_variable(
    settings: &Settings,
    known: &BTreeMap<Typ, Measure>,
    t: &Typ,
) -> Result<Measure, AllocError>
    requires variable { IsTypVariable t.now }
    requires known { AreMeasures settings.now.sets known.now }
    ensures { IfOk result (λ m. IsMeasured (typ_instance (composed settings.now.sets) t.now) m) }
{
    match settings.find(t) {
        None => Ok(NODE),
        Some(_) => match known.get(t) {
            None => Err(AllocError),
            Some(measure) => Ok(*measure),
        },
    }
}

/// The measure of a type as it stands; none exactly where it isn't within the limits.
fn measure_of(t: &Typ) -> Option<Measure>
    ensures { IsMeasureOf t.now result }
{
    if !is_typ_within(t) {
        return None;
    }
    Some(Measure {
        size: size_of_typ(t),
        depth: depth_of_typ(t),
    })
}

/// The measure of a type with all set variables replaced; none exactly where it isn't within the limits.
fn measured(
    settings: &Settings,
    known: &BTreeMap<Typ, Measure>,
    t: &Typ,
) -> Result<Option<Measure>, AllocError>
    requires { AreMeasures settings.now.sets known.now }
    ensures { IfOk result (IsMeasureOf (typ_instance (composed settings.now.sets) t.now)) }
{
    if index_above_of_typ(t) == 0 {
        return Ok(measure_of(t));
    }
    match &t.node {
        TypNode::TFree { .. } => Ok(Some(NODE)),
        TypNode::TVar { .. } => {
            let measure = measured_variable(settings, known, t)?;
            Ok(Some(measure))
        }
        TypNode::Con { args, .. } => {
            let args = args.as_slice();
            let mut whole = NODE;
            for arg in args {
                let found = measured(settings, known, arg)?;
                let Some(part) = found else {
                    return Ok(None);
                };
                let Some(more) = joined(whole, part) else {
                    return Ok(None);
                };
                whole = more;
            }
            Ok(Some(whole))
        }
    }
}

/// The same of an image. One in which no variable is set has its own measure.
fn measured_image(
    settings: &Settings,
    known: &BTreeMap<Typ, Measure>,
    image: &Typ,
) -> Result<Option<Measure>, AllocError>
    requires { AreMeasures settings.now.sets known.now }
    ensures { IfOk result (IsMeasureOf (typ_instance (composed settings.now.sets) image.now)) }
{
    if stays(settings, image) {
        return Ok(measure_of(image));
    }
    measured(settings, known, image)
}

/// Adds the measure of the entry's image, which is that of its variable.
fn know(
    alloc: Global,
    known: &mut BTreeMap<Typ, Measure>,
    bind: &TypBind,
    measure: Measure,
) -> Result<(), AllocError>
    ensures { OnOk result (IsKnownMore (typ_variable bind.now) measure known.old known.new) }
{
    let variable = variable_of(bind, alloc)?;
    known.insert(variable, measure)?;
    Ok(())
}

/// The same of any images. The last setting is measured first, so that what an image has of set variables is known before it.
fn are_images_measured(settings: &Settings, alloc: Global) -> Result<bool, AllocError>
    ensures { IfOk result (λ within. MatchBool within (HasImagesWithin settings.now.sets) (¬ HasImagesWithin settings.now.sets)) }
{
    let binds = settings.binds();
    let mut known = BTreeMap::new(alloc);
    let mut left = binds.len();
    while left > 0 {
        left -= 1;
        let bind = &binds[left];
        let found = measured_image(settings, &known, &bind.image)?;
        match found {
            None => return Ok(false),
            Some(measure) => know(alloc, &mut known, bind, measure)?,
        }
    }
    Ok(true)
}

/// Whether the images are within the limits.
pub fn are_images_within(settings: &Settings, alloc: Global) -> Result<bool, AllocError>
    ensures { IfOk result (λ within. MatchBool within (HasImagesWithin settings.now.sets) (¬ HasImagesWithin settings.now.sets)) }
{
    let small = are_images_small(settings)?;
    if small {
        return Ok(true);
    }
    are_images_measured(settings, alloc)
}
