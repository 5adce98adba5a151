//! Theories with the places of their parts.
ghost use Rattle.std.specs.Prelude.{◌≡◌, IfOk};
ghost use Rattle.pure_text.specs.Lists.{EachTwo};
ghost use Rattle.pure_row_places.specs.Scans.{seen_scan, IsScanOf, IsScannedAs};

use pure_places::{Places, find_places};
use pure_session::Loaded;
use pure_text::Text;
use std::alloc::{AllocError, Global};

/// A theory: its name, its source, and where its parts stand.
#[derive(Drop)]
pub struct Scan {
    pub name: Text,
    pub source: Text,
    pub places: Places,
}

/// A file that is refused: its theory's name, and, where its header is looked at, the scanned theory.
#[derive(Drop)]
pub struct RefusedScan {
    pub name: Text,
    pub scan: Option<Scan>,
}

/// The theory of this name and this source, with the places of its parts.
///
/// # Errors
///
/// Want of memory alone.
pub fn scanned(alloc: Global, name: &Text, source: &Text) -> Result<Scan, AllocError>
    ensures { IfOk result (λ s. IsScanOf name.now source.now (seen_scan s)) }
{
    if source.bytes().len() >= u32::MAX as usize {
        return Err(AllocError);
    }
    let places = find_places(alloc, source.bytes())?;
    let name = name.copy(alloc)?;
    let source = source.copy(alloc)?;
    Ok(Scan {
        name,
        source,
        places,
    })
}

/// The theories with the places of their parts.
///
/// # Errors
///
/// Want of memory alone.
pub fn scans(alloc: Global, theories: &[Loaded]) -> Result<Vec<Scan>, AllocError>
    ensures { IfOk result (λ found. EachTwo IsScannedAs theories.now found.items) }
{
    let mut found = Vec::new(alloc);
    for theory in theories {
        found.push(scanned(alloc, &theory.name, &theory.source)?)?;
    }
    Ok(found)
}
