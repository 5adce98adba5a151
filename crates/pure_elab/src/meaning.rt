//! What names and variables of a written term mean.
use pure_typ::Name;

/// What a name or variable of a term means.
#[derive(Clone, Copy, Debug)]
pub enum Meaning {
    /// The constant of this name.
    Constant { name: Name },
    /// The fixed variable of this name.
    Fixed { name: Name },
    /// The variable of a binder: so many others stand between.
    Bound { place: u32 },
    /// A schematic variable, which can't be written.
    Schematic,
    /// Nothing.
    Unknown,
}
