//! What the powers of two are that sum to a number.
ghost use Rattle.pure_shared_maps.specs.Powers.{ArePowers};

/// Each number of 32 bits is the sum of its powers of two, the greatest first.
pub fn powers_law()
    ensures { ArePowers }
{}
