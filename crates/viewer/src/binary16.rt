//! Binary16 between 2^-25 and 2^-24.

ghost use Rattle.viewer.specs.Binary16.{FaintHalves};

/// Between 2^-25 and 2^-24, ends excluded, a pattern is the smallest subnormal with its sign, where
/// the original has zero; every other is the original's.
#[tactic(auto, using(crate::proofs::Binary16Laws::faint_halves))]
pub fn faint_numbers_are_subnormal()
    ensures { FaintHalves }
{}
