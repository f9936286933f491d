//! What it is to be the nearest number.

ghost use Rattle.viewer.specs.Nearest.{OneNearest};

/// Each rounding, to bytes, to codes of depths and to binary16 patterns, has one nearest number,
/// and it is the one that is computed.
#[tactic(auto, using(crate::proofs::NearestLaws::nearest_is_one))]
pub fn each_rounding_has_one_nearest()
    ensures { OneNearest }
{}
