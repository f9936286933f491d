//! Fills beside the original's, and splats.

ghost use Rattle.viewer.specs.Fills.{FillsUnmoved, OneSplat};

/// Every fill's word is the one with the original's binary16 patterns.
#[tactic(auto, using(crate::proofs::FillsLaws::fills_unmoved))]
pub fn fills_are_the_originals()
    ensures { FillsUnmoved }
{}

/// Two outcomes of a splat of one pattern over one destination are equal.
#[tactic(auto, using(crate::proofs::FillsLaws::splat_settles))]
pub fn a_splat_settles_every_byte()
    ensures { OneSplat }
{}
