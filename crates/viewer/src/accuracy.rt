//! How near what accepted calls store lies to what it was made of.

ghost use Rattle.viewer.specs.Accuracy.{Accuracy};

/// What every accepted conversion stores lies near its source by any set of numbers, every packed
/// depth is the nearest code, and an unpacked D16 or D24S8 picture packs to the same pixels.
#[tactic(auto, using(crate::proofs::AccuracyLaws::accuracy))]
pub fn stored_numbers_are_near()
    ensures { Accuracy }
{}
