//! Plane layouts that were made, in the calls that take one, and the test of their alignment.

ghost use Rattle.viewer.specs.Layouts.{StandingAccepted, PowersTested};

/// No unpacking and no packing refuses a plane layout that stands, as each one that was made does,
/// with 10.
#[tactic(auto, using(crate::proofs::LayoutsLaws::standing_accepted))]
pub fn standing_layouts_are_accepted()
    ensures { StandingAccepted }
{}

/// The test of an alignment, on which refusal 7 rests, is passed by each power of two and by no
/// other number.
#[tactic(auto, using(crate::proofs::LayoutsLaws::powers_tested))]
pub fn powers_of_two_alone_pass_the_test()
    ensures { PowersTested }
{}
