//! Where a conversion looks at its set of numbers.

ghost use Rattle.viewer.specs.Sets.{SetUnseen, LegalAccepted};

/// From a source that is no YUV, reply and bytes are the same by any two sets.
#[tactic(auto, using(crate::proofs::SetsLaws::set_unseen))]
pub fn only_yuv_looks_at_the_set()
    ensures { SetUnseen }
{}

/// By a legal set the reply is never 15, and `bt601` and `bt709` are legal.
#[tactic(auto, using(crate::proofs::SetsLaws::legal_accepted))]
pub fn legal_sets_are_accepted()
    ensures { LegalAccepted }
{}
