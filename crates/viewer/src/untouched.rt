//! What a call leaves, refused and accepted.

ghost use Rattle.viewer.specs.Untouched.{RefusedUntouched, ReplyByNumber, OthersUntouched, RefusedZeros, LengthsKept};

/// A refused conversion, by any set, a refused unpacking and a refused packing change no byte that
/// they were lent.
#[tactic(auto, using(crate::proofs::UntouchedLaws::refused_untouched))]
pub fn refused_calls_change_nothing()
    ensures { RefusedUntouched }
{}

/// A conversion whose reply has the number 0 is accepted, and one with any other number is refused
/// and changes no byte.
#[tactic(auto, using(crate::proofs::UntouchedLaws::reply_by_number))]
pub fn numbers_say_what_is_accepted()
    ensures { ReplyByNumber }
{}

/// Refused or accepted, these calls change the bytes of the named texels and pixels and no other.
#[tactic(auto, using(crate::proofs::UntouchedLaws::others_untouched))]
pub fn other_bytes_are_kept()
    ensures { OthersUntouched }
{}

/// A refused fill, plane layout or planar layout hands back zeros.
#[tactic(auto, using(crate::proofs::UntouchedLaws::refused_zeros))]
pub fn refused_calls_hand_back_zeros()
    ensures { RefusedZeros }
{}

/// Refused or accepted, these calls leave every length as it was.
#[tactic(auto, using(crate::proofs::UntouchedLaws::lengths_kept))]
pub fn lengths_are_kept()
    ensures { LengthsKept }
{}
