//! The lane table, and channels on their way to a byte and back.

ghost use Rattle.viewer.specs.Lanes.{LanesFill, LanesNumbered, ChannelErrors, ChannelRules, LanesRestored};

/// The lanes of every format share no bit and fill its bytes.
#[tactic(auto, using(crate::proofs::LanesLaws::lanes_fill))]
pub fn lanes_fill_their_texel()
    ensures { LanesFill }
{}

/// The lane table that the letters of D3DFORMAT's names make is the one in numbers, to be read
/// beside Microsoft's page.
#[tactic(auto, using(crate::proofs::LanesLaws::lanes_numbered))]
pub fn lanes_are_those_in_numbers()
    ensures { LanesNumbered }
{}

/// A channel of one to eight bits that is expanded lies within 3/4 of its value and truncates to
/// itself, and a byte that is truncated to n bits lies within 2^(8-n) - 1 of what they stand for.
#[tactic(auto, using(crate::proofs::LanesLaws::channel_errors))]
pub fn channels_stay_near()
    ensures { ChannelErrors }
{}

/// What docs/RULES.md says of single widths: five bits v are (v << 3) | (v >> 2), two are 85v, an
/// alpha of one bit is set from 128 on, and the error steps are 0, 1/2, 3, 7, 15 and 127.
#[tactic(auto, using(crate::proofs::LanesLaws::channel_rules))]
pub fn single_widths_are_as_documented()
    ensures { ChannelRules }
{}

/// A texel decoded and encoded again in its own RGB format has the same code in every lane but X.
#[tactic(auto, using(crate::proofs::LanesLaws::lanes_restored))]
pub fn lanes_come_back()
    ensures { LanesRestored }
{}
