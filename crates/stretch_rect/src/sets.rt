//! Sets of numbers for a conversion from YUV: which sets are legal, and the two that have names.
//! The conversion by a set is in the root of this crate.
#![tactic(auto)]

ghost use Rattle.std.specs.Prelude.{◌≡◌, is_some, IfSome};
ghost use Rattle.stretch_rect.specs.Sets as sets;
ghost use Rattle.stretch_rect.specs.Sets.{is_gain, is_legal, RoundedFrom};

mod legal;

pub use legal::LegalSet;

/// The numbers of a conversion from YUV. Any number may stand in any field; `legal` tests them.
#[derive(Clone, Copy)]
#[repr(C)]
pub struct YuvSet {
    /// Gain of luma, which is in every channel, in 65536ths.
    pub luma_gain: u32,
    /// Offset that is taken from luma, in 65536ths.
    pub luma_offset: u32,
    /// Gain of V in red, in 65536ths.
    pub v_to_red: u32,
    /// Gain of U in green, which is taken away, in 65536ths.
    pub u_to_green: u32,
    /// Gain of V in green, which is taken away, in 65536ths.
    pub v_to_green: u32,
    /// Gain of U in blue, in 65536ths.
    pub u_to_blue: u32,
    /// Centre that is taken from U and V, in halves.
    pub chroma_centre: u32,
}

/// The numbers by which the original converts.
#[tactic(auto, using(crate::proofs::LegalLaws::bt601_rounded))]
pub fn bt601() -> YuvSet
    ensures is { result ≡ sets.bt601 }
    ensures nearest { RoundedFrom 1164 16065 1596 392 813 2017 result }
{
    YuvSet {
        luma_gain: 76284,
        luma_offset: 1052836,
        v_to_red: 104595,
        u_to_green: 25690,
        v_to_green: 53281,
        u_to_blue: 132186,
        chroma_centre: 255,
    }
}

/// The numbers of ITU-R BT.709 for luma from 16 to 235 and chroma around 128.
#[tactic(auto, using(crate::proofs::LegalLaws::bt709_rounded))]
pub fn bt709() -> YuvSet
    ensures is { result ≡ sets.bt709 }
    ensures nearest { RoundedFrom 1164 16000 1793 213 533 2112 result }
{
    YuvSet {
        luma_gain: 76284,
        luma_offset: 1048576,
        v_to_red: 117506,
        u_to_green: 13959,
        v_to_green: 34931,
        u_to_blue: 138412,
        chroma_centre: 256,
    }
}

fn is_gain(gain: u32) -> bool
    ensures { result ≡ is_gain gain }
{
    gain <= 262143
}

/// Whether every gain is below 4, the offset below 64, and the centre of the chroma 127.5 or 128.
#[tactic(auto, unfolding(crate::specs::Sets::is_legal))]
pub fn is_legal(numbers: YuvSet) -> bool
    ensures { result ≡ is_legal numbers }
{
    is_gain(numbers.luma_gain)
        && numbers.luma_offset <= 4194303
        && is_gain(numbers.v_to_red)
        && is_gain(numbers.u_to_green)
        && is_gain(numbers.v_to_green)
        && is_gain(numbers.u_to_blue)
        && (numbers.chroma_centre == 255 || numbers.chroma_centre == 256)
}

impl YuvSet {
    /// These numbers as a legal set, where they are legal.
    #[tactic(auto, using(crate::proofs::LegalLaws::legal))]
    pub fn legal(self) -> Option<LegalSet>
        ensures found { is_some result ≡ is_legal self }
        ensures numbers { IfSome result (λ s. s.numbers ≡ self) }
    {
        if !is_legal(self) {
            return None;
        }
        Some(LegalSet { numbers: self })
    }
}
