//! The colour of a YUV texel from its five parts, in 32 bits: they are added, rounded and clamped,
//! wherever they come from.
//! Ported from the YUV functions of stretch_rect.rs of athei/mtld3d (an altered version, see
//! NOTICE).
#![tactic(auto)]

ghost use Rattle.std.specs.Prelude.{◌≡◌, ◌≤◌, unsigned_abs};
ghost use Rattle.words.specs.Integers.{clamp_to};
ghost use Rattle.stretch_rect.specs.Yuv.{nearest_whole};
ghost use Rattle.stretch_rect.specs.Parts.{PartSize, joined};

use crate::Rgb;

// The nearest byte to a channel in 65536ths, in 32 bits, which hold every sum of parts.
#[tactic(auto, using(std::proofs::lemmas::Int::ints, crate::proofs::Clamp::byte_clamp), unfolding(crate::specs::Yuv::nearest_whole))]
fn to8(channel: i32) -> u8
    requires { unsigned_abs channel ≤ 201326592 }
    ensures { result ≡ clamp_to 255 (nearest_whole channel) }
{
    ((channel + 32768) >> 16).clamp(0, 255) as u8
}

/// The parts of a colour in 65536ths, each of which is added.
#[derive(Clone, Copy)]
pub struct Parts {
    /// Luma, in every channel.
    pub luma: i32,
    /// V in red.
    pub v_red: i32,
    /// U in green.
    pub u_green: i32,
    /// V in green.
    pub v_green: i32,
    /// U in blue.
    pub u_blue: i32,
    ghost luma_small: { PartSize luma },
    ghost v_red_small: { PartSize v_red },
    ghost u_green_small: { PartSize u_green },
    ghost v_green_small: { PartSize v_green },
    ghost u_blue_small: { PartSize u_blue },
}

impl Parts {
    /// The colour that the parts make.
    #[tactic(auto, using(std::proofs::lemmas::Int::ints))]
    pub fn colour(self) -> Rgb
        ensures { result ≡ joined self.luma self.v_red self.u_green self.v_green self.u_blue }
    {
        let r = to8(self.luma + self.v_red);
        let g = to8(self.luma + self.u_green + self.v_green);
        let b = to8(self.luma + self.u_blue);
        Rgb { r, g, b }
    }
}
