//! The colour of a YUV texel. Luma, U and V become red, green and blue in 16.16 fixed point, by a
//! set of numbers; right shifts of negative numbers round down, and each channel is rounded to the
//! nearest whole number and clamped to a byte.
//! Ported from the YUV functions of stretch_rect.rs of athei/mtld3d (an altered version, see
//! NOTICE).
#![tactic(auto)]

ghost use Rattle.std.specs.Prelude.{◌≡◌, ◌≤◌, length, unsigned_abs};
ghost use Rattle.words.specs.Integers.{clamp_to};
ghost use Rattle.formats.specs.Formats.{packed_yuv_code, planar_yuv_code};
ghost use Rattle.stretch_rect.specs.Sets.{bt601};
ghost use Rattle.stretch_rect.specs.Yuv.{luma_part, nearest_whole, rgb_of, NearOwn, NearDecimals};
ghost use Rattle.stretch_rect.specs.Samples.{packed_rgb, planar_rgb, Readable};

use formats::PackedYuv;
use planar_yuv::PlanarTexel;

pub mod parts;
mod sets;
mod tables;

pub use sets::{LegalSet, YuvSet, bt601, bt709, is_legal};
pub use tables::yuv_to_rgb8_by_tables;

/// A colour: red, green and blue.
#[derive(Clone, Copy)]
pub struct Rgb {
    /// Red.
    pub r: u8,
    /// Green.
    pub g: u8,
    /// Blue.
    pub b: u8,
}

// The part of a sample by an offset and a gain, in 65536ths. Chroma's offset is its centre, which
// is in halves: `chroma_centre * 32768`.
#[tactic(auto, using(std::proofs::lemmas::Int::ints, crate::proofs::Sizes::gained_fits), unfolding(crate::specs::Yuv::luma_part, crate::specs::Yuv::luma_exact))]
fn scaled(sample: u8, offset: u32, gain: u32) -> i64
    requires { (offset ≤ 8388608) × (gain ≤ 262143) }
    ensures is { result ≡ luma_part offset gain sample }
    ensures small { unsigned_abs result ≤ 140737488355328 }
{
    ((sample as i64 * 65536 - offset as i64) * gain as i64) >> 16
}

// The nearest byte to a channel in 65536ths, in 64 bits, which hold the products of any legal set.
#[tactic(auto, using(std::proofs::lemmas::Int::ints, crate::proofs::Clamps::clamped), unfolding(crate::specs::Yuv::nearest_whole))]
fn to8(channel: i64) -> u8
    requires { unsigned_abs channel ≤ 4611686018427387904 }
    ensures { result ≡ clamp_to 255 (nearest_whole channel) }
{
    let n = (channel + 32768) >> 16;
    n.clamp(0, 255) as u8
}

/// The colour of luma, U (`cb`) and V (`cr`) by any legal set of numbers.
#[tactic(auto, using(std::proofs::lemmas::Int::ints))]
pub fn convert_with_set(set: LegalSet, luma: u8, cb: u8, cr: u8) -> Rgb
    ensures is { result ≡ rgb_of set.numbers luma cb cr }
    ensures near { NearOwn set.numbers luma cb cr result }
{
    let numbers = set.numbers;
    let centre = numbers.chroma_centre * 32768;
    let l = scaled(luma, numbers.luma_offset, numbers.luma_gain);
    let rv = scaled(cr, centre, numbers.v_to_red);
    let gu = scaled(cb, centre, numbers.u_to_green);
    let gv = scaled(cr, centre, numbers.v_to_green);
    let bu = scaled(cb, centre, numbers.u_to_blue);
    let r = to8(l + rv);
    let g = to8(l - gu - gv);
    let b = to8(l + bu);
    Rgb { r, g, b }
}

/// The colour of luma, U (`cb`) and V (`cr`) by `bt601`.
#[tactic(auto, using(crate::proofs::LegalLaws::legal, crate::proofs::LegalLaws::bt601_legal, crate::proofs::Decimals::bt601_near))]
pub fn yuv_to_rgb8(luma: u8, cb: u8, cr: u8) -> Rgb
    ensures is { result ≡ rgb_of bt601 luma cb cr }
    ensures near { NearDecimals luma cb cr result }
{
    let set = LegalSet {
        numbers: sets::bt601(),
    };
    convert_with_set(set, luma, cb, cr)
}

/// The colour of a texel of a macropixel, which is Y U Y V in YUY2 and U Y V Y in UYVY; an odd
/// column has the second Y.
#[tactic(auto, unfolding(crate::specs::Samples::packed_rgb))]
pub fn decode_packed_yuv(set: LegalSet, format: PackedYuv, macropixel: &[u8], odd: bool) -> Rgb
    requires { 4 ≤ length macropixel.now }
    ensures { result ≡ packed_rgb set.numbers (packed_yuv_code format) macropixel.now odd }
{
    let luma = if odd { 2 } else { 0 };
    match format {
        PackedYuv::YUY2 => { convert_with_set(set, macropixel[luma], macropixel[1], macropixel[3]) }
        PackedYuv::UYVY => {
            convert_with_set(set, macropixel[luma + 1], macropixel[0], macropixel[2])
        }
    }
}

/// The colour of a texel of a planar frame: its own luma byte, and the chroma that its 2 x 2 block
/// shares.
#[tactic(auto, unfolding(crate::specs::Samples::planar_rgb))]
pub fn decode_planar_yuv(set: LegalSet, frame: &[u8], texel: PlanarTexel) -> Rgb
    requires { Readable (planar_yuv_code texel.format) frame.now texel.layout texel.x texel.y }
    ensures { result
        ≡ planar_rgb set.numbers (planar_yuv_code texel.format) frame.now texel.layout.pitch
        texel.layout.luma_rows texel.x texel.y }
{
    let luma = texel.luma_offset();
    let u = texel.u_offset();
    let v = texel.v_offset();
    convert_with_set(set, frame[luma], frame[u], frame[v])
}
