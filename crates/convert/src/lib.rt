//! Colour fills: a D3DCOLOR as one texel's bytes. A format code that has no fill is refused (5).
//! specs/Fill says which bytes: the codes in the lanes of the format's table.
//! Ported from convert.rs of athei/mtld3d (an altered version, see NOTICE).
#![tactic(auto)]

ghost use Rattle.std.specs.Prelude.{◌≡◌};
ghost use Rattle.convert.specs.Fill.{fill_of, handed, WordOf};

use crate::colours::{
    channels_of, f16_lanes, f32_lanes, pack_a2_rgb10, pack_a8b8g8r8, pack_a16b16g16r16,
    pack_a32b32g32r32, pack_g8r8, pack_g16r16, pack_g32r32, snorm8_lanes, snorm16_lanes,
    unorm8_to_f16_bits, unorm8_to_f32_bits, unorm16_lanes,
};
use formats::{
    D3DFMT_A1R5G5B5, D3DFMT_A2B10G10R10, D3DFMT_A2R10G10B10, D3DFMT_A4R4G4B4, D3DFMT_A8,
    D3DFMT_A8B8G8R8, D3DFMT_A8R8G8B8, D3DFMT_A16B16G16R16, D3DFMT_A16B16G16R16F,
    D3DFMT_A32B32G32R32F, D3DFMT_G16R16, D3DFMT_G16R16F, D3DFMT_G32R32F, D3DFMT_L8,
    D3DFMT_Q8W8V8U8, D3DFMT_Q16W16V16U16, D3DFMT_R5G6B5, D3DFMT_R16F, D3DFMT_R32F, D3DFMT_V8U8,
    D3DFMT_V16U16, D3DFMT_X1R5G5B5, D3DFMT_X8B8G8R8, D3DFMT_X8R8G8B8,
};
use texels::encode::{encode_a1r5g5b5, encode_a4r4g4b4, encode_a8b8g8r8, encode_r5g6b5};

mod binary16;
pub mod colours;
mod pixel;
mod splat;

pub use binary16::f32_to_f16_bits;
pub use colours::d3dcolor_to_rgba_f32;
pub use pixel::{FillPixel, NoFill};
pub use splat::splat_pixel_pattern;

// A colour's word in a format that can be filled. An X lane takes the colour's own alpha bits.
#[tactic(auto, using(crate::proofs::Words::whole), unfolding(crate::specs::Fill::word_of, formats::specs::Table::bytes_of, formats::specs::Table::parts_of, texels::specs::Texels::encoded_of, channels::specs::Expansion::truncated))]
fn fill_word(color: u32, d3d_format: u32) -> Option<u128>
    ensures { WordOf color d3d_format result }
{
    let c = channels_of(color);
    let code = d3d_format;
    match code {
        D3DFMT_A8R8G8B8..=D3DFMT_X8R8G8B8 => Some(color as u128),
        D3DFMT_A8B8G8R8..=D3DFMT_X8B8G8R8 => Some(encode_a8b8g8r8(c) as u128),
        D3DFMT_A2R10G10B10 => Some(pack_a2_rgb10(c.a, c.r, c.g, c.b) as u128),
        D3DFMT_A2B10G10R10 => Some(pack_a2_rgb10(c.a, c.b, c.g, c.r) as u128),
        D3DFMT_R5G6B5 => Some(encode_r5g6b5(c) as u128),
        D3DFMT_A1R5G5B5 | D3DFMT_X1R5G5B5 => Some(encode_a1r5g5b5(c) as u128),
        D3DFMT_A4R4G4B4 => Some(encode_a4r4g4b4(c) as u128),
        D3DFMT_L8 => Some(channels::luminance(c.r, c.g, c.b) as u128),
        D3DFMT_A8 => Some(c.a as u128),
        D3DFMT_V8U8 => Some(pack_g8r8(snorm8_lanes(c)) as u128),
        D3DFMT_Q8W8V8U8 => Some(pack_a8b8g8r8(snorm8_lanes(c)) as u128),
        D3DFMT_V16U16 => Some(pack_g16r16(snorm16_lanes(c)) as u128),
        D3DFMT_Q16W16V16U16 => Some(pack_a16b16g16r16(snorm16_lanes(c)) as u128),
        D3DFMT_R32F => Some(unorm8_to_f32_bits(c.r) as u128),
        D3DFMT_G32R32F => Some(pack_g32r32(f32_lanes(c)) as u128),
        D3DFMT_A32B32G32R32F => Some(pack_a32b32g32r32(f32_lanes(c))),
        D3DFMT_R16F => Some(unorm8_to_f16_bits(c.r) as u128),
        D3DFMT_G16R16 => Some(pack_g16r16(unorm16_lanes(c)) as u128),
        D3DFMT_A16B16G16R16 => Some(pack_a16b16g16r16(unorm16_lanes(c)) as u128),
        D3DFMT_G16R16F => Some(pack_g16r16(f16_lanes(c)) as u128),
        D3DFMT_A16B16G16R16F => Some(pack_a16b16g16r16(f16_lanes(c)) as u128),
        _ => None,
    }
}

/// One texel's bytes of a D3DCOLOR, for a fill, and zeros up to sixteen. Refused (5) where the
/// format has no fill.
#[tactic(auto, using(crate::proofs::Words::filled_is, crate::proofs::Words::not_filled, crate::proofs::Words::texel_fits))]
pub fn d3dcolor_fill_pixel_bytes(color: u32, d3d_format: u32) -> Result<FillPixel, NoFill>
    ensures { handed result ≡ fill_of color d3d_format }
{
    let word = fill_word(color, d3d_format).ok_or(NoFill)?;
    Ok(FillPixel {
        bytes: word.to_le_bytes(),
        length: formats::bytes_per_texel(d3d_format) as u32,
    })
}
