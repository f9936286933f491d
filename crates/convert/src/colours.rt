//! Colours as lanes: a D3DCOLOR's channels, as numbers from 0 to 1, as the codes of lanes, and
//! words of such codes. specs/LaneCodes says which code a lane holds of a byte.
//! Ported from convert.rs of athei/mtld3d (an altered version, see NOTICE).
#![tactic(auto)]

ghost use Rattle.std.specs.Prelude.{◌≡◌, ◌+◌, ◌*◌};
ghost use Rattle.std.specs.Float.{binary32};
ghost use Rattle.std.specs.Float.Ieee.{to_bits};
ghost use Rattle.formats.specs.Lanes.{red, green, blue, alpha, unsigned, signed, float16, float32};
ghost use Rattle.convert.specs.Half.{half_of};
ghost use Rattle.convert.specs.Color.{unorm_of, rgba_of, Channels};
ghost use Rattle.convert.specs.LaneCodes.{nearest_code, Codes};

use crate::binary16;
use texels::Texel;

/// The codes of four lanes.
#[derive(Clone, Copy)]
pub struct Lanes<T> {
    /// Red.
    pub r: T,
    /// Green.
    pub g: T,
    /// Blue.
    pub b: T,
    /// Alpha.
    pub a: T,
}

// The codes of a colour's channels, each by one function.
fn coded<T, F: Fn(u8) -> T>(c: Texel, code: F) -> Lanes<T>
    requires { F.pre code c.r × F.pre code c.g × F.pre code c.b × F.pre code c.a }
    ensures red { F.post code c.r result.r }
    ensures green { F.post code c.g result.g }
    ensures blue { F.post code c.b result.b }
    ensures alpha { F.post code c.a result.a }
{
    Lanes {
        r: code(c.r),
        g: code(c.g),
        b: code(c.b),
        a: code(c.a),
    }
}

/// The channels of a D3DCOLOR, which is hexadecimal AARRGGBB: a word of A8R8G8B8.
#[tactic(auto, using(texels::proofs::Lanes::expanded_byte), unfolding(texels::specs::Texels::decoded_of, texels::specs::Texels::colour_of, formats::specs::Table::lane_of, formats::specs::Table::parts_of))]
pub fn channels_of(color: u32) -> Texel
    ensures { Channels color result.r result.g result.b result.a }
{
    texels::decode_a8r8g8b8(color)
}

// A channel as a binary32 number from 0 to 1, by one division.
#[tactic(auto, using(crate::proofs::LaneWords::literal_255))]
fn unorm8_to_f32(channel: u8) -> f32
    ensures { result ≡ unorm_of channel }
{
    (channel as f32) / 255.0
}

/// A channel as the pattern of a binary32 number from 0 to 1.
#[tactic(auto, using(crate::proofs::ColorLaws::unorm_number))]
pub fn unorm8_to_f32_bits(channel: u8) -> u32
    ensures { result ≡ to_bits binary32 (unorm_of channel) }
{
    f32::to_bits(unorm8_to_f32(channel))
}

/// A channel as the pattern of a binary16 number from 0 to 1: the binary32 number, rounded again.
pub fn unorm8_to_f16_bits(channel: u8) -> u16
    ensures { result ≡ half_of (to_bits binary32 (unorm_of channel)) }
{
    binary16::f32_to_f16_bits(unorm8_to_f32_bits(channel))
}

/// A D3DCOLOR's red, green, blue and alpha as numbers from 0 to 1.
pub fn d3dcolor_to_rgba_f32(color: u32) -> [f32; 4]
    ensures is { result ≡ rgba_of color }
{
    let c = channels_of(color);
    [
        unorm8_to_f32(c.r),
        unorm8_to_f32(c.g),
        unorm8_to_f32(c.b),
        unorm8_to_f32(c.a),
    ]
}

/// Four channels as signed codes of eight bits.
#[tactic(auto, using(crate::proofs::LaneWords::nearest_bits))]
pub fn snorm8_lanes(c: Texel) -> Lanes<u8>
    ensures { Codes signed 8 c.r c.g c.b c.a result.r result.g result.b result.a }
{
    coded(
        c,
        |v: u8| -> u8
            ensures { result ≡ nearest_code 127 v }
        { channels::unorm8_to_nearest_code(v, 127) as u8 },
    )
}

/// Four channels as signed codes of sixteen bits.
#[tactic(auto, using(crate::proofs::LaneWords::nearest_bits))]
pub fn snorm16_lanes(c: Texel) -> Lanes<u16>
    ensures { Codes signed 16 c.r c.g c.b c.a result.r result.g result.b result.a }
{
    coded(
        c,
        |v: u8| -> u16
            ensures { result ≡ nearest_code 32767 v }
        { channels::unorm8_to_nearest_code(v, 32767) as u16 },
    )
}

/// Four channels as unsigned codes of sixteen bits.
pub fn unorm16_lanes(c: Texel) -> Lanes<u16>
    ensures { Codes unsigned 16 c.r c.g c.b c.a result.r result.g result.b result.a }
{
    coded(c, channels::unorm8_to_unorm16)
}

/// Four channels as binary16 patterns.
pub fn f16_lanes(c: Texel) -> Lanes<u16>
    ensures { Codes float16 16 c.r c.g c.b c.a result.r result.g result.b result.a }
{
    coded(c, unorm8_to_f16_bits)
}

/// Four channels as binary32 patterns.
pub fn f32_lanes(c: Texel) -> Lanes<u32>
    ensures { Codes float32 32 c.r c.g c.b c.a result.r result.g result.b result.a }
{
    coded(c, unorm8_to_f32_bits)
}

/// A word of alpha as a two-bit code and three channels as ten-bit codes, each the nearest: alpha
/// highest, `low` lowest.
#[tactic(auto, using(crate::proofs::LaneWords::parts_2_10, crate::proofs::LaneWords::nearest_bits))]
pub fn pack_a2_rgb10(alpha: u8, high: u8, middle: u8, low: u8) -> u32
    ensures { result
        ≡ nearest_code 3 alpha * 1073741824 + nearest_code 1023 high * 1048576 + nearest_code 1023
        middle * 1024 + nearest_code 1023 low }
{
    (channels::unorm8_to_nearest_code(alpha, 3) << 30)
        | (channels::unorm8_to_nearest_code(high, 1023) << 20)
        | (channels::unorm8_to_nearest_code(middle, 1023) << 10)
        | channels::unorm8_to_nearest_code(low, 1023)
}

/// The G8R8 word: red lowest.
pub fn pack_g8r8(l: Lanes<u8>) -> u16
    ensures { result ≡ l.g * 256 + l.r }
{
    u16::from_le_bytes([l.r, l.g])
}

/// The A8B8G8R8 word: red lowest.
pub fn pack_a8b8g8r8(l: Lanes<u8>) -> u32
    ensures { result ≡ l.a * 16777216 + l.b * 65536 + l.g * 256 + l.r }
{
    u32::from_le_bytes([l.r, l.g, l.b, l.a])
}

/// The G16R16 word: red lowest.
pub fn pack_g16r16(l: Lanes<u16>) -> u32
    ensures { result ≡ l.g * 65536 + l.r }
{
    (l.g as u32) * 0x1_0000 + (l.r as u32)
}

/// The A16B16G16R16 word: red lowest.
pub fn pack_a16b16g16r16(l: Lanes<u16>) -> u64
    ensures { result ≡ l.a * 281474976710656 + l.b * 4294967296 + l.g * 65536 + l.r }
{
    (l.a as u64) * 0x1_0000_0000_0000
        + (l.b as u64) * 0x1_0000_0000
        + (l.g as u64) * 0x1_0000
        + (l.r as u64)
}

/// The G32R32 word: red lowest.
pub fn pack_g32r32(l: Lanes<u32>) -> u64
    ensures { result ≡ l.g * 4294967296 + l.r }
{
    (l.g as u64) * 0x1_0000_0000 + (l.r as u64)
}

/// The A32B32G32R32 word: red lowest.
pub fn pack_a32b32g32r32(l: Lanes<u32>) -> u128
    ensures { result
        ≡ l.a * 79228162514264337593543950336 + l.b * 18446744073709551616 + l.g * 4294967296 +
        l.r }
{
    (l.a as u128) * 0x1_0000_0000_0000_0000_0000_0000
        + (l.b as u128) * 0x1_0000_0000_0000_0000
        + (l.g as u128) * 0x1_0000_0000
        + (l.r as u128)
}
