//! A texel's word in one of the RGB formats, from a byte for each channel; and A8R8G8B8 words, read
//! from texels and written as texels. The definitions and the decoders are in the root of this
//! crate.
//! Ported from pixel_convert.rs of athei/mtld3d (an altered version, see NOTICE).
#![tactic(auto, unfolding(crate::specs::Texels::encoded_of, formats::specs::Table::parts_of, channels::specs::Expansion::truncated))]

ghost use Rattle.std.specs.Prelude.{◌≡◌, ◌+◌, ◌*◌, ◌^◌, ◌≤◌, ◌<◌, length, take};
ghost use Rattle.std.proofs.lemmas.List.Edits.{sets};
ghost use Rattle.words.specs.Little.{number};
ghost use Rattle.formats.specs.Codes.{R8G8B8, A8R8G8B8, X8R8G8B8, R5G6B5, X1R5G5B5, A1R5G5B5, A4R4G4B4, A8, A8B8G8R8, X8B8G8R8, L8, A8L8};
ghost use Rattle.formats.specs.Table.{bytes_of};
ghost use Rattle.formats.specs.Formats.{rgb_code, lane_source_code};
ghost use Rattle.channels.specs.Expansion.{truncated};
ghost use Rattle.texels.specs.Texels.{decoded_of, encoded_of, encoded_bytes};

use crate::Texel;
use formats::{LaneSource, RgbFormat};

// ---- encoding: a texel's word, a function for each format

fn encode_r8g8b8(t: Texel) -> u32
    ensures { result ≡ encoded_of R8G8B8 t }
{
    u32::from_le_bytes([t.b, t.g, t.r, 0])
}

/// The A8R8G8B8 word of a texel.
pub fn encode_a8r8g8b8(t: Texel) -> u32
    ensures { result ≡ encoded_of A8R8G8B8 t }
{
    u32::from_le_bytes([t.b, t.g, t.r, t.a])
}

fn encode_x8r8g8b8(t: Texel) -> u32
    ensures { result ≡ encoded_of X8R8G8B8 t }
{
    encode_a8r8g8b8(t.opaque())
}

/// The R5G6B5 word of a texel: green has six bits, and there is no alpha.
#[tactic(auto, using(crate::proofs::Parts::parts_565), unfolding(crate::specs::Texels::encoded_of, formats::specs::Table::parts_of, channels::specs::Expansion::truncated))]
pub fn encode_r5g6b5(t: Texel) -> u16
    ensures { result ≡ encoded_of R5G6B5 t }
{
    let r5 = channels::truncate::<5>(t.r);
    let g6 = channels::truncate::<6>(t.g);
    let b5 = channels::truncate::<5>(t.b);
    (r5 << 11) | ((g6 << 5) | b5)
}

// A word of 16 bits at most: the top `ALPHA` bits of alpha, and the top `COLOUR` bits of each
// colour.
#[tactic(auto, using(crate::proofs::Parts::parts_argb))]
fn encode_argb<const ALPHA: u32, const COLOUR: u32>(t: Texel) -> u16
    requires widths { (0 < ALPHA) × (ALPHA ≤ 8) × (0 < COLOUR) × (COLOUR ≤ 8) }
    requires fits { ALPHA + 3 * COLOUR ≤ 16 }
    ensures { result
        ≡ truncated ALPHA t.a * 2 ^ (3 * COLOUR) +
        (truncated COLOUR t.r * 2 ^ (2 * COLOUR) +
        (truncated COLOUR t.g * 2 ^ COLOUR + truncated COLOUR t.b)) }
{
    let a = channels::truncate::<ALPHA>(t.a);
    let r = channels::truncate::<COLOUR>(t.r);
    let g = channels::truncate::<COLOUR>(t.g);
    let b = channels::truncate::<COLOUR>(t.b);
    (a << (3 * COLOUR)) | ((r << (2 * COLOUR)) | ((g << COLOUR) | b))
}

/// The A1R5G5B5 word of a texel.
pub fn encode_a1r5g5b5(t: Texel) -> u16
    ensures { result ≡ encoded_of A1R5G5B5 t }
{
    encode_argb::<1, 5>(t)
}

fn encode_x1r5g5b5(t: Texel) -> u16
    ensures { result ≡ encoded_of X1R5G5B5 t }
{
    encode_a1r5g5b5(t.opaque())
}

/// The A4R4G4B4 word of a texel.
pub fn encode_a4r4g4b4(t: Texel) -> u16
    ensures { result ≡ encoded_of A4R4G4B4 t }
{
    encode_argb::<4, 4>(t)
}

fn encode_a8(t: Texel) -> u8
    ensures { result ≡ encoded_of A8 t }
{
    t.a
}

/// The A8B8G8R8 word of a texel.
pub fn encode_a8b8g8r8(t: Texel) -> u32
    ensures { result ≡ encoded_of A8B8G8R8 t }
{
    u32::from_le_bytes([t.r, t.g, t.b, t.a])
}

fn encode_x8b8g8r8(t: Texel) -> u32
    ensures { result ≡ encoded_of X8B8G8R8 t }
{
    encode_a8b8g8r8(t.opaque())
}

fn encode_l8(t: Texel) -> u8
    ensures { result ≡ encoded_of L8 t }
{
    channels::luminance(t.r, t.g, t.b)
}

fn encode_a8l8(t: Texel) -> u16
    ensures { result ≡ encoded_of A8L8 t }
{
    u16::from_le_bytes([channels::luminance(t.r, t.g, t.b), t.a])
}

/// Writes a texel in an RGB format at the front of `out`; the bytes behind it stay.
#[tactic(auto, unfolding(crate::specs::Texels::encoded_bytes, formats::specs::Table::bytes_of, formats::specs::Table::parts_of))]
pub fn encode_rgb_pixel(format: RgbFormat, t: Texel, out: &mut [u8])
    requires { bytes_of (rgb_code format) ≤ length out.old }
    ensures { out.new ≡ sets out.old 0 (encoded_bytes (rgb_code format) t) }
{
    match format {
        RgbFormat::R8G8B8 => words::put24(out, encode_r8g8b8(t)),
        RgbFormat::A8R8G8B8 => words::put32(out, encode_a8r8g8b8(t)),
        RgbFormat::X8R8G8B8 => words::put32(out, encode_x8r8g8b8(t)),
        RgbFormat::R5G6B5 => words::put16(out, encode_r5g6b5(t)),
        RgbFormat::X1R5G5B5 => words::put16(out, encode_x1r5g5b5(t)),
        RgbFormat::A1R5G5B5 => words::put16(out, encode_a1r5g5b5(t)),
        RgbFormat::A4R4G4B4 => words::put16(out, encode_a4r4g4b4(t)),
        RgbFormat::A8 => words::put8(out, encode_a8(t)),
        RgbFormat::A8B8G8R8 => words::put32(out, encode_a8b8g8r8(t)),
        RgbFormat::X8B8G8R8 => words::put32(out, encode_x8b8g8r8(t)),
        RgbFormat::L8 => words::put8(out, encode_l8(t)),
        RgbFormat::A8L8 => words::put16(out, encode_a8l8(t)),
    }
}

// ---- A8R8G8B8 words, which stand for texels between the reading and the writing of a block

/// The texel at the front of `px`, of any format with lanes, as its A8R8G8B8 word.
#[tactic(auto)]
pub fn read_word(format: LaneSource, px: &[u8]) -> u32
    requires { bytes_of (lane_source_code format) ≤ length px.now }
    ensures { result
        ≡ encoded_of A8R8G8B8 (decoded_of (lane_source_code format)
        (number (take (bytes_of (lane_source_code format)) px.now))) }
{
    encode_a8r8g8b8(crate::decode_pixel(format, px))
}

/// Writes the texel of an A8R8G8B8 word in an RGB format at the front of `out`; the bytes behind it
/// stay.
#[tactic(auto, unfolding(crate::specs::Texels::encoded_bytes, formats::specs::Table::bytes_of, formats::specs::Table::parts_of))]
pub fn write_word(format: RgbFormat, word: u32, out: &mut [u8])
    requires { bytes_of (rgb_code format) ≤ length out.old }
    ensures { out.new
        ≡ sets out.old 0 (encoded_bytes (rgb_code format) (decoded_of A8R8G8B8 word)) }
{
    encode_rgb_pixel(format, crate::decode_a8r8g8b8(word), out);
}
