//! A texel as a byte for each channel, and the decoders that make one from a format's word: the RGB
//! formats, and those that convert into A8R8G8B8 alone. specs/Texels has what a word decodes to and
//! a texel encodes to, from the lane table, and the exact values of its channels.
//! Ported from pixel_convert.rs of athei/mtld3d (an altered version, see NOTICE).
#![tactic(auto, using(crate::proofs::Lanes::expanded_byte), unfolding(crate::specs::Texels::argb_of, crate::specs::Texels::decoded_of, crate::specs::Texels::colour_of, crate::specs::Texels::missing_colour, formats::specs::Table::lane_of, formats::specs::Table::parts_of))]

ghost use Rattle.std.specs.Prelude.{◌≡◌, ◌+◌, ◌*◌, ◌≤◌, ◌<◌, ◌%◌, length, take};
ghost use Rattle.words.specs.Little.{number};
ghost use Rattle.formats.specs.Codes.{R8G8B8, A8R8G8B8, X8R8G8B8, R5G6B5, X1R5G5B5, A1R5G5B5, A4R4G4B4, A8, A2B10G10R10, A8B8G8R8, X8B8G8R8, G16R16, A2R10G10B10, A16B16G16R16, L8, A8L8, V8U8, Q8W8V8U8, L16, A32B32G32R32F};
ghost use Rattle.formats.specs.Table.{bytes_of};
ghost use Rattle.formats.specs.Formats.{rgb_code, code_source_code, lane_source_code};
ghost use Rattle.channels.specs.Nearest.{rounded};
ghost use Rattle.texels.specs.Texels.{argb_of, decoded_of};

use formats::{CodeSource, LaneSource, RgbFormat};

pub mod blocks;
pub mod encode;

pub use encode::encode_rgb_pixel;

/// A texel on its way between two formats: a byte for each channel.
#[derive(Clone, Copy)]
pub struct Texel {
    /// Red.
    pub r: u8,
    /// Green.
    pub g: u8,
    /// Blue.
    pub b: u8,
    /// Alpha.
    pub a: u8,
}

impl Texel {
    /// The same colour with full alpha.
    pub fn opaque(self) -> Texel
        ensures { result ≡ record { r = self.r; g = self.g; b = self.b; a = 255 } }
    {
        Texel { a: 0xff, ..self }
    }

    // Grey: one byte for the three colours.
    fn grey(l: u8, a: u8) -> Texel
        ensures { result ≡ record { r = l; g = l; b = l; a = a } }
    {
        Texel {
            r: l,
            g: l,
            b: l,
            a,
        }
    }
}

// ---- decoding: a texel from its word, a function for each format

/// The texel of an A8R8G8B8 word.
pub fn decode_a8r8g8b8(v: u32) -> Texel
    ensures { result ≡ decoded_of A8R8G8B8 v }
{
    let [b, g, r, a] = v.to_le_bytes();
    Texel { r, g, b, a }
}

fn decode_r8g8b8(v: u32) -> Texel
    ensures { (result ≡ decoded_of R8G8B8 v) × (result ≡ decoded_of X8R8G8B8 v) }
{
    decode_a8r8g8b8(v).opaque()
}

// Green has six bits, and there is no alpha.
fn decode_r5g6b5(v: u16) -> Texel
    ensures { result ≡ decoded_of R5G6B5 v }
{
    Texel {
        r: channels::expand::<5>(v >> 11),
        g: channels::expand::<6>(v >> 5),
        b: channels::expand::<5>(v),
        a: 0xff,
    }
}

// A word of 16 bits at most: alpha of `ALPHA` bits at the top, and three colours of `COLOUR` bits.
fn decode_argb<const ALPHA: u32, const COLOUR: u32>(v: u16) -> Texel
    requires widths { (0 < ALPHA) × (ALPHA ≤ 8) × (0 < COLOUR) × (COLOUR ≤ 8) }
    requires fits { ALPHA + 3 * COLOUR ≤ 16 }
    ensures { result ≡ argb_of ALPHA COLOUR v }
{
    Texel {
        r: channels::expand::<COLOUR>(v >> (2 * COLOUR)),
        g: channels::expand::<COLOUR>(v >> COLOUR),
        b: channels::expand::<COLOUR>(v),
        a: channels::expand::<ALPHA>(v >> (3 * COLOUR)),
    }
}

fn decode_x1r5g5b5(v: u16) -> Texel
    ensures { result ≡ decoded_of X1R5G5B5 v }
{
    decode_argb::<1, 5>(v).opaque()
}

fn decode_a8(v: u8) -> Texel
    ensures { result ≡ decoded_of A8 v }
{
    Texel {
        r: 0,
        g: 0,
        b: 0,
        a: v,
    }
}

fn decode_a8b8g8r8(v: u32) -> Texel
    ensures { result ≡ decoded_of A8B8G8R8 v }
{
    let [r, g, b, a] = v.to_le_bytes();
    Texel { r, g, b, a }
}

fn decode_x8b8g8r8(v: u32) -> Texel
    ensures { result ≡ decoded_of X8B8G8R8 v }
{
    decode_a8b8g8r8(v).opaque()
}

fn decode_l8(v: u8) -> Texel
    ensures { result ≡ decoded_of L8 v }
{
    Texel {
        r: v,
        g: v,
        b: v,
        a: 0xff,
    }
}

fn decode_a8l8(v: u16) -> Texel
    ensures { result ≡ decoded_of A8L8 v }
{
    let [l, a] = v.to_le_bytes();
    Texel::grey(l, a)
}

// The lower half of a word, a 16-bit code, as the nearest byte.
#[tactic(auto, using(crate::proofs::Words::sixteen))]
fn nearest16(v: u32) -> u8
    ensures { result ≡ rounded (255 * (v % 65536)) 65535 }
{
    channels::unorm16_to_unorm8((v % 65536) as u16)
}

fn decode_a2r10g10b10(v: u32) -> Texel
    ensures { result ≡ decoded_of A2R10G10B10 v }
{
    Texel {
        r: channels::unorm10_to_unorm8(v >> 20),
        g: channels::unorm10_to_unorm8(v >> 10),
        b: channels::unorm10_to_unorm8(v),
        a: channels::expand::<2>((v >> 30) as u16),
    }
}

fn decode_a2b10g10r10(v: u32) -> Texel
    ensures { result ≡ decoded_of A2B10G10R10 v }
{
    let t = decode_a2r10g10b10(v);
    Texel {
        r: t.b,
        b: t.r,
        ..t
    }
}

fn decode_g16r16(v: u32) -> Texel
    ensures { result ≡ decoded_of G16R16 v }
{
    Texel {
        r: nearest16(v),
        g: nearest16(v >> 16),
        b: 0xff, // G16R16 has no blue
        a: 0xff,
    }
}

#[tactic(auto, using(crate::proofs::Words::sixteen), unfolding(crate::specs::Texels::decoded_of, crate::specs::Texels::colour_of, crate::specs::Texels::missing_colour, formats::specs::Table::lane_of, formats::specs::Table::parts_of))]
fn decode_l16(v: u16) -> Texel
    ensures { result ≡ decoded_of L16 v }
{
    let l = channels::unorm16_to_unorm8(v);
    Texel {
        r: l,
        g: l,
        b: l,
        a: 0xff, // L16 has no alpha
    }
}

fn decode_v8u8(v: u16) -> Texel
    ensures { result ≡ decoded_of V8U8 v }
{
    let [r, g] = v.to_le_bytes();
    Texel {
        r: channels::snorm8_to_unorm8(r as u32),
        g: channels::snorm8_to_unorm8(g as u32),
        b: 0xff, // V8U8 has no blue
        a: 0xff,
    }
}

fn decode_q8w8v8u8(v: u32) -> Texel
    ensures { result ≡ decoded_of Q8W8V8U8 v }
{
    let [r, g, b, a] = v.to_le_bytes();
    Texel {
        r: channels::snorm8_to_unorm8(r as u32),
        g: channels::snorm8_to_unorm8(g as u32),
        b: channels::snorm8_to_unorm8(b as u32),
        a: channels::snorm8_to_unorm8(a as u32),
    }
}

// Four 16-bit channels, each the nearest byte, read two at a time so that the compiler takes
// several texels at once.
fn decode_a16b16g16r16(px: &[u8]) -> Texel
    requires { 8 ≤ length px.now }
    ensures { result ≡ decoded_of A16B16G16R16 (number (take 8 px.now)) }
{
    let low = words::le32(px);
    let high = words::le32(&px[4..]);
    Texel {
        r: nearest16(low),
        g: nearest16(low >> 16),
        b: nearest16(high),
        a: nearest16(high >> 16),
    }
}

// Four binary32 channels, each the nearest byte, a half up.
fn decode_a32b32g32r32f(px: &[u8]) -> Texel
    requires { 16 ≤ length px.now }
    ensures { result ≡ decoded_of A32B32G32R32F (number (take 16 px.now)) }
{
    Texel {
        r: channels::f32_to_unorm8(words::le32(px)),
        g: channels::f32_to_unorm8(words::le32(&px[4..])),
        b: channels::f32_to_unorm8(words::le32(&px[8..])),
        a: channels::f32_to_unorm8(words::le32(&px[12..])),
    }
}

// ---- decoding: a texel from its bytes, by its format

// The texel at the front of `px`, of an RGB format.
#[tactic(auto, using(crate::proofs::Lanes::argb_1555, crate::proofs::Lanes::argb_4444), unfolding(formats::specs::Table::bytes_of, formats::specs::Table::parts_of))]
fn decode_rgb(format: RgbFormat, px: &[u8]) -> Texel
    requires { bytes_of (rgb_code format) ≤ length px.now }
    ensures { result
        ≡ decoded_of (rgb_code format) (number (take (bytes_of (rgb_code format)) px.now)) }
{
    match format {
        RgbFormat::R8G8B8 => decode_r8g8b8(words::le24(px)),
        RgbFormat::A8R8G8B8 => decode_a8r8g8b8(words::le32(px)),
        RgbFormat::X8R8G8B8 => decode_r8g8b8(words::le32(px)),
        RgbFormat::R5G6B5 => decode_r5g6b5(words::le16(px)),
        RgbFormat::X1R5G5B5 => decode_x1r5g5b5(words::le16(px)),
        RgbFormat::A1R5G5B5 => decode_argb::<1, 5>(words::le16(px)),
        RgbFormat::A4R4G4B4 => decode_argb::<4, 4>(words::le16(px)),
        RgbFormat::A8 => decode_a8(words::le8(px)),
        RgbFormat::A8B8G8R8 => decode_a8b8g8r8(words::le32(px)),
        RgbFormat::X8B8G8R8 => decode_x8b8g8r8(words::le32(px)),
        RgbFormat::L8 => decode_l8(words::le8(px)),
        RgbFormat::A8L8 => decode_a8l8(words::le16(px)),
    }
}

// The texel at the front of `px`, of a source of whole numbers.
#[tactic(auto, unfolding(formats::specs::Table::bytes_of, formats::specs::Table::parts_of))]
fn decode_code_source(format: CodeSource, px: &[u8]) -> Texel
    requires { bytes_of (code_source_code format) ≤ length px.now }
    ensures { result
        ≡ decoded_of (code_source_code format)
        (number (take (bytes_of (code_source_code format)) px.now)) }
{
    match format {
        CodeSource::A16B16G16R16 => decode_a16b16g16r16(px),
        CodeSource::A2R10G10B10 => decode_a2r10g10b10(words::le32(px)),
        CodeSource::A2B10G10R10 => decode_a2b10g10r10(words::le32(px)),
        CodeSource::G16R16 => decode_g16r16(words::le32(px)),
        CodeSource::L16 => decode_l16(words::le16(px)),
        CodeSource::V8U8 => decode_v8u8(words::le16(px)),
        CodeSource::Q8W8V8U8 => decode_q8w8v8u8(words::le32(px)),
    }
}

/// The texel at the front of `px`, of any format with lanes.
#[tactic(auto, unfolding(formats::specs::Table::bytes_of, formats::specs::Table::parts_of))]
pub fn decode_pixel(format: LaneSource, px: &[u8]) -> Texel
    requires { bytes_of (lane_source_code format) ≤ length px.now }
    ensures { result
        ≡ decoded_of (lane_source_code format)
        (number (take (bytes_of (lane_source_code format)) px.now)) }
{
    match format {
        LaneSource::Rgb(rgb) => decode_rgb(rgb, px),
        LaneSource::Codes(codes) => decode_code_source(codes, px),
        LaneSource::Floats => decode_a32b32g32r32f(px),
    }
}
