//! Channels of a texel: their bits expanded to a byte and truncated from one, the nearest code on another
//! scale, luminance, and binary32 numbers by their bits. specs/ has each as a law over the width,
//! the top code or the number, with its error: Expansion, Nearest, Luminance, Floats, Exact.
//! Ported from pixel_convert.rs and convert.rs of athei/mtld3d (an altered version, see NOTICE).
#![tactic(auto)]

ghost use Rattle.std.specs.Prelude.{◌≡◌, ◌*◌, ◌≤◌, ◌<◌, ◌%◌, ◌^◌};
ghost use Rattle.std.specs.Float.{binary32};
ghost use Rattle.std.specs.Float.Ieee.{of_bits};
ghost use Rattle.std.specs.Float.Ieee.Nearest.{closest};
ghost use Rattle.channels.specs.Expansion.{expanded, truncated};
ghost use Rattle.channels.specs.Nearest.{rounded, Nearest, NearestUp};
ghost use Rattle.channels.specs.Luminance.{luminance_of};
ghost use Rattle.channels.specs.Floats.{clamped};
ghost use Rattle.channels.specs.Exact.{not_negative};

/// The `WIDTH` low bits of a word as a byte: the bits repeated to its end. The bits above them are
/// dropped.
#[tactic(auto, using(crate::proofs::ExpandedBits::codes, crate::proofs::ExpandedBits::by_shifts, crate::proofs::ExpandedBits::by_product, crate::proofs::ExpandedBits::copies_fit, crate::proofs::ExactLaws::ones_pos))]
pub fn expand<const WIDTH: u32>(v: u16) -> u8
    requires { (0 < WIDTH) × (WIDTH ≤ 8) }
    ensures { result ≡ expanded WIDTH (v % 2 ^ WIDTH) }
{
    let mask = (1u16 << WIDTH) - 1;
    let code = v & mask;
    if WIDTH >= 4 {
        ((code << (8 - WIDTH)) | (code >> (2 * WIDTH - 8))) as u8
    } else {
        ((code * (0xffff / mask)) >> 8) as u8
    }
}

/// The two low bits of a word of 32 as a byte: the bits four times. The bits above them are
/// dropped.
pub fn expand2(v: u32) -> u8
    ensures { result ≡ expanded 2 (v % 4) }
{
    expand::<2>((v % 4) as u16)
}

/// The `WIDTH` top bits of a byte.
#[tactic(auto, unfolding(crate::specs::Expansion::truncated))]
pub fn truncate<const WIDTH: u32>(v: u8) -> u16
    requires { (0 < WIDTH) × (WIDTH ≤ 8) }
    ensures { result ≡ truncated WIDTH v }
{
    (v >> (8 - WIDTH)) as u16
}

/// The luminance of a colour, in weights of 2125, 7154 and 721 ten-thousandths, a half up.
#[tactic(auto, unfolding(crate::specs::Luminance::luminance_of))]
pub fn luminance(r: u8, g: u8, b: u8) -> u8
    ensures { result ≡ luminance_of r g b }
{
    ((2125 * (r as u32) + 7154 * (g as u32) + 721 * (b as u32) + 5000) / 10000) as u8
}

/// The code nearest to a byte on a scale whose top code is `max`. 255 is odd, so there is no tie.
#[tactic(auto, using(crate::proofs::Nearest::rounded_by_half))]
pub fn unorm8_to_nearest_code(channel: u8, max: u32) -> u32
    requires { max ≤ 65535 }
    ensures is { result ≡ rounded (channel * max) 255 }
    ensures nearest { Nearest (channel * max) 255 result }
{
    ((channel as u32) * max + 127) / 255
}

/// A byte as a 16-bit code: the byte twice, which is exact.
pub fn unorm8_to_unorm16(channel: u8) -> u16
    ensures { result ≡ channel * 257 }
{
    (channel as u16) * 257
}

/// The byte nearest to a code on a scale whose top code is `max`, a half up.
#[tactic(auto, unfolding(crate::specs::Nearest::rounded))]
pub fn nearest_byte(code: u32, max: u32) -> u8
    requires { (code ≤ max) × (0 < max) × (max ≤ 65535) }
    ensures is { result ≡ rounded (255 * code) max }
    ensures nearest { NearestUp (255 * code) max result }
{
    ((510 * code + max) / (2 * max)) as u8
}

/// The ten low bits of a word as the nearest byte. 1023 is odd, so there is no tie.
#[tactic(auto, using(crate::proofs::Nearest::is_odd))]
pub fn unorm10_to_unorm8(v: u32) -> u8
    ensures is { result ≡ rounded (255 * (v % 1024)) 1023 }
    ensures nearest { Nearest (255 * (v % 1024)) 1023 result }
{
    nearest_byte(v % 1024, 1023)
}

// A signed code of eight bits, and 0 where it is negative.
#[tactic(auto, using(crate::proofs::ExactLaws::positive, crate::proofs::ExactLaws::negative))]
fn not_negative8(code: u32) -> u32
    requires { code < 256 }
    ensures { result ≡ not_negative 8 code }
{
    if code < 128 { code } else { 0 }
}

/// The eight low bits of a word, a signed code, as the nearest byte: 0 where it is negative. 127 is
/// odd, so there is no tie.
#[tactic(auto, using(crate::proofs::ExactLaws::signed_le))]
pub fn snorm8_to_unorm8(v: u32) -> u8
    ensures is { result ≡ rounded (255 * not_negative 8 (v % 256)) 127 }
    ensures nearest { Nearest (255 * not_negative 8 (v % 256)) 127 result }
{
    nearest_byte(not_negative8(v % 256), 127)
}

/// A 16-bit code as the nearest byte, which is the nearest of v / 257. 257 is odd, so there is no
/// tie. The product and the shift stand for the division: docs/DECISIONS.md, Shape.
#[tactic(auto, using(crate::proofs::NearestLaws::by_product, crate::proofs::Nearest::is_odd))]
pub fn unorm16_to_unorm8(v: u16) -> u8
    ensures is { result ≡ rounded v 257 }
    ensures nearest { Nearest v 257 result }
{
    (((v as u32) * 255 + 32895) / 65536) as u8
}

/// n / 2^s to the nearest whole number, a tie to the even one: a half is added, less one where the
/// quotient is even.
#[tactic(auto, using(crate::proofs::NearestLaws::even_by_shifts))]
pub fn nearest_even_shifted(n: u64, s: u32) -> u64
    requires { (n < 4611686018427387904) × (0 < s) × (s < 62) }
    ensures { result ≡ closest n (2 ^ s) }
{
    let half = 1u64 << (s - 1);
    let kept = n >> s;
    (n + (half - 1) + kept % 2) >> s
}

// The bits of a binary32 number that is not negative; 0 for a NaN and for what is negative.
fn number_bits(bits: u32) -> u32
    ensures number { bits ≤ 0x7f80_0000 → result ≡ bits }
    ensures none { 0x7f80_0000 < bits → result ≡ 0 }
{
    if bits > 0x7f80_0000 { 0 } else { bits }
}

/// The code nearest to a binary32 number, given by its bits, on a scale whose top code is `max`, a
/// half up: 0 for a NaN and what is negative, and `max` from one on, for the infinity too. Below
/// 2^-31 a shift by 31 leaves nothing of the scaled significand.
#[tactic(auto, using(crate::proofs::NearestCode::nearest_shifted))]
pub fn f32_to_nearest_code(bits: u32, max: u64) -> u32
    requires { max < 16777216 }
    ensures { result
        ≡ rounded (max * (clamped (of_bits binary32 bits)).top)
        (clamped (of_bits binary32 bits)).bottom }
{
    let unit = number_bits(bits).min(0x3f80_0000);
    let significand = (0x80_0000 + unit % 0x80_0000) as u64;
    let scaled = (significand * max / 0x40_0000) as u32;
    ((scaled >> (127 - unit / 0x80_0000).min(31)) + 1) / 2
}

/// A binary32 channel, given by its bits, as the nearest byte, a half up: 0 for a NaN and what is
/// negative.
#[tactic(auto, using(crate::proofs::Nearest::rounded_le, crate::proofs::NearestLaws::is_up, crate::proofs::FloatsLaws::bottom_pos))]
pub fn f32_to_unorm8(bits: u32) -> u8
    ensures is { result
        ≡ rounded (255 * (clamped (of_bits binary32 bits)).top)
        (clamped (of_bits binary32 bits)).bottom }
    ensures nearest { NearestUp (255 * (clamped (of_bits binary32 bits)).top)
        (clamped (of_bits binary32 bits)).bottom result }
{
    f32_to_nearest_code(bits, 255) as u8
}
