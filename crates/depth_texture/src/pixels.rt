//! Packed depth pixels (D16, D24X8, D24S8): one pixel to a depth and a stencil and back. specs/ has
//! the codes (Depth), the pixels (Pixels), their bytes (PixelBytes) and pictures of them
//! (Pictures).
//! Ported from depth_texture.rs of athei/mtld3d (an altered version, see NOTICE).
#![tactic(auto)]

ghost use Rattle.std.specs.Prelude.{◌≡◌, refl, ℕ, Bool, true, false, ◌+◌, ◌%◌, ◌≤◌, ◌<◌, length};
ghost use Rattle.std.proofs.lemmas.List.Edits.{sets};
ghost use Rattle.std.specs.Float.{binary32};
ghost use Rattle.std.specs.Float.Ieee.{to_bits};
ghost use Rattle.words.specs.Little.{bytes};
ghost use Rattle.formats.specs.Table.{parts_of, lane_of, bytes_of};
ghost use Rattle.channels.specs.Floats.{clamped};
ghost use Rattle.depth_texture.specs.Depth.{code_for};
ghost use Rattle.depth_texture.specs.Pixels.{format_code, StandsFor, has_stencil, decoded, encoded};
ghost use Rattle.depth_texture.specs.PixelBytes.{word_at};

use channels::f32_to_nearest_code;
use formats::{D3DFMT_D16, D3DFMT_D24S8, D3DFMT_D24X8};
use words::{le16, le32, put16, put32};

mod pixel;

pub use pixel::Pixel;

/// The packed depth formats, whose codes survive binary32 storage.
#[derive(Clone, Copy)]
pub enum PackedDepth {
    D16,
    D24X8,
    D24S8,
}

/// What a pixel stands for.
#[derive(Clone, Copy)]
pub struct DepthStencil {
    /// The depth, from 0 to 1 where it is decoded.
    pub depth: f32,
    /// The stencil; 0 where the format has none.
    pub stencil: u8,
}

/// A packed depth format as a type, of which the compiler makes loops of their own.
pub trait PackedPixel {
    ghost use Rattle.depth_texture.specs.declared.pixels.PackedDepth.{PackedDepth};

    /// Packed bytes of a pixel.
    const SIZE: usize;

    /// Whether a second plane carries stencil bytes.
    const STENCIL: bool;

    ghost SIZE: { ℕ };

    ghost STENCIL: { Bool };

    // The format.
    ghost kind: { PackedDepth };

    /// The depth and the stencil of the pixel at the front of `packed`.
    fn decode(packed: &[u8]) -> Pixel
        requires { SIZE ≤ length packed.now }
        ensures { result.value
            ≡ decoded (format_code kind) (word_at (format_code kind) packed.now 0) };

    /// Packs a pixel's depth, as the nearest code, and its stencil at the front of `packed`.
    fn encode(pixel: Pixel, packed: &mut [u8])
        requires { SIZE ≤ length packed.old }
        ensures { packed.new ≡ sets packed.old 0 (encoded (format_code kind) pixel.value) };

    ghost sized: { SIZE ≡ bytes_of (format_code kind) };

    ghost has: { STENCIL ≡ has_stencil (format_code kind) };
}

impl PackedDepth {
    /// The packed depth format that has this code, if there is one.
    #[tactic(auto, using(crate::proofs::PackedFormats::not_packed))]
    pub fn from_d3d(format: u32) -> Option<PackedDepth>
        ensures { StandsFor format result }
    {
        match format {
            D3DFMT_D16 => Some(PackedDepth::D16),
            D3DFMT_D24X8 => Some(PackedDepth::D24X8),
            D3DFMT_D24S8 => Some(PackedDepth::D24S8),
            _ => None,
        }
    }

    // ---- by a format that is known at run time

    /// Packed bytes of a pixel.
    #[tactic(auto, using(crate::proofs::PackedFormats::size_d16, crate::proofs::PackedFormats::size_d24x8, crate::proofs::PackedFormats::size_d24s8))]
    pub fn bytes_per_pixel(self) -> usize
        ensures { result ≡ bytes_of (format_code self) }
    {
        match self {
            PackedDepth::D16 => D16::SIZE,
            PackedDepth::D24X8 => D24X8::SIZE,
            PackedDepth::D24S8 => D24S8::SIZE,
        }
    }

    /// Whether a second plane carries stencil bytes.
    #[tactic(auto, using(crate::proofs::PackedFormats::stencil_d16, crate::proofs::PackedFormats::stencil_d24x8, crate::proofs::PackedFormats::stencil_d24s8))]
    pub fn has_stencil(self) -> bool
        ensures { result ≡ has_stencil (format_code self) }
    {
        match self {
            PackedDepth::D16 => D16::STENCIL,
            PackedDepth::D24X8 => D24X8::STENCIL,
            PackedDepth::D24S8 => D24S8::STENCIL,
        }
    }

    /// The depth and the stencil of the pixel at the front of `pixel`.
    #[tactic(auto, using(crate::proofs::PackedFormats::size_d16, crate::proofs::PackedFormats::size_d24x8, crate::proofs::PackedFormats::size_d24s8))]
    pub fn decode(self, pixel: &[u8]) -> DepthStencil
        requires { bytes_of (format_code self) ≤ length pixel.now }
        ensures { result ≡ decoded (format_code self) (word_at (format_code self) pixel.now 0) }
    {
        match self {
            PackedDepth::D16 => D16::decode(pixel).value,
            PackedDepth::D24X8 => D24X8::decode(pixel).value,
            PackedDepth::D24S8 => D24S8::decode(pixel).value,
        }
    }

    /// Packs a depth, as the nearest code, and a stencil at the front of `pixel`. A NaN is 0, and
    /// D24X8's unused byte is 0.
    #[tactic(auto, using(crate::proofs::PackedFormats::size_d16, crate::proofs::PackedFormats::size_d24x8, crate::proofs::PackedFormats::size_d24s8, crate::proofs::Coding::encoded_same))]
    pub fn encode(self, value: DepthStencil, pixel: &mut [u8])
        requires { bytes_of (format_code self) ≤ length pixel.old }
        ensures { pixel.new ≡ sets pixel.old 0 (encoded (format_code self) value) }
    {
        let number = without_nan(value);
        match self {
            PackedDepth::D16 => D16::encode(number, pixel),
            PackedDepth::D24X8 => D24X8::encode(number, pixel),
            PackedDepth::D24S8 => D24S8::encode(number, pixel),
        }
    }
}

/// The word is the code, and there is no stencil.
pub struct D16;

/// The code lies below an unused byte.
pub struct D24X8;

/// The code lies above the stencil byte.
pub struct D24S8;

// The nearest code of a pixel's depth, on a scale whose top code is `max`. The only tie is at one
// half, where the upper code is the even one, as `max` is 3 above a multiple of 4.
#[tactic(auto, using(crate::proofs::Patterns::code_rounded, crate::proofs::Patterns::bits_read))]
fn code_of(max: u64, pixel: Pixel) -> u32
    requires { (max < 16777216) × (max % 4 ≡ 3) }
    ensures { result ≡ code_for max pixel.value.depth }
{
    f32_to_nearest_code(f32::to_bits(pixel.value.depth), max)
}

// The same depth and stencil, with 0 for a NaN.
#[tactic(auto, using(crate::proofs::Patterns::tested_nan))]
fn without_nan(value: DepthStencil) -> Pixel
    ensures { (clamped result.value.depth ≡ clamped value.depth)
        × (result.value.stencil ≡ value.stencil) }
{
    if value.depth.is_nan() {
        return Pixel {
            value: DepthStencil {
                depth: 0.0,
                ..value
            },
        };
    }
    Pixel { value }
}

impl PackedPixel for D16 {
    ghost use Rattle.depth_texture.specs.declared.pixels.PackedDepth.TheVariants as kinds;

    const SIZE: usize = 2;

    const STENCIL: bool = false;

    ghost SIZE = { 2 };

    ghost STENCIL = { false };

    ghost kind = { kinds.D16 };

    #[tactic(auto, using(crate::proofs::Coding::number_16))]
    fn decode(packed: &[u8]) -> Pixel {
        let value = DepthStencil {
            depth: (le16(packed) as f32) / 65535.0,
            stencil: 0,
        };
        Pixel { value }
    }

    #[tactic(auto, using(crate::proofs::Restoration::code_for_is))]
    fn encode(pixel: Pixel, packed: &mut [u8]) {
        put16(packed, code_of(65535, pixel) as u16);
    }

    ghost sized = { unfold bytes_of parts_of in refl };

    ghost has = { unfold has_stencil lane_of parts_of in refl };
}

// What packing writes into D24X8's unused byte.
const UNUSED: u32 = 0;

impl PackedPixel for D24X8 {
    ghost use Rattle.depth_texture.specs.declared.pixels.PackedDepth.TheVariants as kinds;

    const SIZE: usize = 4;

    const STENCIL: bool = false;

    ghost SIZE = { 4 };

    ghost STENCIL = { false };

    ghost kind = { kinds.D24X8 };

    #[tactic(auto, using(crate::proofs::Coding::number_24))]
    fn decode(packed: &[u8]) -> Pixel {
        let word = le32(packed);
        let value = DepthStencil {
            depth: ((word % 0x100_0000) as f32) / 16777215.0,
            stencil: 0,
        };
        Pixel { value }
    }

    #[tactic(auto, using(crate::proofs::Restoration::code_for_is))]
    fn encode(pixel: Pixel, packed: &mut [u8]) {
        let code = code_of(16777215, pixel);
        put32(packed, UNUSED * 0x100_0000 + code);
    }

    ghost sized = { unfold bytes_of parts_of in refl };

    ghost has = { unfold has_stencil lane_of parts_of in refl };
}

impl PackedPixel for D24S8 {
    ghost use Rattle.depth_texture.specs.declared.pixels.PackedDepth.TheVariants as kinds;

    const SIZE: usize = 4;

    const STENCIL: bool = true;

    ghost SIZE = { 4 };

    ghost STENCIL = { true };

    ghost kind = { kinds.D24S8 };

    #[tactic(auto, using(crate::proofs::PackedFormats::size_d24s8, crate::proofs::PackedFormats::max_d24s8, crate::proofs::PackedFormats::code_d24s8, crate::proofs::PackedFormats::stencil_of_d24s8, crate::proofs::Coding::literal_24, crate::proofs::Coding::word_read, crate::proofs::Coding::decodes, crate::proofs::Coding::number_24))]
    fn decode(packed: &[u8]) -> Pixel {
        let word = le32(packed);
        let [stencil, ..] = word.to_le_bytes();
        let value = DepthStencil {
            depth: ((word / 0x100) as f32) / 16777215.0,
            stencil,
        };
        Pixel { value }
    }

    // The stencil byte, and above it the code's bytes from the lowest one on.
    fn encode(pixel: Pixel, packed: &mut [u8]) {
        let [low, middle, high, _] = code_of(16777215, pixel).to_le_bytes();
        put32(
            packed,
            u32::from_le_bytes([pixel.value.stencil, low, middle, high]),
        );
    }

    ghost sized = { unfold bytes_of parts_of in refl };

    ghost has = { unfold has_stencil lane_of parts_of in refl };
}

/// Stores a pixel's depth as four bytes, from byte `at` of a depth plane on.
pub fn store_depth(plane: &mut [u8], at: usize, pixel: Pixel)
    requires { at + 4 ≤ length plane.old }
    ensures { plane.new ≡ sets plane.old at (bytes 4 (to_bits binary32 pixel.value.depth)) }
{
    put32(&mut plane[at..], f32::to_bits(pixel.value.depth));
}
