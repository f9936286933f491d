//! Rows of packed depth pixels (D16, D24X8, D24S8) to the rows of a depth plane and a stencil
//! plane, and back. specs/PixelBytes has the pixels of a row and their bytes, specs/Pictures what
//! writing it makes of a buffer.
//! Ported from depth_texture.rs of athei/mtld3d (an altered version, see NOTICE).
#![tactic(auto)]

ghost use Rattle.std.specs.Prelude.{◌≡◌, not, ◌+◌, ◌*◌, ◌≤◌, length, T};
ghost use Rattle.std.specs.Float.Ieee.{is_nan};
ghost use Rattle.channels.specs.Floats.{clamped};
ghost use Rattle.depth_texture.specs.Pixels.{format_code};
ghost use Rattle.depth_texture.specs.PixelBytes.{depth_at, depth_row, stencil_row, packed_row};
ghost use Rattle.depth_texture.specs.Rows.{RowWithin};

use crate::pixels::{
    D16, D24S8, D24X8, DepthStencil, PackedDepth, PackedPixel, Pixel, store_depth,
};
use words::le32;

/// The bytes at which the pixels of a row begin, and how many they are.
#[derive(Clone, Copy)]
pub struct Row {
    /// In the packed picture.
    pub packed: usize,
    /// In the depth plane.
    pub depth: usize,
    /// In the stencil plane.
    pub stencil: usize,
    /// Pixels of the row.
    pub width: usize,
}

// The depth whose four bytes begin at byte `at` of a depth plane; 0 for a NaN and for what is
// negative.
#[tactic(auto, using(crate::proofs::AboveInfinity::above_infinity, crate::proofs::AboveInfinity::no_nan_bits), unfolding(crate::specs::PixelBytes::depth_at))]
fn load_depth(plane: &[u8], at: usize) -> f32
    requires { at + 4 ≤ length plane.now }
    ensures same { clamped result ≡ clamped (depth_at plane.now at) }
    ensures number { T (not (is_nan result)) }
{
    let bits = le32(&plane[at..]);
    if bits > 0x7f80_0000 {
        return 0.0;
    }
    f32::from_bits(bits)
}

// A row of pixels of one format, into its places in both planes.
#[tactic(auto, using(crate::proofs::RowLaws::depths_begun, crate::proofs::RowLaws::depths_next, crate::proofs::RowLaws::stencils_begun, crate::proofs::RowLaws::stencils_next, crate::proofs::RowLaws::stencils_kept, crate::proofs::RowLaws::depth_stored, crate::proofs::RowLaws::stencil_stored))]
fn unpack_pixels<P: PackedPixel>(packed: &[u8], depth: &mut [u8], stencil: &mut [u8], row: Row)
    requires { RowWithin (format_code P.kind) (length packed.now) (length depth.old)
        (length stencil.old) row }
    ensures depth { depth.new
        ≡ depth_row (format_code P.kind) packed.now row.packed row.depth row.width depth.old }
    ensures stencil { stencil.new
        ≡ stencil_row (format_code P.kind) packed.now row.packed row.stencil row.width stencil.old }
{
    for x in 0..row.width {
        let first = row.packed + x * P::SIZE;
        let pixel = P::decode(&packed[first..]);
        store_depth(depth, row.depth + x * 4, pixel);
        if P::STENCIL {
            stencil[row.stencil + x] = pixel.value.stencil;
        }
    }
}

// A row of pixels of one format, from its places in both planes.
#[tactic(auto, using(crate::proofs::RowLaws::packed_begun, crate::proofs::RowLaws::packed_next, crate::proofs::RowLaws::stencil_read, crate::proofs::RowLaws::no_stencil_read, crate::proofs::RowLaws::pixel_stored))]
fn pack_pixels<P: PackedPixel>(packed: &mut [u8], depth: &[u8], stencil: &[u8], row: Row)
    requires { RowWithin (format_code P.kind) (length packed.old) (length depth.now)
        (length stencil.now) row }
    ensures { packed.new
        ≡ packed_row (format_code P.kind) depth.now stencil.now row.depth row.stencil row.packed
        row.width packed.old }
{
    for x in 0..row.width {
        let value = DepthStencil {
            depth: load_depth(depth, row.depth + x * 4),
            stencil: if P::STENCIL {
                stencil[row.stencil + x]
            } else {
                0
            },
        };
        let first = row.packed + x * P::SIZE;
        P::encode(Pixel { value }, &mut packed[first..]);
    }
}

// ---- by a format that is known at run time: the `match` chooses its type

/// Unpacks a row of packed pixels into its places in both planes.
pub fn unpack_row(kind: PackedDepth, packed: &[u8], depth: &mut [u8], stencil: &mut [u8], row: Row)
    requires { RowWithin (format_code kind) (length packed.now) (length depth.old)
        (length stencil.old) row }
    ensures depth { depth.new
        ≡ depth_row (format_code kind) packed.now row.packed row.depth row.width depth.old }
    ensures stencil { stencil.new
        ≡ stencil_row (format_code kind) packed.now row.packed row.stencil row.width stencil.old }
{
    match kind {
        PackedDepth::D16 => unpack_pixels::<D16>(packed, depth, stencil, row),
        PackedDepth::D24X8 => unpack_pixels::<D24X8>(packed, depth, stencil, row),
        PackedDepth::D24S8 => unpack_pixels::<D24S8>(packed, depth, stencil, row),
    }
}

/// Packs a row of pixels from its places in both planes.
pub fn pack_row(kind: PackedDepth, packed: &mut [u8], depth: &[u8], stencil: &[u8], row: Row)
    requires { RowWithin (format_code kind) (length packed.old) (length depth.now)
        (length stencil.now) row }
    ensures { packed.new
        ≡ packed_row (format_code kind) depth.now stencil.now row.depth row.stencil row.packed
        row.width packed.old }
{
    match kind {
        PackedDepth::D16 => pack_pixels::<D16>(packed, depth, stencil, row),
        PackedDepth::D24X8 => pack_pixels::<D24X8>(packed, depth, stencil, row),
        PackedDepth::D24S8 => pack_pixels::<D24S8>(packed, depth, stencil, row),
    }
}
