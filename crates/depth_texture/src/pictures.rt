//! Pictures of packed depth pixels, unpacked into planes of binary32 depths and of stencil bytes,
//! and packed from them, row by row. The layouts of the planes and the replies are in the root of
//! this crate, rows in `rows`.
//! Ported from depth_texture.rs of athei/mtld3d (an altered version, see NOTICE).
#![tactic(auto)]

ghost use Rattle.std.specs.Prelude.{◌≡◌, ◌*◌, ◌≤◌, length};
ghost use Rattle.formats.specs.Table.{bytes_of};
ghost use Rattle.depth_texture.specs.Pixels.{format_code, KeepsAll};
ghost use Rattle.depth_texture.specs.Replies.{reply_number, refusal_of, Accepts};
ghost use Rattle.depth_texture.specs.Planes.{depth_plane, stencil_plane, packed_pixels, unpacked_depth, unpacked_stencil, packed_buffer};
ghost use Rattle.depth_texture.specs.PictureRows.{row_of};
ghost use Rattle.depth_texture.specs.Promises.{Restores, SameElsewhere, PlanesKept, NearestCodes};

use crate::pixels::PackedDepth;
use crate::rows::Row;
use crate::{DepthRefusal, PlaneLayout, rows};

// ---- the two calls: the format is a code, and any number has its answer

/// Unpacks a picture: each pixel's depth goes to the depth plane, and its stencil, where the format
/// has one, to the stencil plane. Without a stencil that plane is not written and may be empty.
/// Refused, both planes are as they were.
#[tactic(auto, using(crate::proofs::Refusals::accepts, crate::proofs::Calls::unpack_accepted))]
pub fn unpack(
    depth: &mut [u8],
    stencil: &mut [u8],
    packed: &[u8],
    packed_pitch: usize,
    format: u32,
    layout: PlaneLayout,
) -> Result<(), DepthRefusal>
    ensures reply { reply_number result
        ≡ refusal_of format layout (length packed.now) packed_pitch (length depth.old)
        (length stencil.old) }
    ensures depth { depth.new
        ≡ unpacked_depth format layout packed.now packed_pitch depth.old stencil.old }
    ensures stencil { stencil.new
        ≡ unpacked_stencil format layout packed.now packed_pitch depth.old stencil.old }
    ensures restores { reply_number result ≡ 0 → KeepsAll format
        → Restores format layout packed.now packed_pitch depth.new stencil.new }
    ensures kept { PlanesKept format layout depth.old depth.new stencil.old stencil.new }
{
    let kind = layout.check(
        format,
        packed.len(),
        packed_pitch,
        depth.len(),
        stencil.len(),
    )?;
    let rows = PictureRows {
        kind,
        layout,
        packed_pitch,
    };
    rows.unpack(packed, depth, stencil);
    Ok(())
}

/// Packs a picture: each pixel from the depth plane's binary32 number, whatever it is, and the
/// stencil plane's byte, where the format has a stencil. Without one that plane is not read.
/// Refused, `packed` is as it was.
#[tactic(auto, using(crate::proofs::Refusals::accepts, crate::proofs::RoundTrip::packed_refused, crate::proofs::Calls::pack_accepted))]
pub fn pack(
    packed: &mut [u8],
    packed_pitch: usize,
    depth: &[u8],
    stencil: &[u8],
    format: u32,
    layout: PlaneLayout,
) -> Result<(), DepthRefusal>
    ensures reply { reply_number result
        ≡ refusal_of format layout (length packed.old) packed_pitch (length depth.now)
        (length stencil.now) }
    ensures bytes { packed.new
        ≡ packed_buffer format layout depth.now stencil.now packed.old packed_pitch }
    ensures nearest { reply_number result ≡ 0
        → NearestCodes format layout depth.now packed.new packed_pitch }
    ensures kept { SameElsewhere packed_pitch (bytes_of format) layout.width layout.height
        packed.old packed.new }
{
    let kind = layout.check(
        format,
        packed.len(),
        packed_pitch,
        depth.len(),
        stencil.len(),
    )?;
    let rows = PictureRows {
        kind,
        layout,
        packed_pitch,
    };
    rows.pack(packed, depth, stencil);
    Ok(())
}

// The rows of a picture whose buffers passed the checks.
#[derive(Clone, Copy)]
struct PictureRows {
    pub kind: PackedDepth,
    pub layout: PlaneLayout,
    pub packed_pitch: usize,
}

impl PictureRows {
    // The places of row y.
    fn row_at(self, y: usize) -> Row
        requires { (y * self.packed_pitch ≤ 18446744073709551615)
            × (y * self.layout.depth_pitch ≤ 18446744073709551615)
            × (y * self.layout.stencil_pitch ≤ 18446744073709551615) }
        ensures { result ≡ row_of self.layout self.packed_pitch y }
    {
        Row {
            packed: y * self.packed_pitch,
            depth: y * self.layout.depth_pitch,
            stencil: y * self.layout.stencil_pitch,
            width: self.layout.width,
        }
    }

    // Every row into its places in both planes.
    #[tactic(auto, using(crate::proofs::PicturesLaws::rows_none), unfolding(crate::specs::Planes::depth_plane, crate::specs::Planes::stencil_plane))]
    fn unpack(self, packed: &[u8], depth: &mut [u8], stencil: &mut [u8])
        requires { Accepts (format_code self.kind) self.layout (length packed.now) self.packed_pitch
            (length depth.old) (length stencil.old) }
        ensures depth { depth.new
            ≡ depth_plane (format_code self.kind) self.layout packed.now self.packed_pitch
            depth.old }
        ensures stencil { stencil.new
            ≡ stencil_plane (format_code self.kind) self.layout packed.now self.packed_pitch
            stencil.old }
    {
        for y in 0..self.layout.height {
            let row = self.row_at(y);
            rows::unpack_row(self.kind, packed, depth, stencil, row);
        }
    }

    // Every row back from its places in both planes.
    #[tactic(auto, using(crate::proofs::PicturesLaws::rows_none), unfolding(crate::specs::Planes::packed_pixels))]
    fn pack(self, packed: &mut [u8], depth: &[u8], stencil: &[u8])
        requires { Accepts (format_code self.kind) self.layout (length packed.old) self.packed_pitch
            (length depth.now) (length stencil.now) }
        ensures { packed.new
            ≡ packed_pixels (format_code self.kind) self.layout depth.now stencil.now
            self.packed_pitch packed.old }
    {
        for y in 0..self.layout.height {
            let row = self.row_at(y);
            rows::pack_row(self.kind, packed, depth, stencil, row);
        }
    }
}
