//! What a viewer relies on. Each module has theorems: a public function whose contract names a
//! statement of specs/, and whose body is empty. The two functions here make the library's calls,
//! by their contracts alone: a depth picture comes back, and whatever is refused has left every
//! byte. No part of the library.
#![tactic(auto)]

ghost use Rattle.std.specs.Prelude.{◌≡◌, length, OnErr};
ghost use Rattle.formats.specs.Table.{bytes_of};
ghost use Rattle.regions.specs.Replies.{reply_with};
ghost use Rattle.regions.specs.Regions.{converted_with, NearWith, OwnWith, OthersKept};
ghost use Rattle.depth_texture.specs.Pixels.{KeepsAll};
ghost use Rattle.depth_texture.specs.Replies.{reply_number, refusal_of};
ghost use Rattle.depth_texture.specs.Planes.{if_accepted, unpacked_depth, unpacked_stencil, packed_buffer};
ghost use Rattle.depth_texture.specs.Promises.{first_refusal, SamePixels, Restores, PlanesKept, SameElsewhere, NearestCodes};

pub mod accuracy;
pub mod binary16;
pub mod fills;
pub mod lanes;
pub mod layouts;
pub mod nearest;
pub mod pictures;
pub mod rows;
pub mod sets;
pub mod untouched;
pub mod worked_table;

use depth_texture::{DepthRefusal, PlaneLayout};
use regions::{ConvertRefusal, ConvertRegion};
use stretch_rect::YuvSet;

/// Unpacks a packed picture and packs the untouched planes into another buffer, with a pitch of its
/// own: accepted, that holds the same pixels. Refusals 9 to 13, of the first call that is refused.
pub fn unpack_and_pack(
    depth: &mut [u8],
    stencil: &mut [u8],
    out: &mut [u8],
    out_pitch: usize,
    packed: &[u8],
    packed_pitch: usize,
    format: u32,
    layout: PlaneLayout,
) -> Result<(), DepthRefusal>
    ensures reply { reply_number result
        ≡ first_refusal
        (refusal_of format layout (length packed.now) packed_pitch
        (length depth.old) (length stencil.old))
        (refusal_of format layout (length out.old) out_pitch
        (length depth.old) (length stencil.old)) }
    ensures depth { depth.new
        ≡ unpacked_depth format layout packed.now packed_pitch depth.old stencil.old }
    ensures stencil { stencil.new
        ≡ unpacked_stencil format layout packed.now packed_pitch depth.old stencil.old }
    ensures bytes { out.new
        ≡ if_accepted
        (refusal_of format layout (length packed.now) packed_pitch
        (length depth.old) (length stencil.old))
        (packed_buffer format layout depth.new stencil.new out.old out_pitch) out.old }
    ensures restores { reply_number result ≡ 0 → KeepsAll format
        → SamePixels format layout packed.now packed_pitch out.new out_pitch }
{
    depth_texture::unpack(depth, stencil, packed, packed_pitch, format, layout)?;
    depth_texture::pack(out, out_pitch, depth, stencil, format, layout)
}

/// The replies to a conversion, an unpacking and a packing.
#[derive(Clone, Copy)]
pub struct Replies {
    /// Of the conversion.
    pub converted: Result<(), ConvertRefusal>,
    /// Of the unpacking.
    pub unpacked: Result<(), DepthRefusal>,
    /// Of the packing.
    pub packed: Result<(), DepthRefusal>,
}

/// Converts a region by any set of numbers, unpacks a picture, and packs the planes into another:
/// whatever is refused has left every byte that it was lent, and what is accepted has what the
/// calls promise.
#[tactic(auto, using(depth_texture::proofs::RoundTrip::unpacked_refused, depth_texture::proofs::RoundTrip::packed_refused, crate::proofs::UntouchedLaws::destination_untouched))]
pub fn convert_unpack_pack(
    dst: &mut [u8],
    dst_format: u32,
    src: &[u8],
    src_format: u32,
    region: &ConvertRegion,
    set: &YuvSet,
    depth: &mut [u8],
    stencil: &mut [u8],
    out: &mut [u8],
    out_pitch: usize,
    packed: &[u8],
    packed_pitch: usize,
    format: u32,
    layout: PlaneLayout,
) -> Replies
    ensures converted { result.converted
        ≡ reply_with set.now src.now dst.old src_format dst_format region.now }
    ensures unpacked { reply_number result.unpacked
        ≡ refusal_of format layout (length packed.now) packed_pitch
        (length depth.old) (length stencil.old) }
    ensures packed { reply_number result.packed
        ≡ refusal_of format layout (length out.old) out_pitch
        (length depth.new) (length stencil.new) }
    ensures destination_left { OnErr result.converted (dst.new ≡ dst.old) }
    ensures planes_left { OnErr result.unpacked
        ((depth.new ≡ depth.old) × (stencil.new ≡ stencil.old)) }
    ensures picture_left { OnErr result.packed (out.new ≡ out.old) }
    ensures bytes { dst.new
        ≡ converted_with set.now src.now dst.old src_format dst_format region.now }
    ensures depth { depth.new
        ≡ unpacked_depth format layout packed.now packed_pitch depth.old stencil.old }
    ensures stencil { stencil.new
        ≡ unpacked_stencil format layout packed.now packed_pitch depth.old stencil.old }
    ensures picture { out.new
        ≡ packed_buffer format layout depth.new stencil.new out.old out_pitch }
    ensures near { NearWith set.now src.now dst.old dst.new src_format dst_format region.now }
    ensures own { OwnWith set.now src.now dst.old dst.new src_format dst_format region.now }
    ensures kept { OthersKept dst.old dst.new dst_format region.now }
    ensures restores { reply_number result.unpacked ≡ 0 → KeepsAll format
        → Restores format layout packed.now packed_pitch depth.new stencil.new }
    ensures planes_kept { PlanesKept format layout depth.old depth.new stencil.old stencil.new }
    ensures nearest { reply_number result.packed ≡ 0
        → NearestCodes format layout depth.new out.new out_pitch }
    ensures picture_kept { SameElsewhere out_pitch (bytes_of format)
        layout.width layout.height out.old out.new }
{
    let converted = pixel_convert::convert_region_with_set(
        dst, dst_format, src, src_format, region, set,
    );
    let unpacked = depth_texture::unpack(depth, stencil, packed, packed_pitch, format, layout);
    let repacked = depth_texture::pack(out, out_pitch, depth, stencil, format, layout);
    Replies {
        converted,
        unpacked,
        packed: repacked,
    }
}
