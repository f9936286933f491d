//! A texel of a YUV row that goes alone, since it is not half of a whole pair: packed and planar
//! YUV into the RGB formats, by a set of numbers.
//! Ported from pixel_convert.rs of athei/mtld3d (an altered version, see NOTICE).
#![tactic(auto)]

ghost use Rattle.std.specs.Prelude.{◌≡◌, true, ◌+◌, ◌*◌, ◌≤◌, ◌<◌, ◌%◌, ◌^◌, ◌==◌, length, take};
ghost use Rattle.std.specs.Int.{w64, FitsUnsigned};
ghost use Rattle.formats.specs.Table.{bytes_of};
ghost use Rattle.formats.specs.Formats.{rgb_code, packed_yuv_code, planar_yuv_code, yuv_code};
ghost use Rattle.planar_yuv.specs.Answers.{Legal};
ghost use Rattle.places.specs.Places.{place_of, layout_places, places_at, places_in, bytes_at};
ghost use Rattle.regions.specs.Regions.{to_at, texel_of, texel_at, written};
ghost use Rattle.regions.specs.Rows.{RowFits};

use formats::{PackedYuv, PlanarYuv, RgbFormat, YuvFormat};
use places::{Side, Spot};
use planar_yuv::{PlanarTexel, PlanarYuvLayout};
use regions::{RegionRow, YuvSource};
use stretch_rect::LegalSet;
use texels::Texel;

// A texel of a planar source.
#[tactic(auto, using(crate::proofs::Fetched::planar_texel, crate::proofs::Fetched::can_read, crate::proofs::Fetched::planar_colour))]
fn fetch_planar(
    set: LegalSet,
    src: &[u8],
    format: PlanarYuv,
    layout: PlanarYuvLayout,
    at: Spot,
) -> Texel
    requires { Legal layout
        × (places_in (length src.now) (layout_places (planar_yuv_code format) layout.pitch
        layout.luma_rows at.y at.x) ≡ true) }
    ensures { result
        ≡ texel_of set.numbers (planar_yuv_code format) (at.x % 2 == 1)
        (bytes_at src.now (layout_places (planar_yuv_code format) layout.pitch layout.luma_rows
        at.y at.x)) }
{
    let texel = PlanarTexel {
        format,
        layout,
        x: at.x,
        y: at.y,
    };
    regions::opaque(stretch_rect::decode_planar_yuv(set, src, texel))
}

// A texel of a macropixel, which is lent from its first byte on.
#[tactic(auto, using(regions::proofs::Fetch::packed_opaque, formats::proofs::FormatsLaws::packed_yuv_is))]
fn fetch_packed(set: LegalSet, macropixel: &[u8], format: PackedYuv, x: usize) -> Texel
    requires { 4 ≤ length macropixel.now }
    ensures { result
        ≡ texel_of set.numbers (packed_yuv_code format) (x % 2 == 1) (take 4 macropixel.now) }
{
    regions::opaque(stretch_rect::decode_packed_yuv(set, format, macropixel, x % 2 == 1))
}

/// The byte of the destination at which column `first` of a row starts.
#[tactic(auto, using(regions::proofs::RowOffsetsLaws::offset_is), unfolding(regions::specs::Regions::to_at))]
pub fn run_start(dst_format: RgbFormat, at: &RegionRow, first: usize) -> usize
    requires { (at.now.z * at.now.region.destination.slice_pitch < 2 ^ 64)
        × (at.now.region.destination.y + at.now.row ≤ 4294967295)
        × (at.now.region.destination.x + first ≤ 4294967295)
        × FitsUnsigned w64 (place_of at.now.region.destination (bytes_of (rgb_code dst_format))
        at.now.z (at.now.region.destination.y + at.now.row)
        (at.now.region.destination.x + first)) }
    ensures { result ≡ to_at (rgb_code dst_format) at.now.region at.now.z at.now.row first }
{
    let side = &at.region.destination;
    side.start_of(dst_format.bytes_per_texel(), side.spot(at.z, at.row, first))
}

// A texel that lies in its source. A planar source has a layout then, which starts at the side's
// start.
#[tactic(auto, using(crate::proofs::Fetched::packed_fits, places::proofs::ByKind::texel_laid, crate::proofs::Fetched::frame_in))]
fn fetch(source: &YuvSource, src: &[u8], side: &Side, at: Spot) -> Texel
    requires { (places_in (length src.now) (places_at (yuv_code source.now.format) side.now at.z
        at.y at.x) ≡ true)
        × (at.z * side.now.slice_pitch < 2 ^ 64) }
    ensures { result
        ≡ texel_at source.now.set.numbers src.now (yuv_code source.now.format) side.now at.z at.y
        at.x }
{
    match source.format {
        YuvFormat::Packed(packed) => {
            let macropixel = side.start_of(
                4,
                Spot {
                    z: at.z,
                    y: at.y,
                    x: at.x / 2,
                },
            );
            fetch_packed(source.set, &src[macropixel..], packed, at.x)
        }
        YuvFormat::Planar(planar) => {
            let layout = places::layout_in_slice(planar, side).unwrap();
            let frame = &src[side.start as usize..];
            fetch_planar(source.set, frame, planar, layout, at)
        }
    }
}

/// Converts the texel in a column of a row of YUV.
#[inline(never)]
pub fn write_texel(
    dst: &mut [u8],
    dst_format: RgbFormat,
    src: &[u8],
    source: &YuvSource,
    at: &RegionRow,
    column: usize,
)
    requires { (RowFits (length src.now) (length dst.old) (yuv_code source.now.format)
        (rgb_code dst_format) at.now.region at.now.z at.now.row)
        × (column < at.now.region.width) }
    ensures { dst.new
        ≡ written source.now.set.numbers src.now (yuv_code source.now.format) (rgb_code dst_format)
        at.now.region at.now.z at.now.row column dst.old }
{
    let side = &at.region.source;
    let texel = fetch(source, src, side, side.spot(at.z, at.row, column));
    let to = run_start(dst_format, at, column);
    texels::encode_rgb_pixel(dst_format, texel, &mut dst[to..]);
}
