//! A row of a YUV source, converted by pairs of texels that share their chroma, by a set of
//! numbers. A texel before the first whole pair, and one behind the last, go alone.
//! Ported from pixel_convert.rs of athei/mtld3d (an altered version, see NOTICE).
#![tactic(auto)]

ghost use Rattle.std.specs.Prelude.{◌≡◌, true, ◌+◌, ◌*◌, ◌%◌, ◌^◌, ◌<◌, ◌≤◌, length};
ghost use Rattle.words.specs.Iterate.{iterate};
ghost use Rattle.formats.specs.Table.{bytes_of};
ghost use Rattle.formats.specs.Formats.{rgb_code, packed_yuv_code, planar_yuv_code, yuv_code};
ghost use Rattle.places.specs.Places.{places_at, places_in};
ghost use Rattle.texels.specs.Blocks.{word_written};
ghost use Rattle.regions.specs.Regions.{row_written};
ghost use Rattle.regions.specs.Rows.{RowFits};
ghost use Rattle.pixel_convert.specs.Places.{PlacesIn};
ghost use Rattle.pixel_convert.specs.Runs.{run_written};
ghost use Rattle.pixel_convert.specs.Samples.{PackedPair, PlanarPair, PlanarFits, PairAt};
ghost use Rattle.pixel_convert.specs.Pairs.{lines_of};
ghost use Rattle.pixel_convert.specs.PairWords.{run_from};

use crate::lines::Lines;
use crate::pairs::PairPlaces;
use crate::{pairs, yuv_texels};
use formats::{PackedYuv, PlanarYuv, RgbFormat, YuvFormat};
use places::{Side, Spot};
use planar_yuv::PlanarTexel;
use regions::{RegionRow, YuvSource};

// Where the samples of a macropixel lie that starts at byte `macropixel`.
fn packed_places(format: PackedYuv, macropixel: usize) -> PairPlaces
    ensures { PackedPair result (packed_yuv_code format) macropixel }
{
    match format {
        PackedYuv::YUY2 => PairPlaces::Yuy2 { macropixel },
        PackedYuv::UYVY => PairPlaces::Uyvy { macropixel },
    }
}

// Where the samples of a pair lie whose first texel is this one of a planar frame, which starts at
// byte `start`.
#[tactic(auto, using(crate::proofs::Places::yv12_pair, crate::proofs::Places::nv12_pair))]
fn planar_places(texel: PlanarTexel, start: usize) -> PairPlaces
    requires { PlanarFits (planar_yuv_code texel.format) start texel.layout.pitch
        texel.layout.luma_rows texel.y texel.x }
    ensures { PlanarPair result (planar_yuv_code texel.format) start texel.layout.pitch
        texel.layout.luma_rows texel.y texel.x }
{
    let luma = start + texel.luma_offset();
    let u = start + texel.u_offset();
    match texel.format {
        PlanarYuv::YV12 => PairPlaces::Yv12 {
            luma,
            u,
            v: start + texel.v_offset(),
        },
        PlanarYuv::NV12 => PairPlaces::Nv12 { luma, chroma: u },
    }
}

// Where the samples of a pair lie whose first texel is in an even column.
#[tactic(auto, using(crate::proofs::Fetched::packed_fits, places::proofs::ByKind::texel_laid))]
fn pair_places(src: &[u8], format: YuvFormat, side: &Side, at: Spot) -> PairPlaces
    requires { (at.x % 2 ≡ 0)
        × (places_in (length src.now) (places_at (yuv_code format) side.now at.z at.y at.x) ≡ true)
        × (at.z * side.now.slice_pitch < 2 ^ 64) }
    ensures { PairAt result (yuv_code format) side.now at.z at.y at.x }
{
    match format {
        YuvFormat::Packed(packed) => {
            packed_places(
                packed,
                side.start_of(
                    4,
                    Spot {
                        z: at.z,
                        y: at.y,
                        x: at.x / 2,
                    },
                ),
            )
        }
        YuvFormat::Planar(planar) => {
            let layout = places::layout_in_slice(planar, side).unwrap();
            let texel = PlanarTexel {
                format: planar,
                layout,
                x: at.x,
                y: at.y,
            };
            planar_places(texel, side.start as usize)
        }
    }
}

// The texels of so many pairs, from byte `first_to` of the destination on, in blocks of 32. Every
// offset is carried from block to block; `block` is room to work in.
#[tactic(auto, using(crate::proofs::PairWordsLaws::written_none))]
fn write_pairs(
    block: &mut [u32; 64],
    dst: &mut [u8],
    dst_format: RgbFormat,
    first_to: usize,
    src: &[u8],
    first: PairPlaces,
    lines: &Lines,
    pairs: usize,
)
    requires { PlacesIn (length src.now) first pairs
        × (first_to + 2 * pairs * bytes_of (rgb_code dst_format) ≤ length dst.old) }
    ensures { dst.new
        ≡ iterate (word_written (run_from lines.now src.now first) (rgb_code dst_format) first_to)
        (2 * pairs) dst.old }
{
    let mut at = first;
    let mut to = first_to;
    for done in (0..pairs).step_by(32) {
        let n = (pairs - done).min(32);
        let words = &mut block[..2 * n];
        pairs::read_pairs(words, src, at, lines);
        to = texels::blocks::write_texels(words, dst, dst_format, to);
        at = at.after(n);
    }
}

// So many pairs of a row, from column `first` of it on, which is an even column of the source.
#[tactic(auto, using(crate::proofs::RunsLaws::run_none))]
fn pair_run(
    block: &mut [u32; 64],
    dst: &mut [u8],
    dst_format: RgbFormat,
    src: &[u8],
    source: YuvSource,
    lines: &Lines,
    at: &RegionRow,
    first: usize,
    pairs: usize,
)
    requires { (RowFits (length src.now) (length dst.old) (yuv_code source.format)
        (rgb_code dst_format) at.now.region at.now.z at.now.row)
        × (first + 2 * pairs ≤ at.now.region.width) × ((at.now.region.source.x + first) % 2 ≡ 0)
        × (lines.now ≡ lines_of source.set.numbers) }
    ensures { dst.new
        ≡ run_written source.set.numbers src.now (yuv_code source.format) (rgb_code dst_format)
        at.now.region at.now.z at.now.row first (2 * pairs) dst.old }
{
    if pairs == 0 {
        return;
    }
    let side = &at.region.source;
    let places = pair_places(src, source.format, side, side.spot(at.z, at.row, first));
    let to = yuv_texels::run_start(dst_format, at, first);
    write_pairs(block, dst, dst_format, to, src, places, lines, pairs);
}

// The texel in a column of a row, if it goes alone: `count`, 0 or 1, says how many are written
// there. A row without one hands nothing on, since this is inlined and `write_texel` is not.
#[inline(always)]
#[tactic(auto, using(crate::proofs::RunsLaws::run_none, crate::proofs::RunsLaws::run_one))]
fn lone_texel(
    dst: &mut [u8],
    dst_format: RgbFormat,
    src: &[u8],
    source: &YuvSource,
    at: &RegionRow,
    column: usize,
    count: usize,
)
    requires { (RowFits (length src.now) (length dst.old) (yuv_code source.now.format)
        (rgb_code dst_format) at.now.region at.now.z at.now.row)
        × (column + count ≤ at.now.region.width) × (count ≤ 1) }
    ensures { dst.new
        ≡ run_written source.now.set.numbers src.now (yuv_code source.now.format)
        (rgb_code dst_format) at.now.region at.now.z at.now.row column count dst.old }
{
    if count == 1 {
        yuv_texels::write_texel(dst, dst_format, src, source, at, column);
    }
}

/// Converts a row: the texel before the first whole pair, the pairs, and the texel behind the last.
/// `lines` are those of the source's set, and `block` is room to work in.
#[tactic(auto, using(crate::proofs::RunsLaws::runs_row))]
pub(crate) fn yuv_row(
    block: &mut [u32; 64],
    dst: &mut [u8],
    dst_format: RgbFormat,
    src: &[u8],
    source: YuvSource,
    lines: &Lines,
    at: RegionRow,
)
    requires { (RowFits (length src.now) (length dst.old) (yuv_code source.format)
        (rgb_code dst_format) at.region at.z at.row)
        × (lines.now ≡ lines_of source.set.numbers) }
    ensures { dst.new
        ≡ row_written source.set.numbers src.now (yuv_code source.format) (rgb_code dst_format)
        at.region at.z at.row dst.old }
{
    let width = at.region.width as usize;
    let lead = at.region.source.x as usize % 2;
    let pairs = (width - lead) / 2;
    let done = lead + 2 * pairs;
    lone_texel(dst, dst_format, src, &source, &at, 0, lead);
    pair_run(block, dst, dst_format, src, source, lines, &at, lead, pairs);
    lone_texel(dst, dst_format, src, &source, &at, done, width - done);
}
