//! A row of a source with lanes, converted block by block: the RGB formats into each other, and
//! wide, ten-bit, 16-bit and signed formats into A8R8G8B8.
//! Ported from pixel_convert.rs of athei/mtld3d (an altered version, see NOTICE).
#![tactic(auto)]

ghost use Rattle.std.specs.Prelude.{◌≡◌, ◌≤◌, length};
ghost use Rattle.formats.specs.Formats.{rgb_code, lane_source_code};
ghost use Rattle.stretch_rect.specs.declared.sets.YuvSet.{YuvSet};
ghost use Rattle.regions.specs.Regions.{row_written};
ghost use Rattle.regions.specs.Rows.{RowFits};
ghost use Rattle.pixel_convert.specs.Along.{RowOffsetsFit, CarriesRow};

use formats::{LaneSource, RgbFormat};
use regions::{LaneTexels, RegionRow, RgbTexels};
use texels::blocks::Offsets;

/// Where the first texels of a row start in the source and in the destination. Every texel of the
/// row starts a texel's bytes after the one before it, within 64 bits.
#[tactic(auto, using(crate::proofs::Along::carried_along))]
pub(crate) fn first_offsets(target: RgbTexels, source: LaneTexels, at: RegionRow) -> Offsets
    requires { RowOffsetsFit source.format target.format at }
    ensures { CarriesRow source.format target.format at result }
{
    let from_side = &at.region.source;
    let to_side = &at.region.destination;
    Offsets {
        from: from_side.start_of(source.size, from_side.spot(at.z, at.row, 0)),
        to: to_side.start_of(target.size, to_side.spot(at.z, at.row, 0)),
    }
}

/// Converts a row of a source with lanes, block by block; A8R8G8B8 goes without a block. `block` is
/// room to work in, of 64 words or more.
pub(crate) fn block_row(
    block: &mut [u32],
    dst: &mut [u8],
    target: RgbTexels,
    src: &[u8],
    source: LaneTexels,
    at: RegionRow,
)
    requires { RowFits (length src.now) (length dst.old) (lane_source_code source.format)
        (rgb_code target.format) at.region at.z at.row
        × (64 ≤ length block.old) }
    ensures { (numbers : YuvSet)
        → dst.new ≡ row_written numbers src.now (lane_source_code source.format)
        (rgb_code target.format) at.region at.z at.row dst.old }
{
    let first = first_offsets(target, source, at);
    let texels = at.region.width as usize;
    if source.format == LaneSource::Rgb(RgbFormat::A8R8G8B8) {
        texels::blocks::rewrite_texels(texels, src, dst, target.format, first);
        return;
    }
    let mut from = first.from;
    let mut to = first.to;
    for done in (0..texels).step_by(64) {
        let n = (texels - done).min(64);
        let part = &mut block[..n];
        from = texels::blocks::read_texels(part, src, source.format, from);
        to = texels::blocks::write_texels(part, dst, target.format, to);
    }
}
