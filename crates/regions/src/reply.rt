//! The reply to a conversion, decided before any byte is written: which pairs of formats convert,
//! and which regions are refused. Refused are a pair that does not convert (1), a planar source
//! that is no single slice of whole rows or whose pitch is not above 0 (2), a YUV source with a set
//! of numbers that is not legal (15), and a region with a texel outside the source (3) or the
//! destination (4). specs/Replies has the checks in their order.
//! Ported from pixel_convert.rs of athei/mtld3d (an altered version, see NOTICE).
#![tactic(auto)]

ghost use Rattle.std.specs.Prelude.{◌≡◌, IfOk};
ghost use Rattle.formats.specs.Formats.{rgb_code, source_code};
ghost use Rattle.regions.specs.Replies.{can_convert_update, can_convert, bad_planar_shape, is_empty, reply_to, refusal_number, without_value};
ghost use Rattle.regions.specs.Sources.{OfSet, FoundSource};
ghost use Rattle.regions.specs.Pairs.{Converts, FoundPair};

use formats::{D3DFMT_A8R8G8B8, RgbFormat, SourceFormat, YuvFormat};
use places::{Extent, Side};
use stretch_rect::{LegalSet, YuvSet};

mod conversion;
mod pair;
mod sized;

pub use conversion::Conversion;
pub use pair::Pair;
pub use sized::{LaneTexels, RgbTexels};

/// One conversion: what is read and what is written, and the slices, columns and rows that both
/// share.
#[derive(Clone, Copy)]
#[repr(C)]
pub struct ConvertRegion {
    /// Where texels are read.
    pub source: Side,
    /// Where they are written.
    pub destination: Side,
    /// Slices, which lie a slice pitch apart.
    pub depth: usize,
    /// Columns.
    pub width: u32,
    /// Rows.
    pub height: u32,
}

impl ConvertRegion {
    // The columns, rows and slices that both sides share.
    fn extent(&self) -> Extent
        ensures width { result.width ≡ self.now.width }
        ensures height { result.height ≡ self.now.height }
        ensures depth { result.depth ≡ self.now.depth }
    {
        Extent {
            width: self.width,
            height: self.height,
            depth: self.depth,
        }
    }
}

/// Row `row` of slice `z` of a region.
#[derive(Clone, Copy)]
pub struct RegionRow {
    /// The region.
    pub region: ConvertRegion,
    /// Slice, from 0 on.
    pub z: usize,
    /// Row, from 0 on.
    pub row: usize,
}

/// A YUV source.
#[derive(Clone, Copy)]
pub struct YuvSource {
    /// Its format.
    pub format: YuvFormat,
    /// The legal set that it is converted by.
    pub set: LegalSet,
}

/// What a conversion reads: texels with lanes, or YUV by its set.
#[derive(Clone, Copy)]
pub enum Source {
    /// Texels that are words with lanes.
    Lanes(LaneTexels),
    /// YUV by a set of numbers.
    Yuv(YuvSource),
}

/// Why a conversion is refused: 1 to 4 in this order, and 15.
#[derive(Clone, Copy, Debug, PartialEq, Eq)]
pub enum ConvertRefusal {
    /// The pair of formats does not convert: 1.
    Unsupported,
    /// The planar source is no single slice of whole rows, or its pitch is not above 0: 2.
    PlanarShape,
    /// A source texel is outside the source: 3.
    SourceOutside,
    /// A destination texel is outside the destination: 4.
    DestinationOutside,
    /// The source is YUV and its set of numbers is not legal: 15.
    IllegalSet,
}

impl From<ConvertRefusal> for u32 {
    ghost from_gives = { λ r n. n ≡ refusal_number r };

    fn from(refusal: ConvertRefusal) -> u32 {
        match refusal {
            ConvertRefusal::Unsupported => 1,
            ConvertRefusal::PlanarShape => 2,
            ConvertRefusal::SourceOutside => 3,
            ConvertRefusal::DestinationOutside => 4,
            ConvertRefusal::IllegalSet => 15,
        }
    }
}

// ---- formats are codes in the public calls here, and any number has its answer

/// Whether UpdateSurface and UpdateTexture convert this source format into this destination format.
#[tactic(auto, unfolding(crate::specs::Replies::can_convert_update))]
pub fn can_convert_update(src_format: u32, dst_format: u32) -> bool
    ensures { result ≡ can_convert_update src_format dst_format }
{
    (formats::is_convertible_rgb(src_format) || formats::is_packed_yuv(src_format))
        && formats::is_convertible_rgb(dst_format)
}

/// Whether a conversion takes this source format into this destination format.
#[tactic(auto, unfolding(crate::specs::Replies::can_convert))]
pub fn can_convert(src_format: u32, dst_format: u32) -> bool
    ensures { result ≡ can_convert src_format dst_format }
{
    can_convert_update(src_format, dst_format)
        || (dst_format == D3DFMT_A8R8G8B8 && formats::is_argb_source(src_format))
        || (formats::is_planar_yuv(src_format) && formats::is_convertible_rgb(dst_format))
}

// Whether a planar source has other than one slice, a pitch that is not above 0, or a slice that is
// no whole number of rows.
#[tactic(auto, unfolding(crate::specs::Replies::bad_planar_shape))]
fn bad_planar_shape(source: SourceFormat, region: &ConvertRegion) -> bool
    ensures { result ≡ bad_planar_shape (source_code source) region.now }
{
    let pitch = region.source.pitch_on();
    source.is_planar()
        && (region.depth != 1 || pitch == 0 || region.source.slice_pitch % pitch != 0)
}

// What is read of a source format, a YUV one by these numbers; `None` where they are not legal.
#[tactic(auto, using(crate::proofs::ChecksLaws::lanes_fit, crate::proofs::ChecksLaws::yuv_fits, crate::proofs::ChecksLaws::yuv_refused))]
fn source_by(format: SourceFormat, set: &YuvSet) -> Option<Source>
    ensures { FoundSource format set.now result }
{
    match format {
        SourceFormat::Lanes(format) => {
            let size = format.bytes_per_texel();
            Some(Source::Lanes(LaneTexels { format, size }))
        }
        SourceFormat::Yuv(format) => {
            let set = set.legal()?;
            Some(Source::Yuv(YuvSource { format, set }))
        }
    }
}

/// Whether a region has no texel.
#[tactic(auto, unfolding(crate::specs::Replies::is_empty))]
pub fn is_empty(region: &ConvertRegion) -> bool
    ensures { result ≡ is_empty region.now }
{
    region.width == 0 || region.height == 0 || region.depth == 0
}

// The pair of two codes, if it converts.
#[tactic(auto, using(crate::proofs::Checks::convert_source, crate::proofs::Checks::convert_target))]
fn pair_of(src_format: u32, dst_format: u32) -> Option<Pair>
    ensures { FoundPair src_format dst_format result }
{
    if !can_convert(src_format, dst_format) {
        return None;
    }
    let source = SourceFormat::from_d3d(src_format)?;
    let target = RgbFormat::from_d3d(dst_format)?;
    Some(Pair { source, target })
}

// The conversion of a pair, or why it is refused: the checks behind that of the pair, in their
// order.
#[tactic(auto, using(crate::proofs::Checks::sizes), unfolding(crate::specs::Replies::reply_to, crate::specs::Replies::source_inside, crate::specs::Replies::destination_inside))]
fn check_pair(
    src_len: usize,
    dst_len: usize,
    pair: Pair,
    region: &ConvertRegion,
    set: &YuvSet,
) -> Result<Conversion, ConvertRefusal>
    ensures reply { without_value result
        ≡ reply_to set.now (source_code pair.source) (rgb_code pair.target) region.now src_len
        dst_len }
    ensures pair { IfOk result (λ c. Converts c (source_code pair.source) (rgb_code pair.target)) }
    ensures numbers { IfOk result (λ c. OfSet set.now c.source) }
{
    if bad_planar_shape(pair.source, region) {
        return Err(ConvertRefusal::PlanarShape);
    }
    let Some(source) = source_by(pair.source, set) else {
        return Err(ConvertRefusal::IllegalSet);
    };
    let conversion = Conversion {
        source,
        target: RgbTexels {
            format: pair.target,
            size: pair.target.bytes_per_texel(),
        },
    };
    if is_empty(region) {
        return Ok(conversion);
    }
    if !places::inside(src_len, pair.source, &region.source, region.extent()) {
        return Err(ConvertRefusal::SourceOutside);
    }
    if !places::inside(
        dst_len,
        SourceFormat::from(pair.target),
        &region.destination,
        region.extent(),
    ) {
        return Err(ConvertRefusal::DestinationOutside);
    }
    Ok(conversion)
}

/// The conversion between two formats by a set of numbers, or why it is refused, from the lengths
/// of its buffers in bytes. The checks are made in the order of docs/RULES.md, Replies.
#[tactic(auto, using(crate::proofs::Checks::no_pair))]
pub fn check(
    src_len: usize,
    src_format: u32,
    dst_len: usize,
    dst_format: u32,
    region: &ConvertRegion,
    set: &YuvSet,
) -> Result<Conversion, ConvertRefusal>
    ensures reply { without_value result
        ≡ reply_to set.now src_format dst_format region.now src_len dst_len }
    ensures pair { IfOk result (λ c. Converts c src_format dst_format) }
    ensures numbers { IfOk result (λ c. OfSet set.now c.source) }
{
    let Some(pair) = pair_of(src_format, dst_format) else {
        return Err(ConvertRefusal::Unsupported);
    };
    check_pair(src_len, dst_len, pair, region, set)
}
