//! The formats of Direct3D 9 that this library knows: their codes, their classes, the bytes of a
//! texel, and the formats as types. specs/Codes has the codes, specs/Table the lane table: the
//! lowest bit, the width and the kind of each channel, as D3DFORMAT's names list them.
//! Ported from format.rs and caps.rs of athei/mtld3d (an altered version, see NOTICE).
#![tactic(auto)]

ghost use Rattle.std.specs.Prelude.{◌≡◌, ◌≤◌};
ghost use Rattle.formats.specs.Table.{bytes_of};
ghost use Rattle.words.specs.Multiples.{Raised};
ghost use Rattle.formats.specs.Formats.{rgb_code, code_source_code, lane_source_code, packed_yuv_code, planar_yuv_code, yuv_code, source_code, Found, is_source};
ghost use Rattle.formats.specs.declared.LaneSource.TheVariants.{Rgb};
ghost use Rattle.formats.specs.declared.SourceFormat.TheVariants.{Lanes};
ghost use Rattle.formats.specs.Classes.{is_convertible_rgb, is_packed_yuv, is_planar_yuv, is_code_source, is_argb_source, is_lane_source, is_yuv, linear_row_pitch};

// The codes of D3DFORMAT; those of YUV formats are the four characters of their names.
pub const D3DFMT_R8G8B8: u32 = 20;

pub const D3DFMT_A8R8G8B8: u32 = 21;

pub const D3DFMT_X8R8G8B8: u32 = 22;

pub const D3DFMT_R5G6B5: u32 = 23;

pub const D3DFMT_X1R5G5B5: u32 = 24;

pub const D3DFMT_A1R5G5B5: u32 = 25;

pub const D3DFMT_A4R4G4B4: u32 = 26;

pub const D3DFMT_A8: u32 = 28;

pub const D3DFMT_A2B10G10R10: u32 = 31;

pub const D3DFMT_A8B8G8R8: u32 = 32;

pub const D3DFMT_X8B8G8R8: u32 = 33;

pub const D3DFMT_G16R16: u32 = 34;

pub const D3DFMT_A2R10G10B10: u32 = 35;

pub const D3DFMT_A16B16G16R16: u32 = 36;

pub const D3DFMT_L8: u32 = 50;

pub const D3DFMT_A8L8: u32 = 51;

pub const D3DFMT_V8U8: u32 = 60;

pub const D3DFMT_Q8W8V8U8: u32 = 63;

pub const D3DFMT_V16U16: u32 = 64;

pub const D3DFMT_D24S8: u32 = 75;

pub const D3DFMT_D24X8: u32 = 77;

pub const D3DFMT_D16: u32 = 80;

pub const D3DFMT_L16: u32 = 81;

pub const D3DFMT_Q16W16V16U16: u32 = 110;

pub const D3DFMT_R16F: u32 = 111;

pub const D3DFMT_G16R16F: u32 = 112;

pub const D3DFMT_A16B16G16R16F: u32 = 113;

pub const D3DFMT_R32F: u32 = 114;

pub const D3DFMT_G32R32F: u32 = 115;

pub const D3DFMT_A32B32G32R32F: u32 = 116;

pub const D3DFMT_YUY2: u32 = 0x32595559;

pub const D3DFMT_UYVY: u32 = 0x59565955;

pub const D3DFMT_YV12: u32 = 0x32315659;

pub const D3DFMT_NV12: u32 = 0x3231564e;

/// The largest width and height of a texture, in texels.
pub const MAX_TEXTURE_DIM: u32 = 16384;

// ---- classes of codes: any number has its answer

/// Whether the converter decodes and encodes the format: its channels are unsigned and at most
/// eight bits wide.
#[tactic(auto, using(crate::proofs::FormatsLaws::rgb_is))]
pub fn is_convertible_rgb(d3d_format: u32) -> bool
    ensures { result ≡ is_convertible_rgb d3d_format }
{
    RgbFormat::from_d3d(d3d_format).is_some()
}

/// Whether the format is one of the two packed 4:2:2 YUV formats.
#[tactic(auto, using(crate::proofs::FormatsLaws::packed_yuv_is))]
pub fn is_packed_yuv(d3d_format: u32) -> bool
    ensures { result ≡ is_packed_yuv d3d_format }
{
    PackedYuv::from_d3d(d3d_format).is_some()
}

/// Whether the format is one of the two planar 4:2:0 YUV formats.
#[tactic(auto, using(crate::proofs::FormatsLaws::planar_yuv_is))]
pub fn is_planar_yuv(d3d_format: u32) -> bool
    ensures { result ≡ is_planar_yuv d3d_format }
{
    PlanarYuv::from_d3d(d3d_format).is_some()
}

/// Whether the format converts into A8R8G8B8 alone and its channels are whole numbers.
#[tactic(auto, using(crate::proofs::FormatsLaws::code_source_is))]
pub fn is_code_source(d3d_format: u32) -> bool
    ensures { result ≡ is_code_source d3d_format }
{
    CodeSource::from_d3d(d3d_format).is_some()
}

/// Whether the format converts into A8R8G8B8 alone.
#[tactic(auto, using(crate::proofs::Classified::floats_argb, crate::proofs::Classified::codes_argb))]
pub fn is_argb_source(d3d_format: u32) -> bool
    ensures { result ≡ is_argb_source d3d_format }
{
    d3d_format == D3DFMT_A32B32G32R32F || is_code_source(d3d_format)
}

// The bytes of a texel for each code from 0 to that of A32B32G32R32F; 0 for a code without lanes.
const TEXEL_BYTES: [u8; 117] = [
    0, 0, 0, 0, 0, 0, 0, 0, 0, 0, 0, 0, 0, 0, 0, 0, 0, 0, 0, 0, 3, 4, 4, 2, 2, 2, 2, 0, 1, 0, 0, 4,
    4, 4, 4, 4, 8, 0, 0, 0, 0, 0, 0, 0, 0, 0, 0, 0, 0, 0, 1, 2, 0, 0, 0, 0, 0, 0, 0, 0, 2, 0, 0, 4,
    4, 0, 0, 0, 0, 0, 0, 0, 0, 0, 0, 4, 0, 4, 0, 0, 2, 2, 0, 0, 0, 0, 0, 0, 0, 0, 0, 0, 0, 0, 0, 0,
    0, 0, 0, 0, 0, 0, 0, 0, 0, 0, 0, 0, 0, 0, 8, 2, 4, 8, 4, 8, 16,
];

/// The bytes of a texel; 0 for a code without lanes.
#[tactic(auto, unfolding(crate::specs::Table::bytes_of, crate::specs::Table::parts_of))]
pub fn bytes_per_texel(d3d_format: u32) -> usize
    ensures { result ≡ bytes_of d3d_format }
{
    if d3d_format <= D3DFMT_A32B32G32R32F {
        TEXEL_BYTES[d3d_format as usize] as usize
    } else {
        0
    }
}

/// The pitch of a row of `width` texels of one byte, in bytes: the least multiple of 4 that holds
/// it.
pub fn linear_row_pitch(width: u32) -> u32
    requires { width ≤ 16384 }
    ensures is { result ≡ linear_row_pitch width }
    ensures raised { Raised width 4 result }
{
    width.next_multiple_of(4)
}

// ---- formats as types: a code becomes one where it is decided on (docs/DECISIONS.md, Shape)

/// A format that the converter decodes and encodes: its channels are unsigned and at most eight
/// bits wide.
#[derive(Clone, Copy, PartialEq, Eq)]
pub enum RgbFormat {
    R8G8B8,
    A8R8G8B8,
    X8R8G8B8,
    R5G6B5,
    X1R5G5B5,
    A1R5G5B5,
    A4R4G4B4,
    A8,
    A8B8G8R8,
    X8B8G8R8,
    L8,
    A8L8,
}

impl RgbFormat {
    /// The format that has this code, if there is one.
    #[tactic(auto, unfolding(crate::specs::Classes::is_convertible_rgb))]
    pub fn from_d3d(d3d_format: u32) -> Option<RgbFormat>
        ensures { Found rgb_code is_convertible_rgb d3d_format result }
    {
        match d3d_format {
            D3DFMT_R8G8B8 => Some(RgbFormat::R8G8B8),
            D3DFMT_A8R8G8B8 => Some(RgbFormat::A8R8G8B8),
            D3DFMT_X8R8G8B8 => Some(RgbFormat::X8R8G8B8),
            D3DFMT_R5G6B5 => Some(RgbFormat::R5G6B5),
            D3DFMT_X1R5G5B5 => Some(RgbFormat::X1R5G5B5),
            D3DFMT_A1R5G5B5 => Some(RgbFormat::A1R5G5B5),
            D3DFMT_A4R4G4B4 => Some(RgbFormat::A4R4G4B4),
            D3DFMT_A8 => Some(RgbFormat::A8),
            D3DFMT_A8B8G8R8 => Some(RgbFormat::A8B8G8R8),
            D3DFMT_X8B8G8R8 => Some(RgbFormat::X8B8G8R8),
            D3DFMT_L8 => Some(RgbFormat::L8),
            D3DFMT_A8L8 => Some(RgbFormat::A8L8),
            _ => None,
        }
    }

    /// The bytes of a texel.
    #[tactic(auto, unfolding(crate::specs::Table::bytes_of, crate::specs::Table::parts_of))]
    pub fn bytes_per_texel(self) -> usize
        ensures { result ≡ bytes_of (rgb_code self) }
    {
        match self {
            RgbFormat::R8G8B8 => 3,
            RgbFormat::A8R8G8B8 => 4,
            RgbFormat::X8R8G8B8 => 4,
            RgbFormat::R5G6B5 => 2,
            RgbFormat::X1R5G5B5 => 2,
            RgbFormat::A1R5G5B5 => 2,
            RgbFormat::A4R4G4B4 => 2,
            RgbFormat::A8 => 1,
            RgbFormat::A8B8G8R8 => 4,
            RgbFormat::X8B8G8R8 => 4,
            RgbFormat::L8 => 1,
            RgbFormat::A8L8 => 2,
        }
    }
}

/// A format that converts into A8R8G8B8 alone and whose channels are whole numbers.
#[derive(Clone, Copy, PartialEq, Eq)]
pub enum CodeSource {
    A16B16G16R16,
    A2R10G10B10,
    A2B10G10R10,
    G16R16,
    L16,
    V8U8,
    Q8W8V8U8,
}

impl CodeSource {
    /// The format that has this code, if there is one.
    #[tactic(auto, unfolding(crate::specs::Classes::is_code_source))]
    pub fn from_d3d(d3d_format: u32) -> Option<CodeSource>
        ensures { Found code_source_code is_code_source d3d_format result }
    {
        match d3d_format {
            D3DFMT_A16B16G16R16 => Some(CodeSource::A16B16G16R16),
            D3DFMT_A2R10G10B10 => Some(CodeSource::A2R10G10B10),
            D3DFMT_A2B10G10R10 => Some(CodeSource::A2B10G10R10),
            D3DFMT_G16R16 => Some(CodeSource::G16R16),
            D3DFMT_L16 => Some(CodeSource::L16),
            D3DFMT_V8U8 => Some(CodeSource::V8U8),
            D3DFMT_Q8W8V8U8 => Some(CodeSource::Q8W8V8U8),
            _ => None,
        }
    }

    /// The bytes of a texel.
    #[tactic(auto, unfolding(crate::specs::Table::bytes_of, crate::specs::Table::parts_of))]
    pub fn bytes_per_texel(self) -> usize
        ensures { result ≡ bytes_of (code_source_code self) }
    {
        match self {
            CodeSource::A16B16G16R16 => 8,
            CodeSource::A2R10G10B10 => 4,
            CodeSource::A2B10G10R10 => 4,
            CodeSource::G16R16 => 4,
            CodeSource::L16 => 2,
            CodeSource::V8U8 => 2,
            CodeSource::Q8W8V8U8 => 4,
        }
    }
}

/// A format whose texels are words with lanes.
#[derive(Clone, Copy, PartialEq, Eq)]
pub enum LaneSource {
    /// An RGB format.
    Rgb(RgbFormat),
    /// A format that converts into A8R8G8B8 alone, of whole numbers.
    Codes(CodeSource),
    /// A32B32G32R32F.
    Floats,
}

impl LaneSource {
    /// The format that has this code, if there is one.
    #[tactic(auto, using(crate::proofs::Classified::no_lanes))]
    pub fn from_d3d(d3d_format: u32) -> Option<LaneSource>
        ensures { Found lane_source_code is_lane_source d3d_format result }
    {
        if let Some(format) = RgbFormat::from_d3d(d3d_format) {
            return Some(LaneSource::Rgb(format));
        }
        if let Some(format) = CodeSource::from_d3d(d3d_format) {
            return Some(LaneSource::Codes(format));
        }
        (d3d_format == D3DFMT_A32B32G32R32F).then_some(LaneSource::Floats)
    }

    /// The bytes of a texel.
    #[tactic(auto, unfolding(crate::specs::Table::bytes_of, crate::specs::Table::parts_of))]
    pub fn bytes_per_texel(self) -> usize
        ensures { result ≡ bytes_of (lane_source_code self) }
    {
        match self {
            LaneSource::Rgb(format) => format.bytes_per_texel(),
            LaneSource::Codes(format) => format.bytes_per_texel(),
            LaneSource::Floats => 16,
        }
    }
}

/// A packed 4:2:2 YUV format: a macropixel of four bytes has two texels.
#[derive(Clone, Copy)]
pub enum PackedYuv {
    /// Y U Y V in a macropixel.
    YUY2,
    /// U Y V Y in a macropixel.
    UYVY,
}

/// A planar 4:2:0 YUV format: four texels share their chroma.
#[derive(Clone, Copy)]
pub enum PlanarYuv {
    /// Three planes: luma, V and U.
    YV12,
    /// Two planes: luma, and U and V in pairs.
    NV12,
}

/// A YUV format.
#[derive(Clone, Copy)]
pub enum YuvFormat {
    /// Two texels to a macropixel.
    Packed(PackedYuv),
    /// Planes of luma and chroma.
    Planar(PlanarYuv),
}

impl PackedYuv {
    /// The format that has this code, if there is one.
    #[tactic(auto, unfolding(crate::specs::Classes::is_packed_yuv))]
    pub fn from_d3d(d3d_format: u32) -> Option<PackedYuv>
        ensures { Found packed_yuv_code is_packed_yuv d3d_format result }
    {
        match d3d_format {
            D3DFMT_YUY2 => Some(PackedYuv::YUY2),
            D3DFMT_UYVY => Some(PackedYuv::UYVY),
            _ => None,
        }
    }
}

impl PlanarYuv {
    /// The format that has this code, if there is one.
    #[tactic(auto, unfolding(crate::specs::Classes::is_planar_yuv))]
    pub fn from_d3d(d3d_format: u32) -> Option<PlanarYuv>
        ensures { Found planar_yuv_code is_planar_yuv d3d_format result }
    {
        match d3d_format {
            D3DFMT_YV12 => Some(PlanarYuv::YV12),
            D3DFMT_NV12 => Some(PlanarYuv::NV12),
            _ => None,
        }
    }
}

impl YuvFormat {
    /// Whether the format is planar.
    #[tactic(auto, using(crate::proofs::FormatsLaws::packed_yuv_not_planar, crate::proofs::FormatsLaws::planar_yuv_is))]
    pub fn is_planar(self) -> bool
        ensures { result ≡ is_planar_yuv (yuv_code self) }
    {
        matches!(self, YuvFormat::Planar(_))
    }

    /// The format that has this code, if there is one.
    pub fn from_d3d(d3d_format: u32) -> Option<YuvFormat>
        ensures { Found yuv_code is_yuv d3d_format result }
    {
        if let Some(format) = PackedYuv::from_d3d(d3d_format) {
            return Some(YuvFormat::Packed(format));
        }
        PlanarYuv::from_d3d(d3d_format).map(|format| YuvFormat::Planar(format))
    }
}

/// A format that a conversion takes as its source.
#[derive(Clone, Copy)]
pub enum SourceFormat {
    /// Texels are words with lanes.
    Lanes(LaneSource),
    /// Texels are luma, U and V.
    Yuv(YuvFormat),
}

impl From<RgbFormat> for SourceFormat {
    ghost from_gives = { λ format source. source ≡ Lanes (Rgb format) };

    fn from(format: RgbFormat) -> SourceFormat {
        SourceFormat::Lanes(LaneSource::Rgb(format))
    }
}

impl SourceFormat {
    /// The format that has this code, if there is one.
    pub fn from_d3d(d3d_format: u32) -> Option<SourceFormat>
        ensures { Found source_code is_source d3d_format result }
    {
        if let Some(format) = LaneSource::from_d3d(d3d_format) {
            return Some(SourceFormat::Lanes(format));
        }
        YuvFormat::from_d3d(d3d_format).map(|format| SourceFormat::Yuv(format))
    }

    /// Whether the format is planar YUV.
    #[tactic(auto, using(crate::proofs::Classified::lanes_no_planar))]
    pub fn is_planar(self) -> bool
        ensures { result ≡ is_planar_yuv (source_code self) }
    {
        match self {
            SourceFormat::Lanes(_) => false,
            SourceFormat::Yuv(yuv) => yuv.is_planar(),
        }
    }
}
