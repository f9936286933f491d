//! The recorded calls. oracle/README.md lists them.
ghost use Rattle.replay.specs.Call.{Decodes};

use std::fmt;

/// A recorded call.
#[derive(Clone, Copy, Debug, PartialEq, Eq)]
pub(crate) enum Call {
    Expand4,
    Expand5,
    Expand6,
    Expand1,
    Truncate4,
    Truncate5,
    Truncate6,
    Truncate1,
    Luminance,
    NearestCode,
    Unorm8ToUnorm16,
    Unorm16ToUnorm8,
    F32ToUnorm8,
    LinearRowPitch,
    BytesPerTexel,
    NearestByte,
    CanConvert,
    CanConvertUpdate,
    YuvToRgb8,
    PlanarYuvLayout,
    PlanarYuvLayoutFromPitch,
    PlaneLayout,
    D3dcolorFillPixelBytes,
    F32ToF16Bits,
    D3dcolorToRgbaF32,
    ConvertRegion,
    Unpack,
    Pack,
    SplatPixelPattern,
    ConvertRegionWithSet,
    YuvToRgb8ByTables,
}

/// A number that no call has.
#[derive(Clone, Copy, Debug, PartialEq, Eq)]
pub(crate) struct UnknownCall(pub u32);

impl Call {
    /// The arithmetic of one channel, in the order in which it is printed.
    pub(crate) const CHANNEL: [Call; 16] = [
        Call::Expand4,
        Call::Expand5,
        Call::Expand6,
        Call::Expand1,
        Call::Truncate4,
        Call::Truncate5,
        Call::Truncate6,
        Call::Truncate1,
        Call::Luminance,
        Call::NearestCode,
        Call::Unorm8ToUnorm16,
        Call::Unorm16ToUnorm8,
        Call::F32ToUnorm8,
        Call::LinearRowPitch,
        Call::BytesPerTexel,
        Call::NearestByte,
    ];

    /// The public calls, in the order in which they are printed.
    pub(crate) const PUBLIC: [Call; 15] = [
        Call::CanConvert,
        Call::CanConvertUpdate,
        Call::YuvToRgb8,
        Call::PlanarYuvLayout,
        Call::PlanarYuvLayoutFromPitch,
        Call::PlaneLayout,
        Call::D3dcolorFillPixelBytes,
        Call::F32ToF16Bits,
        Call::D3dcolorToRgbaF32,
        Call::ConvertRegion,
        Call::Unpack,
        Call::Pack,
        Call::SplatPixelPattern,
        Call::ConvertRegionWithSet,
        Call::YuvToRgb8ByTables,
    ];
}

impl TryFrom<u32> for Call {
    type Error = UnknownCall;

    ghost try_from_gives = { Decodes };

    fn try_from(number: u32) -> Result<Self, UnknownCall> {
        match number {
            1 => Ok(Call::Expand4),
            2 => Ok(Call::Expand5),
            3 => Ok(Call::Expand6),
            4 => Ok(Call::Expand1),
            5 => Ok(Call::Truncate4),
            6 => Ok(Call::Truncate5),
            7 => Ok(Call::Truncate6),
            8 => Ok(Call::Truncate1),
            9 => Ok(Call::Luminance),
            10 => Ok(Call::NearestCode),
            11 => Ok(Call::Unorm8ToUnorm16),
            12 => Ok(Call::Unorm16ToUnorm8),
            13 => Ok(Call::F32ToUnorm8),
            14 => Ok(Call::LinearRowPitch),
            15 => Ok(Call::BytesPerTexel),
            16 => Ok(Call::CanConvert),
            17 => Ok(Call::CanConvertUpdate),
            18 => Ok(Call::YuvToRgb8),
            19 => Ok(Call::PlanarYuvLayout),
            20 => Ok(Call::PlanarYuvLayoutFromPitch),
            21 => Ok(Call::PlaneLayout),
            22 => Ok(Call::D3dcolorFillPixelBytes),
            23 => Ok(Call::F32ToF16Bits),
            24 => Ok(Call::D3dcolorToRgbaF32),
            25 => Ok(Call::ConvertRegion),
            26 => Ok(Call::Unpack),
            27 => Ok(Call::Pack),
            28 => Ok(Call::SplatPixelPattern),
            29 => Ok(Call::NearestByte),
            30 => Ok(Call::ConvertRegionWithSet),
            31 => Ok(Call::YuvToRgb8ByTables),
            _ => Err(UnknownCall(number)),
        }
    }
}

impl fmt::Display for Call {
    fn fmt<W: fmt::Write>(&self, f: &mut fmt::Formatter<W>) -> fmt::Result {
        f.pad(match self {
            Call::Expand4 => "expand4",
            Call::Expand5 => "expand5",
            Call::Expand6 => "expand6",
            Call::Expand1 => "expand1",
            Call::Truncate4 => "truncate4",
            Call::Truncate5 => "truncate5",
            Call::Truncate6 => "truncate6",
            Call::Truncate1 => "truncate1",
            Call::Luminance => "luminance",
            Call::NearestCode => "nearest code",
            Call::Unorm8ToUnorm16 => "unorm8_to_unorm16",
            Call::Unorm16ToUnorm8 => "unorm16_to_unorm8",
            Call::F32ToUnorm8 => "f32_to_unorm8",
            Call::LinearRowPitch => "linear_row_pitch",
            Call::BytesPerTexel => "bytes_per_texel",
            Call::CanConvert => "can_convert",
            Call::CanConvertUpdate => "can_convert_update",
            Call::YuvToRgb8 => "yuv_to_rgb8",
            Call::PlanarYuvLayout => "planar_yuv_layout",
            Call::PlanarYuvLayoutFromPitch => "planar_yuv_layout_from_pitch",
            Call::PlaneLayout => "plane_layout",
            Call::D3dcolorFillPixelBytes => "d3dcolor_fill_pixel_bytes",
            Call::F32ToF16Bits => "f32_to_f16_bits",
            Call::D3dcolorToRgbaF32 => "d3dcolor_to_rgba_f32",
            Call::ConvertRegion => "convert_region",
            Call::Unpack => "unpack",
            Call::Pack => "pack",
            Call::SplatPixelPattern => "splat_pixel_pattern",
            Call::NearestByte => "nearest byte",
            Call::ConvertRegionWithSet => "convert_region_with_set",
            Call::YuvToRgb8ByTables => "yuv_to_rgb8_by_tables",
        })
    }
}
