//! Formats with the bytes of their texels, which go together from the check of a conversion to its
//! rows.

ghost use Rattle.std.specs.Prelude.{◌≡◌};
ghost use Rattle.formats.specs.Table.{bytes_of};
ghost use Rattle.formats.specs.Formats.{rgb_code, lane_source_code};

use formats::{LaneSource, RgbFormat};

/// A source format with lanes, and the bytes of its texels.
#[derive(Clone, Copy)]
pub struct LaneTexels {
    /// The format.
    pub format: LaneSource,
    /// Bytes of a texel.
    pub size: usize,
    ghost sized: { size ≡ bytes_of (lane_source_code format) },
}

/// A destination format, and the bytes of its texels.
#[derive(Clone, Copy)]
pub struct RgbTexels {
    /// The format.
    pub format: RgbFormat,
    /// Bytes of a texel.
    pub size: usize,
    ghost sized: { size ≡ bytes_of (rgb_code format) },
}
