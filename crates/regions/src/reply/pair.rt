//! A pair of formats that is known to convert.
ghost use Rattle.std.specs.Prelude.{◌≡◌, true};
ghost use Rattle.formats.specs.Formats.{rgb_code, source_code};
ghost use Rattle.regions.specs.Replies.{can_convert};

use formats::{RgbFormat, SourceFormat};

/// The formats of a pair that converts.
#[derive(Clone, Copy)]
pub struct Pair {
    /// The format that is read.
    pub source: SourceFormat,
    /// The format that is written.
    pub target: RgbFormat,
    ghost converts: { can_convert (source_code source) (rgb_code target) ≡ true },
}
