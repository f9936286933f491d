//! A conversion that has passed the checks of its formats and its set.
ghost use Rattle.std.specs.Prelude.{◌≡◌, true};
ghost use Rattle.formats.specs.Formats.{rgb_code};
ghost use Rattle.regions.specs.Replies.{can_convert};
ghost use Rattle.regions.specs.Sources.{code_of};

use crate::reply::{RgbTexels, Source};

/// A conversion that is not refused for its formats or its set.
#[derive(Clone, Copy)]
pub struct Conversion {
    /// What is read.
    pub source: Source,
    /// The format that is written.
    pub target: RgbTexels,
    ghost converts: { can_convert (code_of source) (rgb_code target.format) ≡ true },
}
