//! The place of a texel, or of a macropixel, in a picture.

ghost use Rattle.std.specs.Prelude.{◌≤◌};

/// The place of a texel, or of a macropixel among those of its row, counted from the picture's
/// first. Row and column are numbers of 32 bits.
#[derive(Clone, Copy)]
pub struct Spot {
    /// Slice.
    pub z: usize,
    /// Row.
    pub y: usize,
    /// Column.
    pub x: usize,
    ghost row: { y ≤ 4294967295 },
    ghost column: { x ≤ 4294967295 },
}
