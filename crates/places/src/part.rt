//! The part of a picture that a side and an extent have.

ghost use Rattle.std.specs.Prelude.{◌≡◌, ◌+◌, ◌-◌, ◌<◌, ◌≤◌};

use crate::{Extent, Side};

/// A part that is not empty, and whose last column and row are numbers of 32 bits.
#[derive(Clone, Copy)]
pub struct Part {
    /// Where its picture lies, and its first column and row.
    pub side: Side,
    /// Its columns, rows and slices.
    pub extent: Extent,
    /// Its last column.
    pub last_x: u32,
    /// Its last row.
    pub last_y: u32,
    ghost some: { (0 < extent.width) × (0 < extent.height) × (0 < extent.depth) },
    ghost columns: { (last_x ≡ side.x + (extent.width - 1)) × (last_x ≤ 4294967295) },
    ghost rows: { (last_y ≡ side.y + (extent.height - 1)) × (last_y ≤ 4294967295) },
}
