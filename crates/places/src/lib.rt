//! Where the bytes of a texel lie, and whether every texel of a region lies inside a buffer:
//! formats whose texels are words, packed YUV and planar YUV. specs/Places has the offsets that a
//! texel needs and what inside means.
//! Ported from pixel_convert.rs of athei/mtld3d (an altered version, see NOTICE).
#![tactic(auto)]

ghost use Rattle.std.specs.Prelude.{◌≡◌, ◌+◌, ◌*◌, ◌^◌, ◌<◌, ◌≤◌, ◌/◌, SomeIff, pos, ◌*ℤ◌, unsigned_abs};
ghost use Rattle.std.specs.Int.{w64, FitsUnsigned};
ghost use Rattle.words.specs.Integers.{up};
ghost use Rattle.formats.specs.Formats.{lane_source_code, packed_yuv_code, planar_yuv_code, yuv_code, source_code};
ghost use Rattle.planar_yuv.specs.Answers.{reply_of, from_pitch, Legal};
ghost use Rattle.places.specs.Places.{place_of, layout_places, planar_places, places_in, inside_all};
ghost use Rattle.places.specs.Inside.{units_in};

use formats::{LaneSource, PackedYuv, PlanarYuv, SourceFormat, YuvFormat};
use planar_yuv::{NoPlanarLayout, PlanarTexel, PlanarYuvLayout};

mod part;
mod spot;

use part::Part;
pub use spot::Spot;

/// One side of a conversion: where its picture starts, how its rows and slices lie, in bytes, and
/// its first texel.
#[derive(Clone, Copy)]
#[repr(C)]
pub struct Side {
    /// Byte of the picture's first texel.
    pub start: u64,
    /// Bytes from a row to the next: below 0 where rows go back.
    pub pitch: i64,
    /// Bytes from a slice to the next.
    pub slice_pitch: usize,
    /// First column, in texels.
    pub x: u32,
    /// First row.
    pub y: u32,
}

/// How many columns, rows and slices of texels.
#[derive(Clone, Copy)]
pub struct Extent {
    /// Columns.
    pub width: u32,
    /// Rows.
    pub height: u32,
    /// Slices.
    pub depth: usize,
}

impl Side {
    /// The place of a texel whose row and column are counted from the side's first texel.
    pub fn spot(&self, z: usize, row: usize, column: usize) -> Spot
        requires { (self.now.y + row ≤ 4294967295) × (self.now.x + column ≤ 4294967295) }
        ensures z { result.z ≡ z }
        ensures y { result.y ≡ self.now.y + row }
        ensures x { result.x ≡ self.now.x + column }
    {
        Spot {
            z,
            y: self.y as usize + row,
            x: self.x as usize + column,
        }
    }

    // How far row `y` lies from the first.
    #[tactic(auto, using(std::proofs::lemmas::Int::ints, crate::proofs::Rows::rows_small))]
    fn rows(&self, y: usize) -> i128
        requires { y ≤ 4294967295 }
        ensures is { result ≡ self.now.pitch *ℤ pos y }
        ensures small { unsigned_abs result ≤ 2 ^ 95 }
    {
        self.pitch as i128 * y as i128
    }

    // Where a unit of `size` bytes starts. In 128 bits nothing wraps: a start and rows far back
    // may cancel.
    #[tactic(auto, using(std::proofs::lemmas::Int::ints, crate::proofs::Rows::columns_small), unfolding(crate::specs::Places::place_of))]
    fn place(&self, size: usize, at: Spot) -> i128
        requires { at.z * self.now.slice_pitch < 2 ^ 64 }
        ensures { result ≡ place_of self.now size at.z at.y at.x }
    {
        let slice = at.z * self.slice_pitch;
        let column = at.x as u128 * size as u128;
        let on = (self.start as u128 + slice as u128 + column) as i128;
        on + self.rows(at.y)
    }

    // Where a unit of the first slice starts, if that is a number of 64 bits.
    fn first(&self, size: usize, y: u32, x: u32) -> Option<usize>
        ensures { SomeIff result (FitsUnsigned w64 (place_of self.now size 0 y x))
            (unsigned_abs (place_of self.now size 0 y x)) }
    {
        let at = Spot {
            z: 0,
            y: y as usize,
            x: x as usize,
        };
        usize::try_from(self.place(size, at)).ok()
    }

    /// The byte at which a texel, or a macropixel, of `size` bytes starts.
    pub fn start_of(&self, size: usize, at: Spot) -> usize
        requires { FitsUnsigned w64 (place_of self.now size at.z at.y at.x)
            × (at.z * self.now.slice_pitch < 2 ^ 64) }
        ensures { pos result ≡ place_of self.now size at.z at.y at.x }
    {
        self.place(size, at) as usize
    }

    /// The pitch of rows that go on, and 0 of rows that do not.
    #[tactic(auto, unfolding(words::specs::Integers::up))]
    pub fn pitch_on(&self) -> usize
        ensures { result ≡ up self.now.pitch }
    {
        usize::try_from(self.pitch).unwrap_or(0)
    }

    // Where the last unit of a row ends that starts at byte `start` in the first slice, so many
    // slices on; `None` past 64 bits, which is past every buffer.
    fn end_of(&self, size: usize, start: usize, units: u32, slices: usize) -> Option<usize>
        ensures { SomeIff result
            (start + slices * self.now.slice_pitch + units * size + size < 2 ^ 64)
            (start + slices * self.now.slice_pitch + units * size + size) }
    {
        let slice = slices.checked_mul(self.slice_pitch)?;
        let column = (units as usize).checked_mul(size)?;
        start
            .checked_add(slice)?
            .checked_add(column)?
            .checked_add(size)
    }
}

impl Part {
    // Whether the units that the part has from column `x` on lie within `len` bytes: `further`
    // units behind the first of each row. The first and the last row decide.
    #[tactic(auto, using(crate::proofs::Rows::row_out, crate::proofs::Rows::end_out, crate::proofs::Rows::end_decides))]
    fn units_in(&self, len: usize, size: usize, x: u32, further: u32) -> bool
        requires { 0 < size }
        ensures { result
            ≡ units_in len size self.now.side x (further + 1) self.now.extent.height
            self.now.extent.depth }
    {
        let side = &self.side;
        let (Some(first), Some(last)) = (
            side.first(size, side.y, x),
            side.first(size, self.last_y, x),
        ) else {
            return false;
        };
        let slices = self.extent.depth - 1;
        let Some(end) = side.end_of(size, first.max(last), further, slices) else {
            return false;
        };
        end <= len
    }
}

// ---- planar pictures: one slice, so that row and column are enough

// Whether a layout has texel (x, y), and its three samples lie within `len` bytes.
#[tactic(auto, using(crate::proofs::Texel::texel_of, crate::proofs::Planar::has_not, crate::proofs::Planar::has_no_luma, crate::proofs::Planar::has_no_u, crate::proofs::Planar::has_v))]
fn layout_has(len: usize, format: PlanarYuv, layout: PlanarYuvLayout, y: usize, x: usize) -> bool
    requires { Legal layout }
    ensures { result
        ≡ places_in len (layout_places (planar_yuv_code format) layout.pitch layout.luma_rows y x) }
{
    if !layout.contains(x, y) {
        return false;
    }
    let texel = PlanarTexel {
        format,
        layout,
        x,
        y,
    };
    texel.luma_offset() < len && texel.u_offset() < len && texel.v_offset() < len
}

/// The layout of a planar picture whose luma rows are the rows of its slice. Refused where there is
/// no such layout, as where rows do not go on.
#[tactic(auto, using(planar_yuv::proofs::Refused::no_pitch))]
pub fn layout_in_slice(format: PlanarYuv, side: &Side) -> Result<PlanarYuvLayout, NoPlanarLayout>
    ensures { reply_of result
        ≡ from_pitch (planar_yuv_code format) (up side.now.pitch)
        (side.now.slice_pitch / up side.now.pitch) }
{
    let pitch = side.pitch_on();
    let Some(luma_rows) = side.slice_pitch.checked_div(pitch) else {
        return Err(NoPlanarLayout);
    };
    planar_yuv::layout_from_pitch(format, pitch, luma_rows)
}

// Whether the samples of texel (x, y) of a planar picture lie within `len` bytes from its start
// on.
#[tactic(auto, using(crate::proofs::Laid::laid_in))]
fn planar_has(len: usize, format: PlanarYuv, side: &Side, y: usize, x: usize) -> bool
    ensures { result
        ≡ places_in len (planar_places (planar_yuv_code format) (up side.now.pitch)
        (side.now.slice_pitch / up side.now.pitch) y x) }
{
    match layout_in_slice(format, side) {
        Ok(layout) => layout_has(len, format, layout, y, x),
        Err(NoPlanarLayout) => false,
    }
}

// ---- parts of pictures of each kind

// Texels that are words: a unit is a texel.
#[tactic(auto, using(crate::proofs::ByKind::lane_byte, crate::proofs::ByKind::lanes_inside))]
fn lanes_inside(len: usize, format: LaneSource, part: &Part) -> bool
    ensures { result
        ≡ inside_all len (lane_source_code format) part.now.side part.now.extent.width
        part.now.extent.height part.now.extent.depth }
{
    let further = part.extent.width - 1;
    part.units_in(len, format.bytes_per_texel(), part.side.x, further)
}

// Packed YUV: a unit is a macropixel of four bytes.
#[tactic(auto, using(crate::proofs::ByKind::packed_inside))]
fn packed_inside(len: usize, format: PackedYuv, part: &Part) -> bool
    ensures { result
        ≡ inside_all len (packed_yuv_code format) part.now.side part.now.extent.width
        part.now.extent.height part.now.extent.depth }
{
    let first = part.side.x / 2;
    part.units_in(len, 4, first, part.last_x / 2 - first)
}

// Planar YUV: what lies behind the start holds the last texel.
#[tactic(auto, using(crate::proofs::ByKind::planar_inside))]
fn planar_inside(len: usize, format: PlanarYuv, part: &Part) -> bool
    ensures { result
        ≡ inside_all len (planar_yuv_code format) part.now.side part.now.extent.width
        part.now.extent.height part.now.extent.depth }
{
    let side = &part.side;
    let behind = len.saturating_sub(side.start as usize);
    planar_has(
        behind,
        format,
        side,
        part.last_y as usize,
        part.last_x as usize,
    )
}

// A part of a picture of any kind.
fn part_inside(len: usize, format: SourceFormat, part: &Part) -> bool
    ensures { result
        ≡ inside_all len (source_code format) part.now.side part.now.extent.width
        part.now.extent.height part.now.extent.depth }
{
    match format {
        SourceFormat::Lanes(lanes) => lanes_inside(len, lanes, part),
        SourceFormat::Yuv(YuvFormat::Packed(packed)) => packed_inside(len, packed, part),
        SourceFormat::Yuv(YuvFormat::Planar(planar)) => planar_inside(len, planar, part),
    }
}

/// Whether every texel of an extent that is not empty lies within `len` bytes, at columns and rows
/// below 2^32.
#[tactic(auto, using(crate::proofs::InsideLaws::outside_x, crate::proofs::InsideLaws::outside_y))]
pub fn inside(len: usize, format: SourceFormat, side: &Side, extent: Extent) -> bool
    requires { (0 < extent.width) × (0 < extent.height) × (0 < extent.depth) }
    ensures { result
        ≡ inside_all len (source_code format) side.now extent.width extent.height extent.depth }
{
    let (Some(last_x), Some(last_y)) = (
        side.x.checked_add(extent.width - 1),
        side.y.checked_add(extent.height - 1),
    ) else {
        return false;
    };
    let part = Part {
        side: *side,
        extent,
        last_x,
        last_y,
    };
    part_inside(len, format, &part)
}
