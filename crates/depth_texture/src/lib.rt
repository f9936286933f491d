//! The planes of binary32 depths and of stencil bytes that pictures of packed depth pixels are
//! unpacked into and packed from: their layouts, and the reply to unpacking and packing, which is
//! decided before any byte is written. The calls are in `pictures`, the pixels in `pixels`. specs/
//! has the layouts (Layouts), the refusals (Replies), what the two calls write (Planes) and what
//! they promise (Promises).
//! Ported from depth_texture.rs of athei/mtld3d (an altered version, see NOTICE).
#![tactic(auto)]

ghost use Rattle.std.specs.Prelude.{◌≡◌, ◌*◌, ◌≤◌, ◌↔◌, IsTrue};
ghost use Rattle.depth_texture.specs.Pixels.{format_code};
ghost use Rattle.depth_texture.specs.Layouts.{planes_fit, layout_refusal_number, answer_number, answer_layout, layout_refusal, layout_for, Stands, stands, Pitches};
ghost use Rattle.depth_texture.specs.Replies.{refusal_number, refusal_of, Checked, packed_holds, stencil_holds};

mod pictures;
mod pixels;
mod rows;

pub use pictures::{pack, unpack};
pub use pixels::{DepthStencil, PackedDepth};

/// Aligned rows of a depth plane and a stencil plane.
#[derive(Clone, Copy)]
#[repr(C)]
pub struct PlaneLayout {
    /// Pixels of a row.
    pub width: usize,
    /// Rows.
    pub height: usize,
    /// Bytes from a row of the depth plane to the next.
    pub depth_pitch: usize,
    /// Bytes from a row of the stencil plane to the next.
    pub stencil_pitch: usize,
}

/// Why there is no layout: refusals 6, 7 and 8.
#[derive(Clone, Copy, Debug, PartialEq, Eq)]
pub enum PlaneLayoutRefusal {
    /// Width or height is 0: 6.
    ZeroSize,
    /// The alignment, raised to at least 4, is no power of two: 7.
    NoPowerOfTwo,
    /// The pitch of a plane times the height is 2^64 or more: 8.
    Over64Bits,
}

impl From<PlaneLayoutRefusal> for u32 {
    // The number of the refusal.
    ghost from_gives = { λ refusal n. n ≡ layout_refusal_number refusal };

    fn from(refusal: PlaneLayoutRefusal) -> u32 {
        match refusal {
            PlaneLayoutRefusal::ZeroSize => 6,
            PlaneLayoutRefusal::NoPowerOfTwo => 7,
            PlaneLayoutRefusal::Over64Bits => 8,
        }
    }
}

/// Why unpacking and packing are refused: refusals 9 to 13.
#[derive(Clone, Copy, Debug, PartialEq, Eq)]
pub enum DepthRefusal {
    /// The format is no packed depth format: 9.
    NotPackedDepth,
    /// The layout has no pixel, a pitch below a row, or a plane over 64 bits: 10.
    BadLayout,
    /// The packed pitch is below a row, or the packed buffer is too short: 11.
    ShortPacked,
    /// The depth plane is too short: 12.
    ShortDepth,
    /// The format has a stencil, and the stencil plane is too short: 13.
    ShortStencil,
}

impl From<DepthRefusal> for u32 {
    // The number of the refusal.
    ghost from_gives = { λ refusal n. n ≡ refusal_number refusal };

    fn from(refusal: DepthRefusal) -> u32 {
        match refusal {
            DepthRefusal::NotPackedDepth => 9,
            DepthRefusal::BadLayout => 10,
            DepthRefusal::ShortPacked => 11,
            DepthRefusal::ShortDepth => 12,
            DepthRefusal::ShortStencil => 13,
        }
    }
}

// Whether a * b is at most `room`, where a * b may have more than 64 bits.
fn fits(a: usize, b: usize, room: usize) -> bool
    ensures { IsTrue result ↔ (a * b ≤ room) }
{
    a.checked_mul(b).is_some_and(|n| n <= room)
}

impl PlaneLayout {
    /// The layout for a size in pixels and an alignment of the pitches in bytes, which is raised to
    /// at least 4. Refused are a size of 0, an alignment that is no power of two, and planes over
    /// 64 bits.
    pub fn new(width: u32, height: u32, alignment: u32) -> Result<PlaneLayout, PlaneLayoutRefusal>
        ensures reply { answer_number result ≡ layout_refusal width height alignment }
        ensures layout { answer_layout result ≡ layout_for width height alignment }
        ensures stands { answer_number result ≡ 0 → Stands (answer_layout result) }
        ensures pitches { answer_number result ≡ 0
            → Pitches width alignment (answer_layout result) }
    {
        if width == 0 || height == 0 {
            return Err(PlaneLayoutRefusal::ZeroSize);
        }
        let unit = alignment.max(4);
        if !unit.is_power_of_two() {
            return Err(PlaneLayoutRefusal::NoPowerOfTwo);
        }
        let depth_pitch = ((width as usize) * 4).next_multiple_of(unit as usize);
        let stencil_pitch = (width as usize).next_multiple_of(unit as usize);
        let layout = PlaneLayout {
            width: width as usize,
            height: height as usize,
            depth_pitch,
            stencil_pitch,
        };
        if !layout.planes_fit() {
            return Err(PlaneLayoutRefusal::Over64Bits);
        }
        Ok(layout)
    }

    // Whether each plane's pitch times the height is a number of 64 bits.
    fn planes_fit(self) -> bool
        ensures { result ≡ planes_fit self }
    {
        fits(self.depth_pitch, self.height, usize::MAX)
            && fits(self.stencil_pitch, self.height, usize::MAX)
    }

    // Whether the layout has a pixel, its pitches hold their rows, and its planes fit 64 bits.
    #[tactic(auto, using(crate::proofs::Refusals::rows_stand, crate::proofs::Refusals::not_standing))]
    fn is_sound(self) -> bool
        ensures { result ≡ stands self }
    {
        self.width > 0
            && self.height > 0
            && self.width <= self.depth_pitch / 4
            && self.width <= self.stencil_pitch
            && self.planes_fit()
    }

    // Whether the packed pitch holds a row, and `len` bytes every row.
    #[tactic(auto, using(crate::proofs::PackedFormats::sizes, crate::proofs::Library::short_pitch, crate::proofs::Library::short_row))]
    fn packed_holds(self, kind: PackedDepth, len: usize, pitch: usize) -> bool
        requires { Stands self }
        ensures { result ≡ packed_holds (format_code kind) self len pitch }
    {
        let row = self.width * kind.bytes_per_pixel();
        row <= pitch && row <= len && fits(self.height - 1, pitch, len - row)
    }

    // Whether `len` bytes hold the stencil plane, where the format has one.
    #[tactic(auto, unfolding(crate::specs::Replies::stencil_holds))]
    fn stencil_holds(self, kind: PackedDepth, len: usize) -> bool
        ensures { result ≡ stencil_holds (format_code kind) self len }
    {
        !kind.has_stencil() || fits(self.stencil_pitch, self.height, len)
    }

    // The checks of the layout and of the buffers' lengths, in bytes, for a packed depth format.
    #[tactic(auto, using(crate::proofs::PackedFormats::packed_known, crate::proofs::Refusals::refused_10, crate::proofs::Refusals::refused_11, crate::proofs::Refusals::refused_12, crate::proofs::Refusals::refused_13, crate::proofs::Refusals::not_refused))]
    fn check_buffers(
        self,
        kind: PackedDepth,
        packed: usize,
        packed_pitch: usize,
        depth: usize,
        stencil: usize,
    ) -> Result<PackedDepth, DepthRefusal>
        ensures { Checked (format_code kind) (refusal_of (format_code kind) self packed packed_pitch
            depth stencil) result }
    {
        if !self.is_sound() {
            return Err(DepthRefusal::BadLayout);
        }
        if !self.packed_holds(kind, packed, packed_pitch) {
            return Err(DepthRefusal::ShortPacked);
        }
        if !fits(self.depth_pitch, self.height, depth) {
            return Err(DepthRefusal::ShortDepth);
        }
        if !self.stencil_holds(kind, stencil) {
            return Err(DepthRefusal::ShortStencil);
        }
        Ok(kind)
    }

    /// The checks before unpacking and packing, from the lengths of the packed buffer and of the
    /// two planes, in bytes. The format is a code, and any number has its answer.
    #[tactic(auto, using(crate::proofs::Refusals::refused_9))]
    pub fn check(
        self,
        format: u32,
        packed: usize,
        packed_pitch: usize,
        depth: usize,
        stencil: usize,
    ) -> Result<PackedDepth, DepthRefusal>
        ensures { Checked format (refusal_of format self packed packed_pitch depth stencil) result }
    {
        let kind = PackedDepth::from_d3d(format).ok_or(DepthRefusal::NotPackedDepth)?;
        self.check_buffers(kind, packed, packed_pitch, depth, stencil)
    }
}
