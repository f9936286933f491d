//! A texel of a planar frame, and where its samples stand: the four texels of a 2 x 2 block share
//! their chroma.
//! Ported from planar_yuv.rs of athei/mtld3d (an altered version, see NOTICE).
ghost use Rattle.std.specs.Prelude.{◌≡◌};
ghost use Rattle.formats.specs.Formats.{planar_yuv_code};
ghost use Rattle.planar_yuv.specs.Offsets.{luma_offset_at, u_offset_at, v_offset_at, nv12_u, yv12_u, yv12_v};
ghost use Rattle.planar_yuv.specs.Answers.{TexelOf};

use crate::PlanarYuvLayout;
use formats::PlanarYuv;

/// Texel (x, y) of a frame that has it.
#[derive(Clone, Copy)]
pub struct PlanarTexel {
    /// The frame's format.
    pub format: PlanarYuv,
    /// The frame's layout.
    pub layout: PlanarYuvLayout,
    /// Column.
    pub x: usize,
    /// Row.
    pub y: usize,
    ghost of: { TexelOf layout x y },
}

impl PlanarTexel {
    /// The byte of its luma.
    #[tactic(auto, using(crate::proofs::Bounds::luma_row), unfolding(crate::specs::Offsets::luma_offset_at))]
    pub fn luma_offset(self) -> usize
        ensures { result ≡ luma_offset_at self.layout.pitch self.x self.y }
    {
        self.y * self.layout.pitch + self.x
    }

    /// The byte of its U.
    #[tactic(auto, using(crate::proofs::ByFormat::u_yv12, crate::proofs::ByFormat::u_nv12))]
    pub fn u_offset(self) -> usize
        ensures { result
            ≡ u_offset_at (planar_yuv_code self.format) self.layout.pitch self.layout.luma_rows
            self.x self.y }
    {
        match self.format {
            PlanarYuv::YV12 => self.yv12_u_offset(),
            PlanarYuv::NV12 => self.nv12_u_offset(),
        }
    }

    /// The byte of its V.
    #[tactic(auto, using(crate::proofs::ByFormat::v_yv12, crate::proofs::ByFormat::v_nv12, crate::proofs::Bounds::nv12_small))]
    pub fn v_offset(self) -> usize
        ensures { result
            ≡ v_offset_at (planar_yuv_code self.format) self.layout.pitch self.layout.luma_rows
            self.x self.y }
    {
        match self.format {
            PlanarYuv::YV12 => self.yv12_v_offset(),
            PlanarYuv::NV12 => self.nv12_u_offset() + 1,
        }
    }

    // The U byte in NV12; the V byte is the next one.
    #[tactic(auto, using(crate::proofs::Bounds::base, crate::proofs::Bounds::pair_row), unfolding(crate::specs::Offsets::nv12_u))]
    fn nv12_u_offset(self) -> usize
        ensures { result ≡ nv12_u self.layout.pitch self.layout.luma_rows self.x self.y }
    {
        let pitch = self.layout.pitch;
        pitch * self.layout.luma_rows + self.y / 2 * pitch + 2 * (self.x / 2)
    }

    // The V byte in YV12.
    #[tactic(auto, using(crate::proofs::Bounds::base, crate::proofs::Bounds::half_row), unfolding(crate::specs::Offsets::yv12_v))]
    fn yv12_v_offset(self) -> usize
        ensures { result ≡ yv12_v self.layout.pitch self.layout.luma_rows self.x self.y }
    {
        let pitch = self.layout.pitch;
        pitch * self.layout.luma_rows + self.y / 2 * (pitch / 2) + self.x / 2
    }

    // The U byte in YV12: the U plane starts where the chroma rows of the V plane end.
    #[tactic(auto, using(crate::proofs::Bounds::base, crate::proofs::Bounds::half_row, crate::proofs::Bounds::plane), unfolding(crate::specs::Offsets::yv12_u, crate::specs::Offsets::yv12_v))]
    fn yv12_u_offset(self) -> usize
        ensures { result ≡ yv12_u self.layout.pitch self.layout.luma_rows self.x self.y }
    {
        let half_pitch = self.layout.pitch / 2;
        self.yv12_v_offset() + self.layout.chroma_rows * half_pitch
    }
}
