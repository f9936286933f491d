//! The byte layout of the planar 4:2:0 YUV formats YV12 and NV12. A frame is one allocation: luma
//! rows of pitch bytes, then the chroma at half the resolution both ways. YV12 has a plane of V and
//! then one of U, in rows of half the pitch; NV12 has one plane of U and V in pairs. Refused (14)
//! is any other format, a pitch or luma rows outside 1 to 16384, an odd pitch, odd luma rows of
//! YV12, and more than 16384 rows in all.
//! Ported from planar_yuv.rs of athei/mtld3d (an altered version, see NOTICE).
#![tactic(auto)]

ghost use Rattle.std.specs.Prelude.{◌≡◌, ◌+◌};
ghost use Rattle.formats.specs.Codes.{NV12};
ghost use Rattle.formats.specs.Formats.{planar_yuv_code};
ghost use Rattle.planar_yuv.specs.Offsets.{contains};
ghost use Rattle.planar_yuv.specs.Answers.{reply_of, from_pitch, from_width, Legal, PlanesOf, RowsHold};

use formats::{MAX_TEXTURE_DIM, PlanarYuv};

mod texel;

pub use texel::PlanarTexel;

/// Where the planes of a frame stand; all zeros where there is no layout.
#[derive(Clone, Copy)]
#[repr(C)]
pub struct PlanarYuvLayout {
    /// Bytes from a luma row to the next.
    pub pitch: usize,
    /// Rows of luma.
    pub luma_rows: usize,
    /// Rows of chroma.
    pub chroma_rows: usize,
    /// Bytes of the frame.
    pub total_bytes: usize,
}

/// There is no planar layout: refusal 14.
#[derive(Clone, Copy, Debug, PartialEq, Eq)]
pub struct NoPlanarLayout;

impl From<NoPlanarLayout> for u32 {
    ghost from_gives = { λ _ n. n ≡ 14 };

    fn from(_refusal: NoPlanarLayout) -> u32 {
        14
    }
}

impl PlanarYuvLayout {
    /// Rows of pitch bytes in all: the luma rows, then the chroma rows.
    pub fn storage_rows(self) -> usize
        requires { Legal self }
        ensures { result ≡ self.luma_rows + self.chroma_rows }
    {
        self.luma_rows + self.chroma_rows
    }

    /// Whether (x, y) is a texel of the luma plane, whose rows count up to the pitch, padding
    /// included.
    pub fn contains(self, x: usize, y: usize) -> bool
        ensures { result ≡ contains self.pitch self.luma_rows x y }
    {
        x < self.pitch && y < self.luma_rows
    }
}

// ---- formats are codes in these two, and any number has its answer

/// The layout of a frame of `width` x `height` texels; its pitch is the width raised to a multiple
/// of 4. Refused (14) where there is none.
#[tactic(auto, using(crate::proofs::AnswersLaws::width_none, crate::proofs::AnswersLaws::width_large, crate::proofs::AnswersLaws::of_width, crate::proofs::AnswersLaws::rows_hold))]
pub fn planar_yuv_layout(
    d3d_format: u32,
    width: u32,
    height: u32,
) -> Result<PlanarYuvLayout, NoPlanarLayout>
    ensures reply { reply_of result ≡ from_width d3d_format width height }
    ensures planes { PlanesOf d3d_format result }
    ensures rows { RowsHold width result }
{
    if width == 0 || width > MAX_TEXTURE_DIM {
        return Err(NoPlanarLayout);
    }
    let pitch = formats::linear_row_pitch(width);
    planar_yuv_layout_from_pitch(d3d_format, pitch as usize, height as usize)
}

/// The layout of a frame that is known by its pitch in bytes and its luma rows, which may be any
/// numbers. Refused (14) where there is none.
#[tactic(auto, using(crate::proofs::Refused::no_planar))]
pub fn planar_yuv_layout_from_pitch(
    d3d_format: u32,
    pitch: usize,
    luma_rows: usize,
) -> Result<PlanarYuvLayout, NoPlanarLayout>
    ensures reply { reply_of result ≡ from_pitch d3d_format pitch luma_rows }
    ensures planes { PlanesOf d3d_format result }
{
    let Some(format) = PlanarYuv::from_d3d(d3d_format) else {
        return Err(NoPlanarLayout);
    };
    layout_from_pitch(format, pitch, luma_rows)
}

/// The layout of a frame of a planar format, by its pitch in bytes and its luma rows. Refused (14)
/// where there is none.
#[tactic(auto, using(crate::proofs::Refused::too_wide, crate::proofs::Refused::too_tall, crate::proofs::Refused::odd_yv12, crate::proofs::AnswersLaws::yv12_even, crate::proofs::AnswersLaws::planes_of))]
pub fn layout_from_pitch(
    format: PlanarYuv,
    pitch: usize,
    luma_rows: usize,
) -> Result<PlanarYuvLayout, NoPlanarLayout>
    ensures reply { reply_of result ≡ from_pitch (planar_yuv_code format) pitch luma_rows }
    ensures planes { PlanesOf (planar_yuv_code format) result }
{
    match format {
        PlanarYuv::YV12 => {
            // The U plane of an odd height has no agreed origin.
            if luma_rows % 2 != 0 {
                return Err(NoPlanarLayout);
            }
            nv12_layout(pitch, luma_rows)
        }
        PlanarYuv::NV12 => nv12_layout(pitch, luma_rows),
    }
}

// The largest pitch, and the most rows in all.
const LARGEST: usize = MAX_TEXTURE_DIM as usize;

// The rules that both formats share, which are all of NV12's.
#[tactic(auto, using(crate::proofs::Refused::no_pitch, crate::proofs::Refused::too_wide, crate::proofs::Refused::odd_pitch, crate::proofs::Refused::no_rows, crate::proofs::Refused::too_tall, crate::proofs::Refused::too_many, crate::proofs::Refused::laid))]
fn nv12_layout(pitch: usize, luma_rows: usize) -> Result<PlanarYuvLayout, NoPlanarLayout>
    ensures { reply_of result ≡ from_pitch NV12 pitch luma_rows }
{
    // An even pitch keeps a pair of chroma bytes, and half a pitch, in its own row.
    if pitch == 0 || pitch > LARGEST || pitch % 2 != 0 {
        return Err(NoPlanarLayout);
    }
    if luma_rows == 0 || luma_rows > LARGEST {
        return Err(NoPlanarLayout);
    }
    let chroma_rows = luma_rows.div_ceil(2);
    let storage_rows = luma_rows + chroma_rows;
    if storage_rows > LARGEST {
        return Err(NoPlanarLayout);
    }
    Ok(PlanarYuvLayout {
        pitch,
        luma_rows,
        chroma_rows,
        total_bytes: pitch * storage_rows,
    })
}
