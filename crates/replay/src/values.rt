//! Cases of the public calls that take and give numbers only. A record of the files `values` and
//! `wrong_values` has 64 bytes: the call's number and 1 for a refusal (else 0), of 32 bits each;
//! three parameters of 64 bits; 32 bytes of answer, zeros where there is less or a refusal.
ghost use Rattle.std.specs.Prelude.{◌<◌};

use crate::call::Call;
use crate::counts::Outcome;
use crate::record::{Record, Records};
use depth_texture::PlaneLayout;
use planar_yuv::PlanarYuvLayout;
use std::num::f32_to_bits_with_nan;

/// The records of the files `values` and `wrong_values`.
#[derive(Clone, Copy)]
pub(crate) struct Values;

impl Records<64> for Values {
    fn outcome(self, bytes: &[u8; 64]) -> Outcome {
        let record: Record<'_, 64> = Record { bytes };
        record.outcome(|call| agrees(call, record))
    }
}

// Whether the call answers as the record says; it does not if its records are in another file.
fn agrees(call: Call, record: Record<'_, 64>) -> bool {
    match call {
        Call::CanConvert => can_convert(record),
        Call::CanConvertUpdate => can_convert_update(record),
        Call::YuvToRgb8 => yuv_to_rgb8(record),
        Call::PlanarYuvLayout => planar_yuv_layout(record),
        Call::PlanarYuvLayoutFromPitch => planar_yuv_layout_from_pitch(record),
        Call::PlaneLayout => plane_layout(record),
        Call::D3dcolorFillPixelBytes => d3dcolor_fill_pixel_bytes(record),
        Call::F32ToF16Bits => f32_to_f16_bits(record),
        Call::D3dcolorToRgbaF32 => d3dcolor_to_rgba_f32(record),
        Call::YuvToRgb8ByTables => yuv_to_rgb8_by_tables(record),
        _ => false,
    }
}

impl<'a> Record<'a, 64> {
    // A parameter of 8 bits.
    fn byte(self, place: usize) -> u8
        requires { place < 3 }
    {
        self.bytes[8 + 8 * place]
    }

    // The bytes of the answer.
    fn answer(self) -> &'a [u8; 32] {
        let bytes = self.bytes;
        bytes[32..].first_chunk().unwrap()
    }
}

// ---- a case for each call

fn can_convert(record: Record<'_, 64>) -> bool {
    regions::can_convert(record.number(0), record.number(1)) != record.is_refused()
}

fn can_convert_update(record: Record<'_, 64>) -> bool {
    regions::can_convert_update(record.number(0), record.number(1)) != record.is_refused()
}

// The answer is the three bytes.
fn yuv_to_rgb8(record: Record<'_, 64>) -> bool {
    let colour = stretch_rect::yuv_to_rgb8(record.byte(0), record.byte(1), record.byte(2));
    [colour.r, colour.g, colour.b][..] == record.answer()[..3]
}

fn yuv_to_rgb8_by_tables(record: Record<'_, 64>) -> bool {
    let colour = stretch_rect::yuv_to_rgb8_by_tables(
        record.byte(0),
        record.byte(1),
        record.byte(2),
    );
    [colour.r, colour.g, colour.b][..] == record.answer()[..3]
}

// Whether a layout is that of the record: the answer is its four numbers of 64 bits, zeros where
// there is none.
fn same_layout(record: Record<'_, 64>, layout: Option<[u64; 4]>) -> bool {
    let expected = [
        record.long(3),
        record.long(4),
        record.long(5),
        record.long(6),
    ];
    layout.is_none() == record.is_refused() && layout.unwrap_or_default() == expected
}

fn planar_numbers(layout: PlanarYuvLayout) -> [u64; 4] {
    [
        layout.pitch as u64,
        layout.luma_rows as u64,
        layout.chroma_rows as u64,
        layout.total_bytes as u64,
    ]
}

fn planar_yuv_layout(record: Record<'_, 64>) -> bool {
    let layout = planar_yuv::planar_yuv_layout(
        record.number(0),
        record.number(1),
        record.number(2),
    );
    same_layout(record, layout.ok().map(planar_numbers))
}

fn planar_yuv_layout_from_pitch(record: Record<'_, 64>) -> bool {
    let layout = planar_yuv::planar_yuv_layout_from_pitch(
        record.number(0),
        record.size(1),
        record.size(2),
    );
    same_layout(record, layout.ok().map(planar_numbers))
}

fn plane_layout(record: Record<'_, 64>) -> bool {
    let layout = PlaneLayout::new(record.number(0), record.number(1), record.number(2));
    let numbers = layout.ok().map(|planes| [
        planes.width as u64,
        planes.height as u64,
        planes.depth_pitch as u64,
        planes.stencil_pitch as u64,
    ]);
    same_layout(record, numbers)
}

// The answer is the pixel's bytes, zeros up to 16, and their number in 32 bits; all zeros where
// there is no fill.
fn d3dcolor_fill_pixel_bytes(record: Record<'_, 64>) -> bool {
    let answer = record.answer();
    let length = record.number(5);
    match convert::d3dcolor_fill_pixel_bytes(record.number(0), record.number(1)) {
        Ok(pixel) => {
            let bytes = pixel.bytes;
            !record.is_refused() && bytes[..] == answer[..16] && pixel.length == length
        }
        Err(_) => record.is_refused() && answer[..16] == [0; 16] && length == 0,
    }
}

fn f32_to_f16_bits(record: Record<'_, 64>) -> bool {
    convert::f32_to_f16_bits(record.number(0)) == words::le16(record.answer())
}

// The answer is the bits of the four numbers.
fn d3dcolor_to_rgba_f32(record: Record<'_, 64>) -> bool {
    let answer = record.answer();
    let expected = [
        words::le32(answer),
        words::le32(&answer[4..]),
        words::le32(&answer[8..]),
        words::le32(&answer[12..]),
    ];
    let rgba = convert::d3dcolor_to_rgba_f32(record.number(0));
    rgba.map(|channel| f32_to_bits_with_nan(channel)) == expected
}
